//! The rules on options and their values: unknown options, missing and repeated values, flavours and
//! credentials. (exports(5))

ghost use Rattle.std.specs.Prelude.{◌≡◌, IsTrue, false};
ghost use Rattle.std.specs.List.{list_any};
ghost use Rattle.desk_tables.specs.CredentialText.{cred_breaks, elements};
ghost use Rattle.desk_tables.specs.declared.credential_text.CredFault.{CredFault};
ghost use Rattle.desk_exports.specs.Flavours.{has_bad_flavour};
ghost use Rattle.desk_exports.specs.Tables.{table_rows};
ghost use Rattle.desk_exports.specs.Options.{has_valued, of_value};
ghost use Rattle.desk_exports.specs.Rules as spec;
ghost use Rattle.desk_exports.specs.declared.options.Keyword.TheVariants as keyword;

use crate::flavours::has_bad_flavour;
use crate::options::{Keyword, Setting, value_of};
use crate::tables::Tables;
use desk_tables::{CredFault, credential, has_fault};

/// Tests whether an option is unknown, or has a value and takes none.
pub(crate) fn has_unknown_option(settings: &[Setting]) -> bool
    ensures { result ≡ list_any spec.is_unknown settings.now }
{
    settings.iter().any(is_unknown)
}

pub(crate) fn is_unknown(setting: &Setting) -> bool
    ensures { result ≡ spec.is_unknown setting.now }
{
    setting.keyword == Keyword::Unknown
        || (setting.keyword.takes_no_value() && setting.value.is_some())
}

/// Tests whether an option takes a value.
pub(crate) fn has_valued_option(settings: &[Setting]) -> bool
    ensures { result ≡ has_valued settings.now }
{
    settings.iter().any(|setting| setting.keyword.takes_value())
}

/// Tests whether an option that takes a value has none, or an empty one.
pub(crate) fn has_option_without_value(settings: &[Setting]) -> bool
    ensures { result ≡ list_any spec.lacks_value settings.now }
{
    settings.iter().any(lacks_value)
}

pub(crate) fn lacks_value(setting: &Setting) -> bool
    ensures { result ≡ spec.lacks_value setting.now }
{
    if !setting.keyword.takes_value() {
        return false;
    }
    match &setting.value {
        Some(text) => text.as_str().is_empty(),
        None => true,
    }
}

/// Tests whether an option that takes a value is given twice.
pub(crate) fn has_repeated_option(settings: &[Setting]) -> bool
    ensures { result ≡ list_any (spec.stands_twice settings.now) spec.options_once }
{
    stands_twice(settings, Keyword::MapRoot)
        || stands_twice(settings, Keyword::MapAll)
        || stands_twice(settings, Keyword::Sec)
        || stands_twice(settings, Keyword::Network)
        || stands_twice(settings, Keyword::Mask)
}

fn stands_twice(settings: &[Setting], keyword: Keyword) -> bool
    ensures { result ≡ spec.stands_twice settings.now keyword }
{
    settings
        .iter()
        .filter(|setting| setting.keyword == keyword)
        .count()
        > 1
}

/// Tests whether a flavour is empty or unknown.
pub(crate) fn has_unknown_flavour(settings: &[Setting]) -> bool
    ensures { result ≡ of_value keyword.Sec has_bad_flavour settings.now }
{
    match value_of(settings, Keyword::Sec) {
        Some(value) => has_bad_flavour(value),
        None => false,
    }
}

/// Tests whether a credential of the line has this fault, whatever other faults it has.
pub(crate) fn has_cred_fault(tables: &Tables, settings: &[Setting], fault: CredFault) -> bool
    ensures { result ≡ spec.cred_has (table_rows tables.now) fault settings.now }
{
    breaks_credential(tables, settings, Keyword::MapRoot, fault)
        || breaks_credential(tables, settings, Keyword::MapAll, fault)
}

pub(crate) fn breaks_credential(
    tables: &Tables,
    settings: &[Setting],
    keyword: Keyword,
    fault: CredFault,
) -> bool
    ensures { let rows = table_rows tables.now in
        result ≡ of_value keyword (λ text. cred_breaks rows.users rows.groups (elements text) fault) settings.now }
{
    match value_of(settings, keyword) {
        Some(text) => has_fault(tables.users, tables.groups, text, fault),
        None => false,
    }
}

/// Tests whether the credentials of a line can be read, so that they have no fault.
pub(crate) fn has_sound_credentials(tables: &Tables, settings: &[Setting]) -> bool
    ensures { IsTrue result → (fault : CredFault) → spec.cred_has (table_rows tables.now) fault settings.now ≡ false }
{
    is_sound_credential(tables, settings, Keyword::MapRoot)
        && is_sound_credential(tables, settings, Keyword::MapAll)
}

/// Tests whether the value of an option is a credential, or there is none.
fn is_sound_credential(tables: &Tables, settings: &[Setting], keyword: Keyword) -> bool
    ensures { let rows = table_rows tables.now in
        IsTrue result → (fault : CredFault)
        → of_value keyword (λ text. cred_breaks rows.users rows.groups (elements text) fault) settings.now ≡ false }
{
    match value_of(settings, keyword) {
        Some(text) => credential(tables.users, tables.groups, text).is_ok(),
        None => true,
    }
}
