//! The terms of a mount in words.

ghost use Rattle.std.specs.Prelude.{◌≡◌, ◌++◌, OnOk, codes};
ghost use Rattle.std.specs.List.{flat_map, join_by};
ghost use Rattle.std.specs.String.{string_bytes};
ghost use Rattle.desk_exports.specs.Flavours.{flavour_word};
ghost use Rattle.page_html.specs.Terms as spec;

use desk_exports::{Flavour, Mapping, Terms};
use std::alloc::AllocError;

/// Adds terms in words.
pub fn push_terms(terms: &Terms, page: &mut String) -> Result<(), AllocError>
    ensures { OnOk result (string_bytes page.new ≡ string_bytes page.old ++ spec.terms_words terms.now) }
{
    page.push_str(if terms.ro { "read-only" } else { "read-write" })?;
    page.push_str("; ")?;
    push_mapping(&terms.map.get(), page)?;
    page.push_str("; ")?;
    push_flavours(terms.flavours.as_slice(), page)
}

/// Adds who acts as whom.
fn push_mapping(mapping: &Mapping, page: &mut String) -> Result<(), AllocError>
    ensures { OnOk result (string_bytes page.new ≡ string_bytes page.old ++ spec.mapping_words mapping.now) }
{
    match mapping {
        Mapping::Root(cred) if cred.uid == 0 => write!(page, "root stays root ({cred})"),
        Mapping::Root(cred) => write!(page, "root acts as {cred}"),
        Mapping::All(cred) if cred.uid == 0 => write!(page, "every user acts as root ({cred})"),
        Mapping::All(cred) => write!(page, "every user acts as {cred}"),
    }
}

/// Adds flavours.
pub fn push_flavours(flavours: &[Flavour], page: &mut String) -> Result<(), AllocError>
    ensures { OnOk result (string_bytes page.new ≡ string_bytes page.old ++ spec.flavours_words flavours.now) }
{
    match flavours {
        [] => Ok(()),
        [first, others @ ..] => {
            push_flavour(*first, page)?;
            push_others(others, page)
        }
    }
}

/// Adds the flavours behind the first.
fn push_others(flavours: &[Flavour], page: &mut String) -> Result<(), AllocError>
    ensures { OnOk result (string_bytes page.new
        ≡ string_bytes page.old ++ flat_map (λ flavour. codes " or " ++ spec.flavour_words flavour) flavours.now) }
{
    for flavour in flavours {
        page.push_str(" or ")?;
        push_flavour(*flavour, page)?;
    }
    Ok(())
}

/// Adds the names of flavours, as a line writes them.
pub(crate) fn push_flavour_names(flavours: &[Flavour], page: &mut String) -> Result<(), AllocError>
    ensures { OnOk result (string_bytes page.new ≡ string_bytes page.old ++ spec.flavour_names flavours.now) }
{
    page.push_str("<code>")?;
    push_names(flavours, page)?;
    page.push_str("</code>")
}

/// Adds the names.
fn push_names(flavours: &[Flavour], page: &mut String) -> Result<(), AllocError>
    ensures { OnOk result (string_bytes page.new ≡ string_bytes page.old ++ join_by flavour_word (codes ":") flavours.now) }
{
    match flavours {
        [] => Ok(()),
        [first, others @ ..] => {
            page.push_str(first.word())?;
            push_later_names(others, page)
        }
    }
}

/// Adds the names behind the first.
fn push_later_names(flavours: &[Flavour], page: &mut String) -> Result<(), AllocError>
    ensures { OnOk result (string_bytes page.new
        ≡ string_bytes page.old ++ flat_map (λ flavour. codes ":" ++ flavour_word flavour) flavours.now) }
{
    for flavour in flavours {
        page.push_str(":")?;
        page.push_str(flavour.word())?;
    }
    Ok(())
}

/// Adds a flavour.
fn push_flavour(flavour: Flavour, page: &mut String) -> Result<(), AllocError>
    ensures { OnOk result (string_bytes page.new ≡ string_bytes page.old ++ spec.flavour_words flavour) }
{
    let meaning = meaning_of(flavour);
    let word = flavour.word();
    write!(page, "{meaning} ({word})")
}

/// Returns what a flavour does.
fn meaning_of(flavour: Flavour) -> &'static str
    ensures { result.now ≡ spec.flavour_meaning flavour }
{
    match flavour {
        Flavour::Sys => "user ids taken on trust",
        Flavour::Krb5 => "Kerberos",
        Flavour::Krb5i => "Kerberos with integrity",
        Flavour::Krb5p => "Kerberos with encryption",
    }
}
