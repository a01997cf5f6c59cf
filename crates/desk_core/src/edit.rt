//! Edits, and why one is refused.

ghost use Rattle.std.specs.Prelude.{◌≡◌};
ghost use Rattle.desk_core.specs.Edit.{refusal_name, refusal_number, refusal_row};

use desk_policy::SiteFault;

/// An edit of a file: the number of the revision that it follows (0 if the file has none), who asks for it, with a key, and
/// the file's new text.
#[derive(Clone, Copy)]
pub struct Edit<'a> {
    pub file: &'a str,
    pub base: u32,
    pub caller: &'a str,
    pub key: &'a str,
    pub text: &'a str,
}

/// Why an edit is refused. Of several reasons the first in this order is given, but for a repeat, which is answered before
/// `Stale`.
#[derive(Drop)]
pub enum Refusal {
    /// The caller is not in the custodians file.
    UnknownCaller,
    /// The SHA-256 digest of the key is not the one that is listed for the caller.
    BadKey,
    /// The file is not one of the seven, nor the exports file of a listed mount point in printed form.
    UnknownFile,
    /// The caller does not keep the file.
    NotCustodian,
    /// The text has more than 65,536 bytes.
    TooLarge,
    /// The base is not the number of the newest revision, which is this.
    Stale(u32),
    /// The base is 2,147,483,647, the last number.
    Full,
    /// The site with the new text is not consistent.
    Fault(SiteFault),
}

/// What a refusal is called: its number, and its name.
#[derive(Clone, Copy)]
pub struct RefusalRow {
    pub number: u32,
    pub name: &'static str,
}

impl RefusalRow {
    /// Makes the row of a number and a name.
    const fn new(number: u32, name: &'static str) -> RefusalRow
        ensures number { result.number ≡ number }
        ensures name { result.name.now ≡ name.now }
    {
        RefusalRow { number, name }
    }
}

impl Refusal {
    /// Returns the number and the name of the refusal. (6 is the number of a repeat, which is not a refusal.)
    pub fn row(&self) -> RefusalRow
        ensures { (result.number, result.name.now) ≡ refusal_row self.now }
    {
        match self {
            Refusal::UnknownCaller => RefusalRow::new(1, "UnknownCaller"),
            Refusal::BadKey => RefusalRow::new(2, "BadKey"),
            Refusal::UnknownFile => RefusalRow::new(3, "UnknownFile"),
            Refusal::NotCustodian => RefusalRow::new(4, "NotCustodian"),
            Refusal::TooLarge => RefusalRow::new(5, "TooLarge"),
            Refusal::Stale(_) => RefusalRow::new(7, "Stale"),
            Refusal::Full => RefusalRow::new(8, "Full"),
            Refusal::Fault(_) => RefusalRow::new(9, "Fault"),
        }
    }

    /// Returns the number of the refusal.
    pub fn number(&self) -> u32
        ensures { result ≡ refusal_number self.now }
    {
        self.row().number
    }

    /// Returns the name of the refusal.
    pub fn name(&self) -> &'static str
        ensures { result.now ≡ refusal_name self.now }
    {
        self.row().name
    }
}
