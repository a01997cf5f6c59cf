//! Why a question or an edit is refused: its number and name.

ghost use Rattle.std.specs.Prelude.{◌≡◌};
ghost use Rattle.desk_store.specs.Error.{desk_error_name, desk_error_number};
ghost use Rattle.desk_service.specs.Refused.{refused_by, refused_name, refused_number};

use desk_core::Refusal;
use desk_store::{DeskError, MEMORY_NUMBER, SCHEMA_NUMBER, STORE_NUMBER};

/// Why a question or an edit is refused.
#[derive(Drop)]
pub enum Refused {
    /// By the rules of edits, or by the fault of a site.
    Edit(Refusal),
    /// There is no such file, revision or proposal.
    NoRevision,
    /// The proposal of the file is another than the one that is approved.
    OtherProposal,
    /// The database cannot be opened, or a statement was refused.
    Store,
    /// The database is not one of this project.
    Schema,
    /// There is no memory.
    Memory,
}

impl Refused {
    /// Returns the refusal that an error of a desk is. It has the error's number and name.
    pub fn by(error: DeskError) -> Refused
        ensures value { result ≡ refused_by error }
        ensures number { refused_number result ≡ desk_error_number error }
        ensures name { refused_name result ≡ desk_error_name error }
    {
        match error {
            DeskError::Refused(refusal) => Refused::Edit(refusal),
            DeskError::Store(_) => Refused::Store,
            DeskError::Schema => Refused::Schema,
            DeskError::Memory => Refused::Memory,
        }
    }

    /// Returns the number of the refusal: 1 to 9 of an edit, 111, 112, or that of the error of a desk.
    pub fn number(&self) -> u32
        ensures { result ≡ refused_number self.now }
    {
        match self {
            Refused::Edit(refusal) => refusal.number(),
            Refused::NoRevision => 111,
            Refused::OtherProposal => 112,
            Refused::Store => STORE_NUMBER,
            Refused::Schema => SCHEMA_NUMBER,
            Refused::Memory => MEMORY_NUMBER,
        }
    }

    /// Returns the name of the refusal.
    pub fn name(&self) -> &'static str
        ensures { result.now ≡ refused_name self.now }
    {
        match self {
            Refused::Edit(refusal) => refusal.name(),
            Refused::NoRevision => "NoRevision",
            Refused::OtherProposal => "OtherProposal",
            Refused::Store => "Store",
            Refused::Schema => "Schema",
            Refused::Memory => "Memory",
        }
    }
}
