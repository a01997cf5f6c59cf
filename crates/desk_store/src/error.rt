//! Why an edit, a look, or a new database is refused.

ghost use Rattle.std.specs.Prelude.{◌≡◌};
ghost use Rattle.desk_store.specs.Error.{create_error_name, create_error_number, desk_error_name, desk_error_number};

use desk_core::Refusal;
use desk_policy::SiteFault;
use desk_text::Text;
use sqlite::Error;

/// The number of an error if a statement was refused.
pub const STORE_NUMBER: u32 = 201;

/// The number of an error if the database is not one of this project, or has tables in the way of a new one.
pub const SCHEMA_NUMBER: u32 = 202;

/// The number of an error if memory ran out.
pub const MEMORY_NUMBER: u32 = 203;

/// What a statement was for.
#[derive(Clone, Copy)]
pub enum Task {
    /// Storing the revision or the proposal of an edit.
    AddEntry,
    /// Reading the revisions.
    ReadRevisions,
    /// Looking for the tables.
    FindTables,
    /// Reading the version of the database.
    ReadVersion,
    /// Making the four tables, with the first revisions.
    MakeTables,
    /// Making a database of version 1 one of version 2.
    Migrate,
}

/// A statement that was refused, or whose answer is not one that a database of this project gives.
#[derive(Clone, Copy)]
pub struct StoreFault {
    pub task: Task,
    /// What SQLite said.
    pub error: Error,
}

/// Why an edit or a look is not answered.
#[derive(Drop)]
pub enum DeskError {
    /// The edit is refused by the rules of edits.
    Refused(Refusal),
    /// A statement was refused.
    Store(StoreFault),
    /// The database is not one of this project.
    Schema,
    /// There is no memory.
    Memory,
}

impl DeskError {
    /// Returns the number of the error.
    pub fn number(&self) -> u32
        ensures { result ≡ desk_error_number self.now }
    {
        match self {
            DeskError::Refused(refusal) => refusal.number(),
            DeskError::Store(_) => STORE_NUMBER,
            DeskError::Schema => SCHEMA_NUMBER,
            DeskError::Memory => MEMORY_NUMBER,
        }
    }

    /// Returns the name of the error.
    pub fn name(&self) -> &'static str
        ensures { result.now ≡ desk_error_name self.now }
    {
        match self {
            DeskError::Refused(refusal) => refusal.name(),
            DeskError::Store(_) => "Store",
            DeskError::Schema => "Schema",
            DeskError::Memory => "Memory",
        }
    }
}

/// Why no database was made.
#[derive(Drop)]
pub enum CreateError {
    /// A statement was refused.
    Store(StoreFault),
    /// One of the four tables is there.
    Schema,
    /// There is no memory.
    Memory,
    /// The site has a fault.
    Fault(SiteFault),
    /// The text of this file is too long.
    TooLarge(Text),
}

impl CreateError {
    /// Returns the number of the error. (A fault and a text that is too long have the numbers that they have in an edit.)
    pub fn number(&self) -> u32
        ensures { result ≡ create_error_number self.now }
    {
        match self {
            CreateError::Store(_) => STORE_NUMBER,
            CreateError::Schema => SCHEMA_NUMBER,
            CreateError::Memory => MEMORY_NUMBER,
            CreateError::Fault(_) => 9,
            CreateError::TooLarge(_) => Refusal::TooLarge.number(),
        }
    }

    /// Returns the name of the error.
    pub fn name(&self) -> &'static str
        ensures { result.now ≡ create_error_name self.now }
    {
        match self {
            CreateError::Store(_) => "Store",
            CreateError::Schema => "Schema",
            CreateError::Memory => "Memory",
            CreateError::Fault(_) => "Fault",
            CreateError::TooLarge(_) => Refusal::TooLarge.name(),
        }
    }
}
