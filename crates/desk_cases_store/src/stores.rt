//! The stores in which databases are made.

ghost use Rattle.std.specs.Prelude.{◌≡◌, false, IfOk};

use sqlite::{Alter, Connection, MemStore};
use std::alloc::{AllocError, Global};

/// A store in which a new database can be opened.
pub trait Fresh: Alter + Drop {
    /// Opens a database without tables.
    fn open(alloc: Global) -> Result<Connection<Self>, AllocError>
        ensures { IfOk result (λ conn. conn.in_transaction ≡ false) };
}

impl Fresh for MemStore {
    fn open(alloc: Global) -> Result<Connection<MemStore>, AllocError> {
        Connection::open_in_memory(alloc)
    }
}
