//! How the file that a word names is opened. All else that is done with it does not know the system.

ghost use Rattle.std.specs.Prelude.{◌≡◌, ℕ, IfOk, IfSome, List, None, Option};
ghost use Rattle.std.specs.declared.io.ErrorKind.{ErrorKind};
ghost use Rattle.cli_files.specs.Opening.{open_error};

use crate::input::LONGEST_INPUT;
use std::io::Read;
use std::{fs, io};

/// What opens files by their names.
pub trait Opens {
    /// A file that is open.
    type Opened: Read + Drop;

    // The bytes of the file that a word names, if they are told.
    ghost holds: { Self → List ℕ → Option (List ℕ) };

    // The kind of the error by which that file cannot be opened, or that it is opened, if this is told.
    ghost fails: { Self → List ℕ → Option (Option ErrorKind) };

    /// Opens the file that a word names, at its start.
    fn open(&self, word: &str) -> io::Result<Self::Opened>
        ensures held { IfOk result (λ file. Self.Opened.Read.remaining file ≡ holds self.now word.now) }
        ensures failed { IfSome (fails self.now word.now) (λ kind. open_error result ≡ kind) };

    /// Returns for how many bytes to make room before a file is read.
    fn room_for(&self, file: &Self::Opened) -> usize;
}

/// The system tells nothing.
impl Opens for HostRuntime {
    type Opened = fs::File;

    ghost holds = { λ _ _. None };

    ghost fails = { λ _ _. None };

    fn open(&self, word: &str) -> io::Result<fs::File> {
        fs::open(self, word)
    }

    /// Returns the length of the file, up to the most of a text, and one byte more, in which its end is found.
    fn room_for(&self, file: &fs::File) -> usize {
        match file.metadata() {
            Ok(found) => found.len().min(LONGEST_INPUT as u64) as usize + 1,
            Err(_) => 0,
        }
    }
}
