//! The words of the command line.

ghost use Rattle.std.specs.Prelude.{◌≡◌, ◌≤◌, ℕ, IfOk, IfSome, List, None, Option, drop, length, map};
ghost use Rattle.std.specs.Io.{WritesAtMost};
ghost use Rattle.std.specs.Option.{option_map};
ghost use Rattle.cli.specs.Words.{GivesArgument, IsArgument};

use std::alloc::{AllocError, Global};
use std::env::{Env, FillError};

/// What has the arguments of a program.
pub trait Arguments {
    // The arguments, if they are told, with the program's name before them.
    ghost arguments: { Self → Option (List (List ℕ)) };

    /// Copies the argument at a place to the start of `buf` and returns its length. Place 0 has the program's name.
    fn argument(&self, place: usize, buf: &mut [u8]) -> Result<usize, FillError>
        ensures bound { WritesAtMost result buf.new }
        ensures told { IfSome (arguments self.now) (λ all. GivesArgument all place result buf.new) };
}

/// The system tells no arguments.
impl Arguments for HostRuntime {
    ghost arguments = { λ _. None };

    fn argument(&self, place: usize, buf: &mut [u8]) -> Result<usize, FillError> {
        self.arg(place, buf)
    }
}

/// Returns the words behind the program's name, as bytes.
#[tactic(auto, using(crate::proofs::ProgramWords::one_more, crate::proofs::ProgramWords::no_more))]
pub fn program_words<A: Arguments>(alloc: Global, system: &A) -> Result<Vec<Vec<u8>>, AllocError>
    ensures { IfSome (A.arguments system.now)
        (λ all. IfOk result (λ words. map (λ word. word.items) words.items ≡ drop 1 all)) }
{
    let mut words = Vec::new(alloc);
    for before in 0..usize::MAX {
        match program_word(alloc, system, before + 1)? {
            Some(word) => words.push(word)?,
            None => return Ok(words),
        }
    }
    Err(AllocError)
}

/// Returns the argument at a place, if there is one. Place 0 has the program's name.
fn program_word<A: Arguments>(
    alloc: Global,
    system: &A,
    place: usize,
) -> Result<Option<Vec<u8>>, AllocError>
    ensures { IfSome (A.arguments system.now)
        (λ all. IfOk result (λ found. IsArgument all place (option_map (λ word. word.items) found))) }
{
    let mut room = 256;
    for _ in 0..usize::BITS {
        let mut bytes = vec![in alloc; 0; room]?;
        match system.argument(place, bytes.as_mut_slice()) {
            Ok(length) => {
                bytes.truncate(length);
                return Ok(Some(bytes));
            }
            Err(FillError::NotPresent) => return Ok(None),
            Err(FillError::TooLong) => room = room.saturating_mul(2),
        }
    }
    Err(AllocError)
}
