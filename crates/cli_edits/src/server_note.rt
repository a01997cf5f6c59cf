//! What is said of mountd(8) beside an answer.

ghost use Rattle.std.specs.Prelude.{◌≡◌, ◌⊎◌, []};
ghost use Rattle.std.specs.String.{string_bytes};
ghost use Rattle.desk_server_notes.specs.CountsNote.{TellsCounts};

use desk_index::Index;
use desk_server_notes::counts_note;
use std::alloc::Global;

/// Counts the lines of a policy at which mountd(8) may decide otherwise. The policy is stored by then, so it says
/// nothing if memory runs out.
pub(crate) fn counted(alloc: Global, index: &Index) -> String
    ensures { (string_bytes result ≡ []) ⊎ TellsCounts index.now (string_bytes result) }
{
    match counts_note(alloc, index) {
        Ok(note) => note,
        Err(_) => String::new(alloc),
    }
}
