//! An object as commands print it: compact JSON in a line, in which nothing can write to the terminal.

ghost use Rattle.std.specs.Prelude.{◌≡◌, IfOk};
ghost use Rattle.std.specs.String.{string_bytes};
ghost use Rattle.cli_verdict.specs.ObjectLine as spec;

use desk_check::push_json;
use std::alloc::{AllocError, Global};

/// Writes an object as it is printed, with its line end: the control characters that JSON leaves in strings as they are (from U+007F
/// to U+009F) by their codes.
pub fn object_line(alloc: Global, object: &str) -> Result<String, AllocError>
    ensures { IfOk result (λ line. string_bytes line ≡ spec.object_line object.now) }
{
    let mut line = String::new(alloc);
    push_json(object, &mut line)?;
    line.push('\n')?;
    Ok(line)
}
