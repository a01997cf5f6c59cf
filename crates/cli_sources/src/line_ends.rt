//! The end of a line that is printed.

ghost use Rattle.std.specs.Prelude.{◌≡◌, ◌++◌, ◌∷◌, [], IfOk};
ghost use Rattle.std.specs.String.{string_bytes};

use std::alloc::AllocError;

/// Ends a line.
pub fn end_line(line: String) -> Result<String, AllocError>
    ensures { IfOk result (λ ended. string_bytes ended ≡ string_bytes line ++ 10 ∷ []) }
{
    let mut line = line;
    line.push('\n')?;
    Ok(line)
}
