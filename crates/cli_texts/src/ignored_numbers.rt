//! The numbers of the warnings that `check` ignores.

ghost use Rattle.std.specs.Prelude.{◌≡◌};
ghost use Rattle.std.specs.Option.{option_map};
ghost use Rattle.std.specs.Result.{result_map_both};
ghost use Rattle.cli_texts.specs.IgnoredNumbers.{ReadsIgnored, ReadsNumbers};

use cli_output::bad_argument::ArgumentFault;
use cli_output::failure::Failure;
use desk_check::{are_warnings, numbers_in};
use std::alloc::Global;

/// Reads the numbers of warnings that the word of `--ignore` lists, if it is given.
pub fn read_ignored(alloc: Global, word: Option<&str>) -> Result<Option<Vec<u32>>, Failure>
    ensures { ReadsIgnored (option_map (λ word. word.now) word.entry) (result_map_both (option_map (λ numbers. numbers.items)) (λ failure. failure) result) }
{
    match word {
        Some(word) => Ok(Some(read_numbers(alloc, word)?)),
        None => Ok(None),
    }
}

/// Reads the numbers of warnings that a word lists, each once.
fn read_numbers(alloc: Global, word: &str) -> Result<Vec<u32>, Failure>
    ensures { ReadsNumbers word.now (result_map_both (λ numbers. numbers.items) (λ failure. failure) result) }
{
    let numbers = numbers_in(alloc, word)?;
    if are_warnings(numbers.as_slice()) {
        Ok(numbers)
    } else {
        Err(Failure::of_argument(alloc, "--ignore", word, ArgumentFault::Warnings))
    }
}

/// Lends the numbers, if there are some.
pub fn lend_numbers(numbers: &Option<Vec<u32>>) -> Option<&[u32]>
    ensures { option_map (λ numbers. numbers.now) result ≡ option_map (λ numbers. numbers.items) numbers.now }
{
    match numbers {
        Some(numbers) => Some(numbers.as_slice()),
        None => None,
    }
}
