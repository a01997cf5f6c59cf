//! What a reader of a text answers if it has no value to give.

ghost use Rattle.std.specs.Prelude.{◌≡◌, Result};
ghost use Rattle.desk_text.specs.Reading.{MapsFault, at_line, split_answer};

use std::alloc::{AllocError, AllocFailed};

/// Why a reader gave no value: the first fault of the text, or it ran out of memory.
#[derive(Clone, Copy, Debug, PartialEq, Eq)]
pub enum ReadError<F> {
    Fault(F),
    Memory,
}

/// A line that breaks a rule, by the number of its first physical line, and the first rule that it breaks.
#[derive(Clone, Copy, Debug, PartialEq, Eq)]
pub struct LineFault<R> {
    pub line: u32,
    pub rule: R,
}

impl<F> ReadError<F> {
    /// Changes the fault. Out of memory stays what it is.
    pub fn map_fault<G, C: FnOnce(F) -> G>(self, change: C) -> ReadError<G>
        requires { C.IsAlwaysCallable change }
        ensures { MapsFault (C.post change) self result }
    {
        match self {
            ReadError::Fault(fault) => ReadError::Fault(change(fault)),
            ReadError::Memory => ReadError::Memory,
        }
    }

    /// Adds the number of the line that breaks this rule. Out of memory stays what it is.
    pub fn at_line(self, line: u32) -> ReadError<LineFault<F>>
        ensures { result ≡ at_line line self }
    {
        match self {
            ReadError::Fault(rule) => ReadError::Fault(LineFault { line, rule }),
            ReadError::Memory => ReadError::Memory,
        }
    }
}

impl<F> ReadError<F> {
    /// Tells the fault of a text, which is a value, from running out of memory, which is an error.
    pub fn split<T>(answer: Result<T, ReadError<F>>) -> Result<Result<T, F>, AllocError>
        ensures { result ≡ split_answer answer }
    {
        match answer {
            Ok(value) => Ok(Ok(value)),
            Err(ReadError::Fault(fault)) => Ok(Err(fault)),
            Err(ReadError::Memory) => Err(AllocError),
        }
    }
}

impl<F> From<AllocError> for ReadError<F> {
    ghost use Rattle.std.specs.Prelude.{◌≡◌};
    ghost use Rattle.desk_text.specs.declared.reading.ReadError.TheVariants.{Memory};

    ghost from_gives = { λ _ e. e ≡ Memory };

    fn from(_error: AllocError) -> ReadError<F> {
        ReadError::Memory
    }
}

impl<T: Drop, F> From<AllocFailed<T>> for ReadError<F> {
    ghost use Rattle.std.specs.Prelude.{◌≡◌};
    ghost use Rattle.desk_text.specs.declared.reading.ReadError.TheVariants.{Memory};

    ghost from_gives = { λ _ e. e ≡ Memory };

    fn from(_error: AllocFailed<T>) -> ReadError<F> {
        ReadError::Memory
    }
}
