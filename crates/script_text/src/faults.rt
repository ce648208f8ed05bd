// What a text is refused with.
ghost use Rattle.std.specs.Prelude.{◌≡◌};
ghost use Rattle.script_text.specs.declared.faults.ValueFault.TheVariants as fault;
ghost use Rattle.script_text.specs.declared.faults.ScriptFault.TheVariants as script_fault;

use std::alloc::{AllocError, AllocFailed};

/// What is wrong with a text of values, and where.
#[derive(Clone, Copy, Debug, PartialEq, Eq)]
pub enum ValuePlace {
    /// The byte at this offset is neither a digit nor a blank, or is the twenty-first digit of its
    /// number.
    BadText(u64),
    /// The value of this number, counted from 0, is too large.
    TooLarge(u64),
    /// There are more values than places for them.
    TooMany,
    /// The text has more than 4,194,304 bytes.
    TooLong,
}

/// Why a text of values wasn't read.
#[derive(Clone, Copy, Debug, PartialEq, Eq)]
pub enum ValueFault {
    /// The text is wrong.
    Bad(ValuePlace),
    /// There was no memory.
    Memory,
}

impl From<AllocError> for ValueFault {
    ghost from_gives = { λ _ e. e ≡ fault.Memory };

    fn from(_: AllocError) -> Self {
        ValueFault::Memory
    }
}

impl<T: Drop> From<AllocFailed<T>> for ValueFault {
    ghost from_gives = { λ _ e. e ≡ fault.Memory };

    fn from(_: AllocFailed<T>) -> Self {
        ValueFault::Memory
    }
}

/// What is wrong with a script, and in which line, counted from 1.
#[derive(Clone, Copy, Debug, PartialEq, Eq)]
pub enum ScriptPlace {
    /// The line has none of the forms, stands out of order, or is missed at the end.
    Syntax(u32),
    /// A name that the line defines was defined before, or one that it uses wasn't.
    Name(u32),
    /// An operand doesn't have the parts that the operation takes.
    Shape(u32),
    /// There are more bytes, inputs or steps than `MAX_SCRIPT_BYTES`, `MAX_INPUTS` and `MAX_STEPS`.
    TooLong,
}

/// Why a script wasn't read.
#[derive(Clone, Copy, Debug, PartialEq, Eq)]
pub enum ScriptFault {
    /// The text is wrong.
    Bad(ScriptPlace),
    /// There was no memory.
    Memory,
}

impl From<AllocError> for ScriptFault {
    ghost from_gives = { λ _ e. e ≡ script_fault.Memory };

    fn from(_: AllocError) -> Self {
        ScriptFault::Memory
    }
}

impl<T: Drop> From<AllocFailed<T>> for ScriptFault {
    ghost from_gives = { λ _ e. e ≡ script_fault.Memory };

    fn from(_: AllocFailed<T>) -> Self {
        ScriptFault::Memory
    }
}
