// How a command ends.
ghost use Rattle.std.specs.Prelude.{◌≡◌, is_some};
ghost use Rattle.command_words.specs.Status.{parts_of};

use bound_num::Bound;
use outer_io::Damage;
use script_text::{ScriptPlace, ValuePlace};
use set_table::SetName;

/// What is wrong with the bindings of a script's inputs to files.
#[derive(Clone, Copy, Debug, PartialEq, Eq)]
pub enum BindingFault {
    /// The binding in the word of this number names no input.
    Undeclared(u32),
    /// The binding in the word of this number names an input that was bound before.
    Twice(u32),
    /// The input of this number, counted from 0 in order of declaration, is bound to no file.
    Unbound(u32),
}

impl BindingFault {
    fn text(&self) -> &'static str
        ensures { result.now ≡ (parts_of (Status.Binding self.now)).text }
    {
        match self {
            BindingFault::Undeclared(_) => "binding: undeclared",
            BindingFault::Twice(_) => "binding: twice",
            BindingFault::Unbound(_) => "binding: unbound input",
        }
    }

    fn word(&self) -> Option<u32>
        ensures word { result ≡ (parts_of (Status.Binding self.now)).word }
        ensures whole { is_some result ≡ (parts_of (Status.Binding self.now)).whole }
    {
        match *self {
            BindingFault::Undeclared(word) | BindingFault::Twice(word) => Some(word),
            BindingFault::Unbound(_) => None,
        }
    }
}

/// How a command ended. A `word` is the number of the word of a file operand, counted from 0.
#[derive(Clone, Copy, Debug, PartialEq, Eq)]
pub enum Status {
    Done,
    /// The words have none of the forms.
    Usage,
    /// Memory was wanting. This answer may come at any point before a file changes.
    Memory,
    /// A file could not be read.
    ReadFault {
        word: u32,
    },
    /// The file OUT could not be written.
    WriteFault,
    MissingFile {
        word: u32,
    },
    /// A file doesn't begin as the files of the scheme do.
    NotOurs {
        word: u32,
    },
    /// A file is of the version `have`, which isn't 1.
    Version {
        word: u32,
        have: u8,
    },
    /// A field, the length, the digest or a word of a file is out of form.
    Damaged {
        word: u32,
        fault: Damage,
    },
    /// A file is of the kind of the number `have`, which isn't the wanted one.
    WrongKind {
        word: u32,
        have: u8,
    },
    /// A file is of another set than the one before it.
    SetMismatch {
        word: u32,
        have: SetName,
        want: SetName,
    },
    /// A file belongs to another secret than the one before it.
    KeyMismatch {
        word: u32,
        have: [u8; 16],
        want: [u8; 16],
    },
    /// A text of values is wrong.
    BadValues {
        word: u32,
        fault: ValuePlace,
    },
    /// A script is refused.
    BadScript {
        fault: ScriptPlace,
    },
    /// The noise bound of the register that a line of a script defines is above the limit.
    TooNoisy {
        line: u32,
        bound: Bound,
        limit: Bound,
    },
    /// The inputs of a script are not each bound to one file.
    Binding {
        fault: BindingFault,
    },
    /// A switching key is needed or is to be made, and the set has no special modulus.
    NoSpecial {
        set: SetName,
    },
    /// A seed file has only `have` bytes, which are fewer than 32.
    ShortSeed {
        word: u32,
        have: u32,
    },
    /// A turn by `step` places isn't one by fewer than `half`, the length of a half of the slots.
    BadStep {
        step: u64,
        half: u64,
    },
    /// A cipher has `have` parts.
    PartsMismatch {
        word: u32,
        have: u8,
        want: u8,
    },
}

impl Status {
    /// The exit status of a program that ends so.
    pub fn code(&self) -> u8
        ensures { result ≡ (parts_of self.now).code }
    {
        match self {
            Status::Done => 0,
            Status::Usage => 2,
            Status::Memory => 3,
            Status::ReadFault { .. } => 4,
            Status::WriteFault => 5,
            Status::MissingFile { .. } => 6,
            Status::NotOurs { .. } => 7,
            Status::Version { .. } => 8,
            Status::Damaged { .. } => 9,
            Status::WrongKind { .. } => 10,
            Status::SetMismatch { .. } => 11,
            Status::KeyMismatch { .. } => 12,
            Status::BadValues { .. } => 13,
            Status::BadScript { .. } => 14,
            Status::TooNoisy { .. } => 15,
            Status::Binding { .. } => 17,
            Status::NoSpecial { .. } => 18,
            Status::ShortSeed { .. } => 19,
            Status::BadStep { .. } => 20,
            Status::PartsMismatch { .. } => 26,
        }
    }

    /// What the status is called in its line.
    pub(crate) fn text(&self) -> &'static str
        ensures { result.now ≡ (parts_of self.now).text }
    {
        match self {
            Status::Done => "done",
            Status::Usage => "usage",
            Status::Memory => "memory",
            Status::ReadFault { .. } => "read fault",
            Status::WriteFault => "write fault",
            Status::MissingFile { .. } => "missing file",
            Status::NotOurs { .. } => "not ours",
            Status::Version { .. } => "version",
            Status::Damaged { .. } => "damaged",
            Status::WrongKind { .. } => "wrong kind",
            Status::SetMismatch { .. } => "set mismatch",
            Status::KeyMismatch { .. } => "key mismatch",
            Status::BadValues { .. } => "bad values",
            Status::BadScript { .. } => "bad script",
            Status::TooNoisy { .. } => "too noisy",
            Status::Binding { fault } => fault.text(),
            Status::NoSpecial { .. } => "no special modulus",
            Status::ShortSeed { .. } => "short seed",
            Status::BadStep { .. } => "bad step",
            Status::PartsMismatch { .. } => "parts mismatch",
        }
    }

    /// A number that belongs to what the status is called.
    pub(crate) fn number(&self) -> Option<u8>
        ensures { result ≡ (parts_of self.now).number }
    {
        match *self {
            Status::Version { have, .. } | Status::WrongKind { have, .. } => Some(have),
            _ => None,
        }
    }

    /// The word that the status keeps.
    pub(crate) fn word(&self) -> Option<u32>
        ensures { result ≡ (parts_of self.now).word }
    {
        match *self {
            Status::ReadFault { word }
            | Status::MissingFile { word }
            | Status::NotOurs { word }
            | Status::Version { word, .. }
            | Status::Damaged { word, .. }
            | Status::WrongKind { word, .. }
            | Status::SetMismatch { word, .. }
            | Status::KeyMismatch { word, .. }
            | Status::BadValues { word, .. }
            | Status::ShortSeed { word, .. }
            | Status::PartsMismatch { word, .. } => Some(word),
            Status::Binding { fault } => fault.word(),
            Status::Done
            | Status::Usage
            | Status::Memory
            | Status::WriteFault
            | Status::BadScript { .. }
            | Status::TooNoisy { .. }
            | Status::NoSpecial { .. }
            | Status::BadStep { .. } => None,
        }
    }
    /// Whether the word is told whole, and not by the name of a file.
    pub(crate) fn whole(&self) -> bool
        ensures { result ≡ (parts_of self.now).whole }
    {
        match self {
            Status::Binding { fault } => fault.word().is_some(),
            _ => false,
        }
    }
}
