// What a file is refused with.
ghost use Rattle.std.specs.Prelude.{◌≡◌};
ghost use Rattle.file_model.specs.Reading.{of_store};

use outer_io::{Damage, StoreFault};

/// Why a file could not be read, or isn't what was wanted.
#[derive(Clone, Copy, Debug, PartialEq, Eq)]
pub enum FileFault {
    /// There is no file of this name.
    Missing,
    /// The store refused a call.
    Failed,
    /// There was no memory.
    Memory,
    /// The file doesn't begin as every file of the scheme does.
    NotOurs,
    /// The file is of this version, which isn't 1.
    Version(u8),
    /// The file is of the kind of this number, which isn't wanted.
    Kind(u8),
    Damaged(Damage),
}

impl From<StoreFault> for FileFault {
    ghost from_gives = { λ s e. e ≡ of_store s };

    fn from(fault: StoreFault) -> Self {
        match fault {
            StoreFault::Missing => FileFault::Missing,
            StoreFault::Failed => FileFault::Failed,
            StoreFault::Memory => FileFault::Memory,
        }
    }
}
