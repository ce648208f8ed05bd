//! What a store, a sink and the bytes of a file are refused with.
ghost use Rattle.std.specs.Prelude.{◌≡◌};
ghost use Rattle.outer_io.specs.declared.faults.StoreFault.TheVariants as store;

use std::alloc::AllocError;

/// Why a call of a store didn't answer `Ok`.
#[derive(Clone, Copy, Debug, PartialEq, Eq)]
pub enum StoreFault {
    /// There is no file of this name.
    Missing,
    /// The file system refused the call.
    Failed,
    /// There was no memory.
    Memory,
}

/// Why a call of a sink didn't answer `Ok`.
#[derive(Clone, Copy, Debug, PartialEq, Eq)]
pub enum SinkFault {
    /// The output refused the call.
    Failed,
    /// There was no memory.
    Memory,
}

/// What is wrong with the bytes of a file.
#[derive(Clone, Copy, Debug, PartialEq, Eq)]
pub enum Damage {
    /// The field of the head at this offset, in bytes, breaks its rule.
    Field(u32),
    /// The file has `have` bytes and its head asks for `want`.
    Length { have: u64, want: u64 },
    /// The last 32 bytes aren't the digest of the others.
    Digest,
    /// The word of this number, counted from 0 after the head, isn't below its modulus.
    NotReduced(u64),
    /// A second reading ended early, or gave a word that isn't below its modulus.
    Changed,
}

impl From<AllocError> for StoreFault {
    ghost from_gives = { λ _ e. e ≡ store.Memory };

    fn from(_: AllocError) -> Self {
        StoreFault::Memory
    }
}
