//! A store of named files, as a command sees it.
ghost use Rattle.std.specs.Prelude.{◌≡◌, ◌-◌, ◌≤◌, min, [], ◌++◌, length, take, drop, Some, None, IsSome, IfOk, OnOk, OnErr};
ghost use Rattle.std.specs.Option.{ForSome};
ghost use Rattle.outer_io.specs.Store.{StoreState, OnlyReads, ReadCause, ReadTold, OnlyWrites, committed, IsBytes};

use crate::StoreFault;

/// A store of named files. A file changes at no other moment than a `commit` that answers `Ok`.
///
/// What a clause says of its files holds of each store that tells them. Want of memory may come at
/// each call.
pub trait Store {
    ghost state: { Self → StoreState };

    /// The length of a file, in bytes.
    fn size(&mut self, name: &str) -> Result<u64, StoreFault>
        ensures keeps { OnlyReads (state self.old) (state self.new) }
        ensures cause { ReadCause (state self.old) (state self.new) result }
        ensures told { ForSome (state self.old).files (λ files.
            ReadTold files name.now result (λ bytes n. (n ≡ length bytes) × IsBytes bytes)) };

    /// Copies the bytes of a file from byte `at` on to the front of the buffer, as many as there
    /// are and as fit, and answers their number.
    fn read_at(&mut self, name: &str, at: u64, buf: &mut [u8]) -> Result<usize, StoreFault>
        ensures keeps { OnlyReads (state self.old) (state self.new) }
        ensures cause { ReadCause (state self.old) (state self.new) result }
        ensures count { IfOk result (λ n. n ≤ length buf.old) }
        ensures told { ForSome (state self.old).files (λ files. ReadTold files name.now result
            (λ bytes n. (n ≡ min (length buf.old) (length bytes - at))
            × (buf.new ≡ take n (drop at bytes) ++ drop n buf.old))) };

    /// Drops what was pending, and makes an empty file of this name pending.
    fn begin(&mut self, name: &str) -> Result<(), StoreFault>
        ensures keeps { OnlyWrites (state self.old) (state self.new) result }
        ensures files { (state self.new).files ≡ (state self.old).files }
        ensures pending { OnOk result ((state self.new).pending ≡ Some name.now) }
        ensures empty { ForSome (state self.old).files (λ _. OnOk result ((state self.new).written ≡ [])) };

    /// Adds a piece at the end of the pending file.
    fn append(&mut self, piece: &[u8]) -> Result<(), StoreFault>
        requires { IsSome (state self.old).pending }
        ensures keeps { OnlyWrites (state self.old) (state self.new) result }
        ensures files { (state self.new).files ≡ (state self.old).files }
        ensures pending { OnOk result ((state self.new).pending ≡ (state self.old).pending) }
        ensures written { ForSome (state self.old).files (λ _.
            OnOk result ((state self.new).written ≡ (state self.old).written ++ piece.now)) };

    /// Puts the pending file in its place among the others.
    fn commit(&mut self) -> Result<(), StoreFault>
        requires { IsSome (state self.old).pending }
        ensures keeps { OnlyWrites (state self.old) (state self.new) result }
        ensures pending { OnOk result ((state self.new).pending ≡ None) }
        ensures files { OnOk result ((state self.new).files ≡ committed (state self.old)) }
        ensures unchanged { OnErr result ((state self.new).files ≡ (state self.old).files) };
}
