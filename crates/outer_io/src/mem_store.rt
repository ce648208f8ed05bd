//! A store in memory. It tells all, and a call whose number is noted fails.
ghost use Rattle.std.specs.Prelude.{◌≡◌, ◌-◌, ◌≤◌, ◌↔◌, min, [], ◌∷◌, ◌++◌, length, take, drop, Contains, Some, None, IsSome, IfOk, OnOk, OnErr, IsErrOf};
ghost use Rattle.std.specs.Option.{ForSome, option_copied};
ghost use Rattle.std.specs.FinMap as map;
ghost use Rattle.outer_io.specs.Memory.{empty_store, store_state, longer, settled, AfterRead, AfterWrite};
ghost use Rattle.outer_io.specs.Store.{OnlyReads, ReadCause, ReadTold, OnlyWrites, committed, file, IsBytes};

use crate::call_plan::CallPlan;
use crate::{Store, StoreFault};
use held::{HeldFile, bytes_of, copy_from, set_file};
use std::alloc::{AllocError, Global};
use std::marker::Model;

mod held;

/// A store in memory, which tells its files. Calls of the trait are counted from 0 over its life;
/// one whose number is noted answers `Failed` before it looks at anything else, and no other call
/// does.
#[derive(Drop)]
pub struct MemStore {
    alloc: Global,
    held: Vec<HeldFile>,
    draft: Option<HeldFile>,
    faults: u64,
    write_faults: u64,
    misses: u64,
    plan: CallPlan,
}

impl Model for MemStore {
    ghost use Rattle.outer_io.specs.Memory.{MemStoreState, mem_store_code};

    ghost Value = { MemStoreState };

    ghost coded = { mem_store_code };

    ghost use Rattle.outer_io.specs.Held.{files_of, pending_of, HasRoom};

    ghost view = { λ s. record {
      files = files_of s.held.items;
      pending = pending_of s.draft;
      faults = s.faults;
      write_faults = s.write_faults;
      misses = s.misses;
      calls = s.plan.next;
      noted = s.plan.noted.items;
    } };

    ghost invariant = { λ s. HasRoom s.draft s.held };
}

impl MemStore {
    /// An empty store. It keeps the allocator, and takes no memory yet.
    pub fn new(alloc: Global) -> MemStore
        ensures { result ≡ empty_store }
    {
        MemStore {
            alloc,
            held: Vec::new(alloc),
            draft: None,
            faults: 0,
            write_faults: 0,
            misses: 0,
            plan: CallPlan::new(alloc),
        }
    }

    /// The bytes of a file, if there is one.
    pub fn file(&self, name: &str) -> Option<&[u8]>
        ensures { option_copied result ≡ file (self.now).files name.now }
    {
        bytes_of(&self.held, name)
    }

    /// Sets one file at once. It counts as no call of the trait.
    pub fn put_file(&mut self, name: &str, bytes: &[u8]) -> Result<(), AllocError>
        ensures ok { OnOk result
            (self.new ≡ record self.old { files = map.insert (self.old).files name.now bytes.now }) }
        ensures err { OnErr result (self.new ≡ self.old) }
    {
        let name = String::from_str(self.alloc, name)?;
        let bytes = bytes.to_vec(self.alloc)?;
        self.held.try_reserve(2)?;
        set_file(&mut self.held, HeldFile { name, bytes });
        Ok(())
    }

    /// Notes that the call of the trait of this number fails.
    pub fn fail_at(&mut self, call: u64) -> Result<(), AllocError>
        ensures ok { OnOk result (self.new ≡ record self.old { noted = (self.old).noted ++ call ∷ [] }) }
        ensures err { OnErr result (self.new ≡ self.old) }
    {
        self.plan.note(call)
    }
}

impl Store for MemStore {
    ghost state = { store_state };

    fn size(&mut self, name: &str) -> Result<u64, StoreFault>
        ensures keeps { OnlyReads (store_state self.old) (store_state self.new) }
        ensures cause { ReadCause (store_state self.old) (store_state self.new) result }
        ensures told { ForSome (store_state self.old).files (λ files.
            ReadTold files name.now result (λ bytes n. (n ≡ length bytes) × IsBytes bytes)) }
        ensures noted { IsErrOf result StoreFault.Failed ↔ Contains (self.old).noted (self.old).calls }
        ensures after { AfterRead self.old self.new result }
    {
        if self.plan.fails_now() {
            self.faults = self.faults.saturating_add(1);
            return Err(StoreFault::Failed);
        }
        match bytes_of(&self.held, name) {
            Some(bytes) => Ok(bytes.len() as u64),
            None => {
                self.misses = self.misses.saturating_add(1);
                Err(StoreFault::Missing)
            }
        }
    }

    fn read_at(&mut self, name: &str, at: u64, buf: &mut [u8]) -> Result<usize, StoreFault>
        ensures keeps { OnlyReads (store_state self.old) (store_state self.new) }
        ensures cause { ReadCause (store_state self.old) (store_state self.new) result }
        ensures count { IfOk result (λ n. n ≤ length buf.old) }
        ensures told { ForSome (store_state self.old).files (λ files. ReadTold files name.now result
            (λ bytes n. (n ≡ min (length buf.old) (length bytes - at))
            × (buf.new ≡ take n (drop at bytes) ++ drop n buf.old))) }
        ensures noted { IsErrOf result StoreFault.Failed ↔ Contains (self.old).noted (self.old).calls }
        ensures after { AfterRead self.old self.new result }
        ensures buffer { OnErr result (buf.new ≡ buf.old) }
    {
        if self.plan.fails_now() {
            self.faults = self.faults.saturating_add(1);
            return Err(StoreFault::Failed);
        }
        match bytes_of(&self.held, name) {
            Some(bytes) => Ok(copy_from(bytes, at, buf)),
            None => {
                self.misses = self.misses.saturating_add(1);
                Err(StoreFault::Missing)
            }
        }
    }

    fn begin(&mut self, name: &str) -> Result<(), StoreFault>
        ensures keeps { OnlyWrites (store_state self.old) (store_state self.new) result }
        ensures files { (store_state self.new).files ≡ (store_state self.old).files }
        ensures pending { OnOk result ((store_state self.new).pending ≡ Some name.now) }
        ensures empty { ForSome (store_state self.old).files (λ _.
            OnOk result ((store_state self.new).written ≡ [])) }
        ensures noted { IsErrOf result StoreFault.Failed ↔ Contains (self.old).noted (self.old).calls }
        ensures after { let done = record self.old { pending = Some (name.now, []) } in
            AfterWrite self.old done self.new result }
    {
        self.draft = None;
        if self.plan.fails_now() {
            self.write_faults = self.write_faults.saturating_add(1);
            return Err(StoreFault::Failed);
        }
        let name = String::from_str(self.alloc, name)?;
        self.held.try_reserve(1)?;
        self.draft = Some(HeldFile {
            name,
            bytes: Vec::new(self.alloc),
        });
        Ok(())
    }

    fn append(&mut self, piece: &[u8]) -> Result<(), StoreFault>
        requires { IsSome (store_state self.old).pending }
        ensures keeps { OnlyWrites (store_state self.old) (store_state self.new) result }
        ensures files { (store_state self.new).files ≡ (store_state self.old).files }
        ensures pending { OnOk result ((store_state self.new).pending ≡ (store_state self.old).pending) }
        ensures written { ForSome (store_state self.old).files (λ _.
            OnOk result ((store_state self.new).written ≡ (store_state self.old).written ++ piece.now)) }
        ensures noted { IsErrOf result StoreFault.Failed ↔ Contains (self.old).noted (self.old).calls }
        ensures after { let done = record self.old { pending = longer (self.old).pending piece.now } in
            AfterWrite self.old done self.new result }
    {
        let draft = self.draft.take();
        if self.plan.fails_now() {
            self.write_faults = self.write_faults.saturating_add(1);
            return Err(StoreFault::Failed);
        }
        let mut file = draft.unwrap();
        file.bytes.extend_from_slice(piece)?;
        self.draft = Some(file);
        Ok(())
    }

    fn commit(&mut self) -> Result<(), StoreFault>
        requires { IsSome (store_state self.old).pending }
        ensures keeps { OnlyWrites (store_state self.old) (store_state self.new) result }
        ensures pending { OnOk result ((store_state self.new).pending ≡ None) }
        ensures files { OnOk result ((store_state self.new).files ≡ committed (store_state self.old)) }
        ensures unchanged { OnErr result ((store_state self.new).files ≡ (store_state self.old).files) }
        ensures noted { IsErrOf result StoreFault.Failed ↔ Contains (self.old).noted (self.old).calls }
        ensures after { AfterWrite self.old (settled self.old) self.new result }
        ensures needs_no_memory { IsErrOf result StoreFault.Memory → ⊥ }
    {
        let draft = self.draft.take();
        if self.plan.fails_now() {
            self.write_faults = self.write_faults.saturating_add(1);
            return Err(StoreFault::Failed);
        }
        set_file(&mut self.held, draft.unwrap());
        Ok(())
    }
}
