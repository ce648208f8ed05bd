//! The store of the real files. It tells nothing of what they hold.
ghost use Rattle.std.specs.Prelude.{◌≡◌, ◌≤◌, ◌≢◌};
ghost use Rattle.outer_io.specs.Store.{Rose};
ghost use Rattle.outer_io.specs.Real.{untold_store};

use crate::{Store, StoreFault};
use draft::Draft;
use opened::{Opened, open_sized, read_named};
use std::alloc::Global;
use std::io;
use std::io::ErrorKind;
use std::marker::Model;
use std::rt::Files;

mod draft;
mod opened;

/// The real files, under their paths.
///
/// Only a regular file has a size, and only a regular file is replaced; a symlink is followed. A
/// pipe or a device can be read from its front on. The file that was read last stays open until the
/// size of a file is asked for, another file is read, or a file is begun or put in its place.
///
/// The pending file is written under its name with `.part` at the end; a user's file of that longer
/// name is lost. It is put in its place when all of it is on the disk. The part of a file that
/// isn't put there is taken away again; a store that is dropped leaves it where it is.
#[derive(Drop)]
pub struct FileStore<'a, R: Files> {
    rt: &'a R,
    alloc: Global,
    opened: Option<Opened<R::File>>,
    draft: Option<Draft<R::File>>,
    faults: u64,
    write_faults: u64,
    misses: u64,
}

impl<'a, R: Files> Model for FileStore<'a, R> {
    ghost use Rattle.std.specs.Prelude.{None, []};
    ghost use Rattle.outer_io.specs.Store.{StoreState};
    ghost use Rattle.outer_io.specs.Real.{store_code, draft_name};

    ghost Value = { StoreState };

    ghost coded = { store_code };

    ghost view = { λ s. record {
      files = None;
      pending = draft_name s.draft;
      written = [];
      faults = s.faults;
      write_faults = s.write_faults;
      misses = s.misses;
    } };
}

impl<'a, R: Files> FileStore<'a, R> {
    /// The files that the runtime reaches. It keeps the allocator, and takes no memory yet.
    pub fn new(rt: &'a R, alloc: Global) -> FileStore<'a, R>
        ensures { result ≡ untold_store }
    {
        FileStore {
            rt,
            alloc,
            opened: None,
            draft: None,
            faults: 0,
            write_faults: 0,
            misses: 0,
        }
    }
}

impl<'a, R: Files> Store for FileStore<'a, R> {
    ghost state = { λ s. s };

    fn size(&mut self, name: &str) -> Result<u64, StoreFault> {
        self.opened = None;
        match open_sized(self.rt, self.alloc, name) {
            Ok((opened, length)) => {
                self.opened = Some(opened);
                Ok(length)
            }
            Err(error) => Err(read_fault(&mut self.faults, &mut self.misses, &error)),
        }
    }

    fn read_at(&mut self, name: &str, at: u64, buf: &mut [u8]) -> Result<usize, StoreFault> {
        let last = self.opened.take();
        match read_named(self.rt, self.alloc, last, name, at, buf) {
            Ok((opened, n)) => {
                self.opened = Some(opened);
                Ok(n)
            }
            Err(error) => Err(read_fault(&mut self.faults, &mut self.misses, &error)),
        }
    }

    fn begin(&mut self, name: &str) -> Result<(), StoreFault> {
        self.opened = None;
        if let Some(left) = self.draft.take() {
            draft::remove(self.rt, left);
        }
        match draft::begin(self.rt, self.alloc, name) {
            Ok(draft) => {
                self.draft = Some(draft);
                Ok(())
            }
            Err(error) => Err(write_fault(&mut self.write_faults, &error)),
        }
    }

    fn append(&mut self, piece: &[u8]) -> Result<(), StoreFault> {
        let mut draft = self.draft.take().unwrap();
        match draft.append(piece) {
            Ok(()) => {
                self.draft = Some(draft);
                Ok(())
            }
            Err(error) => {
                draft::remove(self.rt, draft);
                Err(write_fault(&mut self.write_faults, &error))
            }
        }
    }

    fn commit(&mut self) -> Result<(), StoreFault> {
        self.opened = None;
        let draft = self.draft.take().unwrap();
        match draft::commit(self.rt, draft) {
            Ok(()) => Ok(()),
            Err(error) => Err(write_fault(&mut self.write_faults, &error)),
        }
    }
}

/// The fault of a call that read, which it counts.
fn read_fault(faults: &mut u64, misses: &mut u64, error: &io::Error) -> StoreFault
    ensures faults { faults.old ≤ faults.new }
    ensures misses { misses.old ≤ misses.new }
    ensures missing { result ≡ StoreFault.Missing → Rose misses.old misses.new }
    ensures failed { result ≡ StoreFault.Failed → Rose faults.old faults.new }
{
    match error.kind() {
        ErrorKind::NotFound => {
            *misses = misses.saturating_add(1);
            StoreFault::Missing
        }
        ErrorKind::OutOfMemory => StoreFault::Memory,
        _ => {
            *faults = faults.saturating_add(1);
            StoreFault::Failed
        }
    }
}

/// The fault of a call that wrote, which it counts.
fn write_fault(write_faults: &mut u64, error: &io::Error) -> StoreFault
    ensures write_faults { write_faults.old ≤ write_faults.new }
    ensures failed { result ≡ StoreFault.Failed → Rose write_faults.old write_faults.new }
    ensures not_missing { result ≢ StoreFault.Missing }
{
    match error.kind() {
        ErrorKind::OutOfMemory => StoreFault::Memory,
        _ => {
            *write_faults = write_faults.saturating_add(1);
            StoreFault::Failed
        }
    }
}
