//! A file that stays open for reading.
ghost use Rattle.std.specs.Prelude.{◌≡◌, ◌≤◌, min, length, take, IfSome, IfOk};

use crate::transfers::fill;
use std::alloc::Global;
use std::fs::{Metadata, OpenFile};
use std::io::{ErrorKind, Read, Seek, SeekFrom};
use std::rt::Files;
use std::{fs, io};

/// A file that is read, and the byte at which its next read goes on.
#[derive(Drop)]
pub(super) struct Opened<F: Drop> {
    name: String,
    file: F,
    place: u64,
}

impl<F: Read + Seek + Drop> Opened<F> {
    /// Reads from byte `at` on until the buffer is full or the file ends. Where the last read ended
    /// there the file isn't sought, so a pipe can be read from its front on.
    fn read_at(&mut self, at: u64, buf: &mut [u8]) -> io::Result<usize>
        ensures count { IfOk result (λ n. n ≤ length buf.old) }
        ensures bytes { at ≡ self.old.place → IfSome (F.remaining self.old.file) (λ left.
            IfOk result (λ n. (n ≡ min (length buf.old) (length left)) × (take n buf.new ≡ take n left))) }
    {
        if at != self.place {
            self.file.seek(SeekFrom::Start(at))?;
        }
        let n = fill(&mut self.file, buf)?;
        self.place = at.saturating_add(n as u64);
        Ok(n)
    }
}

/// Opens a file at its front.
fn open<R: Files>(rt: &R, alloc: Global, name: &str) -> io::Result<Opened<R::File>> {
    Ok(Opened {
        name: String::from_str(alloc, name)?,
        file: fs::open(rt, name)?,
        place: 0,
    })
}

/// Opens a regular file anew, and answers its length. What isn't one, as a pipe, a device or a
/// folder, is refused before it is opened: its length isn't known.
pub(super) fn open_sized<R: Files>(
    rt: &R,
    alloc: Global,
    name: &str,
) -> io::Result<(Opened<R::File>, u64)> {
    regular_length(&rt.metadata(name)?)?;
    let opened = open(rt, alloc, name)?;
    let length = regular_length(&opened.file.metadata()?)?;
    Ok((opened, length))
}

fn regular_length(about: &Metadata) -> io::Result<u64> {
    if about.is_file() {
        Ok(about.len())
    } else {
        Err(io::Error::from(ErrorKind::InvalidInput))
    }
}

/// Reads a file from byte `at` on, in the one that is open where it has this name. It stays open
/// unless the reading fails.
pub(super) fn read_named<R: Files>(
    rt: &R,
    alloc: Global,
    last: Option<Opened<R::File>>,
    name: &str,
    at: u64,
    buf: &mut [u8],
) -> io::Result<(Opened<R::File>, usize)>
    ensures { IfOk result (λ r. r.1 ≤ length buf.old) }
{
    let mut opened = match last {
        Some(opened) if opened.name.as_str() == name => opened,
        _other => open(rt, alloc, name)?,
    };
    let n = opened.read_at(at, buf)?;
    Ok((opened, n))
}
