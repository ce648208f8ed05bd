//! The pending file of a store of real files: it is written beside its place, and renamed at the
//! commit.
ghost use Rattle.std.specs.Prelude.{◌≡◌, IfOk, OnOk};
ghost use Rattle.std.specs.Io.KnownBytes.{Appends};
ghost use Rattle.std.specs.String.{string_bytes};

use crate::transfers::put_whole;
use std::alloc::{AllocError, Global};
use std::fs::{OpenFile, OpenOptions, Permissions};
use std::io;
use std::io::{ErrorKind, Write};
use std::os::unix::fs::{OpenOptionsExt, PermissionsExt};
use std::rt::Files;

/// The mode that a new file asks for; the system takes off what its user doesn't want.
const NEW_MODE: u32 = 0o666;

/// The pending file.
#[derive(Drop)]
pub(super) struct Draft<F: Drop> {
    /// The name that was asked for.
    name: String,
    /// Where the file goes: its name, or the end of the symlink of this name.
    target: String,
    /// Where it is until then.
    part: String,
    file: F,
}

impl<F: Write + Drop> Draft<F> {
    /// Adds a piece at the end.
    pub(super) fn append(&mut self, piece: &[u8]) -> io::Result<()>
        ensures name { string_bytes self.new.name ≡ string_bytes self.old.name }
        ensures bytes { OnOk result
            (Appends (F.contents self.old.file) (F.contents self.new.file) piece.now) }
    {
        put_whole(&mut self.file, piece)
    }
}

/// Begins an empty file, which will stand in place of a regular file or of none. It has the mode of
/// the file that it replaces.
pub(super) fn begin<R: Files>(rt: &R, alloc: Global, name: &str) -> io::Result<Draft<R::File>>
    ensures { IfOk result (λ draft. string_bytes draft.name ≡ name.now) }
{
    let target = target_of(rt, alloc, name)?;
    let replaced = permissions_at(rt, target.as_str())?;
    let part = part_name(alloc, target.as_str())?;
    let name = String::from_str(alloc, name)?;
    remove_old(rt, part.as_str())?;
    let file = create(rt, part.as_str(), replaced)?;
    Ok(Draft {
        name,
        target,
        part,
        file,
    })
}

/// Puts the file in its place, once all of it is on the disk and it is closed. Where that fails the
/// part is taken away.
pub(super) fn commit<R: Files>(rt: &R, draft: Draft<R::File>) -> io::Result<()> {
    let Draft {
        target,
        part,
        file,
        ..
    } = draft;
    let placed = match close(file) {
        Ok(()) => rt.rename(part.as_str(), target.as_str()),
        Err(error) => Err(error),
    };
    if placed.is_err() {
        let _ = rt.remove_file(part.as_str());
    }
    placed
}

/// Takes the part of a file that won't be put in its place away.
pub(super) fn remove<R: Files>(rt: &R, draft: Draft<R::File>) {
    let _ = rt.remove_file(draft.part.as_str());
}

/// Closes a file whose bytes are all on the disk.
fn close<F: Write + OpenFile + Drop>(mut file: F) -> io::Result<()> {
    file.flush()?;
    file.sync_all()
}

/// Where a file of this name goes: a symlink is followed to its end, which has to be there.
fn target_of<R: Files>(rt: &R, alloc: Global, name: &str) -> io::Result<String> {
    if is_symlink(rt, name) {
        return Ok(rt.canonicalize(alloc, name)?.into_string());
    }
    Ok(String::from_str(alloc, name)?)
}

fn is_symlink<R: Files>(rt: &R, name: &str) -> bool {
    match rt.symlink_metadata(name) {
        Ok(about) => about.is_symlink(),
        Err(_) => false,
    }
}

/// The permissions of the regular file of this name, if there is one. What isn't a regular file is
/// refused, since it would be destroyed.
fn permissions_at<R: Files>(rt: &R, name: &str) -> io::Result<Option<Permissions>> {
    match rt.symlink_metadata(name) {
        Ok(about) => {
            if about.is_file() {
                Ok(Some(about.permissions()))
            } else {
                Err(io::Error::from(ErrorKind::InvalidInput))
            }
        }
        Err(error) => match error.kind() {
            ErrorKind::NotFound => Ok(None),
            _ => Err(error),
        },
    }
}

fn part_name(alloc: Global, name: &str) -> Result<String, AllocError> {
    let mut part = String::from_str(alloc, name)?;
    part.push_str(".part")?;
    Ok(part)
}

/// Takes away what an earlier run left under the part's name. What isn't a regular file is refused.
fn remove_old<R: Files>(rt: &R, part: &str) -> io::Result<()> {
    match permissions_at(rt, part)? {
        Some(_) => rt.remove_file(part),
        None => Ok(()),
    }
}

/// Makes a new file with these permissions, or with those of new files. It never has wider ones.
fn create<R: Files>(rt: &R, part: &str, wanted: Option<Permissions>) -> io::Result<R::File> {
    let mode = match &wanted {
        Some(permissions) => permissions.mode(),
        None => NEW_MODE,
    };
    let mut options = OpenOptions::new();
    options.write(true).create_new(true).mode(mode);
    let file = options.open(rt, part)?;
    if let Some(permissions) = wanted {
        if let Err(error) = file.set_permissions(permissions) {
            let _ = rt.remove_file(part);
            return Err(error);
        }
    }
    Ok(file)
}
