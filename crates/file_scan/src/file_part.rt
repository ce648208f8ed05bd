// A part of a file that is scanned.
ghost use Rattle.std.specs.Prelude.{◌≡◌, ◌+◌, ◌<◌, ◌≤◌, length, IfErr};
ghost use Rattle.std.specs.Option.{ForSome};
ghost use Rattle.outer_io.specs.Store.{OnlyReads};
ghost use Rattle.file_model.specs.Bytes.{bytes_from};
ghost use Rattle.file_model.specs.Reading.{FileCause, FileTold};
ghost use Rattle.file_scan.specs.Scanning.{EndsWithin};

use crate::FileFault;
use outer_io::{Damage, Store};

/// Fills a buffer from byte `at` of a file on. Where the bytes end before it is full, the fault
/// says where, and that `want` bytes were wanted.
pub fn read_part<S: Store>(
    store: &mut S,
    name: &str,
    at: u64,
    buf: &mut [u8],
    want: u64,
) -> Result<(), FileFault>
    requires fits { at + length buf.old < 18446744073709551616 }
    ensures keeps { OnlyReads (S.state store.old) (S.state store.new) }
    ensures cause { FileCause (S.state store.old) (S.state store.new) result }
    ensures ended { IfErr result (EndsWithin at (at + length buf.old) want) }
    ensures told { ForSome (S.state store.old).files (λ files. FileTold files name.now result
        (λ bytes _. (buf.new ≡ bytes_from at (length buf.old) bytes)
        × (at ≤ length bytes → at + length buf.old ≤ length bytes))
        (λ bytes _. length bytes < at + length buf.old)) }
{
    let n = store.read_at(name, at, buf)?;
    if n < buf.len() {
        return Err(FileFault::Damaged(Damage::Length {
            have: at + n as u64,
            want,
        }));
    }
    Ok(())
}
