// A part of a file that is read again.
ghost use Rattle.std.specs.Prelude.{◌≡◌, ◌+◌, ◌<◌, ◌≤◌, length, IfErr};
ghost use Rattle.std.specs.Option.{ForSome};
ghost use Rattle.outer_io.specs.Store.{OnlyReads};
ghost use Rattle.file_model.specs.Bytes.{bytes_from};
ghost use Rattle.file_model.specs.Reading.{FileCause, FileTold, IsSecondFault};

use crate::FileFault;
use outer_io::{Damage, Store};

/// Fills a buffer from byte `at` of a file that was scanned. Where the bytes end before it is full,
/// the file changed.
pub fn read_again<S: Store>(
    store: &mut S,
    name: &str,
    at: u64,
    buf: &mut [u8],
) -> Result<(), FileFault>
    ensures keeps { OnlyReads (S.state store.old) (S.state store.new) }
    ensures cause { FileCause (S.state store.old) (S.state store.new) result }
    ensures only { IfErr result IsSecondFault }
    ensures told { ForSome (S.state store.old).files (λ files. FileTold files name.now result
        (λ bytes _. (buf.new ≡ bytes_from at (length buf.old) bytes)
        × (0 < length buf.old → at + length buf.old ≤ length bytes))
        (λ bytes _. length bytes < at + length buf.old)) }
{
    let n = store.read_at(name, at, buf)?;
    if n < buf.len() {
        return Err(FileFault::Damaged(Damage::Changed));
    }
    Ok(())
}
