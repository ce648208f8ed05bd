//! Files read and written whole, over any store.
ghost use Rattle.std.specs.Prelude.{◌≡◌, ◌≤◌, length, take, Some, None, IfOk, OnOk, OnErr};
ghost use Rattle.std.specs.Option.{ForSome};
ghost use Rattle.outer_io.specs.Store.{file, contents, with_file, IsBytes, OnlyReads, ReadCause, ReadTold, OnlyWrites, Piece};

use crate::{Store, StoreFault};
use std::alloc::Global;

/// How many bytes are read at a time.
const PIECE: usize = 65536;

/// The first `limit` bytes of a file, or all where it has fewer: a text that is known to be too
/// long need not be read to its end.
pub fn read_front<S: Store>(
    alloc: Global,
    store: &mut S,
    name: &str,
    limit: u64,
) -> Result<Vec<u8>, StoreFault>
    ensures keeps { OnlyReads (S.state store.old) (S.state store.new) }
    ensures cause { ReadCause (S.state store.old) (S.state store.new) result }
    ensures told { ForSome (S.state store.old).files (λ files.
        ReadTold files name.now result (λ bytes v. (v.items ≡ take limit bytes) × IsBytes bytes)) }
    ensures bound { IfOk result (λ v. length v.items ≤ limit) }
{
    let size = store.size(name)?;
    read_first(alloc, store, name, size.min(limit))
}

/// The first `count` bytes of a file that is there, piece by piece.
fn read_first<S: Store>(
    alloc: Global,
    store: &mut S,
    name: &str,
    count: u64,
) -> Result<Vec<u8>, StoreFault>
    requires there { ForSome (S.state store.old).files (λ files.
        file files name.now ≡ Some (contents files name.now)) }
    requires within { ForSome (S.state store.old).files (λ files.
        count ≤ length (contents files name.now)) }
    ensures keeps { OnlyReads (S.state store.old) (S.state store.new) }
    ensures cause { ReadCause (S.state store.old) (S.state store.new) result }
    ensures told { ForSome (S.state store.old).files (λ files.
        ReadTold files name.now result (λ bytes v. v.items ≡ take count bytes)) }
    ensures bound { IfOk result (λ v. length v.items ≤ count) }
{
    let mut front = Vec::new(alloc);
    let mut piece = [0u8; PIECE];
    'pieces: while (front.len() as u64) < count {
        let at = front.len() as u64;
        let want = (count - at).min(PIECE as u64) as usize;
        let n = store.read_at(name, at, &mut piece[..want])?;
        if n == 0 {
            break;
        }
        front.extend_from_slice(&piece[..n])?;
    }
    Ok(front)
}

/// Fills a buffer from byte `at` of a file on, as far as the file goes, and answers how many bytes
/// it got.
///
/// It is `read_at` with a clause by which the pieces of a loop add up to the file.
pub fn read_piece<S: Store>(
    store: &mut S,
    name: &str,
    at: u64,
    buf: &mut [u8],
) -> Result<usize, StoreFault>
    ensures keeps { OnlyReads (S.state store.old) (S.state store.new) }
    ensures cause { ReadCause (S.state store.old) (S.state store.new) result }
    ensures count { IfOk result (λ n. n ≤ length buf.old) }
    ensures told { ForSome (S.state store.old).files (λ files.
        ReadTold files name.now result (λ bytes n. Piece bytes at n (length buf.old) buf.new)) }
{
    match store.read_at(name, at, buf) {
        Ok(n) => Ok(n),
        Err(fault) => Err(fault),
    }
}

/// Writes a file whole. What was pending is dropped.
pub fn write_file<S: Store>(store: &mut S, name: &str, bytes: &[u8]) -> Result<(), StoreFault>
    ensures keeps { OnlyWrites (S.state store.old) (S.state store.new) result }
    ensures idle { (S.state store.new).pending ≡ None }
    ensures ok { OnOk result
        ((S.state store.new).files ≡ with_file (S.state store.old).files name.now bytes.now) }
    ensures err { OnErr result ((S.state store.new).files ≡ (S.state store.old).files) }
{
    store.begin(name)?;
    store.append(bytes)?;
    store.commit()
}
