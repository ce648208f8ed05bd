//! Rows of a file that was scanned, read again.
ghost use Rattle.std.specs.Prelude.{◌≡◌, ℕ, ◌+◌, ◌*◌, ◌<◌, ◌≤◌, length, slice_index, true, false, OnOk, IfErr};
ghost use Rattle.std.specs.Option.{ForSome};
ghost use Rattle.ring_law.specs.Rows.{IsReduced};
ghost use Rattle.outer_io.specs.Store.{OnlyReads};
ghost use Rattle.file_model.specs.Bytes.{number_from};
ghost use Rattle.file_model.specs.Reading.{FileCause, FileTold, IsSecondFault};
ghost use Rattle.cipher_files.specs.SecondReading.{file_word, HoldsRow};

use crate::FileFault;
use crate::file_part::read_again;
use byteorder::{ByteOrder, LittleEndian};
use file_scan::{HEAD_BYTES, PIECE_BYTES, PIECE_WORDS, WORD_BYTES};
use outer_io::{Damage, Store};

/// Bytes as words of eight, the lowest first.
#[tactic(auto, unfolding(file_model::specs::Bytes::number_from))]
fn decode(bytes: &[u8], out: &mut [u64])
    requires { length bytes.now ≡ 8 * length out.old }
    ensures { (k : ℕ) → k < length out.old → slice_index out.new k ≡ number_from (8 * k) 8 bytes.now }
{
    LittleEndian::read_u64_into(bytes, out);
}

/// Reads words from byte `at` on, in pieces.
fn read_words<S: Store>(
    store: &mut S,
    name: &str,
    at: u64,
    out: &mut [u64],
) -> Result<(), FileFault>
    requires some { 0 < length out.old }
    requires fits { at + 8 * length out.old < 18446744073709551616 }
    ensures keeps { OnlyReads (S.state store.old) (S.state store.new) }
    ensures cause { FileCause (S.state store.old) (S.state store.new) result }
    ensures only { IfErr result IsSecondFault }
    ensures told { ForSome (S.state store.old).files (λ files. FileTold files name.now result
        (λ bytes _. (at + 8 * length out.old ≤ length bytes)
        × ((k : ℕ) → k < length out.old → slice_index out.new k ≡ number_from (at + 8 * k) 8 bytes))
        (λ bytes _. length bytes < at + 8 * length out.old)) }
{
    let mut done = 0;
    let mut buf = [0; PIECE_BYTES];
    'pieces: while done < out.len() {
        let count = (out.len() - done).min(PIECE_WORDS);
        let piece = &mut buf[..WORD_BYTES * count];
        read_again(store, name, at + (WORD_BYTES * done) as u64, piece)?;
        decode(&*piece, &mut out[done..done + count]);
        done += count;
    }
    Ok(())
}

fn all_below(row: &[u64], modulus: u64) -> bool
    ensures yes { result ≡ true → IsReduced (length row.now) modulus row.now }
    ensures no { result ≡ false → IsReduced (length row.now) modulus row.now → ⊥ }
{
    row.iter().all(|word| *word < modulus)
}

/// Reads the row of this number, counted from 0 after the head. Where a word isn't below the
/// modulus, the file changed.
pub fn read_row<S: Store, const N: usize>(
    store: &mut S,
    name: &str,
    number: usize,
    modulus: u64,
    row: &mut [u64; N],
) -> Result<(), FileFault>
    requires some { 0 < N }
    requires degree { N ≤ 32768 }
    requires few { number < 65536 }
    ensures keeps { OnlyReads (S.state store.old) (S.state store.new) }
    ensures cause { FileCause (S.state store.old) (S.state store.new) result }
    ensures only { IfErr result IsSecondFault }
    ensures reduced { OnOk result (IsReduced N modulus row.new) }
    ensures told { ForSome (S.state store.old).files (λ files. FileTold files name.now result
        (λ bytes _. HoldsRow N bytes number modulus
        × ((k : ℕ) → k < N → slice_index row.new k ≡ file_word N bytes number k))
        (λ bytes _. HoldsRow N bytes number modulus → ⊥)) }
{
    let at = (HEAD_BYTES + WORD_BYTES * (number * N)) as u64;
    read_words(store, name, at, row)?;
    if !all_below(row, modulus) {
        return Err(FileFault::Damaged(Damage::Changed));
    }
    Ok(())
}
