// The words of a file, and which of them aren't below their moduli.
ghost use Rattle.std.specs.Prelude.{◌≡◌, ℕ, ◌+◌, ◌*◌, ◌<◌, ◌≤◌, List, length, find, IfSome};
ghost use Rattle.std.specs.List.{range_with_len};
ghost use Rattle.file_model.specs.Bytes.{bytes_from};
ghost use Rattle.file_model.specs.FileText as text;
ghost use Rattle.file_model.specs.Scan as scan;

use crate::Head;
use crate::layout::{WORD_BYTES, number_8};
use crate::row_moduli::row_modulus;

/// The modulus that a word of a file is to be below.
fn word_modulus(head: &Head, word: u64) -> u64
    ensures { result ≡ text.word_modulus head.now.kind head.now.set word }
{
    row_modulus(head.kind, head.set, word / head.set.degree() as u64)
}

/// Whether a word isn't below its modulus. It is word `j` of a piece that begins at the word
/// `start` of a file.
fn is_unreduced(head: &Head, piece: &[u8], start: u64, j: usize) -> bool
    requires inside { 8 * j + 8 ≤ length piece.now }
    requires fits { start + j < 18446744073709551616 }
    ensures { (bytes : List ℕ) → piece.now ≡ bytes_from (64 + 8 * start) (length piece.now) bytes
        → result ≡ scan.is_unreduced head.now.kind head.now.set bytes (start + j) }
{
    number_8(piece, WORD_BYTES * j) >= word_modulus(head, start + j as u64)
}

/// The number of the first word in a piece of a file that isn't below its modulus. The piece
/// begins at the word `start`.
pub fn first_unreduced(head: &Head, piece: &[u8], start: u64) -> Option<u64>
    requires fits { start + length piece.now < 18446744073709551616 }
    ensures inside { IfSome result (λ word. 8 * word + 8 ≤ 8 * start + length piece.now) }
    ensures first { (bytes : List ℕ) (count : ℕ) → length piece.now ≡ 8 * count
        → piece.now ≡ bytes_from (64 + 8 * start) (length piece.now) bytes
        → result ≡ find (scan.is_unreduced head.now.kind head.now.set bytes) (range_with_len start count) }
{
    'words: for j in 0..piece.len() / WORD_BYTES {
        if is_unreduced(head, piece, start, j) {
            return Some(start + j as u64);
        }
    }
    None
}
