//! The bytes of heads.
ghost use Rattle.std.specs.Prelude.{◌≡◌, ◌+◌, ◌++◌, ◌≤◌, ℕ, List, length, take};
ghost use Rattle.file_model.specs.FileText.{head_text};
ghost use Rattle.file_model.specs.Heads.{content_with};

use crate::Head;
use file_scan::{FORMAT_NAME, HEAD_BYTES, VERSION};

/// The 64 bytes of a head.
#[tactic(auto, unfolding(file_model::specs::FileText::head_text))]
pub fn head_bytes(head: &Head) -> [u8; HEAD_BYTES]
    ensures { (words : List ℕ) → length words ≡ head.now.words → result ≡ head_text (content_with head.now words) }
{
    let numbers = [
        VERSION,
        head.kind.number(),
        head.set.number(),
        head.parts,
        0,
    ];
    let mut bytes = [0; HEAD_BYTES];
    put(&mut bytes, 0, 7, &FORMAT_NAME);
    put(&mut bytes, 7, 12, &numbers);
    put(&mut bytes, 12, 16, &head.element.to_le_bytes());
    put(&mut bytes, 16, 32, &head.id);
    put(&mut bytes, 32, 36, &head.bound.m.to_le_bytes());
    put(&mut bytes, 36, 40, &head.bound.e.to_le_bytes());
    put(&mut bytes, 40, 48, &head.words.to_le_bytes());
    put(&mut bytes, 48, 64, &[0; 16]);
    bytes
}

/// Copies a piece into the bytes from `from` to below `to`.
fn put(bytes: &mut [u8], from: usize, to: usize, piece: &[u8])
    requires whole { from + length piece.now ≡ to }
    requires room { to ≤ length bytes.old }
    ensures front { take to bytes.new ≡ take from bytes.old ++ piece.now }
    ensures size { length bytes.new ≡ length bytes.old }
{
    bytes[from..to].copy_from_slice(piece);
}
