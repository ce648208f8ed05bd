// Where things stand in a file, and how its numbers are read.
ghost use Rattle.std.specs.Prelude.{◌≡◌, ◌+◌, ◌≤◌, length};
ghost use Rattle.file_model.specs.Bytes.{number_from};

use byteorder::{ByteOrder, LittleEndian};

/// The bytes that every file begins with.
pub const FORMAT_NAME: [u8; 7] = *b"BFVRNSF";

pub const VERSION: u8 = 1;

/// How many bytes stand before the words.
pub const HEAD_BYTES: usize = 64;

/// How many bytes a word has.
pub const WORD_BYTES: usize = 8;

/// How many bytes stand behind the words.
pub const DIGEST_BYTES: usize = 32;

/// How many words are read or written at a time.
pub const PIECE_WORDS: usize = 8192;

pub const PIECE_BYTES: usize = WORD_BYTES * PIECE_WORDS;

#[tactic(auto, unfolding(file_model::specs::Bytes::number_from))]
pub fn number_4(bytes: &[u8], from: usize) -> u32
    requires { from + 4 ≤ length bytes.now }
    ensures { result ≡ number_from from 4 bytes.now }
{
    LittleEndian::read_u32(&bytes[from..])
}

#[tactic(auto, unfolding(file_model::specs::Bytes::number_from))]
pub fn number_8(bytes: &[u8], from: usize) -> u64
    requires { from + 8 ≤ length bytes.now }
    ensures { result ≡ number_from from 8 bytes.now }
{
    LittleEndian::read_u64(&bytes[from..])
}
