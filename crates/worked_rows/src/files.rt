// Files of the two smallest sets, made from heads and words.
use sha2::{Digest, Sha256};
use std::alloc::{AllocError, Global};

/// The head of a secret of `one16`: version 1, kind 1, set 0, a key id of 17s and 16 words.
pub const SECRET_HEAD: [u8; 64] = [
    66, 70, 86, 82, 78, 83, 70, 1, 1, 0, 0, 0, 0, 0, 0, 0, 17, 17, 17, 17, 17, 17, 17, 17, 17, 17,
    17, 17, 17, 17, 17, 17, 0, 0, 0, 0, 0, 0, 0, 0, 16, 0, 0, 0, 0, 0, 0, 0, 0, 0, 0, 0, 0, 0, 0,
    0, 0, 0, 0, 0, 0, 0, 0, 0,
];

/// The head of a cipher of `one16`: kind 5, two parts, the same id, the bound 257 and 32 words.
pub const CIPHER_HEAD: [u8; 64] = [
    66, 70, 86, 82, 78, 83, 70, 1, 5, 0, 2, 0, 0, 0, 0, 0, 17, 17, 17, 17, 17, 17, 17, 17, 17, 17,
    17, 17, 17, 17, 17, 17, 1, 1, 0, 0, 0, 0, 0, 0, 32, 0, 0, 0, 0, 0, 0, 0, 0, 0, 0, 0, 0, 0, 0,
    0, 0, 0, 0, 0, 0, 0, 0, 0,
];

/// A ternary secret, 2 standing for -1.
pub const SECRET_WORDS: [u64; 16] = [0, 1, 2, 1, 0, 0, 2, 2, 1, 0, 1, 2, 0, 1, 1, 0];

/// 257 times this word is 5 times the modulus less 16: alone it is a cipher of 5 in every slot of
/// `one16`, with noise 16.
pub const FIRST_WORD: u64 = 700_949_358_316_277;

/// The residues of the like word for `toy16`, which stand first in the two rows of a part.
pub const FIRST_RESIDUES: [u64; 2] = [2_601_179_211_035, 2_772_309_401_632];

/// The first data modulus of `toy16`.
pub const FIRST_MODULUS: u64 = 8_796_092_858_369;

/// A head with one byte changed.
pub fn with_byte(head: [u8; 64], at: usize, byte: u8) -> [u8; 64] {
    let mut changed = head;
    if let Some(place) = changed.get_mut(at) {
        *place = byte;
    }
    changed
}

/// The head of a secret of `toy16`.
pub fn toy_secret_head() -> [u8; 64] {
    with_byte(SECRET_HEAD, 9, 1)
}

/// The head of a cipher of `toy16` with so many parts of 32 words.
fn toy_cipher_head(parts: u8) -> [u8; 64] {
    let head = with_byte(with_byte(CIPHER_HEAD, 9, 1), 10, parts);
    with_byte(head, 40, parts.wrapping_mul(32))
}

/// A file with this head and these words, and their digest.
pub fn file_of(alloc: Global, head: &[u8], words: &[u64]) -> Result<Vec<u8>, AllocError> {
    let mut bytes = head.to_vec(alloc)?;
    for word in words {
        bytes.extend_from_slice(&word.to_le_bytes())?;
    }
    let digest = Sha256::digest(bytes.as_slice());
    bytes.extend_from_slice(&digest)?;
    Ok(bytes)
}

/// The file of a secret of `one16`.
pub fn secret_file(alloc: Global) -> Result<Vec<u8>, AllocError> {
    file_of(alloc, &SECRET_HEAD, &SECRET_WORDS)
}

/// The file of a cipher of 5 in every slot of `one16`.
pub fn cipher_file(alloc: Global) -> Result<Vec<u8>, AllocError> {
    let mut words = [0; 32];
    words[0] = FIRST_WORD;
    file_of(alloc, &CIPHER_HEAD, &words)
}

/// The file of a secret of `toy16`.
pub fn toy_secret_file(alloc: Global) -> Result<Vec<u8>, AllocError> {
    file_of(alloc, &toy_secret_head(), &SECRET_WORDS)
}

/// The file of a cipher of two parts, with 5 in every slot of `toy16` but for its first word.
pub fn toy_cipher_file(alloc: Global, first: u64) -> Result<Vec<u8>, AllocError> {
    let mut words = [0; 64];
    words[0] = first;
    words[16] = FIRST_RESIDUES[1];
    file_of(alloc, &toy_cipher_head(2), &words)
}

/// The file of the like cipher of three parts.
pub fn long_toy_cipher_file(alloc: Global) -> Result<Vec<u8>, AllocError> {
    let mut words = [0; 96];
    words[0] = FIRST_RESIDUES[0];
    words[16] = FIRST_RESIDUES[1];
    file_of(alloc, &toy_cipher_head(3), &words)
}

/// A file with the lowest bit of its last byte changed.
pub fn with_other_end(mut bytes: Vec<u8>) -> Vec<u8> {
    if let Some(last) = bytes.last_mut() {
        *last ^= 1;
    }
    bytes
}

/// The first bytes of a file.
pub fn front_of(alloc: Global, bytes: &[u8], length: usize) -> Result<Vec<u8>, AllocError> {
    let mut front = Vec::new(alloc);
    for byte in bytes.iter().take(length) {
        front.push(*byte)?;
    }
    Ok(front)
}
