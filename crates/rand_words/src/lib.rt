//! Samples from a generator of random words: key ids, ternary coefficients, errors and residues.
//!
//! Each call takes the generator's next words of 64 bits in their order, and no others. Its samples are
//! functions of these words, so a stream that is known, as that of a seed, determines all of them.
#![tactic(auto)]

ghost use Rattle.std.specs.Prelude.{◌≡◌, ℕ, ◌+◌, ◌*◌, ◌<◌, ◌≤◌, [], length, slice_index, slice_index_or};
ghost use Rattle.bfv_model.specs.Drawn.{drawn_key_id, drawn_ternary, error_sample, stream_word, ternary_sample, uniform_at, uniform_sample};
ghost use Rattle.bfv_model.specs.Holds.{ternary_coefficient};
ghost use Rattle.rand_words.specs.Words.{after_words};
ghost use Rattle.ring_law.specs.Rows.{IsReduced, word_at};
ghost use Rattle.ring_law.specs.Sums.{values_below};

#[cfg(test)]
mod tests;

use byteorder::{ByteOrder, LittleEndian};
use rand_core::Rng;
use word_mod::Modulus;

// A number of 21 bits is below this.
const ERROR_RANGE: u64 = 1 << 21;

/// The ternary sample of a word: 0, 1 or -1, for the rest 0, 1 or 2 that division by 3 leaves.
pub fn ternary(word: u64) -> i8
    ensures { result ≡ ternary_coefficient (ternary_sample word) }
{
    match word % 3 {
        0 => 0,
        1 => 1,
        _ => -1,
    }
}

/// The error sample of a word, from -21 to 21, after a centred binomial distribution: the ones among
/// its lowest 21 bits, less those among the next 21. The 22 highest bits are left out.
pub fn error(word: u64) -> i8
    ensures { result ≡ error_sample word }
{
    let added = word % ERROR_RANGE;
    let taken = word / ERROR_RANGE % ERROR_RANGE;
    added.count_ones() as i8 - taken.count_ones() as i8
}

/// The uniform sample of two words, `high` being the first taken: the number of 128 bits that they
/// make, modulo `m`.
pub fn uniform(m: &Modulus, high: u64, low: u64) -> u64
    ensures value { result ≡ uniform_sample m.now high low }
    ensures below { result < m.now }
{
    m.reduce_wide(high as u128 * (1 << 64) + low as u128)
}

/// The id of a key, from two words of eight bytes each with the lowest byte first.
pub fn key_id<R: Rng>(rng: &mut R) -> [u8; 16]
    ensures id { result ≡ drawn_key_id (stream_word (R.stream rng.old)) }
    ensures rest { R.stream rng.new ≡ after_words 2 (R.stream rng.old) }
{
    let mut id = [0; 16];
    LittleEndian::write_u64(&mut id[..8], rng.next_u64());
    LittleEndian::write_u64(&mut id[8..], rng.next_u64());
    id
}

/// Fills a row with ternary samples, a word for each, in the order of the coefficients.
pub fn ternary_row<const N: usize, R: Rng>(rng: &mut R, out: &mut [i8; N])
    requires { N ≤ 32768 }
    ensures samples { out.new ≡ values_below N (drawn_ternary (stream_word (R.stream rng.old))) }
    ensures rest { R.stream rng.new ≡ after_words N (R.stream rng.old) }
{
    for sample in out.iter_mut() {
        *sample = ternary(rng.next_u64());
    }
}

/// Fills a row with error samples, a word for each, in the order of the coefficients.
pub fn error_row<const N: usize, R: Rng>(rng: &mut R, out: &mut [i8; N])
    requires { N ≤ 32768 }
    ensures samples { out.new ≡ values_below N (λ k. error_sample (stream_word (R.stream rng.old) k)) }
    ensures rest { R.stream rng.new ≡ after_words N (R.stream rng.old) }
{
    for sample in out.iter_mut() {
        *sample = error(rng.next_u64());
    }
}

/// Fills a row with uniform residues modulo `m`, two words for each, in the order of the coefficients.
pub fn uniform_row<const N: usize, R: Rng>(rng: &mut R, m: &Modulus, out: &mut [u64; N])
    requires { N ≤ 32768 }
    ensures samples { out.new ≡ values_below N (λ k. uniform_at (stream_word (R.stream rng.old)) m.now (2 * k)) }
    ensures reduced { IsReduced N m.now out.new }
    ensures rest { R.stream rng.new ≡ after_words (2 * N) (R.stream rng.old) }
{
    for sample in out.iter_mut() {
        let high = rng.next_u64();
        let low = rng.next_u64();
        *sample = uniform(m, high, low);
    }
}

/// Fills a row for each modulus with uniform residues, row after row: two words for each residue, in
/// the order of the coefficients.
pub fn uniform_rows<const N: usize, R: Rng>(rng: &mut R, moduli: &[Modulus], rows: &mut [[u64; N]])
    requires degree { N ≤ 32768 }
    requires length { length rows.old ≡ length moduli.now }
    ensures samples { (i k : ℕ) → i < length moduli.now → k < N →
        word_at rows.new i k ≡ uniform_at (stream_word (R.stream rng.old)) (slice_index moduli.now i) (2 * (i * N + k)) }
    ensures reduced { (i : ℕ) → i < length moduli.now → IsReduced N (slice_index moduli.now i) (slice_index_or rows.new i []) }
    ensures rest { R.stream rng.new ≡ after_words (2 * N * length moduli.now) (R.stream rng.old) }
{
    for i in 0..moduli.len() {
        uniform_row(rng, &moduli[i], &mut rows[i]);
    }
}
