//! The rows that a conversion writes: sums of products, kept in two words and reduced once.

ghost use Rattle.std.specs.Prelude.{◌≡◌, ℕ, ◌*◌, ◌^◌, ◌<◌, ◌≤◌, ◌≢◌, pos, ◌*ℤ◌, length, slice_index, slice_index_or, All, IfOk};
ghost use Rattle.ring_law.specs.Residues.{residue};
ghost use Rattle.ring_law.specs.Rows.{word_at};
ghost use Rattle.ring_law.specs.Sums.{sum_below};
ghost use Rattle.fast_conv.specs.Rows.{IsRowOf, combination, no_output};

use crate::inputs::MOST_ROWS;
use res_base::Base;
use std::alloc::{AllocError, Global};
use std::marker::Model;
use word_mod::Modulus;

/// The modulus of a row, the factors of the words of a conversion, that of one word more, and what
/// is added.
#[derive(Drop)]
pub struct OutputRow {
    modulus: Modulus,
    factors: Vec<u64>,
    last_factor: u64,
    added: u64,
}

impl Model for OutputRow {
    ghost use Rattle.fast_conv.specs.Rows.{Output, IsOutput};

    ghost Value = { Output };

    ghost view = { λ r. record {
      modulus = r.modulus;
      factors = r.factors.items;
      last_factor = r.last_factor;
      added = r.added;
    } };

    ghost invariant = { λ r. IsOutput (record {
      modulus = r.modulus;
      factors = r.factors.items;
      last_factor = r.last_factor;
      added = r.added;
    }) };
}

/// What the words of a row are multiplied by, beside the products of the other moduli of the base,
/// what one word more is multiplied by, and what is added: residues by the modulus of the row.
#[derive(Clone, Copy)]
pub struct RowConstants {
    pub scale: u64,
    pub last_factor: u64,
    pub added: u64,
}

impl OutputRow {
    /// The row of `modulus` whose factors are the scale times the products of the other moduli of
    /// `base`.
    pub fn new(
        alloc: Global,
        base: &Base,
        modulus: Modulus,
        constants: RowConstants,
    ) -> Result<OutputRow, AllocError>
        requires scale_below { constants.scale < modulus }
        requires last_factor_below { constants.last_factor < modulus }
        requires added_below { constants.added < modulus }
        ensures { IfOk result (λ row. IsRowOf base.now modulus constants row) }
    {
        let mut factors = Vec::new(alloc);
        for i in 0..base.len() {
            factors.push(modulus.mul(constants.scale, base.hat_mod(i, &modulus)))?;
        }
        Ok(OutputRow {
            modulus,
            factors,
            last_factor: constants.last_factor,
            added: constants.added,
        })
    }

    /// The word of the row.
    pub fn combine(&self, words: &[u64; MOST_ROWS], last: u64) -> u64
        requires { (i : ℕ) → i < length self.now.factors → slice_index words.now i < 2 ^ 61 }
        ensures { result ≡ residue self.now.modulus (combination self.now (slice_index words.now) last) }
    {
        let sum = sum_of_products(words, &self.factors);
        self.modulus.reduce_wide(sum + last as u128 * self.last_factor as u128 + self.added as u128)
    }
}

/// The sum of the words, each times its factor.
pub fn sum_of_products(words: &[u64], factors: &[u64]) -> u128
    requires words_few { length factors.now ≤ length words.now }
    requires few { length factors.now ≤ 32 }
    requires words_below { (i : ℕ) → i < length factors.now → slice_index words.now i < 2 ^ 61 }
    requires factors_below { All (λ f. f < 2 ^ 61) factors.now }
    ensures value { pos result
        ≡ sum_below (length factors.now) (λ i. pos (slice_index words.now i) *ℤ pos (slice_index factors.now i)) }
    ensures below { result ≤ 2 ^ 127 }
{
    let mut sum: u128 = 0;
    for i in 0..factors.len() {
        sum += words[i] as u128 * factors[i] as u128;
    }
    sum
}

pub fn set_word<const N: usize>(row: &mut [u64; N], k: usize, word: u64)
    requires { k < N }
    ensures set { slice_index row.new k ≡ word }
    ensures rest { (m : ℕ) → m ≢ k → slice_index row.new m ≡ slice_index row.old m }
{
    row[k] = word;
}

/// Writes coefficient `k` of each row, with one word more for all of them.
pub fn set_column<const N: usize>(
    outputs: &[OutputRow],
    words: &[u64; MOST_ROWS],
    last: u64,
    k: usize,
    to: &mut [[u64; N]],
)
    requires degree { N ≤ 32768 }
    requires rows { length to.old ≡ length outputs.now }
    requires words_below { All (λ r. (i : ℕ) → i < length r.factors → slice_index words.now i < 2 ^ 61) outputs.now }
    requires place { k < N }
    ensures set { (j : ℕ) → j < length outputs.now
        → word_at to.new j k ≡ residue (slice_index_or outputs.now j no_output).modulus
        (combination (slice_index_or outputs.now j no_output) (slice_index words.now) last) }
    ensures rest { (j m : ℕ) → m ≢ k → word_at to.new j m ≡ word_at to.old j m }
{
    for j in 0..outputs.len() {
        let word = outputs[j].combine(words, last);
        set_word(&mut to[j], k, word);
    }
}
