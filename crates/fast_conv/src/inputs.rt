//! The rows that a conversion reads, and the words that it makes of them.

ghost use Rattle.std.specs.Prelude.{◌≡◌, ℕ, ◌*◌, ◌%◌, ◌^◌, ◌<◌, ◌≤◌, length, slice_index, IfOk};
ghost use Rattle.ring_law.specs.Moduli.{product_of_others};
ghost use Rattle.ring_law.specs.Rows.{word_at};
ghost use Rattle.res_base.specs.Bases.{IsBase};
ghost use Rattle.fast_conv.specs.Rows.{AreInputs, input_word};

use res_base::Base;
use std::alloc::{AllocError, Global};
use std::marker::Model;
use word_mod::{Factor, Modulus};

/// The most rows that a base has.
pub const MOST_ROWS: usize = 32;

/// The modulus of a row, and the factor that makes the word of a fast conversion from a residue.
#[derive(Drop)]
pub struct InputRow {
    modulus: Modulus,
    factor: Factor,
}

impl Model for InputRow {
    ghost use Rattle.std.specs.Prelude.{◌≡◌, ◌<◌};
    ghost use Rattle.word_mod.specs.Moduli.{IsModulus, shoup_of};
    ghost use Rattle.fast_conv.specs.Rows.{Input};

    ghost Value = { Input };

    ghost view = { λ r. record { modulus = r.modulus; factor = r.factor.w } };

    ghost invariant = { λ r. IsModulus r.modulus × (r.factor.w < r.modulus) × (r.factor.shoup ≡ shoup_of r.modulus r.factor.w) };
}

impl InputRow {
    /// Row `i` of conversions of `scale` times the number that the rows stand for.
    fn new(base: &Base, i: usize, scale: u64) -> InputRow
        requires place { i < length base.now }
        requires base { IsBase base.now }
        ensures modulus { result.modulus ≡ slice_index base.now i }
        ensures factor { result.factor * product_of_others base.now i % slice_index base.now i ≡ scale % slice_index base.now i }
    {
        let m = base.modulus(i);
        let factor = m.mul(base.hat_inverse(i), m.reduce(scale));
        InputRow {
            modulus: *m,
            factor: m.factor(factor),
        }
    }

    fn word(&self, x: u64) -> u64
        ensures value { result ≡ x * self.now.factor % self.now.modulus }
        ensures below { result < 2 ^ 61 }
    {
        self.modulus.mul_factor(x, &self.factor)
    }
}

/// The rows of conversions from `base` of `scale` times the number that they stand for.
pub fn input_rows(alloc: Global, base: &Base, scale: u64) -> Result<Vec<InputRow>, AllocError>
    ensures { IfOk result (λ rows. AreInputs base.now scale rows.items) }
{
    let mut rows = Vec::new(alloc);
    for i in 0..base.len() {
        rows.push(InputRow::new(base, i, scale))?;
    }
    Ok(rows)
}

/// The words of a fast conversion of coefficient `k`, one for each row.
pub fn set_words<const N: usize>(
    inputs: &[InputRow],
    from: &[[u64; N]],
    k: usize,
    words: &mut [u64; MOST_ROWS],
)
    requires few { length inputs.now ≤ MOST_ROWS }
    requires rows { length inputs.now ≤ length from.now }
    requires place { k < N }
    ensures value { (i : ℕ) → i < length inputs.now → slice_index words.new i ≡ input_word inputs.now i (word_at from.now i k) }
    ensures below { (i : ℕ) → i < length inputs.now → slice_index words.new i < 2 ^ 61 }
{
    for i in 0..inputs.len() {
        words[i] = inputs[i].word(from[i][k]);
    }
}
