//! The fast floor.

ghost use Rattle.std.specs.Prelude.{◌≡◌, ◌≢◌, ℕ, ◌^◌, ◌<◌, ◌≤◌, ℤ, pos, neg_ℤ, length, slice_index, slice_index_or, All, EachIndex, IfOk};
ghost use Rattle.std.specs.Int.{IsGcd};
ghost use Rattle.ring_law.specs.Moduli.{product};
ghost use Rattle.ring_law.specs.Residues.{residue};
ghost use Rattle.ring_law.specs.Rows.{Represents, word_at};
ghost use Rattle.fast_conv.specs.Converters.{AreFastFloors};
ghost use Rattle.fast_conv.specs.Rows.{IsOutputOf, combination, no_output};

use crate::inputs::{InputRow, MOST_ROWS, input_rows, set_words};
use crate::inverses::inverse_of_product;
use crate::outputs::{OutputRow, RowConstants, set_word};
use res_base::Base;
use std::alloc::{AllocError, Global};
use std::marker::Model;
use word_mod::Modulus;

/// The division of t times a number by a base's product, rounded down but for a small overflow.
#[derive(Drop)]
pub struct FastFloor {
    factor: u64,
    inputs: Vec<InputRow>,
    outputs: Vec<OutputRow>,
}

impl Model for FastFloor {
    ghost use Rattle.std.specs.Prelude.{pos, neg_ℤ, EachIndex, slice_index};
    ghost use Rattle.std.specs.Int.{IsGcd};
    ghost use Rattle.ring_law.specs.Moduli.{product};
    ghost use Rattle.fast_conv.specs.Converters.{ScaledConversion};
    ghost use Rattle.fast_conv.specs.Rows.{AreInputs, AreOutputs, input_moduli, output_moduli};

    ghost Value = { ScaledConversion };

    ghost view = { λ c. record {
      from = input_moduli c.inputs.items;
      to = output_moduli c.outputs.items;
      factor = c.factor;
    } };

    ghost invariant = { λ c. AreInputs (input_moduli c.inputs.items) c.factor c.inputs.items
        × AreOutputs (input_moduli c.inputs.items) (output_moduli c.outputs.items)
        (product (input_moduli c.inputs.items)) (neg_ℤ (pos 1)) (pos c.factor) (pos 0) c.outputs.items
        × EachIndex (output_moduli c.outputs.items)
        (λ j. IsGcd (product (input_moduli c.inputs.items)) (slice_index (output_moduli c.outputs.items) j) 1) };
}

impl FastFloor {
    /// The floor of `t` times a number, from `from` into the moduli `to`.
    pub fn new(alloc: Global, from: &Base, to: &[Modulus], t: u64) -> Result<FastFloor, AllocError>
        requires coprime { EachIndex to.now (λ j. IsGcd (product from.now) (slice_index to.now j) 1) }
        ensures { IfOk result (λ c. c ≡ record { from = from.now; to = to.now; factor = t }) }
    {
        let inputs = input_rows(alloc, from, t)?;
        let mut outputs = Vec::new(alloc);
        for p in to {
            outputs.push(floor_row(alloc, from, *p, t)?)?;
        }
        Ok(FastFloor {
            factor: t,
            inputs,
            outputs,
        })
    }

    /// Where `from` and `to` hold rows of one number, replaces the rows `to` by those of t times
    /// the number divided by the product of the moduli of `from`, rounded down, less an overflow
    /// below the number of these moduli.
    pub fn floor<const N: usize>(&self, from: &[[u64; N]], to: &mut [[u64; N]])
        requires degree { N ≤ 32768 }
        requires from_rows { length from.now ≡ length self.now.from }
        requires to_rows { length to.old ≡ length self.now.to }
        ensures { (d : ℕ → ℤ) → Represents N self.now.from from.now d → Represents N self.now.to to.old d
            → (e : ℕ → ℤ) × AreFastFloors N (product self.now.from) self.now.factor (length self.now.from) d e
            × Represents N self.now.to to.new e }
    {
        let mut words = [0; MOST_ROWS];
        for k in 0..N {
            set_words(&self.inputs, from, k, &mut words);
            replace_column(&self.outputs, &words, k, to);
        }
    }
}

/// Writes coefficient `k` of each row, with the word that stands there.
fn replace_column<const N: usize>(
    outputs: &[OutputRow],
    words: &[u64; MOST_ROWS],
    k: usize,
    to: &mut [[u64; N]],
)
    requires degree { N ≤ 32768 }
    requires rows { length to.old ≡ length outputs.now }
    requires words_below { All (λ r. (i : ℕ) → i < length r.factors → slice_index words.now i < 2 ^ 61) outputs.now }
    requires place { k < N }
    ensures set { (j : ℕ) → j < length outputs.now
        → word_at to.new j k ≡ residue (slice_index_or outputs.now j no_output).modulus
        (combination (slice_index_or outputs.now j no_output) (slice_index words.now) (word_at to.old j k)) }
    ensures rest { (j m : ℕ) → m ≢ k → word_at to.new j m ≡ word_at to.old j m }
{
    for j in 0..outputs.len() {
        let word = outputs[j].combine(words, to[j][k]);
        set_word(&mut to[j], k, word);
    }
}

/// The row modulo `p` of a fast floor from `base`.
fn floor_row(alloc: Global, base: &Base, p: Modulus, t: u64) -> Result<OutputRow, AllocError>
    requires { IsGcd (product base.now) p 1 }
    ensures modulus { IfOk result (λ row. row.modulus ≡ p) }
    ensures value { IfOk result (λ row. IsOutputOf base.now (product base.now) (neg_ℤ (pos 1)) (pos t) (pos 0) row) }
{
    let inverse = inverse_of_product(base, &p);
    let constants = RowConstants {
        scale: p.neg(inverse),
        last_factor: p.mul(p.reduce(t), inverse),
        added: 0,
    };
    OutputRow::new(alloc, base, p, constants)
}
