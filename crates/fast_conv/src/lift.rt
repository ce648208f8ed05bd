//! The Montgomery lift.

ghost use Rattle.std.specs.Prelude.{◌≡◌, ℕ, ◌*◌, ◌+◌, ◌/◌, ◌%◌, ◌^◌, ◌<◌, ◌≤◌, ℤ, pos, neg_ℤ, ◌*ℤ◌, length, slice_index, All, IfOk};
ghost use Rattle.set_table.specs.Sets.{m_tilde};
ghost use Rattle.ring_law.specs.Moduli.{product};
ghost use Rattle.ring_law.specs.Rows.{Represents};
ghost use Rattle.bfv_model.specs.Conversions.{IsMontgomeryLift};
ghost use Rattle.fast_conv.specs.Rows.{AreCorrections, IsOutputOf, correction_word};

use crate::inputs::{InputRow, MOST_ROWS, input_rows, set_words};
use crate::inverses::{M_TILDE, inverse_of_m_tilde};
use crate::outputs::{OutputRow, RowConstants, set_column, sum_of_products};
use res_base::Base;
use std::alloc::{AllocError, Global};
use std::marker::Model;
use word_mod::Modulus;

/// The conversion from a base into other moduli of a number that is little more than half of the
/// base's product in size, by Montgomery's method modulo `M_TILDE`.
#[derive(Drop)]
pub struct MontLift {
    inputs: Vec<InputRow>,
    corrections: Vec<u64>,
    outputs: Vec<OutputRow>,
}

impl Model for MontLift {
    ghost use Rattle.std.specs.Prelude.{◌/◌, pos, neg_ℤ, ◌*ℤ◌};
    ghost use Rattle.set_table.specs.Sets.{m_tilde};
    ghost use Rattle.ring_law.specs.Moduli.{product};
    ghost use Rattle.fast_conv.specs.Converters.{Conversion};
    ghost use Rattle.fast_conv.specs.Rows.{AreCorrections, AreInputs, AreOutputs, input_moduli, output_moduli};

    ghost Value = { Conversion };

    ghost view = { λ c. record { from = input_moduli c.inputs.items; to = output_moduli c.outputs.items } };

    ghost invariant = { λ c. AreInputs (input_moduli c.inputs.items) m_tilde c.inputs.items
        × AreCorrections (input_moduli c.inputs.items) c.corrections.items
        × AreOutputs (input_moduli c.inputs.items) (output_moduli c.outputs.items) m_tilde (pos 1)
        (pos (product (input_moduli c.inputs.items)))
        (neg_ℤ (pos (m_tilde / 2) *ℤ pos (product (input_moduli c.inputs.items)))) c.outputs.items };
}

impl MontLift {
    /// The lift from `from` into the moduli `to`.
    pub fn new(alloc: Global, from: &Base, to: &[Modulus]) -> Result<MontLift, AllocError>
        ensures { IfOk result (λ c. c ≡ record { from = from.now; to = to.now }) }
    {
        let inputs = input_rows(alloc, from, M_TILDE)?;
        let corrections = corrections(alloc, from)?;
        let mut outputs = Vec::new(alloc);
        for p in to {
            outputs.push(lifting_row(alloc, from, *p)?)?;
        }
        Ok(MontLift {
            inputs,
            corrections,
            outputs,
        })
    }

    /// Writes rows of a number that is congruent to what the rows `from` stand for modulo the
    /// product q of their moduli, and at most `q * (1/2 + L / M_TILDE)` in absolute value, where L
    /// is the number of these rows.
    pub fn lift<const N: usize>(&self, from: &[[u64; N]], to: &mut [[u64; N]])
        requires degree { N ≤ 32768 }
        requires from_rows { length from.now ≡ length self.now.from }
        requires to_rows { length to.old ≡ length self.now.to }
        ensures { (x : ℕ → ℤ) → Represents N self.now.from from.now x
            → (y : ℕ → ℤ) × IsMontgomeryLift N (product self.now.from) m_tilde (length self.now.from) x y
            × Represents N self.now.to to.new y }
    {
        let mut words = [0; MOST_ROWS];
        for k in 0..N {
            set_words(&self.inputs, from, k, &mut words);
            let correction = correction(&self.corrections, &words);
            set_column(&self.outputs, &words, correction, k, to);
        }
    }
}

/// What makes a conversion divisible by `M_TILDE`, times the base's product, and half of `M_TILDE`
/// more.
fn correction(corrections: &[u64], words: &[u64; MOST_ROWS]) -> u64
    requires few { length corrections.now ≤ 32 }
    requires words_below { (i : ℕ) → i < length corrections.now → slice_index words.now i < 2 ^ 61 }
    requires below { All (λ c. c < 2 ^ 61) corrections.now }
    ensures { result ≡ correction_word corrections.now (slice_index words.now) }
{
    let modulus = M_TILDE as u128;
    ((sum_of_products(words, corrections) + modulus / 2) % modulus) as u64
}

/// For each modulus the negative of its inverse modulo `M_TILDE`.
fn corrections(alloc: Global, base: &Base) -> Result<Vec<u64>, AllocError>
    ensures { IfOk result (λ words. AreCorrections base.now words.items) }
{
    let mut words = Vec::new(alloc);
    for i in 0..base.len() {
        words.push(negative_inverse_mod_m_tilde(*base.modulus(i)))?;
    }
    Ok(words)
}

/// The negative of the inverse of `q` modulo `M_TILDE`.
fn negative_inverse_mod_m_tilde(q: Modulus) -> u64
    ensures value { (result * q + 1) % m_tilde ≡ 0 }
    ensures below { result < m_tilde }
{
    let multiple = inverse_of_m_tilde(q) as u128 * M_TILDE as u128;
    ((multiple - 1) / q.value() as u128) as u64
}

/// The row modulo `p` of a lift from `base`.
fn lifting_row(alloc: Global, base: &Base, p: Modulus) -> Result<OutputRow, AllocError>
    ensures modulus { IfOk result (λ row. row.modulus ≡ p) }
    ensures value { IfOk result (λ row. IsOutputOf base.now m_tilde (pos 1) (pos (product base.now))
        (neg_ℤ (pos (m_tilde / 2) *ℤ pos (product base.now))) row) }
{
    let inverse = inverse_of_m_tilde(p);
    let scaled = p.mul(base.product_mod(&p), inverse);
    let added = p.neg(p.mul(p.reduce(M_TILDE / 2), scaled));
    let constants = RowConstants {
        scale: inverse,
        last_factor: scaled,
        added,
    };
    OutputRow::new(alloc, base, p, constants)
}
