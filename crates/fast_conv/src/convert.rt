//! Fast conversion.

ghost use Rattle.std.specs.Prelude.{◌≡◌, ℕ, ◌≤◌, ℤ, pos, length, IfOk};
ghost use Rattle.ring_law.specs.Moduli.{product};
ghost use Rattle.ring_law.specs.Rows.{Represents};
ghost use Rattle.fast_conv.specs.Converters.{AreFastConversions};
ghost use Rattle.fast_conv.specs.Rows.{IsOutputOf};

use crate::inputs::{InputRow, MOST_ROWS, input_rows, set_words};
use crate::outputs::{OutputRow, RowConstants, set_column};
use res_base::Base;
use std::alloc::{AllocError, Global};
use std::marker::Model;
use word_mod::Modulus;

/// The conversion from a base into other moduli, up to a small multiple of the base's product.
#[derive(Drop)]
pub struct FastConv {
    inputs: Vec<InputRow>,
    outputs: Vec<OutputRow>,
}

impl Model for FastConv {
    ghost use Rattle.std.specs.Prelude.{pos};
    ghost use Rattle.fast_conv.specs.Converters.{Conversion};
    ghost use Rattle.fast_conv.specs.Rows.{AreInputs, AreOutputs, input_moduli, output_moduli};

    ghost Value = { Conversion };

    ghost view = { λ c. record { from = input_moduli c.inputs.items; to = output_moduli c.outputs.items } };

    ghost invariant = { λ c. AreInputs (input_moduli c.inputs.items) 1 c.inputs.items
        × AreOutputs (input_moduli c.inputs.items) (output_moduli c.outputs.items) 1 (pos 1) (pos 0) (pos 0)
        c.outputs.items };
}

impl FastConv {
    /// The conversion from `from` into the moduli `to`.
    pub fn new(alloc: Global, from: &Base, to: &[Modulus]) -> Result<FastConv, AllocError>
        ensures { IfOk result (λ c. c ≡ record { from = from.now; to = to.now }) }
    {
        let inputs = input_rows(alloc, from, 1)?;
        let mut outputs = Vec::new(alloc);
        for p in to {
            outputs.push(converting_row(alloc, from, *p)?)?;
        }
        Ok(FastConv { inputs, outputs })
    }

    /// Writes rows of a number that is what the rows `from` stand for, from 0 to q - 1, and fewer
    /// times q more than there are rows, where q is the product of their moduli.
    pub fn convert<const N: usize>(&self, from: &[[u64; N]], to: &mut [[u64; N]])
        requires degree { N ≤ 32768 }
        requires from_rows { length from.now ≡ length self.now.from }
        requires to_rows { length to.old ≡ length self.now.to }
        ensures { (x : ℕ → ℤ) → Represents N self.now.from from.now x
            → (y : ℕ → ℤ) × AreFastConversions N (product self.now.from) (length self.now.from) x y
            × Represents N self.now.to to.new y }
    {
        let mut words = [0; MOST_ROWS];
        for k in 0..N {
            set_words(&self.inputs, from, k, &mut words);
            set_column(&self.outputs, &words, 0, k, to);
        }
    }
}

/// The row modulo `p` of a fast conversion from `base`.
fn converting_row(alloc: Global, base: &Base, p: Modulus) -> Result<OutputRow, AllocError>
    ensures modulus { IfOk result (λ row. row.modulus ≡ p) }
    ensures value { IfOk result (λ row. IsOutputOf base.now 1 (pos 1) (pos 0) (pos 0) row) }
{
    let constants = RowConstants {
        scale: p.reduce(1),
        last_factor: 0,
        added: 0,
    };
    OutputRow::new(alloc, base, p, constants)
}
