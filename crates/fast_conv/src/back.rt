//! The way back from a base and one modulus more.

ghost use Rattle.std.specs.Prelude.{◌≡◌, ℕ, ◌+◌, ◌-◌, ◌*◌, ◌/◌, ◌<◌, ◌≤◌, ℤ, pos, neg_ℤ, ◌*ℤ◌, [], ◌∷◌, ◌++◌, length, IfOk};
ghost use Rattle.std.specs.Int.{IsGcd};
ghost use Rattle.ring_law.specs.Moduli.{product};
ghost use Rattle.ring_law.specs.Polynomials.{AllWithin};
ghost use Rattle.ring_law.specs.Rows.{Represents};
ghost use Rattle.fast_conv.specs.Rows.{IsOutputOf};

use crate::inputs::{InputRow, MOST_ROWS, input_rows, set_words};
use crate::inverses::inverse_of_product;
use crate::outputs::{OutputRow, RowConstants, set_column};
use res_base::Base;
use std::alloc::{AllocError, Global};
use std::marker::Model;
use word_mod::Modulus;

/// The exact conversion from a base and one modulus more, which tells how often the fast
/// conversion from the base adds its product.
#[derive(Drop)]
pub struct SkBack {
    inputs: Vec<InputRow>,
    overflow: OutputRow,
    outputs: Vec<OutputRow>,
}

impl Model for SkBack {
    ghost use Rattle.fast_conv.specs.Converters.{ExactConversion};
    ghost use Rattle.fast_conv.specs.Rows.{IsWayBack, input_moduli, output_moduli};

    ghost Value = { ExactConversion };

    ghost view = { λ c. record {
      base = input_moduli c.inputs.items;
      sk = c.overflow.modulus;
      to = output_moduli c.outputs.items;
    } };

    ghost invariant = { λ c. IsWayBack (input_moduli c.inputs.items) (output_moduli c.outputs.items)
        c.inputs.items c.overflow c.outputs.items };
}

impl SkBack {
    /// The way back from the rows of `base` and one under `sk` into the moduli `to`.
    pub fn new(
        alloc: Global,
        base: &Base,
        sk: &Modulus,
        to: &[Modulus],
    ) -> Result<SkBack, AllocError>
        requires room { length base.now + sk.now / 4 ≤ (sk.now - 1) / 2 }
        requires coprime { IsGcd (product base.now) sk.now 1 }
        ensures { IfOk result (λ c. c ≡ record { base = base.now; sk = sk.now; to = to.now }) }
    {
        let half = (sk.value() - 1) / 2;
        let inputs = input_rows(alloc, base, 1)?;
        let overflow = overflow_row(alloc, base, *sk)?;
        let mut outputs = Vec::new(alloc);
        for p in to {
            outputs.push(back_row(alloc, base, *p, half)?)?;
        }
        Ok(SkBack {
            inputs,
            overflow,
            outputs,
        })
    }

    /// Writes the residues of what the rows `from` stand for: those of the base, and then that
    /// under `sk`. Each coefficient is at most the base's product times a quarter of `sk`, rounded
    /// down, in absolute value.
    pub fn back<const N: usize>(&self, from: &[[u64; N]], to: &mut [[u64; N]])
        requires degree { N ≤ 32768 }
        requires from_rows { length from.now ≡ length self.now.base + 1 }
        requires to_rows { length to.old ≡ length self.now.to }
        ensures { (x : ℕ → ℤ) → AllWithin N (product self.now.base * (self.now.sk / 4)) x
            → Represents N (self.now.base ++ self.now.sk ∷ []) from.now x
            → Represents N self.now.to to.new x }
    {
        let mut words = [0; MOST_ROWS];
        for k in 0..N {
            set_words(&self.inputs, from, k, &mut words);
            let overflow = self.overflow.combine(&words, from[self.inputs.len()][k]);
            set_column(&self.outputs, &words, overflow, k, to);
        }
    }
}

/// The row modulo `sk` of a conversion's overflow, to which half of `sk` is added.
fn overflow_row(alloc: Global, base: &Base, sk: Modulus) -> Result<OutputRow, AllocError>
    requires { IsGcd (product base.now) sk 1 }
    ensures modulus { IfOk result (λ row. row.modulus ≡ sk) }
    ensures value { IfOk result (λ row. IsOutputOf base.now (product base.now) (pos 1) (neg_ℤ (pos 1))
        (pos (product base.now) *ℤ pos ((sk - 1) / 2)) row) }
{
    let inverse = inverse_of_product(base, &sk);
    let constants = RowConstants {
        scale: inverse,
        last_factor: sk.neg(inverse),
        added: (sk.value() - 1) / 2,
    };
    OutputRow::new(alloc, base, sk, constants)
}

/// The row modulo `p` of a way back from `base`, where `half` was added to the overflow.
fn back_row(alloc: Global, base: &Base, p: Modulus, half: u64) -> Result<OutputRow, AllocError>
    ensures modulus { IfOk result (λ row. row.modulus ≡ p) }
    ensures value { IfOk result (λ row. IsOutputOf base.now 1 (pos 1) (neg_ℤ (pos (product base.now)))
        (pos (product base.now) *ℤ pos half) row) }
{
    let product = base.product_mod(&p);
    let constants = RowConstants {
        scale: p.reduce(1),
        last_factor: p.neg(product),
        added: p.mul(product, p.reduce(half)),
    };
    OutputRow::new(alloc, base, p, constants)
}
