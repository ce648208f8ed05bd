//! Rows that are added or taken away.

ghost use Rattle.std.specs.Prelude.{◌≡◌, ℕ, ◌≤◌, ℤ, length};
ghost use Rattle.ring_law.specs.Polynomials.{ring_sum};
ghost use Rattle.rns_poly.specs.Rows.{AreReduced, EachRepresents};
ghost use Rattle.bfv_linear.specs.Signs.{signed};

use rns_poly::{View, ViewMut, add_into, sub_into};
use word_mod::Modulus;

/// Whether the second of two operands is added to the first or taken from it.
#[derive(Clone, Copy)]
pub enum Sign {
    Plus,
    Minus,
}

impl Sign {
    /// Writes the rows of a, to which those of b are added with the sign.
    pub fn add_into<const N: usize>(
        self,
        moduli: &[Modulus],
        a: View<'_, N>,
        b: View<'_, N>,
        out: ViewMut<'_, N>,
    )
        requires degree { N ≤ 32768 }
        requires a_length { length a.rows.now ≡ length moduli.now }
        requires b_length { length b.rows.now ≡ length moduli.now }
        requires out_length { length out.old ≡ length moduli.now }
        requires a_reduced { AreReduced N moduli.now a.rows.now }
        requires b_reduced { AreReduced N moduli.now b.rows.now }
        ensures represents { (x y : ℕ → ℕ → ℤ) → EachRepresents N moduli.now a.entry.rows.now x →
            EachRepresents N moduli.now b.entry.rows.now y →
            EachRepresents N moduli.now out.new (λ i. ring_sum (x i) (signed self (y i))) }
        ensures reduced { AreReduced N moduli.now out.new }
    {
        match self {
            Sign::Plus => add_into(moduli, a, b, out),
            Sign::Minus => sub_into(moduli, a, b, out),
        }
    }
}
