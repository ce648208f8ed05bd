//! The turn of rows.

ghost use Rattle.std.specs.Prelude.{◌≡◌, true, false, ℕ, ℤ, ◌-◌, ◌*◌, ◌%◌, ◌<◌, ◌≤◌, length};
ghost use Rattle.ring_law.specs.Residues.{HasInverse};
ghost use Rattle.ring_law.specs.Polynomials.{ring_turn};
ghost use Rattle.ring_law.specs.Rows.{IsReduced, RowRepresents};
ghost use Rattle.rns_poly.specs.Rows.{AreReduced, EachRepresents};
ghost use Rattle.bfv_params.specs.Contexts.{data_in};

use bfv_params::Context;
use rns_poly::{View, ViewMut};
use word_mod::Modulus;

/// Writes the rows, one for each data modulus, of the turn of X to `X^g` of what the rows of `from` stand for. The
/// Galois element g is odd.
pub fn turn_rows<const N: usize>(ctx: &Context<N>, g: u32, from: View<'_, N>, to: ViewMut<'_, N>)
    requires odd { g % 2 ≡ 1 }
    requires element_below { g < 2 * N }
    requires from_length { length from.rows.now ≡ (ctx.now).level }
    requires to_length { length to.old ≡ (ctx.now).level }
    requires from_reduced { AreReduced N (data_in (ctx.now)) from.rows.now }
    ensures represents { (x : ℕ → ℕ → ℤ) → EachRepresents N (data_in (ctx.now)) from.entry.rows.now x →
        EachRepresents N (data_in (ctx.now)) to.new (λ i. ring_turn N g (x i)) }
    ensures reduced { AreReduced N (data_in (ctx.now)) to.new }
{
    let moduli = ctx.data_moduli();
    for i in 0..moduli.len() {
        turn_row(&moduli[i], g, &from.rows[i], &mut to[i]);
    }
}

/// Writes the turn of one row: word i goes to the place that `g * i` is modulo N, as it is or as its negative.
fn turn_row<const N: usize>(m: &Modulus, g: u32, from: &[u64; N], to: &mut [u64; N])
    requires degree { (0 < N) × (N ≤ 32768) }
    requires element_below { g < 2 * N }
    requires unit { HasInverse N g }
    requires from_reduced { IsReduced N m.now from.now }
    ensures represents { (x : ℕ → ℤ) → RowRepresents N m.now from.now x → RowRepresents N m.now to.new (ring_turn N g x) }
    ensures reduced { IsReduced N m.now to.new }
{
    let mut power = 0;
    for i in 0..N {
        to[power % N] = turned_word(m, from[i], power < N);
        power = (power + g as usize) % (2 * N);
    }
}

/// The word of a coefficient whose power of X is below `X^N`, or from it on.
#[inline(always)]
fn turned_word(m: &Modulus, word: u64, is_low: bool) -> u64
    requires { word < m.now }
    ensures low { is_low ≡ true → result ≡ word }
    ensures high { is_low ≡ false → result ≡ (m.now - word) % m.now }
{
    if is_low { word } else { m.neg(word) }
}
