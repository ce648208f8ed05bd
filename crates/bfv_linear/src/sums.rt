//! Sums, differences and negatives of ciphertexts.

ghost use Rattle.std.specs.Prelude.{◌≡◌, ℕ, ◌+◌, max, ℤ};
ghost use Rattle.set_table.specs.Sets.{degree_of, plain_of};
ghost use Rattle.ring_law.specs.Polynomials.{ring_negative, ring_sum};
ghost use Rattle.bfv_model.specs.Plaintexts.{plain_sum, plain_difference, plain_negative};
ghost use Rattle.bfv_params.specs.Ciphers.{HoldsIn, IsCipherOf};
ghost use Rattle.bfv_linear.specs.Parts.{PartsRepresent};
ghost use Rattle.bfv_linear.specs.Signs.{signed};

use crate::signs::Sign;
use bfv_params::{Cipher, Context};
use rns_poly::neg_into;

/// Writes the sum of two ciphertexts, which has as many parts as the one of them with more.
pub fn add<const N: usize>(ctx: &Context<N>, a: &Cipher<N>, b: &Cipher<N>, out: &mut Cipher<N>)
    requires a_of { IsCipherOf (ctx.now) (a.now) }
    requires b_of { IsCipherOf (ctx.now) (b.now) }
    requires out_of { IsCipherOf (ctx.now) (out.old) }
    ensures of_context { IsCipherOf (ctx.now) (out.new) }
    ensures room { (out.new).room ≡ (out.old).room }
    ensures parts { (out.new).parts ≡ max (a.now).parts (b.now).parts }
    ensures words { (x y : ℕ → ℕ → ℤ) → PartsRepresent N (ctx.now) (a.now) x → PartsRepresent N (ctx.now) (b.now) y →
        PartsRepresent N (ctx.now) (out.new) (λ j. ring_sum (x j) (y j)) }
    ensures sum { (s : ℕ → ℤ) (m other : ℕ → ℕ) (bound more : ℕ) → HoldsIn N (ctx.now) (a.now) s m bound →
        HoldsIn N (ctx.now) (b.now) s other more →
        HoldsIn N (ctx.now) (out.new) s (plain_sum (plain_of (ctx.now).set) m other) (bound + more) }
{
    add_signed(ctx, a, Sign::Plus, b, out)
}

/// Writes the difference of two ciphertexts, which has as many parts as the one of them with more.
pub fn sub<const N: usize>(ctx: &Context<N>, a: &Cipher<N>, b: &Cipher<N>, out: &mut Cipher<N>)
    requires a_of { IsCipherOf (ctx.now) (a.now) }
    requires b_of { IsCipherOf (ctx.now) (b.now) }
    requires out_of { IsCipherOf (ctx.now) (out.old) }
    ensures of_context { IsCipherOf (ctx.now) (out.new) }
    ensures room { (out.new).room ≡ (out.old).room }
    ensures parts { (out.new).parts ≡ max (a.now).parts (b.now).parts }
    ensures words { (x y : ℕ → ℕ → ℤ) → PartsRepresent N (ctx.now) (a.now) x → PartsRepresent N (ctx.now) (b.now) y →
        PartsRepresent N (ctx.now) (out.new) (λ j. ring_sum (x j) (ring_negative (y j))) }
    ensures difference { (s : ℕ → ℤ) (m other : ℕ → ℕ) (bound more : ℕ) → HoldsIn N (ctx.now) (a.now) s m bound →
        HoldsIn N (ctx.now) (b.now) s other more →
        HoldsIn N (ctx.now) (out.new) s (plain_difference (plain_of (ctx.now).set) m other) (bound + more) }
{
    add_signed(ctx, a, Sign::Minus, b, out)
}

/// Writes a ciphertext, to which another is added with the sign. The result has as many parts as the one of them with more.
fn add_signed<const N: usize>(
    ctx: &Context<N>,
    a: &Cipher<N>,
    sign: Sign,
    b: &Cipher<N>,
    out: &mut Cipher<N>,
)
    requires a_of { IsCipherOf (ctx.now) (a.now) }
    requires b_of { IsCipherOf (ctx.now) (b.now) }
    requires out_of { IsCipherOf (ctx.now) (out.old) }
    ensures degree { N ≡ degree_of (ctx.now).set }
    ensures of_context { IsCipherOf (ctx.now) (out.new) }
    ensures room { (out.new).room ≡ (out.old).room }
    ensures parts { (out.new).parts ≡ max (a.now).parts (b.now).parts }
    ensures words { (x y : ℕ → ℕ → ℤ) → PartsRepresent N (ctx.now) (a.now) x → PartsRepresent N (ctx.now) (b.now) y →
        PartsRepresent N (ctx.now) (out.new) (λ j. ring_sum (x j) (signed sign (y j))) }
{
    let moduli = ctx.data_moduli();
    let (level, parts) = (moduli.len(), a.parts().max(b.parts()));
    let mut row = [[0; N]];
    out.set_parts(parts);
    for i in 0..parts as usize * level {
        let place = i % level;
        let (from, other) = (
            a.view().rows_from_to(i, i + 1),
            b.view().rows_from_to(i, i + 1),
        );
        sign.add_into(&moduli[place..place + 1], from, other, &mut row);
        out.set_row(i, &row[0]);
    }
}

/// Writes the negative of a ciphertext.
pub fn neg<const N: usize>(ctx: &Context<N>, a: &Cipher<N>, out: &mut Cipher<N>)
    requires a_of { IsCipherOf (ctx.now) (a.now) }
    requires out_of { IsCipherOf (ctx.now) (out.old) }
    ensures of_context { IsCipherOf (ctx.now) (out.new) }
    ensures room { (out.new).room ≡ (out.old).room }
    ensures parts { (out.new).parts ≡ (a.now).parts }
    ensures words { (x : ℕ → ℕ → ℤ) → PartsRepresent N (ctx.now) (a.now) x →
        PartsRepresent N (ctx.now) (out.new) (λ j. ring_negative (x j)) }
    ensures negative { (s : ℕ → ℤ) (m : ℕ → ℕ) (bound : ℕ) → HoldsIn N (ctx.now) (a.now) s m bound →
        HoldsIn N (ctx.now) (out.new) s (plain_negative (plain_of (ctx.now).set) m) bound }
{
    let moduli = ctx.data_moduli();
    let (level, parts) = (moduli.len(), a.parts());
    let mut row = [[0; N]];
    out.set_parts(parts);
    for i in 0..parts as usize * level {
        let place = i % level;
        neg_into(
            &moduli[place..place + 1],
            a.view().rows_from_to(i, i + 1),
            &mut row,
        );
        out.set_row(i, &row[0]);
    }
}
