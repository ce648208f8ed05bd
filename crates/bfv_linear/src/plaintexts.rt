//! Sums and differences of a ciphertext and a plaintext.

ghost use Rattle.std.specs.Prelude.{◌≡◌, ℕ, ◌+◌, ℤ, slice_index};
ghost use Rattle.set_table.specs.Sets.{degree_of, plain_of};
ghost use Rattle.ring_law.specs.Polynomials.{ring_negative, ring_sum};
ghost use Rattle.ring_law.specs.Rows.{IsReduced};
ghost use Rattle.bfv_model.specs.Plaintexts.{plain_sum, plain_difference};
ghost use Rattle.bfv_params.specs.Ciphers.{HoldsIn, IsCipherOf};
ghost use Rattle.bfv_linear.specs.Parts.{PartsRepresent, at_first_part, scaled_polynomial};
ghost use Rattle.bfv_linear.specs.Signs.{signed};

use crate::signs::Sign;
use bfv_params::{Cipher, Context};
use rns_poly::View;

/// Writes the sum of a ciphertext and a plaintext, whose N coefficients are modulo the plaintext modulus t: the scaled
/// plaintext is added to part 0.
pub fn add_plain<const N: usize>(
    ctx: &Context<N>,
    a: &Cipher<N>,
    plain: &[u64; N],
    out: &mut Cipher<N>,
)
    requires a_of { IsCipherOf (ctx.now) (a.now) }
    requires out_of { IsCipherOf (ctx.now) (out.old) }
    requires below { IsReduced N (plain_of (ctx.now).set) plain.now }
    ensures of_context { IsCipherOf (ctx.now) (out.new) }
    ensures room { (out.new).room ≡ (out.old).room }
    ensures parts { (out.new).parts ≡ (a.now).parts }
    ensures words { (x : ℕ → ℕ → ℤ) → PartsRepresent N (ctx.now) (a.now) x → PartsRepresent N (ctx.now) (out.new)
        (λ j. at_first_part (λ y. ring_sum y (scaled_polynomial (ctx.now) (slice_index plain.now))) j (x j)) }
    ensures sum { (s : ℕ → ℤ) (m : ℕ → ℕ) (bound : ℕ) → HoldsIn N (ctx.now) (a.now) s m bound →
        HoldsIn N (ctx.now) (out.new) s (plain_sum (plain_of (ctx.now).set) m (slice_index plain.now)) (bound + plain_of (ctx.now).set) }
{
    add_signed_plain(ctx, a, Sign::Plus, plain, out)
}

/// Writes the difference of a ciphertext and a plaintext, whose N coefficients are modulo the plaintext modulus t: the
/// scaled plaintext is taken from part 0.
pub fn sub_plain<const N: usize>(
    ctx: &Context<N>,
    a: &Cipher<N>,
    plain: &[u64; N],
    out: &mut Cipher<N>,
)
    requires a_of { IsCipherOf (ctx.now) (a.now) }
    requires out_of { IsCipherOf (ctx.now) (out.old) }
    requires below { IsReduced N (plain_of (ctx.now).set) plain.now }
    ensures of_context { IsCipherOf (ctx.now) (out.new) }
    ensures room { (out.new).room ≡ (out.old).room }
    ensures parts { (out.new).parts ≡ (a.now).parts }
    ensures words { (x : ℕ → ℕ → ℤ) → PartsRepresent N (ctx.now) (a.now) x → PartsRepresent N (ctx.now) (out.new)
        (λ j. at_first_part (λ y. ring_sum y (ring_negative (scaled_polynomial (ctx.now) (slice_index plain.now)))) j (x j)) }
    ensures difference { (s : ℕ → ℤ) (m : ℕ → ℕ) (bound : ℕ) → HoldsIn N (ctx.now) (a.now) s m bound →
        HoldsIn N (ctx.now) (out.new) s (plain_difference (plain_of (ctx.now).set) m (slice_index plain.now)) (bound + plain_of (ctx.now).set) }
{
    add_signed_plain(ctx, a, Sign::Minus, plain, out)
}

/// Writes a ciphertext, to whose part 0 the scaled plaintext is added with the sign.
fn add_signed_plain<const N: usize>(
    ctx: &Context<N>,
    a: &Cipher<N>,
    sign: Sign,
    plain: &[u64; N],
    out: &mut Cipher<N>,
)
    requires a_of { IsCipherOf (ctx.now) (a.now) }
    requires out_of { IsCipherOf (ctx.now) (out.old) }
    requires below { IsReduced N (plain_of (ctx.now).set) plain.now }
    ensures degree { N ≡ degree_of (ctx.now).set }
    ensures of_context { IsCipherOf (ctx.now) (out.new) }
    ensures room { (out.new).room ≡ (out.old).room }
    ensures parts { (out.new).parts ≡ (a.now).parts }
    ensures words { (x : ℕ → ℕ → ℤ) → PartsRepresent N (ctx.now) (a.now) x → PartsRepresent N (ctx.now) (out.new)
        (λ j. at_first_part (λ y. ring_sum y (signed sign (scaled_polynomial (ctx.now) (slice_index plain.now)))) j (x j)) }
{
    let moduli = ctx.data_moduli();
    let (level, parts) = (moduli.len(), a.parts());
    let (mut scaled, mut row) = ([[0; N]], [[0; N]]);
    out.set_parts(parts);
    for i in 0..parts as usize * level {
        if i < level {
            ctx.scaled_row_into(i, plain, &mut scaled);
            let from = a.view().rows_from_to(i, i + 1);
            sign.add_into(&moduli[i..i + 1], from, View { rows: &scaled }, &mut row);
            out.set_row(i, &row[0]);
        } else {
            out.set_row(i, a.view().row(i));
        }
    }
}
