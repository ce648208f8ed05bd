//! Products of a ciphertext with a plaintext or a constant.

ghost use Rattle.std.specs.Prelude.{◌≡◌, ℕ, ◌+◌, ◌*◌, ◌*ℤ◌, ◌/◌, ◌<◌, ◌≤◌, ℤ, pos, nat_abs, length, slice_index, slice_index_or, []};
ghost use Rattle.set_table.specs.Sets.{plain_of};
ghost use Rattle.ring_law.specs.Residues.{centred_residue};
ghost use Rattle.ring_law.specs.Polynomials.{ring_product};
ghost use Rattle.ring_law.specs.Rows.{IsReduced, RowRepresents};
ghost use Rattle.neg_ntt.specs.Parameters.{IsTransformBy};
ghost use Rattle.rns_poly.specs.Rows.{AreReduced};
ghost use Rattle.rns_poly.specs.Transforms.{AreTransforms};
ghost use Rattle.bfv_model.specs.Plaintexts.{plain_multiple, plain_product};
ghost use Rattle.bfv_params.specs.Contexts.{data_in, transforms_in, scratch_rows_in};
ghost use Rattle.bfv_params.specs.Ciphers.{HoldsIn, IsCipherOf};
ghost use Rattle.bfv_linear.specs.Parts.{PartsRepresent};
ghost use Rattle.bfv_linear.specs.Plaintexts.{centred_plain};

use crate::centred::{centred_word, set_centred};
use bfv_params::{Cipher, Context};
use neg_ntt::Transform;
use rns_poly::{PolyBuf, View, ViewMut, forward_all, pointwise_into, scale_each, split};

/// Writes the product of a ciphertext and a plaintext, whose N coefficients are modulo the plaintext modulus t: each part
/// is multiplied by the plaintext, its coefficients taken from `-(t / 2)` to `t / 2`.
pub fn mul_plain<const N: usize>(
    ctx: &Context<N>,
    a: &Cipher<N>,
    plain: &[u64; N],
    out: &mut Cipher<N>,
    scratch: &mut PolyBuf<N>,
)
    requires a_of { IsCipherOf (ctx.now) (a.now) }
    requires out_of { IsCipherOf (ctx.now) (out.old) }
    requires below { IsReduced N (plain_of (ctx.now).set) plain.now }
    requires scratch_rows { length scratch.old ≡ scratch_rows_in (ctx.now) }
    ensures of_context { IsCipherOf (ctx.now) (out.new) }
    ensures room { (out.new).room ≡ (out.old).room }
    ensures parts { (out.new).parts ≡ (a.now).parts }
    ensures words { (x : ℕ → ℕ → ℤ) → PartsRepresent N (ctx.now) (a.now) x → PartsRepresent N (ctx.now) (out.new)
        (λ j. ring_product N (x j) (centred_plain (plain_of (ctx.now).set) (slice_index plain.now))) }
    ensures product { (s : ℕ → ℤ) (m : ℕ → ℕ) (bound : ℕ) → HoldsIn N (ctx.now) (a.now) s m bound →
        HoldsIn N (ctx.now) (out.new) s (plain_product N (plain_of (ctx.now).set) m (slice_index plain.now))
        (N * (plain_of (ctx.now).set / 2) * bound) }
    ensures scratch_rows { length scratch.new ≡ length scratch.old }
{
    let moduli = ctx.data_moduli();
    let (factors, _) = split(scratch.view_mut(), moduli.len());
    set_centred(moduli, ctx.set().plain(), plain, factors);
    forward_all(ctx.data_transforms(), factors);
    multiply_rows(ctx, a, View { rows: factors }, out);
}

/// Multiplies each row of a ciphertext by a polynomial, whose transforms, one for each data modulus, are the factors.
fn multiply_rows<const N: usize>(
    ctx: &Context<N>,
    a: &Cipher<N>,
    factors: View<'_, N>,
    out: &mut Cipher<N>,
)
    requires a_of { IsCipherOf (ctx.now) (a.now) }
    requires out_of { IsCipherOf (ctx.now) (out.old) }
    requires factors_length { length factors.rows.now ≡ (ctx.now).level }
    requires factors_reduced { AreReduced N (data_in (ctx.now)) factors.rows.now }
    ensures of_context { IsCipherOf (ctx.now) (out.new) }
    ensures room { (out.new).room ≡ (out.old).room }
    ensures parts { (out.new).parts ≡ (a.now).parts }
    ensures words { (y : ℕ → ℤ) → AreTransforms (transforms_in (ctx.now)) factors.entry.rows.now (λ i. y) →
        (x : ℕ → ℕ → ℤ) → PartsRepresent N (ctx.now) (a.now) x →
        PartsRepresent N (ctx.now) (out.new) (λ j. ring_product N (x j) y) }
{
    let (moduli, transforms) = (ctx.data_moduli(), ctx.data_transforms());
    let (level, parts) = (moduli.len(), a.parts());
    let (mut row, mut product) = ([[0; N]], [[0; N]]);
    out.set_parts(parts);
    for i in 0..parts as usize * level {
        let place = i % level;
        row[0] = *a.view().row(i);
        let factor = factors.rows_from_to(place, place + 1);
        multiply_row(&transforms[place], factor, &mut row, &mut product);
        out.set_row(i, &product[0]);
    }
}

/// Writes the product of a row with the polynomial whose transform is the factor, and leaves the transform of the row in
/// its place. Each of the three is one row.
fn multiply_row<const N: usize>(
    transform: &Transform<N>,
    factor: View<'_, N>,
    row: ViewMut<'_, N>,
    product: ViewMut<'_, N>,
)
    requires degree { N ≤ 32768 }
    requires factor_length { length factor.rows.now ≡ 1 }
    requires row_length { length row.old ≡ 1 }
    requires product_length { length product.old ≡ 1 }
    requires factor_reduced { IsReduced N (transform.now).modulus (slice_index_or factor.rows.now 0 []) }
    requires row_reduced { IsReduced N (transform.now).modulus (slice_index_or row.old 0 []) }
    ensures represents { (x y : ℕ → ℤ) → RowRepresents N (transform.now).modulus (slice_index_or row.old 0 []) x →
        IsTransformBy transform.now (slice_index_or factor.entry.rows.now 0 []) y →
        RowRepresents N (transform.now).modulus (slice_index_or product.new 0 []) (ring_product N x y) }
    ensures reduced { IsReduced N (transform.now).modulus (slice_index_or product.new 0 []) }
{
    let modulus = transform.modulus();
    transform.forward(&mut row[0]);
    pointwise_into(&[*modulus], View { rows: row }, factor, product);
    transform.inverse(&mut product[0]);
}

/// Writes k times a ciphertext: each part is multiplied by k, taken from `-(t / 2)` to `t / 2`.
pub fn mul_const<const N: usize>(ctx: &Context<N>, a: &Cipher<N>, k: u64, out: &mut Cipher<N>)
    requires a_of { IsCipherOf (ctx.now) (a.now) }
    requires out_of { IsCipherOf (ctx.now) (out.old) }
    requires below { k < plain_of (ctx.now).set }
    ensures of_context { IsCipherOf (ctx.now) (out.new) }
    ensures room { (out.new).room ≡ (out.old).room }
    ensures parts { (out.new).parts ≡ (a.now).parts }
    ensures words { (x : ℕ → ℕ → ℤ) → PartsRepresent N (ctx.now) (a.now) x → PartsRepresent N (ctx.now) (out.new)
        (λ j i. centred_residue (plain_of (ctx.now).set) (pos k) *ℤ x j i) }
    ensures multiple { (s : ℕ → ℤ) (m : ℕ → ℕ) (bound : ℕ) → HoldsIn N (ctx.now) (a.now) s m bound →
        HoldsIn N (ctx.now) (out.new) s (plain_multiple (plain_of (ctx.now).set) (pos k) m)
        (nat_abs (centred_residue (plain_of (ctx.now).set) (pos k)) * bound) }
{
    let moduli = ctx.data_moduli();
    let (level, parts, t) = (moduli.len(), a.parts(), ctx.plain_modulus().value());
    let mut row = [[0; N]];
    out.set_parts(parts);
    for i in 0..parts as usize * level {
        let place = i % level;
        row[0] = *a.view().row(i);
        let factor = centred_word(&moduli[place], t, k);
        scale_each(&moduli[place..place + 1], &[factor], &mut row);
        out.set_row(i, &row[0]);
    }
}
