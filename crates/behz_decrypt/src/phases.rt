//! The phase of a cipher under a secret.

ghost use Rattle.std.specs.Prelude.{◌≡◌, ℕ, ℤ, ◌*◌, ◌<◌, ◌≤◌, length};
ghost use Rattle.ring_law.specs.Polynomials.{ring_product, ring_sum};
ghost use Rattle.ring_law.specs.Rows.{Represents, WordsRepresent, listed_polynomial};
ghost use Rattle.rns_poly.specs.Rows.{AreReduced};
ghost use Rattle.rns_poly.specs.Transforms.{AreTransforms};
ghost use Rattle.bfv_model.specs.Holds.{listed_word, phase};
ghost use Rattle.bfv_params.specs.Ciphers.{IsCipherOf};
ghost use Rattle.bfv_params.specs.Contexts.{data_in, transforms_in};

use bfv_params::{
    Cipher, Context, Secret, multiply_transforms_into, product_into, transform_into,
    transform_small_into,
};
use rns_poly::{View, ViewMut, add_into, split};

/// Writes the rows of the phase `c0 + c1 * s + c2 * s^2` of the cipher under the secret s, modulo
/// the data moduli, as `c0 + (c1 + c2 * s) * s`.
pub fn phase_into<const N: usize>(
    ctx: &Context<N>,
    secret: &Secret<N>,
    cipher: &Cipher<N>,
    out: ViewMut<'_, N>,
    scratch: ViewMut<'_, N>,
)
    requires cipher_of { IsCipherOf (ctx.now) (cipher.now) }
    requires count { length out.old ≡ (ctx.now).level }
    requires room { length scratch.old ≡ 4 * (ctx.now).level }
    ensures represents { (x0 x1 x2 : ℕ → ℤ) →
        WordsRepresent N (data_in (ctx.now)) (listed_word (ctx.now).level (cipher.now).rows 0) x0 →
        WordsRepresent N (data_in (ctx.now)) (listed_word (ctx.now).level (cipher.now).rows 1) x1 →
        WordsRepresent N (data_in (ctx.now)) (listed_word (ctx.now).level (cipher.now).rows 2) x2 →
        Represents N (data_in (ctx.now)) out.new (phase N x0 x1 x2 (listed_polynomial (secret.now).small)) }
    ensures reduced { AreReduced N (data_in (ctx.now)) out.new }
{
    let level = out.len();
    let (small, rest) = split(scratch, level);
    let (slope, rest) = split(rest, level);
    transform_small_into(ctx, secret.small(), &mut *small);
    slope_into(ctx, cipher, View { rows: small }, &mut *slope, &mut *rest);
    let (product, _) = split(rest, level);
    product_into(
        ctx,
        View { rows: slope },
        View { rows: small },
        &mut *product,
    );
    add_into(
        ctx.data_moduli(),
        cipher.part(0),
        View { rows: product },
        out,
    );
}

/// Writes the transforms of `c1 + c2 * s` from those of the secret.
fn slope_into<const N: usize>(
    ctx: &Context<N>,
    cipher: &Cipher<N>,
    small: View<'_, N>,
    out: ViewMut<'_, N>,
    scratch: ViewMut<'_, N>,
)
    requires cipher_of { IsCipherOf (ctx.now) (cipher.now) }
    requires small_count { length small.rows.now ≡ (ctx.now).level }
    requires small_reduced { AreReduced N (data_in (ctx.now)) small.rows.now }
    requires count { length out.old ≡ (ctx.now).level }
    requires room { length scratch.old ≡ 2 * (ctx.now).level }
    ensures transforms { (x1 x2 s : ℕ → ℤ) →
        WordsRepresent N (data_in (ctx.now)) (listed_word (ctx.now).level (cipher.now).rows 1) x1 →
        WordsRepresent N (data_in (ctx.now)) (listed_word (ctx.now).level (cipher.now).rows 2) x2 →
        AreTransforms (transforms_in (ctx.now)) small.entry.rows.now (λ i. s) →
        AreTransforms (transforms_in (ctx.now)) out.new (λ i. ring_sum x1 (ring_product N x2 s)) }
    ensures reduced { AreReduced N (data_in (ctx.now)) out.new }
{
    let first = cipher.part(1);
    if cipher.parts() == 2 {
        return transform_into(ctx, first, out);
    }
    let (rows, product) = split(scratch, out.len());
    transform_into(ctx, cipher.part(2), &mut *rows);
    multiply_transforms_into(ctx, View { rows }, small, &mut *product);
    transform_into(ctx, first, &mut *rows);
    add_into(
        ctx.data_moduli(),
        View { rows },
        View { rows: product },
        out,
    );
}
