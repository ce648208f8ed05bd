//! Products in the ring modulo `X^N + 1` under the data moduli of a context. The transforms of polynomials are multiplied
//! word by word, and transformed back.

ghost use Rattle.std.specs.Prelude.{◌≡◌, ℕ, ℤ, length};
ghost use Rattle.ring_law.specs.Polynomials.{ring_product};
ghost use Rattle.ring_law.specs.Rows.{listed_polynomial};
ghost use Rattle.rns_poly.specs.Rows.{AreReduced, EachRepresents};
ghost use Rattle.rns_poly.specs.Transforms.{AreTransforms};
ghost use Rattle.bfv_params.specs.Contexts.{data_in, transforms_in};

use crate::context::Context;
use rns_poly::{View, ViewMut, forward_all, inverse_all, pointwise_into, set_small};

/// Writes the transforms of the polynomials that the rows represent, one row for each data modulus.
pub fn transform_into<const N: usize>(ctx: &Context<N>, rows: View<'_, N>, out: ViewMut<'_, N>)
    requires rows_length { length rows.rows.now ≡ (ctx.now).level }
    requires out_length { length out.old ≡ (ctx.now).level }
    requires rows_reduced { AreReduced N (data_in (ctx.now)) rows.rows.now }
    ensures transforms { (x : ℕ → ℕ → ℤ) → EachRepresents N (data_in (ctx.now)) rows.entry.rows.now x →
        AreTransforms (transforms_in (ctx.now)) out.new x }
    ensures reduced { AreReduced N (data_in (ctx.now)) out.new }
{
    out.copy_from_slice(rows.slice());
    forward_all(ctx.data_transforms(), out);
}

/// Writes the transforms of a polynomial of small coefficients, one row for each data modulus.
pub fn transform_small_into<const N: usize>(ctx: &Context<N>, small: &[i8; N], out: ViewMut<'_, N>)
    requires { length out.old ≡ (ctx.now).level }
    ensures transforms { AreTransforms (transforms_in (ctx.now)) out.new (λ i. listed_polynomial small.now) }
    ensures reduced { AreReduced N (data_in (ctx.now)) out.new }
{
    set_small(ctx.data_moduli(), small, &mut *out);
    forward_all(ctx.data_transforms(), out);
}

/// Writes the transforms of the products of a by b from the transforms of both.
pub fn multiply_transforms_into<const N: usize>(
    ctx: &Context<N>,
    a: View<'_, N>,
    b: View<'_, N>,
    out: ViewMut<'_, N>,
)
    requires a_length { length a.rows.now ≡ (ctx.now).level }
    requires b_length { length b.rows.now ≡ (ctx.now).level }
    requires out_length { length out.old ≡ (ctx.now).level }
    requires a_reduced { AreReduced N (data_in (ctx.now)) a.rows.now }
    requires b_reduced { AreReduced N (data_in (ctx.now)) b.rows.now }
    ensures transforms { (x y : ℕ → ℕ → ℤ) → AreTransforms (transforms_in (ctx.now)) a.entry.rows.now x →
        AreTransforms (transforms_in (ctx.now)) b.entry.rows.now y →
        AreTransforms (transforms_in (ctx.now)) out.new (λ i. ring_product N (x i) (y i)) }
    ensures reduced { AreReduced N (data_in (ctx.now)) out.new }
{
    pointwise_into(ctx.data_moduli(), a, b, out);
}

/// Writes the rows of the products of a by b from the transforms of both.
pub fn product_into<const N: usize>(
    ctx: &Context<N>,
    a: View<'_, N>,
    b: View<'_, N>,
    out: ViewMut<'_, N>,
)
    requires a_length { length a.rows.now ≡ (ctx.now).level }
    requires b_length { length b.rows.now ≡ (ctx.now).level }
    requires out_length { length out.old ≡ (ctx.now).level }
    requires a_reduced { AreReduced N (data_in (ctx.now)) a.rows.now }
    requires b_reduced { AreReduced N (data_in (ctx.now)) b.rows.now }
    ensures represents { (x y : ℕ → ℕ → ℤ) → AreTransforms (transforms_in (ctx.now)) a.entry.rows.now x →
        AreTransforms (transforms_in (ctx.now)) b.entry.rows.now y →
        EachRepresents N (data_in (ctx.now)) out.new (λ i. ring_product N (x i) (y i)) }
    ensures reduced { AreReduced N (data_in (ctx.now)) out.new }
{
    multiply_transforms_into(ctx, a, b, &mut *out);
    inverse_all(ctx.data_transforms(), out);
}

/// Writes the rows of the products of a by b from the rows of a and the transforms of b. The rows of a become their
/// transforms.
pub fn multiply_into<const N: usize>(
    ctx: &Context<N>,
    a: ViewMut<'_, N>,
    b: View<'_, N>,
    out: ViewMut<'_, N>,
)
    requires a_length { length a.old ≡ (ctx.now).level }
    requires b_length { length b.rows.now ≡ (ctx.now).level }
    requires out_length { length out.old ≡ (ctx.now).level }
    requires a_reduced { AreReduced N (data_in (ctx.now)) a.old }
    requires b_reduced { AreReduced N (data_in (ctx.now)) b.rows.now }
    ensures products { (x y : ℕ → ℕ → ℤ) → EachRepresents N (data_in (ctx.now)) a.old x →
        AreTransforms (transforms_in (ctx.now)) b.entry.rows.now y →
        EachRepresents N (data_in (ctx.now)) out.new (λ i. ring_product N (x i) (y i)) }
    ensures reduced { AreReduced N (data_in (ctx.now)) out.new }
{
    forward_all(ctx.data_transforms(), &mut *a);
    product_into(ctx, View { rows: a }, b, out);
}
