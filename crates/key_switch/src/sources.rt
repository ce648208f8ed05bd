//! What keys switch from, in transformed form.

ghost use Rattle.std.specs.Prelude.{◌≡◌, ℕ, ℤ, ◌*◌, ◌%◌, ◌<◌, ◌≤◌, length, slice_index};
ghost use Rattle.ring_law.specs.Polynomials.{ring_product, ring_turn};
ghost use Rattle.ring_law.specs.Rows.{IsReduced, RowRepresents, listed_polynomial};
ghost use Rattle.rns_poly.specs.Rows.{AreReduced, EachRepresents};
ghost use Rattle.rns_poly.specs.Transforms.{AreTransforms};
ghost use Rattle.bfv_params.specs.Contexts.{data_in, transforms_in};

use bfv_params::{Context, Secret, transform_small_into};
use ring_law::turn_plain;
use rns_poly::{ViewMut, forward_all, set_small};
use word_mod::Modulus;

/// Writes the transforms of `s^2`, one row for each data modulus: the source of a relinearisation key of the secret s.
pub fn relin_source<const N: usize>(ctx: &Context<N>, secret: &Secret<N>, out: ViewMut<'_, N>)
    requires secret_set { (secret.now).set ≡ (ctx.now).set }
    requires count { length out.old ≡ (ctx.now).level }
    ensures transforms { AreTransforms (transforms_in (ctx.now)) out.new
        (λ i. ring_product N (listed_polynomial (secret.now).small) (listed_polynomial (secret.now).small)) }
    ensures reduced { AreReduced N (data_in (ctx.now)) out.new }
{
    transform_small_into(ctx, secret.small(), &mut *out);
    square_rows(ctx, out);
}

/// Replaces each of the transforms by that of the square.
fn square_rows<const N: usize>(ctx: &Context<N>, rows: ViewMut<'_, N>)
    requires count { length rows.old ≡ (ctx.now).level }
    requires rows_reduced { AreReduced N (data_in (ctx.now)) rows.old }
    ensures transforms { (x : ℕ → ℕ → ℤ) → AreTransforms (transforms_in (ctx.now)) rows.old x →
        AreTransforms (transforms_in (ctx.now)) rows.new (λ i. ring_product N (x i) (x i)) }
    ensures reduced { AreReduced N (data_in (ctx.now)) rows.new }
{
    let moduli = ctx.data_moduli();
    for i in 0..moduli.len() {
        square_row(&moduli[i], &mut rows[i]);
    }
}

/// Replaces each residue by its square.
fn square_row<const N: usize>(m: &Modulus, row: &mut [u64; N])
    requires degree { N ≤ 32768 }
    requires row_reduced { IsReduced N m.now row.old }
    ensures squares { (k : ℕ) → k < N → slice_index row.new k ≡ slice_index row.old k * slice_index row.old k % m.now }
    ensures reduced { IsReduced N m.now row.new }
{
    for k in 0..N {
        row[k] = m.mul(row[k], row[k]);
    }
}

/// Writes the transforms of `s(X^g)`, one row for each data modulus: the source of a key of the secret s for the turn by
/// the Galois element g.
pub fn turn_source<const N: usize>(
    ctx: &Context<N>,
    secret: &Secret<N>,
    g: u32,
    out: ViewMut<'_, N>,
)
    requires secret_set { (secret.now).set ≡ (ctx.now).set }
    requires count { length out.old ≡ (ctx.now).level }
    ensures transforms { AreTransforms (transforms_in (ctx.now)) out.new
        (λ i. ring_turn N g (listed_polynomial (secret.now).small)) }
    ensures reduced { AreReduced N (data_in (ctx.now)) out.new }
{
    let moduli = ctx.data_moduli();
    set_small(moduli, secret.small(), &mut *out);
    turn_each(moduli, g, &mut *out);
    forward_all(ctx.data_transforms(), out);
}

/// Replaces each row by that of the turn of X to `X^g`.
fn turn_each<const N: usize>(moduli: &[Modulus], g: u32, rows: ViewMut<'_, N>)
    requires degree { N ≤ 32768 }
    requires count { length rows.old ≡ length moduli.now }
    ensures turned { (x : ℕ → ℕ → ℤ) → EachRepresents N moduli.now rows.old x →
        EachRepresents N moduli.now rows.new (λ i. ring_turn N g (x i)) }
    ensures reduced { AreReduced N moduli.now rows.new }
{
    for i in 0..moduli.len() {
        turn_row(&moduli[i], g, &mut rows[i]);
    }
}

/// The same of one row.
fn turn_row<const N: usize>(m: &Modulus, g: u32, row: &mut [u64; N])
    requires degree { N ≤ 32768 }
    ensures turned { (x : ℕ → ℤ) → RowRepresents N m.now row.old x → RowRepresents N m.now row.new (ring_turn N g x) }
    ensures reduced { IsReduced N m.now row.new }
{
    let from = *row;
    turn_plain(m.value(), g, &from, row);
}
