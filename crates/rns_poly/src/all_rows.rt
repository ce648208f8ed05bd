//! Arithmetic on rows under several moduli: row i is under modulus i, and its words are below that modulus.

ghost use Rattle.std.specs.Prelude.{◌≡◌, ℕ, ◌<◌, ◌≤◌, ℤ, length, slice_index};
ghost use Rattle.ring_law.specs.Polynomials.{ring_sum, ring_negative};
ghost use Rattle.ring_law.specs.Rows.{Represents, listed_polynomial};
ghost use Rattle.rns_poly.specs.Rows.{AreReduced, EachRepresents, entrywise_product, multiple};
ghost use Rattle.rns_poly.specs.Transforms.{AreTransforms, moduli_of};

use crate::{View, ViewMut, one_row};
use neg_ntt::Transform;
use word_mod::Modulus;

/// Writes the rows of the sum of a and b.
pub fn add_into<const N: usize>(
    moduli: &[Modulus],
    a: View<'_, N>,
    b: View<'_, N>,
    out: ViewMut<'_, N>,
)
    requires degree { N ≤ 32768 }
    requires a_length { length a.rows.now ≡ length moduli.now }
    requires b_length { length b.rows.now ≡ length moduli.now }
    requires out_length { length out.old ≡ length moduli.now }
    requires a_reduced { AreReduced N moduli.now a.rows.now }
    requires b_reduced { AreReduced N moduli.now b.rows.now }
    ensures represents { (x y : ℕ → ℕ → ℤ) → EachRepresents N moduli.now a.entry.rows.now x →
        EachRepresents N moduli.now b.entry.rows.now y →
        EachRepresents N moduli.now out.new (λ i. ring_sum (x i) (y i)) }
    ensures reduced { AreReduced N moduli.now out.new }
{
    for i in 0..moduli.len() {
        one_row::add(&moduli[i], &a.rows[i], &b.rows[i], &mut out[i]);
    }
}

/// Writes the rows of the difference of a and b.
pub fn sub_into<const N: usize>(
    moduli: &[Modulus],
    a: View<'_, N>,
    b: View<'_, N>,
    out: ViewMut<'_, N>,
)
    requires degree { N ≤ 32768 }
    requires a_length { length a.rows.now ≡ length moduli.now }
    requires b_length { length b.rows.now ≡ length moduli.now }
    requires out_length { length out.old ≡ length moduli.now }
    requires a_reduced { AreReduced N moduli.now a.rows.now }
    requires b_reduced { AreReduced N moduli.now b.rows.now }
    ensures represents { (x y : ℕ → ℕ → ℤ) → EachRepresents N moduli.now a.entry.rows.now x →
        EachRepresents N moduli.now b.entry.rows.now y →
        EachRepresents N moduli.now out.new (λ i. ring_sum (x i) (ring_negative (y i))) }
    ensures reduced { AreReduced N moduli.now out.new }
{
    for i in 0..moduli.len() {
        one_row::sub(&moduli[i], &a.rows[i], &b.rows[i], &mut out[i]);
    }
}

/// Writes the rows of the negative of a.
pub fn neg_into<const N: usize>(moduli: &[Modulus], a: View<'_, N>, out: ViewMut<'_, N>)
    requires degree { N ≤ 32768 }
    requires a_length { length a.rows.now ≡ length moduli.now }
    requires out_length { length out.old ≡ length moduli.now }
    requires a_reduced { AreReduced N moduli.now a.rows.now }
    ensures represents { (x : ℕ → ℕ → ℤ) → EachRepresents N moduli.now a.entry.rows.now x →
        EachRepresents N moduli.now out.new (λ i. ring_negative (x i)) }
    ensures reduced { AreReduced N moduli.now out.new }
{
    for i in 0..moduli.len() {
        one_row::neg(&moduli[i], &a.rows[i], &mut out[i]);
    }
}

/// Writes the rows of the products of a and b word by word. Where these are transformed rows, so are the products, and
/// stand for the product in the ring.
pub fn pointwise_into<const N: usize>(
    moduli: &[Modulus],
    a: View<'_, N>,
    b: View<'_, N>,
    out: ViewMut<'_, N>,
)
    requires degree { N ≤ 32768 }
    requires a_length { length a.rows.now ≡ length moduli.now }
    requires b_length { length b.rows.now ≡ length moduli.now }
    requires out_length { length out.old ≡ length moduli.now }
    requires a_reduced { AreReduced N moduli.now a.rows.now }
    requires b_reduced { AreReduced N moduli.now b.rows.now }
    ensures represents { (x y : ℕ → ℕ → ℤ) → EachRepresents N moduli.now a.entry.rows.now x →
        EachRepresents N moduli.now b.entry.rows.now y →
        EachRepresents N moduli.now out.new (λ i. entrywise_product (x i) (y i)) }
    ensures reduced { AreReduced N moduli.now out.new }
{
    for i in 0..moduli.len() {
        one_row::pointwise(&moduli[i], &a.rows[i], &b.rows[i], &mut out[i]);
    }
}

/// Writes the rows that represent a polynomial of small coefficients.
pub fn set_small<const N: usize>(moduli: &[Modulus], small: &[i8; N], out: ViewMut<'_, N>)
    requires degree { N ≤ 32768 }
    requires out_length { length out.old ≡ length moduli.now }
    ensures represents { Represents N moduli.now out.new (listed_polynomial small.now) }
    ensures reduced { AreReduced N moduli.now out.new }
{
    for i in 0..moduli.len() {
        one_row::set_small(&moduli[i], small, &mut out[i]);
    }
}

/// Multiplies each row by its own factor, which may be any word.
pub fn scale_each<const N: usize>(moduli: &[Modulus], factors: &[u64], rows: ViewMut<'_, N>)
    requires degree { N ≤ 32768 }
    requires factors_length { length factors.now ≡ length moduli.now }
    requires rows_length { length rows.old ≡ length moduli.now }
    ensures represents { (x : ℕ → ℕ → ℤ) → EachRepresents N moduli.now rows.old x →
        EachRepresents N moduli.now rows.new (λ i. multiple (slice_index factors.now i) (x i)) }
    ensures reduced { AreReduced N moduli.now rows.new }
{
    for i in 0..moduli.len() {
        one_row::scale(&moduli[i], factors[i], &mut rows[i]);
    }
}

/// Replaces each row by its transform, row i by transform i.
pub fn forward_all<const N: usize>(transforms: &[Transform<N>], rows: ViewMut<'_, N>)
    requires degree { N ≤ 32768 }
    requires length { length rows.old ≡ length transforms.now }
    requires rows_reduced { AreReduced N (moduli_of transforms.now) rows.old }
    ensures transforms { (x : ℕ → ℕ → ℤ) → EachRepresents N (moduli_of transforms.now) rows.old x →
        AreTransforms transforms.now rows.new x }
    ensures reduced { AreReduced N (moduli_of transforms.now) rows.new }
{
    for i in 0..transforms.len() {
        transforms[i].forward(&mut rows[i]);
    }
}

/// Replaces each transformed row by the row that it was made of, row i by transform i.
pub fn inverse_all<const N: usize>(transforms: &[Transform<N>], rows: ViewMut<'_, N>)
    requires degree { N ≤ 32768 }
    requires length { length rows.old ≡ length transforms.now }
    requires rows_reduced { AreReduced N (moduli_of transforms.now) rows.old }
    ensures represents { (x : ℕ → ℕ → ℤ) → AreTransforms transforms.now rows.old x →
        EachRepresents N (moduli_of transforms.now) rows.new x }
    ensures reduced { AreReduced N (moduli_of transforms.now) rows.new }
{
    for i in 0..transforms.len() {
        transforms[i].inverse(&mut rows[i]);
    }
}
