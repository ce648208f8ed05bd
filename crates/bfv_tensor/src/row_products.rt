//! Products of two pairs of polynomials, row by row, from their transforms.

ghost use Rattle.std.specs.Prelude.{◌≡◌, ℕ, ◌+◌, ◌*◌, ◌%◌, ◌<◌, ◌≤◌, ℤ, Some, length, slice_get, slice_index};
ghost use Rattle.word_mod.specs.Moduli.{IsModulus};
ghost use Rattle.ring_law.specs.Rows.{IsReduced, Represents, WordsRepresent};
ghost use Rattle.bfv_model.specs.Holds.{listed_word};
ghost use Rattle.bfv_params.specs.Rows.{ReducedInTurn};
ghost use Rattle.bfv_tensor.specs.Rows.{ArePairTransforms, AreProductRows, AreWordProducts, part_rows, product_moduli, product_part, product_transforms};

use crate::factors::rows_of_part;
use bfv_params::Context;
use neg_ntt::Transform;
use rns_poly::{View, ViewMut, split};
use word_mod::Modulus;

/// The rows of two parts under one modulus.
#[derive(Clone, Copy)]
struct RowPair<'a, const N: usize> {
    first: &'a [u64; N],
    second: &'a [u64; N],
}

/// Writes the rows of the three parts of the product of two pairs of polynomials, from the transforms of these.
pub fn multiply_parts<const N: usize>(
    ctx: &Context<N>,
    a: View<'_, N>,
    b: View<'_, N>,
    out: ViewMut<'_, N>,
)
    requires a_count { length a.rows.now ≡ 2 * part_rows (ctx.now) }
    requires b_count { length b.rows.now ≡ 2 * part_rows (ctx.now) }
    requires count { length out.old ≡ 3 * part_rows (ctx.now) }
    requires a_reduced { ReducedInTurn N (part_rows (ctx.now)) (product_moduli (ctx.now)) a.rows.now }
    requires b_reduced { ReducedInTurn N (part_rows (ctx.now)) (product_moduli (ctx.now)) b.rows.now }
    ensures products { (x y : ℕ → ℕ → ℤ) → ArePairTransforms (ctx.now) a.entry.rows.now x →
        ArePairTransforms (ctx.now) b.entry.rows.now y → (j : ℕ) → j < 3 →
        WordsRepresent N (product_moduli (ctx.now)) (listed_word (part_rows (ctx.now)) out.new j) (product_part N x y j) }
{
    let count = rows_of_part(ctx);
    let (first, rest) = split(out, count);
    let (middle, last) = split(rest, count);
    multiply_rows(ctx, a, b, first, middle, last);
}

/// The same with the rows of each part by themselves.
fn multiply_rows<const N: usize>(
    ctx: &Context<N>,
    a: View<'_, N>,
    b: View<'_, N>,
    first: ViewMut<'_, N>,
    middle: ViewMut<'_, N>,
    last: ViewMut<'_, N>,
)
    requires a_count { length a.rows.now ≡ 2 * part_rows (ctx.now) }
    requires b_count { length b.rows.now ≡ 2 * part_rows (ctx.now) }
    requires first_count { length first.old ≡ part_rows (ctx.now) }
    requires middle_count { length middle.old ≡ part_rows (ctx.now) }
    requires last_count { length last.old ≡ part_rows (ctx.now) }
    requires a_reduced { ReducedInTurn N (part_rows (ctx.now)) (product_moduli (ctx.now)) a.rows.now }
    requires b_reduced { ReducedInTurn N (part_rows (ctx.now)) (product_moduli (ctx.now)) b.rows.now }
    ensures products { (x y : ℕ → ℕ → ℤ) → ArePairTransforms (ctx.now) a.entry.rows.now x →
        ArePairTransforms (ctx.now) b.entry.rows.now y →
        Represents N (product_moduli (ctx.now)) first.new (product_part N x y 0)
        × Represents N (product_moduli (ctx.now)) middle.new (product_part N x y 1)
        × Represents N (product_moduli (ctx.now)) last.new (product_part N x y 2) }
{
    let count = rows_of_part(ctx);
    for i in 0..count {
        multiply_row(
            transform_at(ctx, i),
            pair_at(a, count, i),
            pair_at(b, count, i),
            &mut first[i],
            &mut middle[i],
            &mut last[i],
        );
    }
}

/// The rows of both parts under modulus i, where each part has `count` rows.
fn pair_at<'a, const N: usize>(rows: View<'a, N>, count: usize, i: usize) -> RowPair<'a, N>
    requires { count + i < length rows.rows.now }
    ensures first { slice_get rows.entry.rows.now i ≡ Some result.first.now }
    ensures second { slice_get rows.entry.rows.now (count + i) ≡ Some result.second.now }
{
    RowPair {
        first: &rows.rows[i],
        second: &rows.rows[count + i],
    }
}

/// The transform of row i of a part.
fn transform_at<const N: usize>(ctx: &Context<N>, i: usize) -> &Transform<N>
    requires { i < part_rows (ctx.now) }
    ensures { slice_get (product_transforms (ctx.now)) i ≡ Some result.now }
{
    let transforms = ctx.data_transforms();
    let count = transforms.len();
    if i < count {
        &transforms[i]
    } else {
        &ctx.aux_transforms()[i - count]
    }
}

/// Writes the rows of the three products under the transform's modulus.
fn multiply_row<const N: usize>(
    transform: &Transform<N>,
    a: RowPair<'_, N>,
    b: RowPair<'_, N>,
    first: &mut [u64; N],
    middle: &mut [u64; N],
    last: &mut [u64; N],
)
    requires degree { N ≤ 32768 }
    requires a_first { IsReduced N (transform.now).modulus a.first.now }
    requires a_second { IsReduced N (transform.now).modulus a.second.now }
    requires b_first { IsReduced N (transform.now).modulus b.first.now }
    requires b_second { IsReduced N (transform.now).modulus b.second.now }
    ensures products { AreProductRows N (transform.now) a.entry.first.now a.entry.second.now
        b.entry.first.now b.entry.second.now first.new middle.new last.new }
{
    multiply_words(
        transform.modulus(),
        a,
        b,
        &mut *first,
        &mut *middle,
        &mut *last,
    );
    transform.inverse(first);
    transform.inverse(middle);
    transform.inverse(last);
}

/// Writes the products word by word, the sum in the middle being reduced once.
fn multiply_words<const N: usize>(
    m: &Modulus,
    a: RowPair<'_, N>,
    b: RowPair<'_, N>,
    first: &mut [u64; N],
    middle: &mut [u64; N],
    last: &mut [u64; N],
)
    requires degree { N ≤ 32768 }
    requires modulus { IsModulus m.now }
    requires a_first { IsReduced N m.now a.first.now }
    requires a_second { IsReduced N m.now a.second.now }
    requires b_first { IsReduced N m.now b.first.now }
    requires b_second { IsReduced N m.now b.second.now }
    ensures products { AreWordProducts m.now N a.entry.first.now a.entry.second.now
        b.entry.first.now b.entry.second.now first.new middle.new last.new }
    ensures first_reduced { IsReduced N m.now first.new }
    ensures middle_reduced { IsReduced N m.now middle.new }
    ensures last_reduced { IsReduced N m.now last.new }
{
    for k in 0..N {
        first[k] = m.mul(a.first[k], b.first[k]);
        middle[k] = sum_of_two_products(m, a.first[k], b.second[k], a.second[k], b.first[k]);
        last[k] = m.mul(a.second[k], b.second[k]);
    }
}

/// The residue of `a * b + c * d`.
fn sum_of_two_products(m: &Modulus, a: u64, b: u64, c: u64, d: u64) -> u64
    requires modulus { IsModulus m.now }
    requires a_below { a < m.now }
    requires b_below { b < m.now }
    requires c_below { c < m.now }
    requires d_below { d < m.now }
    ensures value { result ≡ (a * b + c * d) % m.now }
    ensures below { result < m.now }
{
    m.reduce_wide(a as u128 * b as u128 + c as u128 * d as u128)
}
