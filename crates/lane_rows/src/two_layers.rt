//! Two layers of the transform at once, on the quarters of a block, so that each word is loaded and stored once.

ghost use Rattle.std.specs.Prelude.{◌≡◌, ◌≢◌, ℕ, ◌+◌, ◌*◌, ◌^◌, ◌<◌, length, slice_index};
ghost use Rattle.lane_rows.specs.Butterflies.{EachFour, FourAt, FourBelow, HasQuotient, IsButterfly, IsButterflyBack, IsScaledButterflyBack};
ghost use Rattle.lane_rows.specs.Butterflies.{TwoLayers, TwoLayersBack};
ghost use Rattle.lane_rows.specs.Rows.{RowBelow};

use crate::UNROLLED;
use crate::words::{butterfly, butterfly_back, scaled_butterfly_back};

/// A factor w of products modulo q, with `shoup`, the quotient of `w * 2^64` by q.
#[derive(Clone, Copy)]
pub struct Root {
    pub w: u64,
    pub shoup: u64,
}

/// Takes a block of words below 4q through two layers: its halves by the outer root, and then the two quarters of each half by
/// the root of that half. The words stay below 4q.
#[inline(always)]
pub fn butterflies_twice(
    q: u64,
    outer: Root,
    first: Root,
    second: Root,
    quarter: usize,
    block: &mut [u64],
)
    requires modulus { (0 < q) × (q < 2 ^ 61) }
    requires outer_quotient { HasQuotient q outer }
    requires first_quotient { HasQuotient q first }
    requires second_quotient { HasQuotient q second }
    requires quarters { length block.old ≡ 4 * quarter }
    requires below { RowBelow (4 * q) block.old }
    ensures layers { EachFour (TwoLayers (IsButterfly q outer.w) (IsButterfly q first.w) (IsButterfly q second.w))
        quarter block.old block.new }
    ensures below { RowBelow (4 * q) block.new }
{
    let chunks = quarter / UNROLLED;
    'chunks: for k in 0..chunks {
        'places: for r in 0..UNROLLED {
            step(q, outer, first, second, quarter, UNROLLED * k + r, block);
        }
    }
    'rest: for i in UNROLLED * chunks..quarter {
        step(q, outer, first, second, quarter, i, block);
    }
}

/// The two layers of the words at one place of the quarters.
#[inline(always)]
fn step(q: u64, outer: Root, first: Root, second: Root, quarter: usize, i: usize, block: &mut [u64])
    requires modulus { (0 < q) × (q < 2 ^ 61) }
    requires outer_quotient { HasQuotient q outer }
    requires first_quotient { HasQuotient q first }
    requires second_quotient { HasQuotient q second }
    requires quarters { length block.old ≡ 4 * quarter }
    requires inside { i < quarter }
    requires below { RowBelow (4 * q) block.old }
    ensures layers { FourAt (TwoLayers (IsButterfly q outer.w) (IsButterfly q first.w) (IsButterfly q second.w))
        quarter i block.old block.new }
    ensures below { RowBelow (4 * q) block.new }
    ensures others { (j : ℕ) → j ≢ i → j ≢ quarter + i → j ≢ 2 * quarter + i → j ≢ 3 * quarter + i
        → slice_index block.new j ≡ slice_index block.old j }
{
    let (a, c) = butterfly(q, outer.w, outer.shoup, block[i], block[2 * quarter + i]);
    let (b, d) = butterfly(
        q,
        outer.w,
        outer.shoup,
        block[quarter + i],
        block[3 * quarter + i],
    );
    let (new_a, new_b) = butterfly(q, first.w, first.shoup, a, b);
    let (new_c, new_d) = butterfly(q, second.w, second.shoup, c, d);
    block[i] = new_a;
    block[quarter + i] = new_b;
    block[2 * quarter + i] = new_c;
    block[3 * quarter + i] = new_d;
}

/// Takes a block of words below 2q back through two layers: the two quarters of each half by the root of that half, and then the
/// halves by the outer root. The words stay below 2q.
#[inline(always)]
pub fn butterflies_back_twice(
    q: u64,
    outer: Root,
    first: Root,
    second: Root,
    quarter: usize,
    block: &mut [u64],
)
    requires modulus { (0 < q) × (q < 2 ^ 61) }
    requires outer_quotient { HasQuotient q outer }
    requires first_quotient { HasQuotient q first }
    requires second_quotient { HasQuotient q second }
    requires quarters { length block.old ≡ 4 * quarter }
    requires below { RowBelow (2 * q) block.old }
    ensures layers { EachFour (TwoLayersBack (IsButterflyBack q outer.w) (IsButterflyBack q first.w)
        (IsButterflyBack q second.w)) quarter block.old block.new }
    ensures below { RowBelow (2 * q) block.new }
{
    let chunks = quarter / UNROLLED;
    'chunks: for k in 0..chunks {
        'places: for r in 0..UNROLLED {
            step_back(q, outer, first, second, quarter, UNROLLED * k + r, block);
        }
    }
    'rest: for i in UNROLLED * chunks..quarter {
        step_back(q, outer, first, second, quarter, i, block);
    }
}

/// The two layers back of the words at one place of the quarters.
#[inline(always)]
fn step_back(
    q: u64,
    outer: Root,
    first: Root,
    second: Root,
    quarter: usize,
    i: usize,
    block: &mut [u64],
)
    requires modulus { (0 < q) × (q < 2 ^ 61) }
    requires outer_quotient { HasQuotient q outer }
    requires first_quotient { HasQuotient q first }
    requires second_quotient { HasQuotient q second }
    requires quarters { length block.old ≡ 4 * quarter }
    requires inside { i < quarter }
    requires below { RowBelow (2 * q) block.old }
    ensures layers { FourAt (TwoLayersBack (IsButterflyBack q outer.w) (IsButterflyBack q first.w)
        (IsButterflyBack q second.w)) quarter i block.old block.new }
    ensures below { RowBelow (2 * q) block.new }
    ensures others { (j : ℕ) → j ≢ i → j ≢ quarter + i → j ≢ 2 * quarter + i → j ≢ 3 * quarter + i
        → slice_index block.new j ≡ slice_index block.old j }
{
    let (a, b) = butterfly_back(q, first.w, first.shoup, block[i], block[quarter + i]);
    let (c, d) = butterfly_back(
        q,
        second.w,
        second.shoup,
        block[2 * quarter + i],
        block[3 * quarter + i],
    );
    let (new_a, new_c) = butterfly_back(q, outer.w, outer.shoup, a, c);
    let (new_b, new_d) = butterfly_back(q, outer.w, outer.shoup, b, d);
    block[i] = new_a;
    block[quarter + i] = new_b;
    block[2 * quarter + i] = new_c;
    block[3 * quarter + i] = new_d;
}

/// The last two layers back, which multiply all words by the factor of `scale` as well: that of `outer` has it in it. The words
/// are reduced.
#[inline(always)]
pub fn scaled_butterflies_back_twice(
    q: u64,
    scale: Root,
    outer: Root,
    first: Root,
    second: Root,
    quarter: usize,
    block: &mut [u64],
)
    requires modulus { (0 < q) × (q < 2 ^ 61) }
    requires scale_quotient { HasQuotient q scale }
    requires outer_quotient { HasQuotient q outer }
    requires first_quotient { HasQuotient q first }
    requires second_quotient { HasQuotient q second }
    requires quarters { length block.old ≡ 4 * quarter }
    requires below { RowBelow (2 * q) block.old }
    ensures layers { EachFour (TwoLayersBack (IsScaledButterflyBack q scale.w outer.w) (IsButterflyBack q first.w)
        (IsButterflyBack q second.w)) quarter block.old block.new }
    ensures below { RowBelow q block.new }
{
    let chunks = quarter / UNROLLED;
    'chunks: for k in 0..chunks {
        'places: for r in 0..UNROLLED {
            scaled_step_back(
                q,
                scale,
                outer,
                first,
                second,
                quarter,
                UNROLLED * k + r,
                block,
            );
        }
    }
    'rest: for i in UNROLLED * chunks..quarter {
        scaled_step_back(q, scale, outer, first, second, quarter, i, block);
    }
}

/// The last two layers back of the words at one place of the quarters.
#[inline(always)]
fn scaled_step_back(
    q: u64,
    scale: Root,
    outer: Root,
    first: Root,
    second: Root,
    quarter: usize,
    i: usize,
    block: &mut [u64],
)
    requires modulus { (0 < q) × (q < 2 ^ 61) }
    requires scale_quotient { HasQuotient q scale }
    requires outer_quotient { HasQuotient q outer }
    requires first_quotient { HasQuotient q first }
    requires second_quotient { HasQuotient q second }
    requires quarters { length block.old ≡ 4 * quarter }
    requires inside { i < quarter }
    requires below { RowBelow (2 * q) block.old }
    ensures layers { FourAt (TwoLayersBack (IsScaledButterflyBack q scale.w outer.w) (IsButterflyBack q first.w)
        (IsButterflyBack q second.w)) quarter i block.old block.new }
    ensures reduced { FourBelow q quarter i block.new }
    ensures below { RowBelow (2 * q) block.new }
    ensures others { (j : ℕ) → j ≢ i → j ≢ quarter + i → j ≢ 2 * quarter + i → j ≢ 3 * quarter + i
        → slice_index block.new j ≡ slice_index block.old j }
{
    let (a, b) = butterfly_back(q, first.w, first.shoup, block[i], block[quarter + i]);
    let (c, d) = butterfly_back(
        q,
        second.w,
        second.shoup,
        block[2 * quarter + i],
        block[3 * quarter + i],
    );
    let (new_a, new_c) = scaled_butterfly_back(q, scale, outer, a, c);
    let (new_b, new_d) = scaled_butterfly_back(q, scale, outer, b, d);
    block[i] = new_a;
    block[quarter + i] = new_b;
    block[2 * quarter + i] = new_c;
    block[3 * quarter + i] = new_d;
}
