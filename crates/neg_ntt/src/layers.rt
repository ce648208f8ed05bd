//! Layers of the transform: a row is cut into blocks of equal length, and the two halves of a block are the rows of its
//! pairs.

ghost use Rattle.std.specs.Prelude.{◌≡◌, ◌+◌, ◌-◌, ◌*◌, length};
ghost use Rattle.lane_rows.specs.Butterflies.{EachFour, IsButterfly, IsButterflyBack, IsScaledButterflyBack, TwoLayers, TwoLayersBack};
ghost use Rattle.lane_rows.specs.Rows.{RowBelow};
ghost use Rattle.word_mod.specs.Moduli.{IsModulus, shoup_of};
ghost use Rattle.neg_ntt.specs.Butterflies.{ByMiddleRow, EachBlock, EachPair, EachPart};
ghost use Rattle.neg_ntt.specs.Roots.{HasNegative, HaveNegatives, HaveQuotients, factor_at, negative_from_last};

use lane_rows::{
    Root, butterflies, butterflies_back_twice, butterflies_twice, scaled_butterflies_back,
    scaled_butterflies_back_twice,
};
use word_mod::Factor;

fn forward_block(q: u64, root: &Factor, half: usize, block: &mut [u64])
    requires modulus { IsModulus q }
    requires shoup { root.now.shoup ≡ shoup_of q root.now.w }
    requires halves { length block.old ≡ 2 * half }
    requires below { RowBelow (4 * q) block.old }
    ensures pairs { EachPair (IsButterfly q root.now.w) half block.old block.new }
    ensures below { RowBelow (4 * q) block.new }
{
    let (low, high) = block.split_at_mut(half);
    butterflies(q, root.w, root.shoup, low, high);
}

/// Takes each block of `2 * half` words, in words below 4q, apart into two of half the length.
pub fn forward_layer(q: u64, roots: &[Factor], half: usize, row: &mut [u64])
    requires modulus { IsModulus q }
    requires quotients { HaveQuotients q roots.now }
    requires blocks { length row.old ≡ length roots.now * (2 * half) }
    requires below { RowBelow (4 * q) row.old }
    ensures pairs { EachBlock (λ i. IsButterfly q (factor_at roots.now i).w) (length roots.now) half row.old row.new }
    ensures below { RowBelow (4 * q) row.new }
{
    let mut start = 0;
    for root in roots {
        let end = start + 2 * half;
        forward_block(q, root, half, &mut row[start..end]);
        start = end;
    }
}

/// The last layer back, which multiplies all words by the factor `scale` as well: `root` has it in it.
pub fn inverse_last_layer(q: u64, scale: &Factor, root: &Factor, half: usize, row: &mut [u64])
    requires modulus { IsModulus q }
    requires scale_shoup { scale.now.shoup ≡ shoup_of q scale.now.w }
    requires root_shoup { root.now.shoup ≡ shoup_of q root.now.w }
    requires halves { length row.old ≡ 2 * half }
    requires below { RowBelow (2 * q) row.old }
    ensures pairs { EachBlock (λ i. IsScaledButterflyBack q scale.now.w root.now.w) 1 half row.old row.new }
    ensures reduced { RowBelow q row.new }
{
    let (low, high) = row.split_at_mut(half);
    scaled_butterflies_back(q, root_of(scale), root_of(root), low, high);
}

/// The last two layers back, of the inverses of the roots `inner` and of `outer`, where the last one multiplies all words by the
/// factor `scale` as well: `outer` has it in it.
pub fn inverse_last_two_layers(
    q: u64,
    scale: &Factor,
    outer: &Factor,
    inner: &[Factor],
    quarter: usize,
    row: &mut [u64],
)
    requires modulus { IsModulus q }
    requires scale_shoup { scale.now.shoup ≡ shoup_of q scale.now.w }
    requires outer_shoup { outer.now.shoup ≡ shoup_of q outer.now.w }
    requires inner_negatives { HaveNegatives q inner.now }
    requires two { length inner.now ≡ 2 }
    requires quarters { length row.old ≡ 4 * quarter }
    requires below { RowBelow (2 * q) row.old }
    ensures layers { ByMiddleRow (EachBlock (λ i. IsButterflyBack q (negative_from_last q inner.now i)) 2 quarter)
        (EachBlock (λ i. IsScaledButterflyBack q scale.now.w outer.now.w) 1 (2 * quarter)) row.old row.new }
    ensures reduced { RowBelow q row.new }
{
    let (first, second) = (negative_of(q, &inner[1]), negative_of(q, &inner[0]));
    scaled_butterflies_back_twice(
        q,
        root_of(scale),
        root_of(outer),
        first,
        second,
        quarter,
        row,
    );
}

/// Two layers at once: takes each block of `4 * quarter` words, in words below 4q, apart into two by the roots `outer`, and
/// these into four by the roots `inner`. Where a quarter is short the compiler makes code for its length, without a loop.
pub fn forward_two_layers(
    q: u64,
    outer: &[Factor],
    inner: &[Factor],
    quarter: usize,
    row: &mut [u64],
)
    requires modulus { IsModulus q }
    requires outer_quotients { HaveQuotients q outer.now }
    requires inner_quotients { HaveQuotients q inner.now }
    requires twice_as_many { length inner.now ≡ 2 * length outer.now }
    requires blocks { length row.old ≡ length outer.now * (4 * quarter) }
    requires below { RowBelow (4 * q) row.old }
    ensures layers { ByMiddleRow (EachBlock (λ i. IsButterfly q (factor_at outer.now i).w) (length outer.now) (2 * quarter))
        (EachBlock (λ i. IsButterfly q (factor_at inner.now i).w) (length inner.now) quarter) row.old row.new }
    ensures below { RowBelow (4 * q) row.new }
{
    match quarter {
        1 => forward_blocks(q, outer, inner, 1, row),
        4 => forward_blocks(q, outer, inner, 4, row),
        _ => forward_blocks(q, outer, inner, quarter, row),
    }
}

/// The same, with the layers of each block told.
#[inline(always)]
fn forward_blocks(q: u64, outer: &[Factor], inner: &[Factor], quarter: usize, row: &mut [u64])
    requires modulus { IsModulus q }
    requires outer_quotients { HaveQuotients q outer.now }
    requires inner_quotients { HaveQuotients q inner.now }
    requires twice_as_many { length inner.now ≡ 2 * length outer.now }
    requires blocks { length row.old ≡ length outer.now * (4 * quarter) }
    requires below { RowBelow (4 * q) row.old }
    ensures fours { EachPart (λ i. EachFour (TwoLayers (IsButterfly q (factor_at outer.now i).w)
        (IsButterfly q (factor_at inner.now (2 * i)).w) (IsButterfly q (factor_at inner.now (2 * i + 1)).w)) quarter)
        (length outer.now) (4 * quarter) row.old row.new }
    ensures below { RowBelow (4 * q) row.new }
{
    let mut start = 0;
    for i in 0..outer.len() {
        let end = start + 4 * quarter;
        let (first, second) = (root_of(&inner[2 * i]), root_of(&inner[2 * i + 1]));
        butterflies_twice(
            q,
            root_of(&outer[i]),
            first,
            second,
            quarter,
            &mut row[start..end],
        );
        start = end;
    }
}

/// Two layers at once: joins each four blocks of `quarter` words, in words below 2q, to two by the inverses of the roots `inner`,
/// and these to one by those of `outer`. The inverses of a layer's roots are their negatives, from the last one to the first.
/// Where a quarter is short the compiler makes code for its length, without a loop.
pub fn inverse_two_layers(
    q: u64,
    outer: &[Factor],
    inner: &[Factor],
    quarter: usize,
    row: &mut [u64],
)
    requires modulus { IsModulus q }
    requires outer_negatives { HaveNegatives q outer.now }
    requires inner_negatives { HaveNegatives q inner.now }
    requires twice_as_many { length inner.now ≡ 2 * length outer.now }
    requires blocks { length row.old ≡ length outer.now * (4 * quarter) }
    requires below { RowBelow (2 * q) row.old }
    ensures layers { ByMiddleRow (EachBlock (λ i. IsButterflyBack q (negative_from_last q inner.now i)) (length inner.now) quarter)
        (EachBlock (λ i. IsButterflyBack q (negative_from_last q outer.now i)) (length outer.now) (2 * quarter)) row.old row.new }
    ensures below { RowBelow (2 * q) row.new }
{
    match quarter {
        1 => inverse_blocks(q, outer, inner, 1, row),
        4 => inverse_blocks(q, outer, inner, 4, row),
        _ => inverse_blocks(q, outer, inner, quarter, row),
    }
}

/// The same, with the layers of each block told.
#[inline(always)]
fn inverse_blocks(q: u64, outer: &[Factor], inner: &[Factor], quarter: usize, row: &mut [u64])
    requires modulus { IsModulus q }
    requires outer_negatives { HaveNegatives q outer.now }
    requires inner_negatives { HaveNegatives q inner.now }
    requires twice_as_many { length inner.now ≡ 2 * length outer.now }
    requires blocks { length row.old ≡ length outer.now * (4 * quarter) }
    requires below { RowBelow (2 * q) row.old }
    ensures fours { EachPart (λ i. EachFour (TwoLayersBack (IsButterflyBack q (negative_from_last q outer.now i))
        (IsButterflyBack q (negative_from_last q inner.now (2 * i)))
        (IsButterflyBack q (negative_from_last q inner.now (2 * i + 1)))) quarter)
        (length outer.now) (4 * quarter) row.old row.new }
    ensures below { RowBelow (2 * q) row.new }
{
    let mut start = 0;
    for i in 0..outer.len() {
        let end = start + 4 * quarter;
        let root = negative_of(q, &outer[outer.len() - 1 - i]);
        let first = negative_of(q, &inner[inner.len() - 1 - 2 * i]);
        let second = negative_of(q, &inner[inner.len() - 1 - (2 * i + 1)]);
        butterflies_back_twice(q, root, first, second, quarter, &mut row[start..end]);
        start = end;
    }
}

#[inline(always)]
fn root_of(factor: &Factor) -> Root
    ensures w { result.w ≡ factor.now.w }
    ensures shoup { result.shoup ≡ factor.now.shoup }
{
    Root {
        w: factor.w,
        shoup: factor.shoup,
    }
}

/// The negative of a factor that isn't 0. The quotient of an odd modulus doesn't come out even, so the two quotients have the sum
/// `2^64 - 1`.
#[inline(always)]
fn negative_of(q: u64, factor: &Factor) -> Root
    requires { HasNegative q factor.now }
    ensures w { result.w ≡ q - factor.now.w }
    ensures quotient { result.shoup ≡ shoup_of q (q - factor.now.w) }
{
    Root {
        w: q - factor.w,
        shoup: u64::MAX - factor.shoup,
    }
}
