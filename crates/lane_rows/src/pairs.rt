//! Butterflies: the steps of the number-theoretic transform, on the pairs of words of two rows.

ghost use Rattle.std.specs.Prelude.{◌≡◌, ◌≢◌, ℕ, ◌+◌, ◌*◌, ◌/◌, ◌%◌, ◌^◌, ◌<◌, ◌≤◌, length, slice_index};
ghost use Rattle.lane_rows.specs.Butterflies.{HasQuotient, IsButterfly, IsButterflyBack, IsScaledButterflyBack};
ghost use Rattle.lane_rows.specs.Rows.{RowBelow};

use crate::two_layers::Root;
use crate::{UNROLLED, words};

/// Replaces each pair (x, y) of words below 4q, x from `lo` and y from `hi`, by words below 4q that are
/// congruent to x + w * y and x - w * y modulo q.
pub fn butterflies(q: u64, w: u64, shoup: u64, lo: &mut [u64], hi: &mut [u64])
    requires modulus { (0 < q) × (q < 2 ^ 61) }
    requires quotient { shoup ≡ w * 2 ^ 64 / q }
    requires lengths { length lo.old ≡ length hi.old }
    requires lo_below { RowBelow (4 * q) lo.old }
    ensures pairs { (i : ℕ) → i < length lo.old → IsButterfly q w (slice_index lo.old i)
        (slice_index hi.old i) (slice_index lo.new i) (slice_index hi.new i) }
    ensures lo_below { RowBelow (4 * q) lo.new }
    ensures hi_below { RowBelow (4 * q) hi.new }
{
    let chunks = lo.len() / UNROLLED;
    'chunks: for k in 0..chunks {
        'places: for r in 0..UNROLLED {
            step(q, w, shoup, UNROLLED * k + r, lo, hi);
        }
    }
    'rest: for i in UNROLLED * chunks..lo.len() {
        step(q, w, shoup, i, lo, hi);
    }
}

/// The pair at one place.
#[inline(always)]
fn step(q: u64, w: u64, shoup: u64, i: usize, lo: &mut [u64], hi: &mut [u64])
    requires modulus { (0 < q) × (q < 2 ^ 61) }
    requires quotient { shoup ≡ w * 2 ^ 64 / q }
    requires lo_inside { i < length lo.old }
    requires hi_inside { i < length hi.old }
    requires below { slice_index lo.old i < 4 * q }
    ensures pair { IsButterfly q w (slice_index lo.old i) (slice_index hi.old i)
        (slice_index lo.new i) (slice_index hi.new i) }
    ensures lo_below { slice_index lo.new i < 4 * q }
    ensures hi_below { slice_index hi.new i < 4 * q }
    ensures lo_others { (j : ℕ) → j ≢ i → slice_index lo.new j ≡ slice_index lo.old j }
    ensures hi_others { (j : ℕ) → j ≢ i → slice_index hi.new j ≡ slice_index hi.old j }
{
    let (sum, difference) = words::butterfly(q, w, shoup, lo[i], hi[i]);
    lo[i] = sum;
    hi[i] = difference;
}

/// Replaces each pair (x, y) of words below 2q, x from `lo` and y from `hi`, by words below 2q that are
/// congruent to x + y and w * (x - y) modulo q.
pub fn butterflies_back(q: u64, w: u64, shoup: u64, lo: &mut [u64], hi: &mut [u64])
    requires modulus { (0 < q) × (q < 2 ^ 61) }
    requires quotient { shoup ≡ w * 2 ^ 64 / q }
    requires lengths { length lo.old ≡ length hi.old }
    requires lo_below { RowBelow (2 * q) lo.old }
    requires hi_below { RowBelow (2 * q) hi.old }
    ensures pairs { (i : ℕ) → i < length lo.old → IsButterflyBack q w (slice_index lo.old i)
        (slice_index hi.old i) (slice_index lo.new i) (slice_index hi.new i) }
    ensures lo_below { RowBelow (2 * q) lo.new }
    ensures hi_below { RowBelow (2 * q) hi.new }
{
    let chunks = lo.len() / UNROLLED;
    'chunks: for k in 0..chunks {
        'places: for r in 0..UNROLLED {
            step_back(q, w, shoup, UNROLLED * k + r, lo, hi);
        }
    }
    'rest: for i in UNROLLED * chunks..lo.len() {
        step_back(q, w, shoup, i, lo, hi);
    }
}

/// The pair at one place, on the way back.
#[inline(always)]
fn step_back(q: u64, w: u64, shoup: u64, i: usize, lo: &mut [u64], hi: &mut [u64])
    requires modulus { (0 < q) × (q < 2 ^ 61) }
    requires quotient { shoup ≡ w * 2 ^ 64 / q }
    requires lo_inside { i < length lo.old }
    requires hi_inside { i < length hi.old }
    requires lo_below { slice_index lo.old i < 2 * q }
    requires hi_below { slice_index hi.old i < 2 * q }
    ensures pair { IsButterflyBack q w (slice_index lo.old i) (slice_index hi.old i)
        (slice_index lo.new i) (slice_index hi.new i) }
    ensures lo_below { slice_index lo.new i < 2 * q }
    ensures hi_below { slice_index hi.new i < 2 * q }
    ensures lo_others { (j : ℕ) → j ≢ i → slice_index lo.new j ≡ slice_index lo.old j }
    ensures hi_others { (j : ℕ) → j ≢ i → slice_index hi.new j ≡ slice_index hi.old j }
{
    let (sum, difference) = words::butterfly_back(q, w, shoup, lo[i], hi[i]);
    lo[i] = sum;
    hi[i] = difference;
}

/// The last butterflies back, which multiply all words by the factor of `scale` as well: that of `root` has it in it. The words
/// are reduced.
pub fn scaled_butterflies_back(q: u64, scale: Root, root: Root, lo: &mut [u64], hi: &mut [u64])
    requires modulus { (0 < q) × (q < 2 ^ 61) }
    requires scale_quotient { HasQuotient q scale }
    requires root_quotient { HasQuotient q root }
    requires lengths { length lo.old ≡ length hi.old }
    requires lo_below { RowBelow (2 * q) lo.old }
    requires hi_below { RowBelow (2 * q) hi.old }
    ensures pairs { (i : ℕ) → i < length lo.old → IsScaledButterflyBack q scale.w root.w (slice_index lo.old i)
        (slice_index hi.old i) (slice_index lo.new i) (slice_index hi.new i) }
    ensures lo_below { RowBelow q lo.new }
    ensures hi_below { RowBelow q hi.new }
{
    let chunks = lo.len() / UNROLLED;
    'chunks: for k in 0..chunks {
        'places: for r in 0..UNROLLED {
            scaled_step_back(q, scale, root, UNROLLED * k + r, lo, hi);
        }
    }
    'rest: for i in UNROLLED * chunks..lo.len() {
        scaled_step_back(q, scale, root, i, lo, hi);
    }
}

/// The last pair at one place, on the way back.
#[inline(always)]
fn scaled_step_back(q: u64, scale: Root, root: Root, i: usize, lo: &mut [u64], hi: &mut [u64])
    requires modulus { (0 < q) × (q < 2 ^ 61) }
    requires scale_quotient { HasQuotient q scale }
    requires root_quotient { HasQuotient q root }
    requires lo_inside { i < length lo.old }
    requires hi_inside { i < length hi.old }
    requires lo_below { slice_index lo.old i < 2 * q }
    requires hi_below { slice_index hi.old i < 2 * q }
    ensures pair { IsScaledButterflyBack q scale.w root.w (slice_index lo.old i) (slice_index hi.old i)
        (slice_index lo.new i) (slice_index hi.new i) }
    ensures lo_below { slice_index lo.new i < q }
    ensures hi_below { slice_index hi.new i < q }
    ensures lo_others { (j : ℕ) → j ≢ i → slice_index lo.new j ≡ slice_index lo.old j }
    ensures hi_others { (j : ℕ) → j ≢ i → slice_index hi.new j ≡ slice_index hi.old j }
{
    let (sum, difference) = words::scaled_butterfly_back(q, scale, root, lo[i], hi[i]);
    lo[i] = sum;
    hi[i] = difference;
}
