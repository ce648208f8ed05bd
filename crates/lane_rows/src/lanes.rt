//! The arithmetic of `words` on four words at once, one in each lane of a vector.

ghost use Rattle.std.specs.Prelude.{◌≡◌, ℕ, ◌+◌, ◌-◌, ◌*◌, ◌/◌, ◌%◌, ◌^◌, ◌<◌, ◌≤◌, length, min, slice_index};
ghost use Rattle.lane_rows.specs.Lanes.{HasLanes, LanesBelow};

use std::simd::prelude::*;

/// The number of words that a vector holds.
pub const LANES: usize = 4;

/// The words of a row from a place on.
#[inline(always)]
pub fn load(row: &[u64], from: usize) -> u64x4
    requires { from + LANES ≤ length row.now }
    ensures { HasLanes result (λ i. slice_index row.now (from + i)) }
{
    u64x4::from_slice(&row[from..])
}

#[inline(always)]
fn splat(x: u64) -> u64x4
    ensures { HasLanes result (λ _. x) }
{
    u64x4::splat(x)
}

#[inline(always)]
fn sum(x: u64x4, y: u64x4) -> u64x4
    requires { (i : ℕ) → i < LANES → slice_index x i + slice_index y i < 2 ^ 64 }
    ensures { HasLanes result (λ i. slice_index x i + slice_index y i) }
{
    x + y
}

#[inline(always)]
fn wrapped_difference(x: u64x4, y: u64x4) -> u64x4
    ensures { HasLanes result (λ i. (slice_index x i + (2 ^ 64 - slice_index y i)) % 2 ^ 64) }
{
    x - y
}

#[inline(always)]
fn difference(x: u64x4, y: u64x4) -> u64x4
    requires { (i : ℕ) → i < LANES → slice_index y i ≤ slice_index x i }
    ensures { HasLanes result (λ i. slice_index x i - slice_index y i) }
{
    x - y
}

#[inline(always)]
fn least(x: u64x4, y: u64x4) -> u64x4
    ensures { HasLanes result (λ i. min (slice_index x i) (slice_index y i)) }
{
    x.simd_min(y)
}

/// As `words::reduce_once`.
#[inline(always)]
fn reduce_once(bound: u64, x: u64x4) -> u64x4
    requires { LanesBelow (2 * bound) x }
    ensures { HasLanes result (λ i. slice_index x i % bound) }
{
    least(x, wrapped_difference(x, splat(bound)))
}

/// As `words::add`.
#[inline(always)]
pub fn add(q: u64, x: u64x4, y: u64x4) -> u64x4
    requires modulus { (0 < q) × (q < 2 ^ 61) }
    requires x_below { LanesBelow q x }
    requires y_below { LanesBelow q y }
    ensures { HasLanes result (λ i. (slice_index x i + slice_index y i) % q) }
{
    reduce_once(q, sum(x, y))
}

/// As `words::sub`.
#[inline(always)]
pub fn sub(q: u64, x: u64x4, y: u64x4) -> u64x4
    requires modulus { (0 < q) × (q < 2 ^ 61) }
    requires x_below { LanesBelow q x }
    requires y_below { LanesBelow q y }
    ensures { HasLanes result (λ i. (slice_index x i + (q - slice_index y i)) % q) }
{
    reduce_once(q, sum(x, difference(splat(q), y)))
}

/// As `words::neg`.
#[inline(always)]
pub fn neg(q: u64, x: u64x4) -> u64x4
    requires modulus { (0 < q) × (q < 2 ^ 61) }
    requires x_below { LanesBelow q x }
    ensures { HasLanes result (λ i. (q - slice_index x i) % q) }
{
    reduce_once(q, difference(splat(q), x))
}

/// As `words::fold`.
#[inline(always)]
pub fn fold(q: u64, x: u64x4) -> u64x4
    requires modulus { (0 < q) × (q < 2 ^ 61) }
    requires x_below { LanesBelow (4 * q) x }
    ensures { HasLanes result (λ i. slice_index x i % q) }
{
    reduce_once(q, reduce_once(2 * q, x))
}
