//! Sums, differences, negatives and multiples of rows of residues.
//!
//! A function whose name ends in `_chunks` goes over the whole chunks of the rows alone, and answers how many
//! words these have.

ghost use Rattle.std.specs.Prelude.{◌≡◌, ℕ, ◌+◌, ◌-◌, ◌*◌, ◌/◌, ◌%◌, ◌^◌, ◌<◌, ◌≤◌, length, slice_index};
ghost use Rattle.std.specs.List.{SameFrom};
ghost use Rattle.lane_rows.specs.Rows.{RowBelow};

use crate::lanes::{LANES, load};
use crate::{UNROLLED, lanes, words};
use std::simd::prelude::*;

/// Writes the residues of `a_i + b_i` into `out`.
pub fn add_row(q: u64, a: &[u64], b: &[u64], out: &mut [u64])
    requires modulus { (0 < q) × (q < 2 ^ 61) }
    requires a_length { length a.now ≡ length out.old }
    requires b_length { length b.now ≡ length out.old }
    requires a_below { RowBelow q a.now }
    requires b_below { RowBelow q b.now }
    ensures residues { (i : ℕ) → i < length out.old
        → slice_index out.new i ≡ (slice_index a.now i + slice_index b.now i) % q }
    ensures below { RowBelow q out.new }
{
    let whole = add_chunks(q, a, b, out);
    for i in whole..out.len() {
        out[i] = words::add(q, a[i], b[i]);
    }
}

fn add_chunks(q: u64, a: &[u64], b: &[u64], out: &mut [u64]) -> usize
    requires modulus { (0 < q) × (q < 2 ^ 61) }
    requires a_length { length a.now ≡ length out.old }
    requires b_length { length b.now ≡ length out.old }
    requires a_below { RowBelow q a.now }
    requires b_below { RowBelow q b.now }
    ensures whole { result ≡ length out.old / LANES * LANES }
    ensures residues { (i : ℕ) → i < result
        → slice_index out.new i ≡ (slice_index a.now i + slice_index b.now i) % q }
{
    let chunks = out.len() / LANES;
    for k in 0..chunks {
        let from = LANES * k;
        let sums = lanes::add(q, load(a, from), load(b, from));
        sums.copy_to_slice(&mut out[from..]);
    }
    chunks * LANES
}

/// Writes the residues of `a_i - b_i` into `out`.
pub fn sub_row(q: u64, a: &[u64], b: &[u64], out: &mut [u64])
    requires modulus { (0 < q) × (q < 2 ^ 61) }
    requires a_length { length a.now ≡ length out.old }
    requires b_length { length b.now ≡ length out.old }
    requires a_below { RowBelow q a.now }
    requires b_below { RowBelow q b.now }
    ensures residues { (i : ℕ) → i < length out.old
        → slice_index out.new i ≡ (slice_index a.now i + (q - slice_index b.now i)) % q }
    ensures below { RowBelow q out.new }
{
    let whole = sub_chunks(q, a, b, out);
    for i in whole..out.len() {
        out[i] = words::sub(q, a[i], b[i]);
    }
}

fn sub_chunks(q: u64, a: &[u64], b: &[u64], out: &mut [u64]) -> usize
    requires modulus { (0 < q) × (q < 2 ^ 61) }
    requires a_length { length a.now ≡ length out.old }
    requires b_length { length b.now ≡ length out.old }
    requires a_below { RowBelow q a.now }
    requires b_below { RowBelow q b.now }
    ensures whole { result ≡ length out.old / LANES * LANES }
    ensures residues { (i : ℕ) → i < result
        → slice_index out.new i ≡ (slice_index a.now i + (q - slice_index b.now i)) % q }
{
    let chunks = out.len() / LANES;
    for k in 0..chunks {
        let from = LANES * k;
        let differences = lanes::sub(q, load(a, from), load(b, from));
        differences.copy_to_slice(&mut out[from..]);
    }
    chunks * LANES
}

/// Writes the residues of `-a_i` into `out`.
pub fn neg_row(q: u64, a: &[u64], out: &mut [u64])
    requires modulus { (0 < q) × (q < 2 ^ 61) }
    requires a_length { length a.now ≡ length out.old }
    requires a_below { RowBelow q a.now }
    ensures residues { (i : ℕ) → i < length out.old → slice_index out.new i ≡ (q - slice_index a.now i) % q }
    ensures below { RowBelow q out.new }
{
    let whole = neg_chunks(q, a, out);
    for i in whole..out.len() {
        out[i] = words::neg(q, a[i]);
    }
}

fn neg_chunks(q: u64, a: &[u64], out: &mut [u64]) -> usize
    requires modulus { (0 < q) × (q < 2 ^ 61) }
    requires a_length { length a.now ≡ length out.old }
    requires a_below { RowBelow q a.now }
    ensures whole { result ≡ length out.old / LANES * LANES }
    ensures residues { (i : ℕ) → i < result → slice_index out.new i ≡ (q - slice_index a.now i) % q }
{
    let chunks = out.len() / LANES;
    for k in 0..chunks {
        let from = LANES * k;
        let negatives = lanes::neg(q, load(a, from));
        negatives.copy_to_slice(&mut out[from..]);
    }
    chunks * LANES
}

/// Writes the residues of `a_i * w` into `out`, for words `a_i` of any size, by Shoup's method.
pub fn scale_row(q: u64, w: u64, shoup: u64, a: &[u64], out: &mut [u64])
    requires modulus { (0 < q) × (q < 2 ^ 61) }
    requires quotient { shoup ≡ w * 2 ^ 64 / q }
    requires a_length { length a.now ≡ length out.old }
    ensures residues { (i : ℕ) → i < length out.old → slice_index out.new i ≡ (w * slice_index a.now i) % q }
    ensures below { RowBelow q out.new }
{
    let chunks = out.len() / UNROLLED;
    'chunks: for k in 0..chunks {
        'places: for r in 0..UNROLLED {
            let i = UNROLLED * k + r;
            out[i] = words::scale(q, w, shoup, a[i]);
        }
    }
    'rest: for i in UNROLLED * chunks..out.len() {
        out[i] = words::scale(q, w, shoup, a[i]);
    }
}

/// Replaces each word, of any size, by the residue of its product with w, by Shoup's method.
pub fn scale_row_in_place(q: u64, w: u64, shoup: u64, a: &mut [u64])
    requires modulus { (0 < q) × (q < 2 ^ 61) }
    requires quotient { shoup ≡ w * 2 ^ 64 / q }
    ensures residues { (i : ℕ) → i < length a.old → slice_index a.new i ≡ (w * slice_index a.old i) % q }
    ensures below { RowBelow q a.new }
{
    let chunks = a.len() / UNROLLED;
    'chunks: for k in 0..chunks {
        'places: for r in 0..UNROLLED {
            let i = UNROLLED * k + r;
            a[i] = words::scale(q, w, shoup, a[i]);
        }
    }
    'rest: for i in UNROLLED * chunks..a.len() {
        a[i] = words::scale(q, w, shoup, a[i]);
    }
}

/// Replaces each word below 4q by its residue.
pub fn fold_row(q: u64, a: &mut [u64])
    requires modulus { (0 < q) × (q < 2 ^ 61) }
    requires a_below { RowBelow (4 * q) a.old }
    ensures residues { (i : ℕ) → i < length a.old → slice_index a.new i ≡ slice_index a.old i % q }
    ensures below { RowBelow q a.new }
{
    let whole = fold_chunks(q, a);
    for i in whole..a.len() {
        a[i] = words::fold(q, a[i]);
    }
}

fn fold_chunks(q: u64, a: &mut [u64]) -> usize
    requires modulus { (0 < q) × (q < 2 ^ 61) }
    requires a_below { RowBelow (4 * q) a.old }
    ensures whole { result ≡ length a.old / LANES * LANES }
    ensures residues { (i : ℕ) → i < result → slice_index a.new i ≡ slice_index a.old i % q }
    ensures rest { SameFrom a.old a.new result }
{
    let chunks = a.len() / LANES;
    for k in 0..chunks {
        let from = LANES * k;
        let residues = lanes::fold(q, load(a, from));
        residues.copy_to_slice(&mut a[from..]);
    }
    chunks * LANES
}
