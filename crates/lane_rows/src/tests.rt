// The calls in lanes against arithmetic on 128-bit words, at lengths round a whole number of chunks and at
// words round the edges of their ranges.
ghost use Rattle.std.specs.Prelude.{◌≡◌, ℕ, ◌+◌, ◌*◌, ◌/◌, ◌%◌, ◌^◌, ◌<◌, ◌≤◌, length};
ghost use Rattle.lane_rows.specs.Butterflies.{HasQuotient};
ghost use Rattle.lane_rows.specs.Rows.{RowBelow};

use super::*;
use std::alloc::Global;
use std::process::Abort;
use std::test::Fail;

const LENGTHS: [usize; 7] = [0, 1, 3, 4, 5, 16, 31];

// The least and the greatest modulus, and two between.
const MODULI: [u64; 4] = [3, 17, 0xffff_ffff, (1 << 61) - 1];

// A row of words at the edges of the range below the bound, begun at the given one of them.
fn edges(bound: u64, first: usize, row: &mut [u64])
    requires { 0 < bound }
    ensures { RowBelow bound row.new }
{
    for i in 0..row.len() {
        row[i] = match (i % 5 + first % 5) % 5 {
            0 => 0,
            1 => bound - 1,
            2 => bound / 2,
            3 => (bound - 1) / 3,
            _ => 1 % bound,
        };
    }
}

fn quotient(q: u64, w: u64) -> u64
    requires { w < q }
    ensures { result ≡ w * 2 ^ 64 / q }
{
    (u128::from(w) * (1 << 64) / u128::from(q)) as u64
}

fn check_sums(
    rt: &impl Abort,
    q: u64,
    a: &mut [u64],
    b: &mut [u64],
    sums: &mut [u64],
    differences: &mut [u64],
)
    requires modulus { (0 < q) × (q < 2 ^ 61) }
    requires b_length { length b.old ≡ length a.old }
    requires sums_length { length sums.old ≡ length a.old }
    requires differences_length { length differences.old ≡ length a.old }
{
    let wide = u128::from(q);
    edges(q, 0, a);
    edges(q, 3, b);
    add_row(q, a, b, sums);
    sub_row(q, a, b, differences);
    for i in 0..a.len() {
        let sum = (u128::from(a[i]) + u128::from(b[i])) % wide;
        let difference = (u128::from(a[i]) + wide - u128::from(b[i])) % wide;
        assert_eq!(rt; u128::from(sums[i]), sum, "{q} at {i}");
        assert_eq!(rt; u128::from(differences[i]), difference, "{q} at {i}");
    }
}

fn check_negatives(rt: &impl Abort, q: u64, a: &mut [u64], out: &mut [u64])
    requires modulus { (0 < q) × (q < 2 ^ 61) }
    requires a_length { length a.old ≡ length out.old }
{
    edges(q, 0, a);
    neg_row(q, a, out);
    for i in 0..out.len() {
        assert_eq!(rt; out[i], (q - a[i]) % q, "{q} at {i}");
    }
}

fn check_residues(rt: &impl Abort, q: u64, a: &mut [u64], out: &mut [u64])
    requires modulus { (0 < q) × (q < 2 ^ 61) }
    requires a_length { length a.old ≡ length out.old }
{
    edges(4 * q, 0, a);
    edges(4 * q, 0, out);
    fold_row(q, out);
    for i in 0..out.len() {
        assert_eq!(rt; out[i], a[i] % q, "{q} at {i}");
    }
}

fn check_products(rt: &impl Abort, q: u64, w: u64, a: &mut [u64], out: &mut [u64])
    requires modulus { q < 2 ^ 61 }
    requires factor { w < q }
    requires a_length { length a.old ≡ length out.old }
{
    edges(u64::MAX, 0, a);
    scale_row(q, w, quotient(q, w), a, out);
    for i in 0..out.len() {
        let product = u128::from(w) * u128::from(a[i]) % u128::from(q);
        assert_eq!(rt; u128::from(out[i]), product, "{q}, {w} at {i}");
    }
    scale_row_in_place(q, w, quotient(q, w), a);
    assert!(rt; &*a == &*out, "{q}, {w} in place");
}

// `lo` and `hi` become the pairs of the words of `x` and `y`.
fn check_butterflies(
    rt: &impl Abort,
    q: u64,
    w: u64,
    x: &mut [u64],
    y: &mut [u64],
    lo: &mut [u64],
    hi: &mut [u64],
)
    requires modulus { q < 2 ^ 61 }
    requires factor { w < q }
    requires y_length { length y.old ≡ length x.old }
    requires lo_length { length lo.old ≡ length x.old }
    requires hi_length { length hi.old ≡ length x.old }
{
    let wide = u128::from(q);
    edges(4 * q, 0, x);
    edges(4 * q, 3, y);
    edges(4 * q, 0, lo);
    edges(4 * q, 3, hi);
    butterflies(q, w, quotient(q, w), lo, hi);
    for i in 0..x.len() {
        let product = u128::from(w) * u128::from(y[i]) % wide;
        let sum = (u128::from(x[i]) + product) % wide;
        let difference = (u128::from(x[i]) + wide - product) % wide;
        assert_eq!(rt; u128::from(lo[i]) % wide, sum, "{q}, {w} at {i}");
        assert_eq!(rt; u128::from(hi[i]) % wide, difference, "{q}, {w} at {i}");
    }
}

fn check_butterflies_back(
    rt: &impl Abort,
    q: u64,
    w: u64,
    x: &mut [u64],
    y: &mut [u64],
    lo: &mut [u64],
    hi: &mut [u64],
)
    requires modulus { q < 2 ^ 61 }
    requires factor { w < q }
    requires y_length { length y.old ≡ length x.old }
    requires lo_length { length lo.old ≡ length x.old }
    requires hi_length { length hi.old ≡ length x.old }
{
    let wide = u128::from(q);
    edges(2 * q, 0, x);
    edges(2 * q, 3, y);
    edges(2 * q, 0, lo);
    edges(2 * q, 3, hi);
    butterflies_back(q, w, quotient(q, w), lo, hi);
    for i in 0..x.len() {
        let sum = (u128::from(x[i]) + u128::from(y[i])) % wide;
        let difference = u128::from(x[i]) + 2 * wide - u128::from(y[i]);
        let product = u128::from(w) * difference % wide;
        assert_eq!(rt; u128::from(lo[i]) % wide, sum, "{q}, {w} at {i}");
        assert_eq!(rt; u128::from(hi[i]) % wide, product, "{q}, {w} at {i}");
    }
}

// The residue of x + y * w, where a negative sign is a factor q - w.
fn combined(q: u64, x: u64, w: u64, y: u64) -> u64
    requires { 0 < q }
    ensures { result < q }
{
    ((u128::from(x) + u128::from(y) * u128::from(w)) % u128::from(q)) as u64
}

fn root(q: u64, w: u64) -> Root
    requires { w < q }
    ensures w { result.w ≡ w }
    ensures quotient { HasQuotient q result }
{
    Root {
        w,
        shoup: quotient(q, w),
    }
}

// A block of four quarters becomes what two layers of pairs make of the words of `old`, of the factors w, 1 and q - 1 - w.
fn check_two_layers(
    rt: &impl Abort,
    q: u64,
    w: u64,
    quarter: usize,
    old: &mut [u64],
    block: &mut [u64],
)
    requires modulus { (2 < q) × (q < 2 ^ 61) }
    requires factor { w < q }
    requires old_length { length old.old ≡ 4 * quarter }
    requires block_length { length block.old ≡ 4 * quarter }
{
    let v = q - 1 - w;
    edges(4 * q, 0, old);
    edges(4 * q, 0, block);
    butterflies_twice(q, root(q, w), root(q, 1), root(q, v), quarter, block);
    for i in 0..quarter {
        let (a, b) = (old[i], old[quarter + i]);
        let (c, d) = (old[2 * quarter + i], old[3 * quarter + i]);
        let (low_a, low_b) = (combined(q, a, w, c), combined(q, b, w, d));
        let (high_c, high_d) = (combined(q, a, q - w, c), combined(q, b, q - w, d));
        assert_eq!(rt;
            block[i] % q,
            combined(q, low_a, 1, low_b),
            "{q}, {w} at {i}"
        );
        assert_eq!(rt;
            block[quarter + i] % q,
            combined(q, low_a, q - 1, low_b),
            "{q}, {w} at {i}"
        );
        assert_eq!(rt;
            block[2 * quarter + i] % q,
            combined(q, high_c, v, high_d),
            "{q}, {w} at {i}"
        );
        assert_eq!(rt;
            block[3 * quarter + i] % q,
            combined(q, high_c, q - v, high_d),
            "{q}, {w} at {i}"
        );
    }
}

// The same on the way back, once as it is and once scaled by w, of which the factor of the outer layer has been made a part.
fn check_two_layers_back(
    rt: &impl Abort,
    q: u64,
    w: u64,
    quarter: usize,
    old: &mut [u64],
    block: &mut [u64],
)
    requires modulus { (2 < q) × (q < 2 ^ 61) }
    requires factor { w < q }
    requires old_length { length old.old ≡ 4 * quarter }
    requires block_length { length block.old ≡ 4 * quarter }
{
    let v = q - 1 - w;
    edges(2 * q, 0, old);
    edges(2 * q, 0, block);
    butterflies_back_twice(q, root(q, w), root(q, 1), root(q, v), quarter, block);
    for i in 0..quarter {
        let (a, b) = (old[i], old[quarter + i]);
        let (c, d) = (old[2 * quarter + i], old[3 * quarter + i]);
        let (sum, other) = (combined(q, a, 1, b), combined(q, c, 1, d));
        assert_eq!(rt; block[i] % q, combined(q, sum, 1, other), "{q}, {w} at {i}");
        let difference = combined(q, sum, q - 1, other);
        assert_eq!(rt;
            block[2 * quarter + i] % q,
            combined(q, 0, w, difference),
            "{q}, {w} at {i}"
        );
    }
    edges(2 * q, 0, block);
    let scaled = combined(q, 0, w, w);
    scaled_butterflies_back_twice(
        q,
        root(q, w),
        root(q, scaled),
        root(q, 1),
        root(q, v),
        quarter,
        block,
    );
    for i in 0..quarter {
        let (a, b) = (old[i], old[quarter + i]);
        let (c, d) = (old[2 * quarter + i], old[3 * quarter + i]);
        let low = combined(q, a, q - 1, b);
        let high = combined(q, 0, v, combined(q, c, q - 1, d));
        assert_eq!(rt;
            block[quarter + i],
            combined(q, 0, w, combined(q, low, 1, high)),
            "{q}, {w} at {i}"
        );
        let difference = combined(q, low, q - 1, high);
        assert_eq!(rt;
            block[3 * quarter + i],
            combined(q, 0, scaled, difference),
            "{q}, {w} at {i}"
        );
    }
}

// The pairs of the last layer back, scaled by w.
fn check_scaled_butterflies_back(
    rt: &impl Abort,
    q: u64,
    w: u64,
    x: &mut [u64],
    lo: &mut [u64],
    hi: &mut [u64],
)
    requires modulus { (2 < q) × (q < 2 ^ 61) }
    requires factor { w < q }
    requires lo_length { length lo.old ≡ length x.old }
    requires hi_length { length hi.old ≡ length x.old }
{
    edges(2 * q, 0, x);
    edges(2 * q, 0, lo);
    edges(2 * q, 0, hi);
    scaled_butterflies_back(q, root(q, w), root(q, 1), lo, hi);
    for i in 0..x.len() {
        assert_eq!(rt;
            lo[i],
            combined(q, combined(q, 0, w, x[i]), w, x[i]),
            "{q}, {w} at {i}"
        );
        assert_eq!(rt; hi[i], 0, "{q}, {w} at {i}");
    }
}

// Each call at a modulus and a length.
fn check_calls(rt: &impl Abort, alloc: Global, q: u64, len: usize) -> Result<(), Fail>
    requires modulus { (2 < q) × (q < 2 ^ 61) }
{
    let mut a = vec![in alloc; 0; len]?;
    let mut b = vec![in alloc; 0; len]?;
    let mut c = vec![in alloc; 0; len]?;
    let mut d = vec![in alloc; 0; len]?;
    let (a, b, c, d) = (
        a.as_mut_slice(),
        b.as_mut_slice(),
        c.as_mut_slice(),
        d.as_mut_slice(),
    );
    check_sums(rt, q, a, b, c, d);
    check_negatives(rt, q, a, b);
    check_residues(rt, q, a, b);
    for k in 0..4 {
        let w = match k {
            0 => 0,
            1 => 1,
            2 => q / 2,
            _ => q - 1,
        };
        check_products(rt, q, w, a, b);
        check_butterflies(rt, q, w, a, b, c, d);
        check_butterflies_back(rt, q, w, a, b, c, d);
        check_scaled_butterflies_back(rt, q, w, a, b, c);
    }
    Ok(())
}

// Two layers at a modulus and a length of the quarters.
fn check_blocks(rt: &impl Abort, alloc: Global, q: u64, quarter: usize) -> Result<(), Fail>
    requires modulus { (2 < q) × (q < 2 ^ 61) }
    requires quarter { quarter ≤ 31 }
{
    let words = 4 * quarter;
    let mut old = vec![in alloc; 0; words]?;
    let mut block = vec![in alloc; 0; words]?;
    let (old, block) = (old.as_mut_slice(), block.as_mut_slice());
    for w in [0, 1, q / 2, q - 1] {
        if w < q {
            check_two_layers(rt, q, w, quarter, old, block);
            check_two_layers_back(rt, q, w, quarter, old, block);
        }
    }
    Ok(())
}

#[test]
fn calls_agree_word_by_word(rt: HostRuntime) -> Result<(), Fail> {
    for q in MODULI {
        assert!(rt; 2 < q && q < 1 << 61);
        for len in LENGTHS {
            check_calls(&rt, rt.alloc(), q, len)?;
            assert!(rt; len <= 31);
            check_blocks(&rt, rt.alloc(), q, len)?;
        }
    }
    Ok(())
}

#[test]
fn folds_below_four_moduli(rt: HostRuntime) {
    let mut row = [0, 17, 34, 51, 67];
    fold_row(17, &mut row);
    assert_eq!(rt; row, [0, 0, 0, 0, 16]);
}
