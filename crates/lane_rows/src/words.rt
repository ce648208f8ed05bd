//! The arithmetic on one word.

ghost use Rattle.std.specs.Prelude.{◌≡◌, ◌+◌, ◌-◌, ◌*◌, ◌/◌, ◌%◌, ◌^◌, ◌<◌, ◌≤◌};
ghost use Rattle.lane_rows.specs.Butterflies.{HasQuotient, IsButterfly, IsButterflyBack, IsScaledButterflyBack};

use crate::two_layers::Root;

/// The residue of a word that at most one subtraction of the bound reduces.
#[inline(always)]
pub fn reduce_once(bound: u64, x: u64) -> u64
    requires { x < 2 * bound }
    ensures { result ≡ x % bound }
{
    x.min(x.wrapping_sub(bound))
}

/// The residue of the sum of two residues.
#[inline(always)]
pub fn add(q: u64, x: u64, y: u64) -> u64
    requires modulus { (0 < q) × (q < 2 ^ 61) }
    requires x_below { x < q }
    requires y_below { y < q }
    ensures { result ≡ (x + y) % q }
{
    reduce_once(q, x + y)
}

/// The residue of the difference of two residues.
#[inline(always)]
pub fn sub(q: u64, x: u64, y: u64) -> u64
    requires modulus { (0 < q) × (q < 2 ^ 61) }
    requires x_below { x < q }
    requires y_below { y < q }
    ensures { result ≡ (x + (q - y)) % q }
{
    reduce_once(q, x + (q - y))
}

/// The residue of the negative of a residue.
#[inline(always)]
pub fn neg(q: u64, x: u64) -> u64
    requires modulus { (0 < q) × (q < 2 ^ 61) }
    requires x_below { x < q }
    ensures { result ≡ (q - x) % q }
{
    reduce_once(q, q - x)
}

/// The high word of a product.
#[inline(always)]
fn high_product(x: u64, y: u64) -> u64
    ensures { result ≡ x * y / 2 ^ 64 }
{
    ((x as u128 * y as u128) >> 64) as u64
}

/// The product of any word with the constant w, one subtraction of q away from its residue, by Shoup's
/// method: `shoup` is the quotient of `w * 2^64` by q.
#[inline(always)]
pub fn scale_lazy(q: u64, w: u64, shoup: u64, x: u64) -> u64
    requires modulus { (0 < q) × (q < 2 ^ 61) }
    requires quotient { shoup ≡ w * 2 ^ 64 / q }
    ensures congruent { result % q ≡ (w * x) % q }
    ensures below { result < 2 * q }
{
    let multiple = high_product(x, shoup).wrapping_mul(q);
    x.wrapping_mul(w).wrapping_sub(multiple)
}

/// The residue of the product of any word with the constant w.
#[inline(always)]
pub fn scale(q: u64, w: u64, shoup: u64, x: u64) -> u64
    requires modulus { (0 < q) × (q < 2 ^ 61) }
    requires quotient { shoup ≡ w * 2 ^ 64 / q }
    ensures { result ≡ (w * x) % q }
{
    reduce_once(q, scale_lazy(q, w, shoup, x))
}

/// The residue of a word below 4q.
#[inline(always)]
pub fn fold(q: u64, x: u64) -> u64
    requires modulus { (0 < q) × (q < 2 ^ 61) }
    requires x_below { x < 4 * q }
    ensures { result ≡ x % q }
{
    reduce_once(q, reduce_once(2 * q, x))
}

/// The pair (x + w * y, x - w * y) modulo q, in words below 4q (Harvey 2014).
#[inline(always)]
pub fn butterfly(q: u64, w: u64, shoup: u64, x: u64, y: u64) -> (u64, u64)
    requires modulus { (0 < q) × (q < 2 ^ 61) }
    requires quotient { shoup ≡ w * 2 ^ 64 / q }
    requires x_below { x < 4 * q }
    ensures pair { IsButterfly q w x y result.0 result.1 }
    ensures sum_below { result.0 < 4 * q }
    ensures difference_below { result.1 < 4 * q }
{
    let twice = 2 * q;
    let x = reduce_once(twice, x);
    let product = scale_lazy(q, w, shoup, y);
    (x + product, x + twice - product)
}

/// The pair (x + y, w * (x - y)) modulo q, in words below 2q (Harvey 2014).
#[inline(always)]
pub fn butterfly_back(q: u64, w: u64, shoup: u64, x: u64, y: u64) -> (u64, u64)
    requires modulus { (0 < q) × (q < 2 ^ 61) }
    requires quotient { shoup ≡ w * 2 ^ 64 / q }
    requires x_below { x < 2 * q }
    requires y_below { y < 2 * q }
    ensures pair { IsButterflyBack q w x y result.0 result.1 }
    ensures sum_below { result.0 < 2 * q }
    ensures difference_below { result.1 < 2 * q }
{
    let twice = 2 * q;
    let sum = reduce_once(twice, x + y);
    (sum, scale_lazy(q, w, shoup, x + twice - y))
}

/// The residues of s * (x + y) and w * (x - y), where s is the factor `scale` and w that of `root`.
#[inline(always)]
pub fn scaled_butterfly_back(q: u64, scale: Root, root: Root, x: u64, y: u64) -> (u64, u64)
    requires modulus { (0 < q) × (q < 2 ^ 61) }
    requires scale_quotient { HasQuotient q scale }
    requires root_quotient { HasQuotient q root }
    requires x_below { x < 2 * q }
    requires y_below { y < 2 * q }
    ensures pair { IsScaledButterflyBack q scale.w root.w x y result.0 result.1 }
    ensures sum_below { result.0 < q }
    ensures difference_below { result.1 < q }
{
    let difference = x + 2 * q - y;
    (
        self::scale(q, scale.w, scale.shoup, x + y),
        self::scale(q, root.w, root.shoup, difference),
    )
}
