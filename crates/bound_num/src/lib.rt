//! Noise bounds of ciphers as rounded whole numbers: a mantissa of 32 bits and a binary exponent.
//!
//! A bound rounded up is never less than the exact one, and a limit rounded down never more. Each
//! call rounds the exact result of its operation, and no call computes a power of two, so that
//! exponents may be large. The form is this project's own.
#![tactic(auto)]

ghost use Rattle.std.specs.Prelude.{◌↔◌, ◌≡◌, ◌+◌, ◌-◌, ◌*◌, ◌/◌, ◌^◌, ◌<◌, ◌≤◌, ◌⊎◌, max, IsTrue};
ghost use Rattle.std.specs.Int.{div_ceil};
ghost use Rattle.std.specs.Ordering.{nat_cmp};
ghost use Rattle.bound_num.specs.Bound.{bound_value, IsCanonical, IsUp, IsDown, bit_length, up, down};

use std::cmp::Ordering;

/// The greatest exponent that an operand may have. One operation adds at most 64 to it.
pub const MAX_EXPONENT: u32 = 1_000_000;

/// The number `m * 2^e`.
///
/// It is canonical where `e` is 0 or the highest bit of `m` is set, so a number has at most one
/// canonical form. Operands have to be canonical, and every result is.
#[derive(Clone, Copy, Debug, PartialEq, Eq)]
pub struct Bound {
    pub m: u32,
    pub e: u32,
}

/// How many binary digits of `n` a mantissa has no room for.
fn excess_digits(n: u128) -> u32
    ensures value { result ≡ bit_length n - 32 }
    ensures most { result ≤ 96 }
{
    (u128::BITS - n.leading_zeros()).saturating_sub(u32::BITS)
}

/// Up of `n * 2^e`.
fn round_up(n: u128, e: u32) -> Bound
    requires full { (e ≡ 0) ⊎ (2 ^ 31 ≤ n) }
    requires small { e ≤ MAX_EXPONENT }
    ensures { IsUp (n * 2 ^ e) result.m result.e }
{
    let excess = excess_digits(n);
    let mantissa = n.div_ceil(1 << excess);
    if mantissa == 1 << 32 {
        Bound {
            m: 1 << 31,
            e: e + excess + 1,
        }
    } else {
        Bound {
            m: mantissa as u32,
            e: e + excess,
        }
    }
}

/// Down of `n * 2^e`.
fn round_down(n: u128, e: u32) -> Bound
    requires full { (e ≡ 0) ⊎ (2 ^ 31 ≤ n) }
    requires small { e ≤ MAX_EXPONENT }
    ensures { IsDown (n * 2 ^ e) result.m result.e }
{
    let excess = excess_digits(n);
    Bound {
        m: (n >> excess) as u32,
        e: e + excess,
    }
}

/// Up of the sum, where `high` has no smaller exponent than `low`.
fn add_ordered(high: Bound, low: Bound) -> Bound
    requires high { IsCanonical high.m high.e }
    requires low { IsCanonical low.m low.e }
    requires ordered { low.e ≤ high.e }
    requires small { high.e ≤ MAX_EXPONENT }
    ensures { IsUp (bound_value high.m high.e + bound_value low.m low.e) result.m result.e }
{
    let gap = high.e - low.e;
    if gap <= u32::BITS {
        round_up(((high.m as u128) << gap) + low.m as u128, low.e)
    } else if low.m == 0 {
        high
    } else {
        // All of `low` is less than one unit of the mantissa of `high`.
        round_up(high.m as u128 + 1, high.e)
    }
}

impl Bound {
    /// Up of a word.
    pub fn of(x: u64) -> Bound
        ensures rounded { IsUp x result.m result.e }
        ensures value { bound_value result.m result.e ≡ up x }
        ensures exponent { result.e ≤ 33 }
    {
        round_up(x as u128, 0)
    }

    /// Down of a word.
    pub fn down_of(x: u64) -> Bound
        ensures rounded { IsDown x result.m result.e }
        ensures value { bound_value result.m result.e ≡ down x }
        ensures exponent { result.e ≤ 32 }
    {
        round_down(x as u128, 0)
    }

    /// Up of the sum.
    pub fn add_up(self, other: Bound) -> Bound
        requires canonical { IsCanonical self.m self.e }
        requires other_canonical { IsCanonical other.m other.e }
        requires small { self.e ≤ MAX_EXPONENT }
        requires other_small { other.e ≤ MAX_EXPONENT }
        ensures rounded { IsUp (bound_value self.m self.e + bound_value other.m other.e)
            result.m result.e }
        ensures value { bound_value result.m result.e
            ≡ up (bound_value self.m self.e + bound_value other.m other.e) }
        ensures exponent { result.e ≤ max self.e other.e + 1 }
    {
        if self.e < other.e {
            add_ordered(other, self)
        } else {
            add_ordered(self, other)
        }
    }

    /// Up of the product with a word.
    pub fn mul_up(self, k: u64) -> Bound
        requires canonical { IsCanonical self.m self.e }
        requires small { self.e ≤ MAX_EXPONENT }
        ensures rounded { IsUp (bound_value self.m self.e * k) result.m result.e }
        ensures value { bound_value result.m result.e ≡ up (bound_value self.m self.e * k) }
        ensures exponent { result.e ≤ self.e + 64 }
    {
        if k == 0 {
            return Bound { m: 0, e: 0 };
        }
        round_up(self.m as u128 * k as u128, self.e)
    }

    /// Down of the product with a word.
    pub fn mul_down(self, k: u64) -> Bound
        requires canonical { IsCanonical self.m self.e }
        requires small { self.e ≤ MAX_EXPONENT }
        ensures rounded { IsDown (bound_value self.m self.e * k) result.m result.e }
        ensures value { bound_value result.m result.e ≡ down (bound_value self.m self.e * k) }
        ensures exponent { result.e ≤ self.e + 64 }
    {
        if k == 0 {
            return Bound { m: 0, e: 0 };
        }
        round_down(self.m as u128 * k as u128, self.e)
    }

    /// Up of the quotient, which is first rounded up to a whole number.
    pub fn div_up(self, q: u64) -> Bound
        requires canonical { IsCanonical self.m self.e }
        requires small { self.e ≤ MAX_EXPONENT }
        requires divisor { 0 < q }
        ensures rounded { IsUp (div_ceil (bound_value self.m self.e) q) result.m result.e }
        ensures value { bound_value result.m result.e ≡ up (div_ceil (bound_value self.m self.e) q) }
        ensures exponent { result.e ≤ self.e }
    {
        // Shifted by 64 digits, a full mantissa is at least 2^31 times any divisor, so that the
        // quotient fills a mantissa.
        let shift = self.e.min(u64::BITS);
        let dividend = (self.m as u128) << shift;
        round_up(dividend.div_ceil(q as u128), self.e - shift)
    }

    /// Down of the quotient by 4, which is first rounded down to a whole number.
    pub fn quarter(self) -> Bound
        requires canonical { IsCanonical self.m self.e }
        ensures rounded { IsDown (bound_value self.m self.e / 4) result.m result.e }
        ensures value { bound_value result.m result.e ≡ down (bound_value self.m self.e / 4) }
        ensures exponent { result.e ≤ self.e }
    {
        match self.e {
            0 => Bound {
                m: self.m / 4,
                e: 0,
            },
            1 => Bound {
                m: self.m / 2,
                e: 0,
            },
            _ => Bound {
                m: self.m,
                e: self.e - 2,
            },
        }
    }

    /// The order of the two numbers.
    pub fn cmp(self, other: Bound) -> Ordering
        requires canonical { IsCanonical self.m self.e }
        requires other_canonical { IsCanonical other.m other.e }
        ensures { result ≡ nat_cmp (bound_value self.m self.e) (bound_value other.m other.e) }
    {
        self.e.cmp(&other.e).then(self.m.cmp(&other.m))
    }

    /// Whether the bound is canonical, as operands have to be.
    pub fn is_canonical(self) -> bool
        ensures { IsTrue result ↔ IsCanonical self.m self.e }
    {
        self.e == 0 || self.m >= 1 << 31
    }
}

#[cfg(test)]
mod tests {
    use super::*;

    fn bound(m: u32, e: u32) -> Bound {
        Bound { m, e }
    }

    #[test]
    fn rounds_words_up(rt: HostRuntime) {
        // The noise of fresh ciphers in degrees 16, 4096 and 8192, and the edges of the mantissa.
        let cases = [
            (0, 0, 0),
            (178358, 178358, 0),
            (11275902998, 2818975750, 2),
            (22550364182, 2818795523, 3),
            (4294967295, 4294967295, 0),
            (8589934591, 2147483648, 2),
            (u64::MAX, 2147483648, 33),
        ];
        for (x, m, e) in cases {
            assert_eq!(rt; Bound::of(x), bound(m, e), "at {x}");
        }
    }

    #[test]
    fn computes_limits(rt: HostRuntime) {
        let one = Bound::down_of(36028797017456641);
        assert_eq!(rt; one.quarter(), bound(4294967295, 21));

        let two = [
            (0x7fffffd8001, 0x7fffffc8001, 4294967104, 52),
            (0xffffee001, 0xffffc4001, 4294947328, 38),
        ];
        for (first, second, m, e) in two {
            let limit = Bound::down_of(first).mul_down(second).quarter();
            assert_eq!(rt; limit, bound(m, e), "at {first} and {second}");
        }
    }

    #[test]
    fn computes_bounds(rt: HostRuntime) {
        // Products of two fresh ciphers of degree 16, under one and under two moduli.
        for (moduli, m, e) in [(1, 4033762069, 2), (2, 4033779609, 2)] {
            let fresh = Bound::of(178358);
            let rest = Bound::of(257 * moduli * (1 + 16 + 16 * 16));
            let square = fresh.add_up(fresh).mul_up(16 * 257 * 11).add_up(rest);
            assert_eq!(rt; square, bound(m, e), "with {moduli} moduli");
        }

        let plain = Bound::of(11275902998).mul_up(4096 * 32768);
        assert_eq!(rt; plain, bound(2818975750, 29));

        let lowered = Bound::of(178358).div_up(0x7fffffc8001);
        assert_eq!(rt; lowered.add_up(Bound::of(257 * 17)), bound(4370, 0));
    }

    #[test]
    fn compares(rt: HostRuntime) {
        let limit = Bound::down_of(0x7fffffd8001)
            .mul_down(0x7fffffc8001)
            .quarter();
        assert_eq!(rt; limit.cmp(Bound::of(178358)), Ordering::Greater);
        assert_eq!(rt; limit.cmp(limit), Ordering::Equal);

        assert!(rt; bound(5, 0).is_canonical());
        assert!(rt; bound(1 << 31, 7).is_canonical());
        assert!(rt; !bound((1 << 31) - 1, 7).is_canonical());
    }
}
