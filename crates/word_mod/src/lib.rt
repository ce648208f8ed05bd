//! Arithmetic on words modulo an odd number below 2^61: products by Barrett's reduction, and
//! products with a fixed factor by Shoup's quotient.
#![tactic(auto)]

ghost use Rattle.std.specs.Prelude.{◌≡◌, ℕ, ◌+◌, ◌-◌, ◌*◌, ◌/◌, ◌%◌, ◌^◌, ◌<◌, ◌≤◌, ◌↔◌, IsOk, IfOk, IsSome, IfSome};
ghost use Rattle.std.specs.Int.{IsGcd};
ghost use Rattle.word_mod.specs.Moduli.{IsModulus, shoup_of};

use std::marker::Model;

/// A number that is no `Modulus`.
#[derive(Clone, Copy, PartialEq, Eq, Debug)]
pub struct OutOfRange;

/// An odd number q from 3 to below 2^61. A word below it is a residue.
#[derive(Clone, Copy)]
pub struct Modulus {
    q: u64,
    ratio: u128,
    shift: u32,
    short_ratio: u64,
}

/// A fixed factor `w` of products modulo q, with `shoup`, the quotient of `w * 2^64` by q.
#[derive(Clone, Copy)]
pub struct Factor {
    pub w: u64,
    pub shoup: u64,
}

impl Model for Modulus {
    ghost use Rattle.std.specs.Prelude.{ℕ, ◌≡◌};

    ghost Value = { ℕ };

    ghost use Rattle.word_mod.specs.Moduli.{IsModulus};
    ghost use Rattle.word_mod.specs.Fields.{ratio_of, shift_of, short_ratio_of, fields_of, fields_of-q};

    ghost view = { λ m. m.q };

    ghost invariant = { λ m. IsModulus m.q × (m.ratio ≡ ratio_of m.q) × (m.shift ≡ shift_of m.q) × (m.short_ratio ≡ short_ratio_of m.q) };

    ghost inverse = { fields_of };

    ghost inverse_ok = { fields_of-q };
}

impl Modulus {
    pub fn new(q: u64) -> Result<Modulus, OutOfRange>
        ensures in_range { IsOk result ↔ IsModulus q }
        ensures value { IfOk result (λ m. m ≡ q) }
    {
        if q < 3 || q % 2 == 0 || q >= 1 << 61 {
            return Err(OutOfRange);
        }
        let shift = 62 - q.leading_zeros();
        Ok(Modulus {
            q,
            ratio: u128::MAX / q as u128,
            shift,
            short_ratio: ((1 << (64 + shift)) / q as u128) as u64,
        })
    }

    pub fn value(&self) -> u64
        ensures value { result ≡ self.now }
        ensures modulus { IsModulus self.now }
    {
        self.q
    }

    pub fn add(&self, a: u64, b: u64) -> u64
        requires a_below { a < self.now }
        requires b_below { b < self.now }
        ensures value { result ≡ (a + b) % self.now }
        ensures below { result < self.now }
    {
        reduce_once(self.q, a + b)
    }

    pub fn sub(&self, a: u64, b: u64) -> u64
        requires a_below { a < self.now }
        requires b_below { b < self.now }
        ensures value { result ≡ (a + (self.now - b)) % self.now }
        ensures below { result < self.now }
    {
        reduce_once(self.q, a + (self.q - b))
    }

    pub fn neg(&self, a: u64) -> u64
        requires { a < self.now }
        ensures value { result ≡ (self.now - a) % self.now }
        ensures below { result < self.now }
    {
        if a == 0 { 0 } else { self.q - a }
    }

    /// The product modulo q by Barrett's method with a ratio of one word: the product is below the square of q, and its quotient
    /// by q, which the ratio gives from the product's upper digits, is the true one or one less.
    pub fn mul(&self, a: u64, b: u64) -> u64
        requires a_below { a < self.now }
        requires b_below { b < self.now }
        ensures value { result ≡ a * b % self.now }
        ensures below { result < self.now }
    {
        let product = a as u128 * b as u128;
        let upper = (product >> self.shift) as u64;
        let quotient = ((upper as u128 * self.short_ratio as u128) >> 64) as u64;
        reduce_once(self.q, (product - quotient as u128 * self.q as u128) as u64)
    }

    pub fn reduce(&self, a: u64) -> u64
        ensures value { result ≡ a % self.now }
        ensures below { result < self.now }
    {
        self.reduce_wide(a as u128)
    }

    /// The residue of a number of two words.
    pub fn reduce_wide(&self, a: u128) -> u64
        ensures value { result ≡ a % self.now }
        ensures below { result < self.now }
    {
        self.divide(a).1
    }

    /// Quotient and rest of a number of two words by Barrett's method: the quotient that the ratio
    /// gives is the true one or one less.
    #[inline(always)]
    fn divide(&self, a: u128) -> (u128, u64)
        ensures quotient { result.0 ≡ a / self.now }
        ensures rest { result.1 ≡ a % self.now }
        ensures below { result.1 < self.now }
    {
        let quotient = high_product(a, self.ratio);
        let rest = (a - quotient * self.q as u128) as u64;
        if rest >= self.q {
            (quotient + 1, rest - self.q)
        } else {
            (quotient, rest)
        }
    }

    /// The power of any word modulo q by squarings. The power with exponent 0 is 1.
    pub fn pow(&self, a: u64, e: u64) -> u64
        ensures value { result ≡ a ^ e % self.now }
        ensures below { result < self.now }
    {
        let mut power = self.reduce(1);
        let mut square = self.reduce(a);
        let mut left = e;
        while left > 0 {
            if left % 2 == 1 {
                power = self.mul(power, square);
            }
            square = self.mul(square, square);
            left /= 2;
        }
        power
    }

    /// The inverse modulo q by Euclid's algorithm, for every word `a`.
    pub fn inverse(&self, a: u64) -> Option<u64>
        ensures coprime { IsSome result ↔ IsGcd a self.now 1 }
        ensures value { IfSome result (λ v. v * a % self.now ≡ 1) }
        ensures below { IfSome result (λ v. v < self.now) }
    {
        let q = self.q;
        let mut divisor = q;
        let mut rest = self.reduce(a);
        let mut divisor_factor = 0;
        let mut rest_factor = 1;
        while rest > 0 {
            let quotient = divisor / rest;
            let next = divisor - quotient * rest;
            let taken = self.reduce_wide(quotient as u128 * rest_factor as u128);
            let next_factor = self.sub(divisor_factor, taken);
            divisor = rest;
            rest = next;
            divisor_factor = rest_factor;
            rest_factor = next_factor;
        }
        if divisor == 1 {
            Some(divisor_factor)
        } else {
            None
        }
    }

    pub fn factor(&self, w: u64) -> Factor
        requires { w < self.now }
        ensures w { result.w ≡ w }
        ensures shoup { result.shoup ≡ shoup_of self.now w }
    {
        let (shoup, _) = self.divide((w as u128) << 64);
        Factor {
            w,
            shoup: shoup as u64,
        }
    }

    /// The product with a fixed factor, for every word `x`.
    pub fn mul_factor(&self, x: u64, f: &Factor) -> u64
        requires w_below { f.now.w < self.now }
        requires shoup { f.now.shoup ≡ shoup_of self.now f.now.w }
        ensures value { result ≡ x * f.now.w % self.now }
        ensures below { result < self.now }
    {
        let q = self.q;
        reduce_once(q, self.mul_lazy(x, f))
    }

    /// The product with a fixed factor, for every word `x`, or that product plus q.
    pub fn mul_lazy(&self, x: u64, f: &Factor) -> u64
        requires w_below { f.now.w < self.now }
        requires shoup { f.now.shoup ≡ shoup_of self.now f.now.w }
        ensures congruent { result % self.now ≡ x * f.now.w % self.now }
        ensures below { result < 2 * self.now }
    {
        let quotient = ((x as u128 * f.shoup as u128) >> 64) as u64;
        x.wrapping_mul(f.w)
            .wrapping_sub(quotient.wrapping_mul(self.q))
    }
}

/// The residue of a word below twice the modulus, without a branch.
#[inline(always)]
fn reduce_once(q: u64, x: u64) -> u64
    requires { x < 2 * q }
    ensures value { result ≡ x % q }
    ensures below { result < q }
{
    x.min(x.wrapping_sub(q))
}

/// The upper two words of the product of two numbers of two words.
#[inline(always)]
fn high_product(a: u128, b: u128) -> u128
    ensures { result ≡ a * b / 2 ^ 128 }
{
    let a_low = a % (1 << 64);
    let a_high = a / (1 << 64);
    let b_low = b % (1 << 64);
    let b_high = b / (1 << 64);
    let middle = a_low * b_high + a_low * b_low / (1 << 64);
    let cross = a_high * b_low + middle % (1 << 64);
    a_high * b_high + middle / (1 << 64) + cross / (1 << 64)
}

#[cfg(test)]
mod tests {
    use super::*;
    use std::test::Fail;

    #[test]
    fn moduli_are_odd_and_in_range(rt: HostRuntime) {
        for (q, in_range) in [
            (0, false),
            (1, false),
            (3, true),
            (7, true),
            (8, false),
            ((1 << 61) - 1, true),
            ((1 << 61) + 1, false),
        ] {
            assert_eq!(rt; Modulus::new(q).is_ok(), in_range, "at {q}");
        }
    }

    /// Words and what they give at the modulus 2^61 - 1, by Python's whole numbers.
    struct Row {
        a: u64,
        b: u64,
        sum: u64,
        difference: u64,
        negative: u64,
        product: u64,
        power: u64,
        inverse: u64,
        shoup: u64,
    }

    const ROWS: [Row; 2] = [
        Row {
            a: 81985529216486895,
            b: 1147797409030816545,
            sum: 1229782938247303440,
            difference: 1240031129399364301,
            negative: 2223857479997207056,
            product: 194897821954081904,
            power: 801786417786802169,
            inverse: 1306314494490161379,
            shoup: 655884233731895160,
        },
        Row {
            a: 2305843009213693950,
            b: 2305843009213693949,
            sum: 2305843009213693948,
            difference: 1,
            negative: 1,
            product: 2,
            power: 2305843009213693950,
            inverse: 2305843009213693950,
            shoup: 18446744073709551607,
        },
    ];

    #[test]
    fn arithmetic_at_the_greatest_modulus(rt: HostRuntime) -> Result<(), Fail> {
        let m = Modulus::new((1 << 61) - 1)?;
        for row in &ROWS {
            let (a, b) = (row.a, row.b);
            assert!(rt; a < m.value());
            assert!(rt; b < m.value());
            assert_eq!(rt; m.add(a, b), row.sum);
            assert_eq!(rt; m.sub(a, b), row.difference);
            assert_eq!(rt; m.neg(a), row.negative);
            assert_eq!(rt; m.mul(a, b), row.product);
            assert_eq!(rt; m.reduce_wide(a as u128 * b as u128), row.product);
            assert_eq!(rt; m.pow(a, b), row.power);
            assert_eq!(rt; m.inverse(a), Some(row.inverse));
            let factor = m.factor(a);
            assert_eq!(rt; factor.shoup, row.shoup);
            assert_eq!(rt; m.mul_factor(b, &factor), row.product);
            assert_eq!(rt; m.reduce(m.mul_lazy(b, &factor)), row.product);
        }
        Ok(())
    }

    #[test]
    fn only_coprime_words_have_an_inverse(rt: HostRuntime) -> Result<(), Fail> {
        let m = Modulus::new(15)?;
        for (a, inverse) in [
            (0, None),
            (1, Some(1)),
            (6, None),
            (7, Some(13)),
            (17, Some(8)),
        ] {
            assert_eq!(rt; m.inverse(a), inverse, "of {a}");
        }
        Ok(())
    }
}
