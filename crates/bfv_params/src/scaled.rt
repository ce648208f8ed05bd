//! The scaled plaintext (Fan and Vercauteren 2012), in words.

ghost use Rattle.std.specs.Prelude.{◌≡◌, ℕ, ◌+◌, ◌*◌, ◌/◌, ◌%◌, ◌^◌, ◌<◌, ◌≤◌, length, slice_index, EachIndex};
ghost use Rattle.std.specs.Int.{IsGcd};
ghost use Rattle.ring_law.specs.Moduli.{product};
ghost use Rattle.ring_law.specs.Rows.{IsReduced, word_at};
ghost use Rattle.word_mod.specs.Moduli.{shoup_of};
ghost use Rattle.bfv_model.specs.Plaintexts.{scaled_plain};

use res_base::Base;
use rns_poly::ViewMut;
use word_mod::{Factor, Modulus};

/// Writes the rows of `q * m / t`, rounded to the nearest whole number, for each coefficient m,
/// where q is the product of the base.
pub fn scale_rows<const N: usize>(base: &Base, t: &Modulus, plain: &[u64; N], out: ViewMut<'_, N>)
    requires degree { N ≤ 32768 }
    requires small { t.now < 2 ^ 31 }
    requires coprime { EachIndex base.now (λ i. IsGcd t.now (slice_index base.now i) 1) }
    requires below { IsReduced N t.now plain.now }
    requires rows { length out.old ≡ length base.now }
    ensures { (i k : ℕ) → i < length base.now → k < N →
        word_at out.new i k ≡ scaled_plain (product base.now) t.now (slice_index plain.now k) % slice_index base.now i }
{
    for i in 0..base.len() {
        scale_row(base, i, t, plain, &mut out[i]);
    }
}

/// Writes the row under modulus `i` of the base.
pub fn scale_row<const N: usize>(
    base: &Base,
    i: usize,
    t: &Modulus,
    plain: &[u64; N],
    out: &mut [u64; N],
)
    requires degree { N ≤ 32768 }
    requires place { i < length base.now }
    requires small { t.now < 2 ^ 31 }
    requires coprime { IsGcd t.now (slice_index base.now i) 1 }
    requires below { IsReduced N t.now plain.now }
    ensures { (k : ℕ) → k < N →
        slice_index out.new k ≡ scaled_plain (product base.now) t.now (slice_index plain.now k) % slice_index base.now i }
{
    let modulus = base.modulus(i);
    let rest = base.product_mod(t);
    let quotient = modulus.factor(quotient_word(modulus, t, rest));
    for k in 0..N {
        out[k] = scaled_word(modulus, &quotient, rest, t.value(), plain[k]);
    }
}

/// The quotient by t of a multiple of `modulus` whose rest is `rest`, modulo `modulus`.
fn quotient_word(modulus: &Modulus, t: &Modulus, rest: u64) -> u64
    requires { IsGcd t.now modulus.now 1 }
    ensures value { (q : ℕ) → q % modulus.now ≡ 0 → rest ≡ q % t.now → result ≡ q / t.now % modulus.now }
    ensures below { result < modulus.now }
{
    let inverse = modulus.inverse(t.value()).unwrap();
    modulus.neg(modulus.mul(modulus.reduce(rest), inverse))
}

/// The coefficient m times the quotient of q by t, and the rest of q times m divided by t and
/// rounded.
fn scaled_word(modulus: &Modulus, quotient: &Factor, rest: u64, t: u64, m: u64) -> u64
    requires factor_below { quotient.now.w < modulus.now }
    requires shoup { quotient.now.shoup ≡ shoup_of modulus.now quotient.now.w }
    requires rest_below { rest < t }
    requires below { m < t }
    requires small { t < 2 ^ 31 }
    ensures { result ≡ (quotient.now.w * m + (rest * m + t / 2) / t) % modulus.now }
{
    let rounded = (rest * m + t / 2) / t;
    modulus.add(modulus.mul_factor(m, quotient), modulus.reduce(rounded))
}
