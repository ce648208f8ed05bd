//! The rounding that ends decryption, in the moduli t and gamma.

ghost use Rattle.std.specs.Prelude.{◌≡◌, ℕ, ℤ, pos, neg_ℤ, ◌-ℤ◌, ◌*ℤ◌, ◌<◌, slice_index};
ghost use Rattle.std.specs.Int.{IsGcd};
ghost use Rattle.set_table.specs.Sets.{plain_of, gamma};
ghost use Rattle.word_mod.specs.Moduli.{shoup_of};
ghost use Rattle.ring_law.specs.Moduli.{product};
ghost use Rattle.ring_law.specs.Residues.{Congruent, centred_residue, residue};
ghost use Rattle.ring_law.specs.Rows.{IsReduced, RowRepresents};
ghost use Rattle.bfv_params.specs.Contexts.{modulus_in};
ghost use Rattle.behz_decrypt.specs.Rounding.{AreConstants, HaveQuotients, IsRounded};

use bfv_params::Context;
use res_base::Base;
use word_mod::{Factor, Modulus};

/// The moduli t and gamma with the factors of rounding: minus the inverse of q modulo each of
/// them, and the inverse of gamma modulo t.
#[derive(Clone, Copy)]
struct Rounding {
    plain: Modulus,
    gamma: Modulus,
    plain_factor: Factor,
    gamma_factor: Factor,
    gamma_inverse: Factor,
}

/// Writes the rounded quotients by `gamma * q` of the numbers whose residues modulo t and gamma
/// the rows `in_plain` and `in_gamma` are, up to the error that the residue modulo gamma tells.
pub fn round_row<const N: usize>(
    ctx: &Context<N>,
    in_plain: &[u64; N],
    in_gamma: &[u64; N],
    row: &mut [u64; N],
)
    ensures rounded { (y : ℕ → ℤ) → RowRepresents N (plain_of (ctx.now).set) in_plain.now y →
        RowRepresents N gamma in_gamma.now y → (k : ℕ) → k < N →
        IsRounded (modulus_in (ctx.now)) (plain_of (ctx.now).set) gamma (y k) (slice_index row.new k) }
    ensures reduced { IsReduced N (plain_of (ctx.now).set) row.new }
{
    let rounding = Rounding::new(ctx);
    for k in 0..N {
        row[k] = rounding.rounded(in_plain[k], in_gamma[k]);
    }
}

impl Rounding {
    fn new<const N: usize>(ctx: &Context<N>) -> Rounding
        ensures constants { AreConstants (modulus_in (ctx.now)) (plain_of (ctx.now).set) gamma result }
        ensures quotients { HaveQuotients result }
    {
        let base = ctx.data_base();
        let plain = *ctx.plain_modulus();
        let gamma = *ctx.gamma();
        Rounding {
            plain,
            gamma,
            plain_factor: negative_inverse_of_product(base, &plain),
            gamma_factor: negative_inverse_of_product(base, &gamma),
            gamma_inverse: plain.factor(plain.inverse(gamma.value()).unwrap()),
        }
    }

    /// The rounded quotient of a number by its residues.
    fn rounded(&self, in_plain: u64, in_gamma: u64) -> u64
        requires { HaveQuotients self.now }
        ensures rounded { (q : ℕ) (y : ℤ) → AreConstants q (self.now).plain (self.now).gamma self.now →
            in_plain ≡ residue (self.now).plain y → in_gamma ≡ residue (self.now).gamma y →
            IsRounded q (self.now).plain (self.now).gamma y result }
        ensures below { result < (self.now).plain }
    {
        let quotient = self.plain.mul_factor(in_plain, &self.plain_factor);
        let error = self.gamma.mul_factor(in_gamma, &self.gamma_factor);
        let exact = less_error(&self.plain, &self.gamma, quotient, error);
        self.plain.mul_factor(exact, &self.gamma_inverse)
    }
}

/// The quotient less the error modulo t, the error being known by its residue modulo gamma.
fn less_error(plain: &Modulus, gamma: &Modulus, quotient: u64, error: u64) -> u64
    requires quotient_below { quotient < plain.now }
    requires error_below { error < gamma.now }
    ensures value { result ≡ residue plain.now (pos quotient -ℤ centred_residue gamma.now (pos error)) }
    ensures below { result < plain.now }
{
    let whole = gamma.value();
    if 2 * error <= whole {
        plain.sub(quotient, plain.reduce(error))
    } else {
        plain.add(quotient, plain.reduce(whole - error))
    }
}

/// Minus the inverse of the product of the base, modulo `m`.
fn negative_inverse_of_product(base: &Base, m: &Modulus) -> Factor
    requires { IsGcd (product base.now) m.now 1 }
    ensures below { result.w < m.now }
    ensures shoup { result.shoup ≡ shoup_of m.now result.w }
    ensures value { Congruent m.now (pos result.w *ℤ pos (product base.now)) (neg_ℤ (pos 1)) }
{
    let inverse = m.inverse(base.product_mod(m)).unwrap();
    m.factor(m.neg(inverse))
}
