//! Tables of the powers of a root, in the order in which the layers of a transform take them.

ghost use Rattle.std.specs.Prelude.{◌≡◌, ℕ, ◌+◌, ◌*◌, ◌%◌, ◌^◌, ◌<◌, ◌≤◌, length, take, drop, IfOk, OnOk};
ghost use Rattle.std.specs.List.{SameBelow};
ghost use Rattle.neg_ntt.specs.Roots.{ArePowersReversed, factor_at, factor_of};

use std::alloc::{AllocError, Global};
use word_mod::{Factor, Modulus};

/// The powers of x modulo q, entry j being that to the power j with its `log_degree` binary digits reversed.
pub fn powers_reversed(
    alloc: Global,
    m: &Modulus,
    log_degree: u32,
    x: u64,
) -> Result<Vec<Factor>, AllocError>
    requires root_below { x < m.now }
    requires to_limit { log_degree ≤ 15 }
    ensures { IfOk result (λ powers. ArePowersReversed m.now log_degree x (2 ^ log_degree) powers.items) }
{
    let mut powers = Vec::with_capacity(alloc, 1 << log_degree)?;
    powers.push(m.factor(m.reduce(1)))?;
    let mut digits = log_degree;
    while digits > 0 {
        digits -= 1;
        append_products(m, m.pow(x, 1 << digits), &mut powers)?;
    }
    Ok(powers)
}

/// The factors of the layer with `2^s` roots.
pub fn layer_factors(powers: &[Factor], s: u32) -> &[Factor]
    requires layer { s ≤ 14 }
    requires len { 2 * 2 ^ s ≤ length powers.now }
    ensures { result.now ≡ take (2 ^ s) (drop (2 ^ s) powers.now) }
{
    let count = 1 << s;
    &powers[count..2 * count]
}

/// Appends the products of the factors with another one.
fn append_products(m: &Modulus, other: u64, factors: &mut Vec<Factor>) -> Result<(), AllocError>
    requires other_below { other < m.now }
    requires below { (i : ℕ) → i < length factors.old.items → (factor_at factors.old.items i).w < m.now }
    ensures len { OnOk result (length factors.new.items ≡ 2 * length factors.old.items) }
    ensures kept { OnOk result (SameBelow factors.old.items factors.new.items (length factors.old.items)) }
    ensures products { OnOk result ((i : ℕ) → i < length factors.old.items
        → factor_at factors.new.items (length factors.old.items + i)
        ≡ factor_of m.now ((factor_at factors.old.items i).w * other % m.now)) }
{
    let other = m.factor(other);
    let count = factors.len();
    for i in 0..count {
        let product = m.mul_factor(factors[i].w, &other);
        factors.push(m.factor(product))?;
    }
    Ok(())
}
