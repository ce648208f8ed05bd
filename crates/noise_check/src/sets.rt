//! The bounds that belong to a parameter set alone.
ghost use Rattle.std.specs.Prelude.{◌≡◌, ◌+◌, ◌*◌, ◌/◌, ◌≤◌, length, sum, IsSome};
ghost use Rattle.set_table.specs.declared.SetName.{SetName};
ghost use Rattle.set_table.specs.Sets.{degree_of, plain_of, data_of, special_of};
ghost use Rattle.bound_num.specs.Bound.{bound_value, IsCanonical, up, IsUp};
ghost use Rattle.bfv_model.specs.Drawn.{greatest_error};
ghost use Rattle.bfv_model.specs.Limit as limits;
ghost use Rattle.bfv_model.specs.NoiseBounds.{fresh_bound};
ghost use Rattle.noise_check.specs.ExactBounds.{switch_noise};

use bound_num::Bound;
use set_table::SetName;

/// The greatest absolute value of an error in keys and fresh ciphers.
const GREATEST_ERROR: u64 = 21;

/// The greatest bound that a register may have: a quarter of the product of the data moduli, rounded
/// down after each product.
pub fn limit(set: SetName) -> Bound
    ensures canonical { IsCanonical result.m result.e }
    ensures value { bound_value result.m result.e ≡ limits.limit (data_of set) }
{
    let mut product = Bound::down_of(set.data_modulus(0));
    for i in 1..set.data_count() {
        product = product.mul_down(set.data_modulus(i));
    }
    product.quarter()
}

/// The bound of a fresh cipher, rounded up.
pub fn fresh(set: SetName) -> Bound
    ensures canonical { IsCanonical result.m result.e }
    ensures value { bound_value result.m result.e
        ≡ up (fresh_bound (degree_of set) (plain_of set) greatest_error) }
    ensures rounded { IsUp (fresh_bound (degree_of set) (plain_of set) greatest_error) result.m result.e }
    ensures exponent { result.e ≤ 33 }
{
    let n = set.degree() as u64;
    Bound::of(set.plain() * ((2 * n + 1) * GREATEST_ERROR + 1))
}

/// What the noise is multiplied by for a plaintext whose coefficients are at most half the plaintext
/// modulus in absolute value.
pub(crate) fn plain_factor(set: SetName) -> u64
    ensures { result ≡ degree_of set * (plain_of set / 2) }
{
    set.degree() as u64 * (set.plain() / 2)
}

/// What the sum of the bounds of two ciphers is multiplied by for their product.
pub(crate) fn product_factor(set: SetName) -> u64
    ensures { result ≡ degree_of set * plain_of set * (degree_of set / 2 + 3) }
{
    let n = set.degree() as u64;
    n * set.plain() * (n / 2 + 3)
}

/// What a product adds to that, for the approximate conversions between bases.
pub(crate) fn product_rest(set: SetName) -> u64
    ensures { result
        ≡ plain_of set * length (data_of set) * (1 + degree_of set + degree_of set * degree_of set) }
{
    let n = set.degree() as u64;
    set.plain() * set.data_count() as u64 * (1 + n + n * n)
}

/// The sum of the data moduli.
fn data_sum(set: SetName) -> u64
    ensures { result ≡ sum (data_of set) }
{
    let mut total = 0;
    for i in 0..set.data_count() {
        total += set.data_modulus(i);
    }
    total
}

/// What switching a key adds to the noise.
pub(crate) fn switch_added(set: SetName) -> u64
    requires { IsSome (special_of set) }
    ensures { result ≡ switch_noise set }
{
    let Some(special) = set.special() else {
        unreachable!()
    };
    let n = set.degree() as u64;
    let digits = n as u128 * GREATEST_ERROR as u128 * data_sum(set) as u128;
    set.plain() * ((digits / special as u128) as u64 + 1 + n)
}
