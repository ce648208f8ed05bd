//! What an operation does to bounds.
ghost use Rattle.std.specs.Prelude.{◌≡◌, ◌+◌, ◌<◌, ◌≤◌, ◌↔◌, ℕ, length, All, IsTrue, IsSome};
ghost use Rattle.set_table.specs.declared.SetName.{SetName};
ghost use Rattle.set_table.specs.Sets.{degree_of, plain_of, data_of, special_of};
ghost use Rattle.bound_num.specs.Bound.{bound_value, IsCanonical, up};
ghost use Rattle.script_text.specs.Scripts.{keys_needed};
ghost use Rattle.noise_check.specs.ExactBounds.{constant_size, switch_noise};
ghost use Rattle.noise_check.specs.RoundedBounds.{rounded_product_bound, rounded_bound};
ghost use Rattle.noise_check.specs.Operands.{HasOperands};
ghost use Rattle.noise_check.specs.Numbers.{numbers, AllCanonical};

use crate::sets::{plain_factor, product_factor, product_rest, switch_added};
use bound_num::Bound;
use script_text::Op;
use set_table::SetName;

/// The absolute value of the residue of `constant` nearest to 0.
fn centred_size(set: SetName, constant: u64) -> u64
    requires { constant < plain_of set }
    ensures { result ≡ constant_size set constant }
{
    constant.min(set.plain() - constant)
}

/// The bound of a cipher to or from which a plaintext is added or taken.
fn raised_bound(set: SetName, bound: Bound) -> Bound
    requires canonical { IsCanonical bound.m bound.e }
    requires small { bound.e ≤ 900000 }
    ensures canonical { IsCanonical result.m result.e }
    ensures value { bound_value result.m result.e ≡ up (bound_value bound.m bound.e + plain_of set) }
    ensures exponent { (most : ℕ) → bound.e ≤ most → result.e ≤ most + 66 }
{
    bound.add_up(Bound::of(set.plain()))
}

/// The bound of a product of two ciphers.
fn product_bound(set: SetName, first: Bound, second: Bound) -> Bound
    requires first { IsCanonical first.m first.e }
    requires second { IsCanonical second.m second.e }
    requires first_small { first.e ≤ 900000 }
    requires second_small { second.e ≤ 900000 }
    ensures canonical { IsCanonical result.m result.e }
    ensures value { bound_value result.m result.e
        ≡ rounded_product_bound (degree_of set) (plain_of set) (length (data_of set))
        (bound_value first.m first.e) (bound_value second.m second.e) }
    ensures exponent { (most : ℕ) → first.e ≤ most → second.e ≤ most → result.e ≤ most + 66 }
{
    first
        .add_up(second)
        .mul_up(product_factor(set))
        .add_up(Bound::of(product_rest(set)))
}

/// The bound of a cipher after a switch of keys.
fn switched_bound(set: SetName, bound: Bound) -> Bound
    requires special { IsSome (special_of set) }
    requires canonical { IsCanonical bound.m bound.e }
    requires small { bound.e ≤ 900000 }
    ensures canonical { IsCanonical result.m result.e }
    ensures value { bound_value result.m result.e
        ≡ up (bound_value bound.m bound.e + up (switch_noise set)) }
    ensures exponent { (most : ℕ) → bound.e ≤ most → result.e ≤ most + 66 }
{
    bound.add_up(Bound::of(switch_added(set)))
}

/// Whether an operation switches a key.
pub(crate) fn is_switch(operation: Op) -> bool
    ensures { (n : ℕ) → IsTrue result ↔ (0 < length (keys_needed n operation)) }
{
    matches!(operation, Op::Relin(_) | Op::Turn(_, _) | Op::Swap(_))
}

/// The bound of an operation's result, by the bounds of the registers before it.
pub(crate) fn operation_bound(set: SetName, bounds: &[Bound], operation: Op) -> Bound
    requires operands { HasOperands set (length bounds.now) operation }
    requires special { 0 < length (keys_needed (degree_of set) operation) → IsSome (special_of set) }
    requires canonical { AllCanonical bounds.now }
    requires small { All (λ bound. bound.e ≤ 900000) bounds.now }
    ensures canonical { IsCanonical result.m result.e }
    ensures value { bound_value result.m result.e
        ≡ rounded_bound set (numbers bounds.now) operation }
    ensures exponent { (most : ℕ) → All (λ bound. bound.e ≤ most) bounds.now → result.e ≤ most + 66 }
{
    match operation {
        Op::Add(a, b) | Op::Sub(a, b) => bounds[a as usize].add_up(bounds[b as usize]),
        Op::Neg(a) => bounds[a as usize],
        Op::AddPlain(a, _) | Op::SubPlain(a, _) => raised_bound(set, bounds[a as usize]),
        Op::MulPlain(a, _) => bounds[a as usize].mul_up(plain_factor(set)),
        Op::MulConst(a, constant) => bounds[a as usize].mul_up(centred_size(set, constant)),
        Op::Mul(a, b) => product_bound(set, bounds[a as usize], bounds[b as usize]),
        Op::Relin(a) | Op::Turn(a, _) | Op::Swap(a) => switched_bound(set, bounds[a as usize]),
    }
}
