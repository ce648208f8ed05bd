//! The verdict on a script.
ghost use Rattle.std.specs.Prelude.{◌≡◌, ◌<◌, ◌≤◌, ◌↔◌, length, nat_lt, position, All, IsTrue, IsSome, IfOk};
ghost use Rattle.set_table.specs.Sets.{special_of};
ghost use Rattle.script_text.specs.Scripts.{cipher_inputs, needs_of};
ghost use Rattle.bound_num.specs.Bound.{bound_value, IsCanonical};
ghost use Rattle.noise_check.specs.RoundedBounds.{rounded_bounds};
ghost use Rattle.noise_check.specs.Numbers.{numbers, AllCanonical};
ghost use Rattle.noise_check.specs.Verdicts as verdicts;

use crate::operations::{is_switch, operation_bound};
use crate::sets::{fresh, limit};
use crate::verdict::{BoundList, Verdict};
use bound_num::Bound;
use script_text::Script;
use std::alloc::{AllocError, Global};
use std::cmp::Ordering;

/// The greatest exponent that the bound of a cipher input may have. Each step of a script adds at
/// most 66 to it.
pub const MAX_INPUT_EXPONENT: u32 = 500_000;

/// Whether a script switches keys, for which its set needs a special modulus.
pub fn switches(script: &Script) -> bool
    ensures { IsTrue result ↔ (0 < length (needs_of script.now)) }
{
    for i in 0..script.steps() {
        if is_switch(script.step(i)) {
            return true;
        }
    }
    false
}

/// The bounds of a script's cipher inputs where all of them are fresh.
pub fn fresh_bounds(alloc: Global, script: &Script) -> Result<Vec<Bound>, AllocError>
    ensures each { IfOk result (λ bounds.
        length bounds.items ≡ length (cipher_inputs script.now.inputs)) }
    ensures canonical { IfOk result (λ bounds. AllCanonical bounds.items) }
    ensures exponents { IfOk result (λ bounds.
        All (λ bound. bound.e ≤ MAX_INPUT_EXPONENT) bounds.items) }
    ensures values { IfOk result (λ bounds. numbers bounds.items ≡ verdicts.fresh_bounds script.now) }
{
    Ok(vec![in alloc; fresh(script.set()); script.ciphers()]?)
}

/// The bounds of all registers, those of the cipher inputs first.
fn register_bounds(
    alloc: Global,
    script: &Script,
    inputs: &[Bound],
) -> Result<Vec<Bound>, AllocError>
    requires each { length inputs.now ≡ length (cipher_inputs script.now.inputs) }
    requires canonical { AllCanonical inputs.now }
    requires small { All (λ bound. bound.e ≤ MAX_INPUT_EXPONENT) inputs.now }
    requires special { 0 < length (needs_of script.now) → IsSome (special_of script.now.set) }
    ensures canonical { IfOk result (λ bounds. AllCanonical bounds.items) }
    ensures values { IfOk result (λ bounds. numbers bounds.items
        ≡ rounded_bounds script.now (numbers inputs.now)) }
{
    let set = script.set();
    let mut bounds = Vec::new(alloc);
    bounds.extend_from_slice(inputs)?;
    for i in 0..script.steps() {
        let bound = operation_bound(set, &bounds, script.step(i));
        bounds.push(bound)?;
    }
    Ok(bounds)
}

/// The first of these bounds that is above the limit.
fn first_above(bounds: &[Bound], limit: Bound) -> Option<usize>
    requires canonical { AllCanonical bounds.now }
    requires limit_canonical { IsCanonical limit.m limit.e }
    ensures { result ≡ position (nat_lt (bound_value limit.m limit.e)) (numbers bounds.now) }
{
    for i in 0..bounds.len() {
        if bounds[i].cmp(limit) == Ordering::Greater {
            return Some(i);
        }
    }
    None
}

/// The verdict on a script whose cipher inputs have these bounds, in their order. The bounds of
/// files or those of `fresh_bounds` may be given.
pub fn check(alloc: Global, script: &Script, inputs: &[Bound]) -> Result<Verdict, AllocError>
    requires each { length inputs.now ≡ length (cipher_inputs script.now.inputs) }
    requires canonical { AllCanonical inputs.now }
    requires small { All (λ bound. bound.e ≤ MAX_INPUT_EXPONENT) inputs.now }
    requires special { 0 < length (needs_of script.now) → IsSome (special_of script.now.set) }
    ensures { IfOk result (λ verdict. verdict ≡ verdicts.verdict_of script.now (numbers inputs.now)) }
{
    let bounds = register_bounds(alloc, script, inputs)?;
    let limit = limit(script.set());
    match first_above(&bounds, limit) {
        None => Ok(Verdict::Accepted(BoundList::new(bounds))),
        Some(register) => Ok(Verdict::TooNoisy(
            script.register_line(register),
            bounds[register],
            limit,
        )),
    }
}
