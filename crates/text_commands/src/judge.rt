// Scripts that are judged by the noise of their registers.
ghost use Rattle.std.specs.Prelude.{◌≡◌, ◌+◌, ◌<◌, ◌≤◌, List, length, IfOk, IsNone, IsSome, All};
ghost use Rattle.set_table.specs.Sets.{special_of};
ghost use Rattle.script_text.specs.Scripts.{cipher_inputs, needs_of};
ghost use Rattle.noise_check.specs.Numbers.{numbers, AllCanonical};
ghost use Rattle.noise_check.specs.Verdicts.{verdict_of};
ghost use Rattle.command_model.specs.Reading.{Output};
ghost use Rattle.command_model.specs.Plan as plan;
ghost use Rattle.command_stages.specs.Stages.{Came};

use bound_num::Bound;
use command_words::Status;
use noise_check::{BoundList, MAX_INPUT_EXPONENT, Verdict, fresh_bounds, switches};
use script_text::Script;
use std::alloc::Global;

/// The noise bounds of a script's registers, where all cipher inputs are fresh and the script is
/// accepted.
pub(crate) fn judge_fresh(alloc: Global, script: &Script) -> Result<BoundList, Status>
    ensures came { (output : List Bound → Output) → Came (plan.judged_fresh script.now output) output result }
    ensures count { IfOk result (λ bounds. length bounds ≡ length (cipher_inputs script.now.inputs) + length script.now.steps) }
{
    if let Some(refusal) = no_special(script) {
        return Err(refusal);
    }
    let Ok(inputs) = fresh_bounds(alloc, script) else {
        return Err(Status::Memory);
    };
    judge(alloc, script, &inputs)
}

/// What is said of a script that switches keys, where its set has no special modulus.
fn no_special(script: &Script) -> Option<Status>
    ensures is { result ≡ plan.no_special script.now }
    ensures special { IsNone result → 0 < length (needs_of script.now) → IsSome (special_of script.now.set) }
{
    let set = script.set();
    if switches(script) && set.special().is_none() {
        return Some(Status::NoSpecial { set });
    }
    None
}

/// The noise bounds of a script's registers, where its cipher inputs have these bounds and the
/// script is accepted.
fn judge(alloc: Global, script: &Script, inputs: &[Bound]) -> Result<BoundList, Status>
    requires each { length inputs.now ≡ length (cipher_inputs script.now.inputs) }
    requires canonical { AllCanonical inputs.now }
    requires small { All (λ bound. bound.e ≤ MAX_INPUT_EXPONENT) inputs.now }
    requires special { 0 < length (needs_of script.now) → IsSome (special_of script.now.set) }
    ensures came { (output : List Bound → Output) → Came (plan.judged_by (verdict_of script.now (numbers inputs.now)) output) output result }
    ensures count { IfOk result (λ bounds. length bounds ≡ length (cipher_inputs script.now.inputs) + length script.now.steps) }
{
    match noise_check::check(alloc, script, inputs) {
        Ok(Verdict::Accepted(bounds)) => Ok(bounds),
        Ok(Verdict::TooNoisy(line, bound, limit)) => Err(Status::TooNoisy { line, bound, limit }),
        Err(_) => Err(Status::Memory),
    }
}

/// The bound of a script's output among those of its registers.
pub(crate) fn bound_of_output(script: &Script, bounds: &BoundList) -> Bound
    requires { length bounds.now ≡ length (cipher_inputs script.now.inputs) + length script.now.steps }
    ensures { result ≡ plan.bound_at bounds.now script.now.output }
{
    bounds.get(script.output() as usize)
}

/// The noise bound of a script's output, where its cipher inputs have these bounds and the script is
/// accepted.
pub fn output_bound(alloc: Global, script: &Script, inputs: &[Bound]) -> Result<Bound, Status>
    requires each { length inputs.now ≡ length (cipher_inputs script.now.inputs) }
    requires canonical { AllCanonical inputs.now }
    requires small { All (λ bound. bound.e ≤ MAX_INPUT_EXPONENT) inputs.now }
    requires special { 0 < length (needs_of script.now) → IsSome (special_of script.now.set) }
    ensures { (output : Bound → Output) → Came (plan.judged script.now (verdict_of script.now (numbers inputs.now)) output) output result }
{
    let bounds = judge(alloc, script, inputs)?;
    Ok(bound_of_output(script, &bounds))
}
