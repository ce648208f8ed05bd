//! All steps of a script.

ghost use Rattle.std.specs.Prelude.{◌≡◌, ℕ, ◌+◌, ◌*◌, ◌<◌, ◌≤◌, ℤ, List, [], length, slice_index, slice_index_or};
ghost use Rattle.set_table.specs.Sets.{data_of, degree_of, plain_of};
ghost use Rattle.ring_law.specs.Rows.{IsReduced};
ghost use Rattle.script_text.specs.Scripts.{shape_at, shapes_of, plain_inputs, needs_of};
ghost use Rattle.script_text.specs.Value.{value_of};
ghost use Rattle.noise_check.specs.ExactBounds.{exact_bounds};
ghost use Rattle.bfv_params.specs.Ciphers.{IsCipherOf};
ghost use Rattle.bfv_params.specs.Contexts.{scratch_rows_in};
ghost use Rattle.script_run.specs.Registers.{IsPlan, input_count};
ghost use Rattle.script_run.specs.Places.{cipher_at};
ghost use Rattle.script_run.specs.Runs.{Carries, InputsCarry};
ghost use Rattle.script_run.specs.Premises.{RunPremise, no_digits};

use crate::step::step;
use bfv_params::{Cipher, Context};
use rns_poly::PolyBuf;
use script_text::Script;

/// Does all steps of a script on the ciphers in the registers' places, and answers the place of the
/// output.
pub fn run<const N: usize>(
    ctx: &Context<N>,
    ciphers: &mut [Cipher<N>],
    plan: &[usize],
    plains: &[[u64; N]],
    script: &Script,
    row: &mut [u64; N],
    scratch: &mut PolyBuf<N>,
) -> usize
    requires degree { N ≡ degree_of (ctx.now).set }
    requires same_set { script.now.set ≡ (ctx.now).set }
    requires level { (ctx.now).level ≡ length (data_of (ctx.now).set) }
    requires keyless { needs_of script.now ≡ [] }
    requires plan { IsPlan script.now plan.now (length ciphers.old) }
    requires places { (p : ℕ) → p < length ciphers.old → IsCipherOf ctx.now (cipher_at ciphers.old p) }
    requires parts { (r : ℕ) → r < input_count script.now → (cipher_at ciphers.old (slice_index plan.now r)).parts ≡ 2 }
    requires plain_count { length (plain_inputs script.now.inputs) ≤ length plains.now }
    requires plains { (p : ℕ) → p < length (plain_inputs script.now.inputs) → IsReduced N (plain_of (ctx.now).set) (slice_index_or plains.now p []) }
    requires scratch_rows { length scratch.old ≡ scratch_rows_in ctx.now }
    ensures there { result < length ciphers.new }
    ensures count { length ciphers.new ≡ length ciphers.old }
    ensures places { (p : ℕ) → p < length ciphers.new → IsCipherOf ctx.now (cipher_at ciphers.new p) }
    ensures rooms { (p : ℕ) → (cipher_at ciphers.new p).room ≡ (cipher_at ciphers.old p).room }
    ensures parts { (cipher_at ciphers.new result).parts ≡ (shape_at (shapes_of script.now.inputs script.now.steps) script.now.output).parts }
    ensures carries { (s : ℕ → ℤ) (lists : List (List ℕ)) (bounds : List ℕ)
        → InputsCarry N ctx.now s script.now plan.now ciphers.old plains.now lists bounds
        → RunPremise N ctx.now no_digits s script.now bounds
        → Carries N ctx.now s (cipher_at ciphers.new result) (value_of script.now lists) (slice_index (exact_bounds script.now bounds) script.now.output) }
    ensures scratch_rows { length scratch.new ≡ length scratch.old }
{
    let output = script.output();
    let inputs = script.ciphers();
    for i in 0..script.steps() {
        step(
            ctx,
            ciphers,
            plan,
            plains,
            script.step(i),
            plan[inputs + i],
            row,
            scratch,
        );
    }
    plan[output as usize]
}
