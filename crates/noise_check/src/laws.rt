//! How far the rounded bounds of a script's registers are from the exact ones, and what a verdict
//! says of them.
ghost use Rattle.std.specs.Prelude.{◌≡◌, ◌*◌, ◌<◌, ◌≤◌, ℕ, List, length, slice_index, All};
ghost use Rattle.set_table.specs.Sets.{data_of};
ghost use Rattle.ring_law.specs.Moduli.{product};
ghost use Rattle.script_text.specs.Limits.{max_steps};
ghost use Rattle.script_text.specs.Scripts.{Script};
ghost use Rattle.bound_num.specs.declared.Bound.{Bound};
ghost use Rattle.bound_num.specs.Bound.{bound_value, IsCanonical};
ghost use Rattle.bfv_model.specs.Limit.{limit};
ghost use Rattle.noise_check.specs.ExactBounds.{exact_bounds};
ghost use Rattle.noise_check.specs.RoundedBounds.{rounded_bounds};
ghost use Rattle.noise_check.specs.Numbers.{numbers, AllCanonical};
ghost use Rattle.noise_check.specs.Verdicts.{verdict_of};

use crate::verdict::Verdict;

/// Both lists begin with the same bounds of the cipher inputs. Over at most `MAX_STEPS` steps, which is
/// as many as a script has, a rounded bound exceeds the exact one by at most one part in 65,536. So it
/// is above the limit only where eight times the exact one is above the product of the data moduli.
pub fn law_of_rounding()
    ensures never_below { (script : Script) (inputs : List ℕ) (register : ℕ)
        → slice_index (exact_bounds script inputs) register
        ≤ slice_index (rounded_bounds script inputs) register }
    ensures near { (script : Script) (inputs : List ℕ) (register : ℕ) → length script.steps ≤ max_steps
        → 65536 * slice_index (rounded_bounds script inputs) register
        ≤ 65537 * slice_index (exact_bounds script inputs) register }
    ensures above_limit { (script : Script) (inputs : List ℕ) (register : ℕ)
        → length script.steps ≤ max_steps
        → limit (data_of script.set) < slice_index (rounded_bounds script inputs) register
        → product (data_of script.set) < 8 * slice_index (exact_bounds script inputs) register }
{}

/// The bounds of an accepted script are its rounded ones, in canonical form, and none is above the
/// limit; and four times the exact bound of each register is at most the product of the data moduli,
/// as decryption needs it. Of a script that is too noisy the bound that is told is above the limit
/// that is told, and eight times the exact bound of some register is above the product of the data
/// moduli.
pub fn law_of_verdicts()
    ensures accepted_values { (script : Script) (inputs bounds : List Bound)
        → AllCanonical inputs
        → verdict_of script (numbers inputs) ≡ Verdict.Accepted bounds
        → numbers bounds ≡ rounded_bounds script (numbers inputs) }
    ensures accepted_canonical { (script : Script) (inputs bounds : List Bound)
        → AllCanonical inputs
        → verdict_of script (numbers inputs) ≡ Verdict.Accepted bounds
        → AllCanonical bounds }
    ensures accepted_within { (script : Script) (inputs bounds : List Bound)
        → AllCanonical inputs
        → verdict_of script (numbers inputs) ≡ Verdict.Accepted bounds
        → All (λ bound. bound_value bound.m bound.e ≤ limit (data_of script.set)) bounds }
    ensures accepted_quiet { (script : Script) (inputs : List ℕ) (bounds : List Bound)
        → verdict_of script inputs ≡ Verdict.Accepted bounds
        → (register : ℕ)
        → 4 * slice_index (exact_bounds script inputs) register ≤ product (data_of script.set) }
    ensures too_noisy_canonical { (script : Script) (inputs : List Bound) (line : ℕ) (bound most : Bound)
        → AllCanonical inputs
        → verdict_of script (numbers inputs) ≡ Verdict.TooNoisy line bound most
        → IsCanonical bound.m bound.e }
    ensures too_noisy_above { (script : Script) (inputs : List Bound) (line : ℕ) (bound most : Bound)
        → AllCanonical inputs
        → verdict_of script (numbers inputs) ≡ Verdict.TooNoisy line bound most
        → limit (data_of script.set) < bound_value bound.m bound.e }
    ensures too_noisy_exactly { (script : Script) (inputs : List ℕ) (line : ℕ) (bound most : Bound)
        → length script.steps ≤ max_steps
        → verdict_of script inputs ≡ Verdict.TooNoisy line bound most
        → (register : ℕ)
        × (product (data_of script.set) < 8 * slice_index (exact_bounds script inputs) register) }
    ensures limit_canonical { (script : Script) (inputs : List ℕ) (line : ℕ) (bound most : Bound)
        → verdict_of script inputs ≡ Verdict.TooNoisy line bound most
        → IsCanonical most.m most.e }
    ensures limit_value { (script : Script) (inputs : List ℕ) (line : ℕ) (bound most : Bound)
        → verdict_of script inputs ≡ Verdict.TooNoisy line bound most
        → bound_value most.m most.e ≡ limit (data_of script.set) }
{}
