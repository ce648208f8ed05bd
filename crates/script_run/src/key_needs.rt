//! Which steps need switching keys.

ghost use Rattle.std.specs.Prelude.{◌≡◌, ℕ, nat_lt, length, position, []};
ghost use Rattle.std.specs.Option.{ForNone};
ghost use Rattle.set_table.specs.Sets.{degree_of};
ghost use Rattle.script_text.specs.Scripts.{keys_needed, needs_of};

use script_text::{Op, Script};

fn needs_key(op: Op) -> bool
    ensures { (n : ℕ) → result ≡ nat_lt 0 (length (keys_needed n op)) }
{
    matches!(op, Op::Relin(_) | Op::Turn(..) | Op::Swap(_))
}

/// The number of a script's first step that needs a switching key.
pub fn first_needing_key(script: &Script) -> Option<usize>
    ensures first { result ≡ position (λ step. nat_lt 0 (length (keys_needed (degree_of script.now.set) step.op))) script.now.steps }
    ensures none { ForNone result (needs_of script.now ≡ []) }
{
    for i in 0..script.steps() {
        if needs_key(script.step(i)) {
            return Some(i);
        }
    }
    None
}
