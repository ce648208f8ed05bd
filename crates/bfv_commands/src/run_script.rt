// The command `run`.
ghost use Rattle.std.specs.Prelude.{◌≡◌, ◌≤◌, ◌+◌, [], length, map, Some, None, OnOk, IfOk, IfErr};
ghost use Rattle.std.specs.String.{string_bytes};
ghost use Rattle.outer_io.specs.Store.{StoreState, OnlyReads};
ghost use Rattle.script_text.specs.Scripts.{needs_of};
ghost use Rattle.command_words.specs.Form.{form_of};
ghost use Rattle.command_words.specs.declared.form.Form.TheVariants as form;
ghost use Rattle.command_model.specs.Bindings.{bindings_of, bound_names};
ghost use Rattle.command_model.specs.Plan as plan;
ghost use Rattle.command_model.specs.Commanded.{Commanded, Stopped};
ghost use Rattle.command_stages.specs.Causes.{OwesNothing};
ghost use Rattle.command_stages.specs.Stages.{Way};
ghost use Rattle.run_operands.specs.BoundReads.{FitInputs};
ghost use Rattle.run_operands.specs.Demands.{CiphersFit};
ghost use Rattle.bfv_commands.specs.RunStages.{ScriptCame, AreMatched};

use crate::run_output::write_run;
use command_stages::read_script;
use command_words::Status;
use outer_io::Store;
use run_operands::{Operand, match_bindings, match_operands, read_operands};
use script_run::first_needing_key;
use script_text::{Script, ScriptPlace};
use std::alloc::Global;

/// Does `run SCRIPT OUT BINDING ..`.
pub fn run_script<S: Store>(alloc: Global, words: &[String], store: &mut S) -> Result<(), Status>
    requires form { form_of (map string_bytes words.now) ≡ Some form.Run }
    requires low { 3 ≤ length words.now }
    requires high { length words.now ≤ 1000 }
    ensures { Commanded (map string_bytes words.now) (λ _. None) (S.state store.old) (S.state store.new) result }
{
    let script = bound_script(alloc, words, store)?;
    let operands = matched_operands(alloc, words, store, &script)?;
    write_run(alloc, words, store, &script, &operands)
}

/// The script, where it needs no key and each of its inputs is bound once.
fn bound_script<S: Store>(alloc: Global, words: &[String], store: &mut S) -> Result<Script, Status>
    requires form { form_of (map string_bytes words.now) ≡ Some form.Run }
    requires low { 3 ≤ length words.now }
    requires high { length words.now ≤ 1000 }
    ensures keeps { OnlyReads (S.state store.old) (S.state store.new) }
    ensures came { ScriptCame (map string_bytes words.now) (S.state store.old) (S.state store.new) result }
    ensures keyless { IfOk result (λ script. needs_of script ≡ []) }
    ensures bound { IfOk result (λ script. plan.badly_bound script (map string_bytes words.now) ≡ None) }
{
    let script = read_script(alloc, store, words, 1)?;
    match_steps(&script)?;
    match_bindings(&script, words)?;
    Ok(script)
}

/// Whether no step of a script needs a key. The switching of keys isn't built yet.
fn match_steps(script: &Script) -> Result<(), Status>
    ensures ok { OnOk result (plan.needing_key script.now ≡ None) }
    ensures keyless { OnOk result (needs_of script.now ≡ []) }
    ensures err { IfErr result (λ s. plan.needing_key script.now ≡ Some s) }
    ensures owes { IfErr result OwesNothing }
{
    match first_needing_key(script) {
        Some(step) => Err(Status::BadScript {
            fault: ScriptPlace::Syntax(script.step_line(step)),
        }),
        None => Ok(()),
    }
}

/// What the files of the bindings hold, where they match the script and each other.
fn matched_operands<S: Store>(
    alloc: Global,
    words: &[String],
    store: &mut S,
    script: &Script,
) -> Result<Vec<Operand>, Status>
    requires form { form_of (map string_bytes words.now) ≡ Some form.Run }
    requires low { 3 ≤ length words.now }
    requires high { length words.now ≤ 1000 }
    ensures keeps { OnlyReads (S.state store.old) (S.state store.new) }
    ensures ok { (begun : StoreState)
        → Way (map string_bytes words.now) (plan.reading_of_bindings script.now 3 (bindings_of (map string_bytes words.now))
        (plan.run_on script.now (bound_names (map string_bytes words.now)))) begun (S.state store.old)
        → IfOk result (λ v. AreMatched script.now (map string_bytes words.now) begun (S.state store.new) v.items) }
    ensures err { (begun : StoreState)
        → Way (map string_bytes words.now) (plan.reading_of_bindings script.now 3 (bindings_of (map string_bytes words.now))
        (plan.run_on script.now (bound_names (map string_bytes words.now)))) begun (S.state store.old)
        → IfErr result (Stopped (map string_bytes words.now) begun (S.state store.new)) }
    ensures count { IfOk result (λ v. length v.items + 3 ≡ length words.now) }
    ensures inputs { IfOk result (λ v. FitInputs script.now (map string_bytes words.now) v.items) }
    ensures ciphers { IfOk result (λ v. CiphersFit script.now.set v.items) }
{
    let operands = read_operands(alloc, store, words, script)?;
    match_operands(script, &operands)?;
    Ok(operands)
}
