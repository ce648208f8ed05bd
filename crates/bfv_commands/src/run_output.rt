// The cipher that `run` writes.
ghost use Rattle.std.specs.Prelude.{◌≡◌, ◌≤◌, ◌<◌, ℕ, List, [], length, map, slice_get, slice_index, Some, None, All, IsTrue, IfOk};
ghost use Rattle.std.specs.Option.{ForSome};
ghost use Rattle.std.specs.String.{string_bytes};
ghost use Rattle.outer_io.specs.Store.{StoreState};
ghost use Rattle.set_table.specs.Sets.{degree_of};
ghost use Rattle.file_model.specs.declared.file_kind.FileKind.TheVariants as kind;
ghost use Rattle.file_model.specs.FileText.{FileContent, bound_fits};
ghost use Rattle.file_model.specs.Heads.{HeadKeepsRules};
ghost use Rattle.script_text.specs.Scripts.{cipher_inputs, needs_of, plain_inputs};
ghost use Rattle.noise_check.specs.Numbers.{numbers};
ghost use Rattle.noise_check.specs.Verdicts.{verdict_of};
ghost use Rattle.command_words.specs.Form.{form_of};
ghost use Rattle.command_words.specs.Line.{word_at};
ghost use Rattle.command_words.specs.declared.form.Form.TheVariants as form;
ghost use Rattle.command_model.specs.Bindings as bindings;
ghost use Rattle.command_model.specs.Reading.{Output, script_file};
ghost use Rattle.command_model.specs.Plan as plan;
ghost use Rattle.command_model.specs.Commanded.{Commanded};
ghost use Rattle.command_stages.specs.Stages.{Says, Came, Wrote};
ghost use Rattle.run_operands.specs.BoundFiles.{AreSeen, AreHeld, MayBeBound};
ghost use Rattle.run_operands.specs.Ordered.{CanRunOn};
ghost use Rattle.bfv_commands.specs.Filled.{AreListed, IsListed};
ghost use Rattle.bfv_commands.specs.RunStages.{AreMatched, AreOfKey, IsRunOf, IsWordOf, LeavesRoom, bounds_of, run_head, run_with};

use crate::execution::executed;
use bound_num::Bound;
use cipher_files::{Head, write_cipher};
use command_stages::{name_of, write_status};
use command_words::Status;
use outer_io::Store;
use run_operands::{BoundCipher, Operand, ciphers_in_order, first_key_id, plain_places};
use script_text::Script;
use set_table::SetName;
use std::alloc::{AllocError, Global};
use text_commands::output_bound;

/// Writes what a script that needs no key gives on the operands of its bindings, which match.
pub fn write_run<S: Store>(
    alloc: Global,
    words: &[String],
    store: &mut S,
    script: &Script,
    operands: &[Operand],
) -> Result<(), Status>
    requires high { length words.now ≤ 1000 }
    requires low { 3 ≤ length words.now }
    requires keyless { needs_of script.now ≡ [] }
    requires matched { CanRunOn script.now (map string_bytes words.now) operands.now }
    requires form { form_of (map string_bytes words.now) ≡ Some form.Run }
    ensures { (begun : StoreState) → ForSome begun.files (λ files. Says files (word_at (map string_bytes words.now) 1) 1 script_file script.now)
        → AreMatched script.now (map string_bytes words.now) begun (S.state store.old) operands.now → Commanded (map string_bytes words.now) (λ _. None) begun (S.state store.new) result }
{
    let Ok(ciphers) = ciphers_in_order(alloc, words, script, operands) else {
        return Err(Status::Memory);
    };
    let Ok(places) = plain_places(alloc, words, script, operands) else {
        return Err(Status::Memory);
    };
    let bound = accepted_output(alloc, words, script, &ciphers)?;
    let head = output_head(script, key_id(words, script, operands), bound);
    write_output(
        alloc, words, store, script, &ciphers, operands, &places, &head,
    )
}

/// The key id of the ciphers that are bound to the inputs of a script, of which there is one at
/// least.
fn key_id(words: &[String], script: &Script, operands: &[Operand]) -> [u8; 16]
    requires matched { CanRunOn script.now (map string_bytes words.now) operands.now }
    ensures { (planned : List bindings.Operand) → AreSeen operands.now planned → result ≡ bindings.first_key_id planned }
{
    // Tells that the script is sound.
    let _set = script.set();
    match first_key_id(operands) {
        Some(id) => id,
        None => unreachable!(),
    }
}

/// The noise bound of a script's output, where its inputs have the bounds that these ciphers state
/// and it is accepted.
fn accepted_output(
    alloc: Global,
    words: &[String],
    script: &Script,
    ciphers: &[BoundCipher],
) -> Result<Bound, Status>
    requires keyless { needs_of script.now ≡ [] }
    requires count { length ciphers.now ≡ length (cipher_inputs script.now.inputs) }
    requires bound { (r : ℕ) (cipher : BoundCipher) → slice_get ciphers.now r ≡ Some cipher → MayBeBound script.now.set (length words.now) cipher }
    ensures came { (output : Bound → Output) → Came (plan.judged script.now (verdict_of script.now (numbers (bounds_of ciphers.now))) output) output result }
    ensures room { IfOk result (LeavesRoom script.now (numbers (bounds_of ciphers.now))) }
{
    // Tells that the script is sound.
    let _set = script.set();
    let Ok(bounds) = stated_bounds(alloc, ciphers) else {
        return Err(Status::Memory);
    };
    output_bound(alloc, script, &bounds)
}

/// The bounds that ciphers state.
fn stated_bounds(alloc: Global, ciphers: &[BoundCipher]) -> Result<Vec<Bound>, AllocError>
    ensures { IfOk result (λ bounds. bounds.items ≡ bounds_of ciphers.now) }
{
    let mut bounds = Vec::new(alloc);
    for i in 0..ciphers.len() {
        bounds.push(ciphers[i].head.bound)?;
    }
    Ok(bounds)
}

/// The head of the cipher that a script gives.
fn output_head(script: &Script, id: [u8; 16], bound: Bound) -> Head
    requires { IsTrue (bound_fits kind.Cipher script.now.set bound.m bound.e) }
    ensures is { result ≡ run_head script.now id bound }
    ensures rules { HeadKeepsRules result }
{
    let parts = script.register_shape(script.output() as usize).parts;
    Head::of_cipher(script.set(), parts, id, bound)
}

/// Writes what a script gives on ciphers, whose files were scanned, and on values, which stand at
/// these places among the operands.
fn write_output<S: Store>(
    alloc: Global,
    words: &[String],
    store: &mut S,
    script: &Script,
    ciphers: &[BoundCipher],
    operands: &[Operand],
    places: &[usize],
    head: &Head,
) -> Result<(), Status>
    requires low { 3 ≤ length words.now }
    requires keyless { needs_of script.now ≡ [] }
    requires cipher_count { length ciphers.now ≡ length (cipher_inputs script.now.inputs) }
    requires bound { All (MayBeBound script.now.set (length words.now)) ciphers.now }
    requires plain_count { length places.now ≡ length (plain_inputs script.now.inputs) }
    requires listed { (p : ℕ) → p < length places.now → IsListed script.now.set (slice_get operands.now (slice_index places.now p)) }
    requires head { head.now ≡ run_head script.now head.now.id head.now.bound }
    requires rules { HeadKeepsRules head.now }
    requires room { LeavesRoom script.now (numbers (bounds_of ciphers.now)) head.now.bound }
    ensures { (contents : List FileContent) (plains : List (List ℕ)) → AreOfKey contents head.now.id → AreListed operands.now places.now plains
        → Wrote (word_at (map string_bytes words.now) 2) (IsWordOf ciphers.now) (λ files. AreHeld (map string_bytes words.now) files ciphers.now contents)
        (IsRunOf (run_with script.now contents plains head.now)) (S.state store.old) (S.state store.new) result }
{
    match script.set() {
        SetName::One16 | SetName::Toy16 => write_of_degree::<S, 16>(
            alloc, words, store, script, ciphers, operands, places, head,
        ),
        SetName::S4096 => write_of_degree::<S, 4096>(
            alloc, words, store, script, ciphers, operands, places, head,
        ),
        SetName::S8192 => write_of_degree::<S, 8192>(
            alloc, words, store, script, ciphers, operands, places, head,
        ),
        SetName::S16384 => write_of_degree::<S, 16384>(
            alloc, words, store, script, ciphers, operands, places, head,
        ),
    }
}

/// The same for a script with a set of degree N.
fn write_of_degree<S: Store, const N: usize>(
    alloc: Global,
    words: &[String],
    store: &mut S,
    script: &Script,
    ciphers: &[BoundCipher],
    operands: &[Operand],
    places: &[usize],
    head: &Head,
) -> Result<(), Status>
    requires degree { N ≡ degree_of script.now.set }
    requires low { 3 ≤ length words.now }
    requires keyless { needs_of script.now ≡ [] }
    requires cipher_count { length ciphers.now ≡ length (cipher_inputs script.now.inputs) }
    requires bound { All (MayBeBound script.now.set (length words.now)) ciphers.now }
    requires plain_count { length places.now ≡ length (plain_inputs script.now.inputs) }
    requires listed { (p : ℕ) → p < length places.now → IsListed script.now.set (slice_get operands.now (slice_index places.now p)) }
    requires head { head.now ≡ run_head script.now head.now.id head.now.bound }
    requires rules { HeadKeepsRules head.now }
    requires room { LeavesRoom script.now (numbers (bounds_of ciphers.now)) head.now.bound }
    ensures { (contents : List FileContent) (plains : List (List ℕ)) → AreOfKey contents head.now.id → AreListed operands.now places.now plains
        → Wrote (word_at (map string_bytes words.now) 2) (IsWordOf ciphers.now) (λ files. AreHeld (map string_bytes words.now) files ciphers.now contents)
        (IsRunOf (run_with script.now contents plains head.now)) (S.state store.old) (S.state store.new) result }
{
    // Tells that the script is sound.
    let _set = script.set();
    let space = executed::<S, N>(alloc, words, store, script, ciphers, operands, places)?;
    let cipher = space.result();
    let _parts = cipher.parts();
    match write_cipher(store, name_of(words, 2), head, cipher) {
        Ok(()) => Ok(()),
        Err(fault) => Err(write_status(fault)),
    }
}
