// The files that are bound to the inputs of a script.
ghost use Rattle.std.specs.Prelude.{◌≡◌, ◌+◌, ◌<◌, ◌≤◌, ℕ, List, Some, length, map, IfOk};
ghost use Rattle.std.specs.String.{string_bytes};
ghost use Rattle.outer_io.specs.Store.{StoreState, OnlyReads};
ghost use Rattle.command_words.specs.Form as form;
ghost use Rattle.command_words.specs.Line.{word_at};
ghost use Rattle.command_words.specs.declared.form.Form.TheVariants as forms;
ghost use Rattle.command_model.specs.Bindings as bindings;
ghost use Rattle.command_model.specs.Reading.{Reading};
ghost use Rattle.command_model.specs.Plan as plan;
ghost use Rattle.command_model.specs.Answers.{IsOperandOf};
ghost use Rattle.command_stages.specs.Stages.{Way};
ghost use Rattle.run_operands.specs.BoundFiles.{FitsKind};
ghost use Rattle.run_operands.specs.BoundReads.{OperandCame, OperandsCame, FitInputs};

use crate::bindings::{file_bound, input_named, name_bound};
use command_stages::{read_values_named, scan_named};
use command_words::Status;
use file_model::{Head, Wanted};
use outer_io::Store;
use script_text::{InputKind, Script};
use set_table::SetName;
use std::alloc::Global;

/// What was read of a file that is bound to an input.
#[derive(Drop)]
pub enum Operand {
    /// The head of a cipher, whose file was scanned.
    Cipher(Head),
    /// The values of a plain input.
    Values(Vec<u64>),
}

/// A cipher that is bound to an input: the number of the word that binds its file, and the head of
/// the file, which was scanned.
#[derive(Clone, Copy)]
pub struct BoundCipher {
    pub word: u32,
    pub head: Head,
}

/// What the files of all bindings hold, in the order of the words: the heads of ciphers for cipher
/// inputs, and values for plain inputs.
pub fn read_operands<S: Store>(
    alloc: Global,
    store: &mut S,
    words: &[String],
    script: &Script,
) -> Result<Vec<Operand>, Status>
    requires count { 3 ≤ length words.now }
    requires few { length words.now ≤ 1000 }
    ensures keeps { OnlyReads (S.state store.old) (S.state store.new) }
    ensures came { (rest : List bindings.Operand → Reading) (begun : StoreState) → form.form_of (map string_bytes words.now) ≡ Some forms.Run
        → Way (map string_bytes words.now) (plan.reading_of_bindings script.now 3 (bindings.bindings_of (map string_bytes words.now)) rest) begun (S.state store.old)
        → OperandsCame script.now (map string_bytes words.now) rest begun (S.state store.new) (λ v. v.items) result }
    ensures count { IfOk result (λ v. length v.items + 3 ≡ length words.now) }
    ensures fits { IfOk result (λ v. FitInputs script.now (map string_bytes words.now) v.items) }
{
    let mut operands = Vec::new(alloc);
    for word in 3..words.len() as u32 {
        let operand = read_operand(alloc, store, words, script, word)?;
        let Ok(()) = operands.push(operand) else {
            return Err(Status::Memory);
        };
    }
    Ok(operands)
}

/// What the file of a binding holds, the binding being the word of this number.
fn read_operand<S: Store>(
    alloc: Global,
    store: &mut S,
    words: &[String],
    script: &Script,
    word: u32,
) -> Result<Operand, Status>
    requires { word < length words.now }
    ensures keeps { OnlyReads (S.state store.old) (S.state store.new) }
    ensures came { (rest : bindings.Operand → Reading) (begun : StoreState) → IsOperandOf (form.form_of (map string_bytes words.now)) (length (map string_bytes words.now)) word
        → Way (map string_bytes words.now) (plan.reading_of_binding script.now word (word_at (map string_bytes words.now) word) rest) begun (S.state store.old)
        → OperandCame (map string_bytes words.now) script.now.set (bindings.kind_at script.now (bindings.input_named script.now
        (form.binding_name (word_at (map string_bytes words.now) word)))) (form.binding_file (word_at (map string_bytes words.now) word)) word rest begun (S.state store.new) result }
    ensures fits { IfOk result (λ operand. FitsKind script.now.set (bindings.kind_at script.now (bindings.input_named script.now
        (form.binding_name (word_at (map string_bytes words.now) word)))) operand) }
{
    let kind = kind_named(script, name_bound(words, word));
    read_of_kind(
        alloc,
        store,
        file_bound(words, word),
        script.set(),
        kind,
        word,
    )
}

/// The kind of the input of a name; a name that no input has counts as that of a cipher.
fn kind_named(script: &Script, name: &str) -> InputKind
    ensures { result ≡ bindings.kind_at script.now (bindings.input_named script.now name.now) }
{
    match input_named(script, name) {
        Some(input) => script.input_kind(input),
        None => InputKind::Cipher,
    }
}

/// What the file of a name holds for an input of a kind, where the script has this set. The word of
/// this number gives the name.
fn read_of_kind<S: Store>(
    alloc: Global,
    store: &mut S,
    name: &str,
    set: SetName,
    kind: InputKind,
    word: u32,
) -> Result<Operand, Status>
    ensures keeps { OnlyReads (S.state store.old) (S.state store.new) }
    ensures came { (words : List (List ℕ)) (rest : bindings.Operand → Reading) (begun : StoreState) → IsOperandOf (form.form_of words) (length words) word
        → Way words (plan.reading_of_kind set kind name.now word rest) begun (S.state store.old)
        → OperandCame words set kind name.now word rest begun (S.state store.new) result }
    ensures fits { IfOk result (λ operand. FitsKind set kind operand) }
{
    match kind {
        InputKind::Cipher => {
            let head = scan_named(store, name, Wanted::Cipher, word)?;
            Ok(Operand::Cipher(head))
        }
        InputKind::Plain => {
            let values = read_values_named(alloc, store, name, set, word)?;
            Ok(Operand::Values(values))
        }
    }
}
