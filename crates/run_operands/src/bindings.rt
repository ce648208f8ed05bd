// How the words of `run` bind the inputs of a script to files.
ghost use Rattle.std.specs.Prelude.{◌≡◌, ◌<◌, ◌≤◌, ◌-◌, ℕ, [], length, map, take, None, Some, OnOk, IfErr};
ghost use Rattle.std.specs.String.{string_bytes};
ghost use Rattle.outer_io.specs.Store.{StoreState};
ghost use Rattle.command_words.specs.Form as form;
ghost use Rattle.command_words.specs.Line.{word_at};
ghost use Rattle.command_model.specs.Bindings as bindings;
ghost use Rattle.command_model.specs.Plan as plan;
ghost use Rattle.command_model.specs.Commanded.{Caused};
ghost use Rattle.command_stages.specs.Causes.{OwesNoCall};

use command_stages::name_of;
use command_words::{BindingFault, Status, binding_file, binding_name};
use script_text::Script;

/// The name of the file that a binding names, the binding being the word of this number.
pub fn file_bound(words: &[String], word: u32) -> &str
    requires { word < length words.now }
    ensures { result.now ≡ form.binding_file (word_at (map string_bytes words.now) word) }
{
    binding_file(name_of(words, word))
}

/// The name of the input that a binding names, the binding being the word of this number.
pub fn name_bound(words: &[String], word: u32) -> &str
    requires { word < length words.now }
    ensures { result.now ≡ form.binding_name (word_at (map string_bytes words.now) word) }
{
    binding_name(name_of(words, word))
}

/// The place of the first binding of a name among the bindings, the first of which is word 3.
pub fn place_bound(words: &[String], name: &str) -> Option<usize>
    requires { 3 ≤ length words.now }
    ensures { result ≡ bindings.place_bound (bindings.bound_names (map string_bytes words.now)) name.now }
{
    words[3..]
        .iter()
        .position(|word| binding_name(word.as_str()) == name)
}

/// The place of the input of a name among those of a script.
pub fn input_named(script: &Script, name: &str) -> Option<usize>
    ensures { result ≡ bindings.input_named script.now name.now }
{
    for input in 0..script.inputs() {
        if script.input_name(input) == name {
            return Some(input);
        }
    }
    None
}

/// Whether each binding names an input of the script, no two name the same one, and each input is
/// bound. The bindings come first, in the order of their words, and then the inputs in order of
/// declaration.
pub fn match_bindings(script: &Script, words: &[String]) -> Result<(), Status>
    requires count { 3 ≤ length words.now }
    requires few { length words.now ≤ 1000 }
    ensures ok { OnOk result (plan.badly_bound script.now (map string_bytes words.now) ≡ None) }
    ensures err { IfErr result (λ s. plan.badly_bound script.now (map string_bytes words.now) ≡ Some s) }
    ensures cause { IfErr result (λ s. (old : StoreState) (new : StoreState) → Caused (λ w. (3 ≤ w) × (w < length words.now)) old new s) }
    ensures none { IfErr result OwesNoCall }
{
    match fault_of_bindings(script, words) {
        Some(fault) => Err(Status::Binding { fault }),
        None => Ok(()),
    }
}

fn fault_of_bindings(script: &Script, words: &[String]) -> Option<BindingFault>
    requires count { 3 ≤ length words.now }
    requires few { length words.now ≤ 1000 }
    ensures { result ≡ bindings.fault_of_bindings script.now (bindings.bound_names (map string_bytes words.now)) }
{
    match first_binding_fault(script, words) {
        Some(fault) => Some(fault),
        None => unbound_input(script, words),
    }
}

/// The first fault of a binding, in the order of the words.
fn first_binding_fault(script: &Script, words: &[String]) -> Option<BindingFault>
    requires count { 3 ≤ length words.now }
    requires few { length words.now ≤ 1000 }
    ensures { result ≡ bindings.first_binding_fault script.now [] (bindings.bound_names (map string_bytes words.now)) }
{
    for word in 3..words.len() as u32 {
        let fault = binding_fault(script, words, word);
        if fault.is_some() {
            return fault;
        }
    }
    None
}

/// What is wrong with the binding in the word of this number, behind those before it.
fn binding_fault(script: &Script, words: &[String], word: u32) -> Option<BindingFault>
    requires behind { 3 ≤ word }
    requires within { word < length words.now }
    ensures { result ≡ bindings.binding_fault script.now (take (word - 3) (bindings.bound_names (map string_bytes words.now)))
        (form.binding_name (word_at (map string_bytes words.now) word)) }
{
    let name = name_bound(words, word);
    if input_named(script, name).is_none() {
        return Some(BindingFault::Undeclared(word));
    }
    if place_bound(&words[..word as usize], name).is_some() {
        return Some(BindingFault::Twice(word));
    }
    None
}

/// The first input that is bound to no file.
fn unbound_input(script: &Script, words: &[String]) -> Option<BindingFault>
    requires count { 3 ≤ length words.now }
    ensures { result ≡ bindings.unbound_input script.now (bindings.bound_names (map string_bytes words.now)) }
{
    for input in 0..script.inputs() {
        if place_bound(words, script.input_name(input)).is_none() {
            return Some(BindingFault::Unbound(input as u32));
        }
    }
    None
}
