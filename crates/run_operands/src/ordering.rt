// The files of bindings, in the order in which a script declares the inputs.
ghost use Rattle.std.specs.Prelude.{◌≡◌, ◌≤◌, ◌<◌, ◌+◌, ℕ, List, [], length, map, slice_get, slice_index_or, Some, IfSome, IfOk};
ghost use Rattle.std.specs.String.{string_bytes};
ghost use Rattle.outer_io.specs.Store.{Files};
ghost use Rattle.script_text.specs.Scripts.{IsSound, cipher_inputs, plain_inputs};
ghost use Rattle.command_words.specs.Form as form;
ghost use Rattle.command_words.specs.Line.{word_at};
ghost use Rattle.command_model.specs.Bindings as bindings;
ghost use Rattle.run_operands.specs.BoundFiles.{AreSeen, AreOperands, AreHeld, AreStated, MayBeBound};
ghost use Rattle.run_operands.specs.Ordered.{CanRunOn, IsPlaceOf, IsCipherOf, AreValuesOf, ArePlainValues};

use crate::bindings::place_bound;
use crate::bound_files::{BoundCipher, Operand};
use script_text::{InputKind, Script};
use std::alloc::{AllocError, Global};

/// The ciphers that are bound to the cipher inputs of a script, in order of declaration.
pub fn ciphers_in_order(
    alloc: Global,
    words: &[String],
    script: &Script,
    operands: &[Operand],
) -> Result<Vec<BoundCipher>, AllocError>
    requires few { length words.now ≤ 1000 }
    requires matched { CanRunOn script.now (map string_bytes words.now) operands.now }
    ensures count { IfOk result (λ v. length v.items ≡ length (cipher_inputs script.now.inputs)) }
    ensures bound { IfOk result (λ v. (r : ℕ) (cipher : BoundCipher) → slice_get v.items r ≡ Some cipher → MayBeBound script.now.set (length words.now) cipher) }
    ensures stated { IfOk result (λ v. (planned : List bindings.Operand) → AreSeen operands.now planned
        → AreStated planned v.items (bindings.ciphers_of script.now (bindings.bound_names (map string_bytes words.now)) planned)) }
    ensures held { IfOk result (λ v. (files : Files) (planned : List bindings.Operand) → AreOperands (map string_bytes words.now) files operands.now planned
        → AreHeld (map string_bytes words.now) files v.items (bindings.ciphers_of script.now (bindings.bound_names (map string_bytes words.now)) planned)) }
{
    let mut ciphers = Vec::new(alloc);
    for input in 0..script.inputs() {
        match script.input_kind(input) {
            InputKind::Cipher => ciphers.push(cipher_bound(words, script, operands, input))?,
            InputKind::Plain => {}
        }
    }
    Ok(ciphers)
}

/// The cipher that is bound to a cipher input.
fn cipher_bound(
    words: &[String],
    script: &Script,
    operands: &[Operand],
    input: usize,
) -> BoundCipher
    requires few { length words.now ≤ 1000 }
    requires sound { IsSound script.now }
    requires matched { CanRunOn script.now (map string_bytes words.now) operands.now }
    requires input { input < length script.now.inputs }
    requires is_cipher { IfSome (slice_get script.now.inputs input) (λ i. i.kind ≡ InputKind.Cipher) }
    ensures { IfSome (slice_get script.now.inputs input) (λ i. IsCipherOf script.now (map string_bytes words.now) operands.now i result) }
{
    let place = place_of(words, script, operands, input);
    match &operands[place] {
        Operand::Cipher(head) => BoundCipher {
            word: 3 + place as u32,
            head: *head,
        },
        Operand::Values(_) => unreachable!(),
    }
}

/// The place of the binding of an input among the bindings.
fn place_of(words: &[String], script: &Script, operands: &[Operand], input: usize) -> usize
    requires sound { IsSound script.now }
    requires matched { CanRunOn script.now (map string_bytes words.now) operands.now }
    requires input { input < length script.now.inputs }
    ensures within { result < length operands.now }
    ensures of { IfSome (slice_get script.now.inputs input) (λ i. IsPlaceOf script.now (map string_bytes words.now) operands.now i result) }
{
    match place_bound(words, script.input_name(input)) {
        Some(place) => place,
        None => unreachable!(),
    }
}

/// The places of the bindings of a script's plain inputs, in order of declaration.
pub fn plain_places(
    alloc: Global,
    words: &[String],
    script: &Script,
    operands: &[Operand],
) -> Result<Vec<usize>, AllocError>
    requires matched { CanRunOn script.now (map string_bytes words.now) operands.now }
    ensures count { IfOk result (λ v. length v.items ≡ length (plain_inputs script.now.inputs)) }
    ensures values { IfOk result (λ v. (p : ℕ) (place : ℕ) → slice_get v.items p ≡ Some place → ArePlainValues script.now (map string_bytes words.now) operands.now p place) }
{
    let mut places = Vec::new(alloc);
    for input in 0..script.inputs() {
        match script.input_kind(input) {
            InputKind::Cipher => {}
            InputKind::Plain => places.push(plain_place(words, script, operands, input))?,
        }
    }
    Ok(places)
}

/// The place of the binding of a plain input among the bindings.
fn plain_place(words: &[String], script: &Script, operands: &[Operand], input: usize) -> usize
    requires sound { IsSound script.now }
    requires matched { CanRunOn script.now (map string_bytes words.now) operands.now }
    requires input { input < length script.now.inputs }
    requires is_plain { IfSome (slice_get script.now.inputs input) (λ i. i.kind ≡ InputKind.Plain) }
    ensures { IfSome (slice_get script.now.inputs input) (λ i. AreValuesOf script.now (map string_bytes words.now) operands.now i result) }
{
    place_of(words, script, operands, input)
}
