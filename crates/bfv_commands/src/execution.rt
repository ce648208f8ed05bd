// Runs of scripts on the files that are bound to their inputs.
ghost use Rattle.std.specs.Prelude.{◌≡◌, ◌≢◌, ℕ, ◌<◌, ◌≤◌, List, length, map, true, All, slice_get, slice_index, slice_index_or, [], IfOk, OnOk};
ghost use Rattle.std.specs.String.{string_bytes};
ghost use Rattle.set_table.specs.declared.SetName.{SetName};
ghost use Rattle.set_table.specs.Sets.{degree_of, plain_of};
ghost use Rattle.ring_law.specs.Rows.{IsReduced};
ghost use Rattle.file_model.specs.FileText.{FileContent};
ghost use Rattle.bfv_model.specs.Holds.{secret_polynomial};
ghost use Rattle.script_text.specs.Scripts.{cipher_inputs, plain_inputs, shape_at, shapes_of, needs_of};
ghost use Rattle.script_text.specs.Value.{value_of};
ghost use Rattle.noise_check.specs.ExactBounds.{exact_bounds};
ghost use Rattle.bfv_params.specs.Ciphers.{IsCipherOf};
ghost use Rattle.script_run.specs.Places.{cipher_at};
ghost use Rattle.script_run.specs.Workspaces.{input_of, output_of, whole_context};
ghost use Rattle.script_run.specs.Premises.{IsQuiet};
ghost use Rattle.script_run.specs.Runs.{Carries};
ghost use Rattle.command_words.specs.Form.{binding_file};
ghost use Rattle.command_words.specs.Line.{word_at};
ghost use Rattle.command_model.specs.Plan.{stated_bounds};
ghost use Rattle.command_model.specs.Plain.{Owner};
ghost use Rattle.command_stages.specs.Operands.{HasContentAt};
ghost use Rattle.command_stages.specs.Stages.{Made};
ghost use Rattle.run_operands.specs.BoundFiles.{AreHeld, MayBeBound};
ghost use Rattle.bfv_commands.specs.Filled.{IsListed, values_listed, AreListed, HasWordsOf, HaveWordsOf};
ghost use Rattle.bfv_commands.specs.RunStages.{AreSealed, IsWordOf};

use bfv_params::Context;
use cipher_files::read_cipher;
use command_stages::status_of;
use command_words::Status;
use key_switch::MemKeys;
use outer_io::Store;
use run_operands::{BoundCipher, Operand, file_bound};
use script_run::Workspace;
use script_text::Script;
use std::alloc::Global;

/// Runs a script that needs no key on the ciphers and the values that are bound to its inputs.
/// What it gives is a workspace with the script's output.
///
/// `places` has the place of each plain input's values among the operands. All memory is taken
/// before a file is read.
pub fn executed<S: Store, const N: usize>(
    alloc: Global,
    words: &[String],
    store: &mut S,
    script: &Script,
    ciphers: &[BoundCipher],
    operands: &[Operand],
    places: &[usize],
) -> Result<Workspace<N>, Status>
    requires degree { N ≡ degree_of script.now.set }
    requires keyless { needs_of script.now ≡ [] }
    requires cipher_count { length ciphers.now ≡ length (cipher_inputs script.now.inputs) }
    requires bound { All (MayBeBound script.now.set (length words.now)) ciphers.now }
    requires plain_count { length places.now ≡ length (plain_inputs script.now.inputs) }
    requires listed { (p : ℕ) → p < length places.now → IsListed script.now.set (slice_get operands.now (slice_index places.now p)) }
    ensures done { IfOk result (λ space. space.done ≡ true) }
    ensures of_context { IfOk result (λ space. IsCipherOf (whole_context script.now.set) (output_of space)) }
    ensures parts { IfOk result (λ space. (output_of space).parts ≡ (shape_at (shapes_of script.now.inputs script.now.steps) script.now.output).parts) }
    ensures made { (contents : List FileContent) → Made (IsWordOf ciphers.now) (λ files. AreHeld (map string_bytes words.now) files ciphers.now contents)
        (λ space. (owner : Owner) (plains lists : List (List ℕ))
        → AreListed operands.now places.now plains → AreSealed owner script.now contents plains lists
        → IsQuiet (whole_context script.now.set) script.now (stated_bounds contents)
        → Carries N (whole_context script.now.set) (secret_polynomial owner.secret) (output_of space) (value_of script.now lists)
        (slice_index (exact_bounds script.now (stated_bounds contents)) script.now.output)) (S.state store.old) (S.state store.new) result }
{
    let set = script.set();
    let Ok(ctx) = Context::<N>::new(alloc, set) else {
        return Err(Status::Memory);
    };
    let Ok(mut space) = Workspace::<N>::new(alloc, script, &ctx) else {
        return Err(Status::Memory);
    };
    let mut keys = MemKeys::<N>::new(alloc, set);
    fill_plains(operands, places, &mut space);
    fill_ciphers(words, store, ciphers, &mut space)?;
    match space.execute(&ctx, script, &mut keys) {
        Ok(()) => Ok(space),
        Err(_) => unreachable!(),
    }
}

/// Reads the ciphers of all inputs into their places.
fn fill_ciphers<S: Store, const N: usize>(
    words: &[String],
    store: &mut S,
    ciphers: &[BoundCipher],
    space: &mut Workspace<N>,
) -> Result<(), Status>
    requires degree { N ≡ degree_of (space.old).set }
    requires count { length ciphers.now ≡ (space.old).inputs }
    requires bound { All (MayBeBound (space.old).set (length words.now)) ciphers.now }
    requires of_context { (r : ℕ) → r < (space.old).inputs → IsCipherOf (whole_context (space.old).set) (input_of space.old r) }
    requires apart { (r other : ℕ) → r < (space.old).inputs → other < (space.old).inputs
        → slice_index (space.old).plan r ≡ slice_index (space.old).plan other → r ≡ other }
    ensures set { (space.new).set ≡ (space.old).set }
    ensures inputs { (space.new).inputs ≡ (space.old).inputs }
    ensures plan { (space.new).plan ≡ (space.old).plan }
    ensures plains { (space.new).plains ≡ (space.old).plains }
    ensures places { length (space.new).places ≡ length (space.old).places }
    ensures of_context { (r : ℕ) → r < (space.new).inputs → IsCipherOf (whole_context (space.old).set) (input_of space.new r) }
    ensures parts { OnOk result ((r : ℕ) → r < (space.new).inputs → (input_of space.new r).parts ≡ 2) }
    ensures made { (contents : List FileContent) → Made (IsWordOf ciphers.now) (λ files. AreHeld (map string_bytes words.now) files ciphers.now contents)
        (λ _. HaveWordsOf N space.new contents) (S.state store.old) (S.state store.new) result }
{
    for r in 0..ciphers.len() {
        fill_cipher(words, store, &ciphers[r], r, space)?;
    }
    Ok(())
}

/// Reads a cipher, whose file was scanned, into the place of an input.
fn fill_cipher<S: Store, const N: usize>(
    words: &[String],
    store: &mut S,
    cipher: &BoundCipher,
    input: usize,
    space: &mut Workspace<N>,
) -> Result<(), Status>
    requires degree { N ≡ degree_of (space.old).set }
    requires input { input < (space.old).inputs }
    requires bound { MayBeBound (space.old).set (length words.now) cipher.now }
    requires of_context { IsCipherOf (whole_context (space.old).set) (input_of space.old input) }
    ensures set { (space.new).set ≡ (space.old).set }
    ensures inputs { (space.new).inputs ≡ (space.old).inputs }
    ensures plan { (space.new).plan ≡ (space.old).plan }
    ensures plains { (space.new).plains ≡ (space.old).plains }
    ensures places { length (space.new).places ≡ length (space.old).places }
    ensures others { (p : ℕ) → p ≢ slice_index (space.old).plan input → cipher_at (space.new).places p ≡ cipher_at (space.old).places p }
    ensures of_context { IsCipherOf (whole_context (space.old).set) (input_of space.new input) }
    ensures parts { OnOk result ((input_of space.new input).parts ≡ 2) }
    ensures made { (content : FileContent) → Made (λ w. w ≡ cipher.now.word)
        (λ files. HasContentAt files (binding_file (word_at (map string_bytes words.now) cipher.now.word)) cipher.now.head content)
        (λ _. HasWordsOf N (space.old).set (input_of space.new input) content) (S.state store.old) (S.state store.new) result }
{
    let name = file_bound(words, cipher.word);
    match read_cipher(store, name, &cipher.head, space.cipher_slot(input)) {
        Ok(()) => Ok(()),
        Err(fault) => Err(status_of(cipher.word, fault)),
    }
}

/// Copies the values of all plain inputs, which stand among the operands at these places.
fn fill_plains<const N: usize>(operands: &[Operand], places: &[usize], space: &mut Workspace<N>)
    requires degree { N ≡ degree_of (space.old).set }
    requires room { length places.now ≤ length (space.old).plains }
    requires listed { (p : ℕ) → p < length places.now → IsListed (space.old).set (slice_get operands.now (slice_index places.now p)) }
    ensures set { (space.new).set ≡ (space.old).set }
    ensures inputs { (space.new).inputs ≡ (space.old).inputs }
    ensures plan { (space.new).plan ≡ (space.old).plan }
    ensures places { (space.new).places ≡ (space.old).places }
    ensures count { length (space.new).plains ≡ length (space.old).plains }
    ensures filled { AreListed operands.now places.now (space.new).plains }
    ensures reduced { (p : ℕ) → p < length places.now → IsReduced N (plain_of (space.old).set) (slice_index_or (space.new).plains p []) }
{
    for p in 0..places.len() {
        copy_values(values_at(operands, places[p]), space.plain_slot(p));
    }
}

fn copy_values<const N: usize>(values: &[u64], row: &mut [u64; N])
    requires { length values.now ≡ N }
    ensures { row.new ≡ values.now }
{
    row.copy_from_slice(values);
}

/// The values at a place among the operands.
fn values_at(operands: &[Operand], place: usize) -> &[u64]
    requires { (set : SetName) × IsListed set (slice_get operands.now place) }
    ensures { result.now ≡ values_listed (slice_get operands.now place) }
{
    match &operands[place] {
        Operand::Values(values) => values,
        Operand::Cipher(_) => unreachable!(),
    }
}
