// Whether the ciphers that are bound to the inputs of a script belong to its set and to one secret.
ghost use Rattle.std.specs.Prelude.{◌≡◌, ◌<◌, ◌≤◌, ◌+◌, ℕ, List, [], length, map, slice_get, None, Some, IsSome, IfSome, OnOk, IfErr};
ghost use Rattle.outer_io.specs.Store.{StoreState};
ghost use Rattle.file_model.specs.Heads.{content_with};
ghost use Rattle.file_model.specs.declared.head.Head.{Head};
ghost use Rattle.command_model.specs.Bindings as bindings;
ghost use Rattle.command_model.specs.Plan as plan;
ghost use Rattle.run_operands.specs.BoundFiles.{AreSeen};
ghost use Rattle.run_operands.specs.Demands.{operand_seen, refusal_of, CiphersFit};
ghost use Rattle.command_model.specs.Commanded.{Caused};
ghost use Rattle.command_stages.specs.Causes.{OwesNoCall};

use crate::bound_files::Operand;
use command_words::Status;
use file_model::Head;
use script_text::Script;
use set_table::SetName;

/// What is demanded of each cipher.
#[derive(Clone, Copy)]
enum Demand {
    /// It is of this set.
    Set(SetName),
    /// It has two parts.
    Parts,
    /// It is sealed under the secret of this key id.
    Key([u8; 16]),
}

/// Whether all ciphers are of the script's set, have two parts and are of one key id. The sets come
/// first, and then the parts and the key ids, each in the order of the words.
pub fn match_operands(script: &Script, operands: &[Operand]) -> Result<(), Status>
    requires few { length operands.now ≤ 997 }
    ensures ok { (planned : List bindings.Operand) → AreSeen operands.now planned → OnOk result (plan.mismatch script.now planned ≡ None) }
    ensures err { (planned : List bindings.Operand) → AreSeen operands.now planned → IfErr result (λ s. plan.mismatch script.now planned ≡ Some s) }
    ensures fit { OnOk result (CiphersFit script.now.set operands.now) }
    ensures cause { IfErr result (λ s. (old : StoreState) (new : StoreState) → Caused (λ w. (3 ≤ w) × (w < 3 + length operands.now)) old new s) }
    ensures none { IfErr result OwesNoCall }
{
    match mismatch(script, operands) {
        Some(status) => Err(status),
        None => Ok(()),
    }
}

fn mismatch(script: &Script, operands: &[Operand]) -> Option<Status>
    requires few { length operands.now ≤ 997 }
    ensures { result ≡ plan.mismatch script.now (map operand_seen operands.now) }
{
    if let Some(status) = first_refusal(operands, Demand::Set(script.set())) {
        return Some(status);
    }
    if let Some(status) = first_refusal(operands, Demand::Parts) {
        return Some(status);
    }
    key_mismatch(operands)
}

/// The first cipher of another key id than the first one.
fn key_mismatch(operands: &[Operand]) -> Option<Status>
    requires few { length operands.now ≤ 997 }
    ensures { result ≡ plan.first_refusal (plan.of_cipher (plan.other_key (bindings.first_key_id (map operand_seen operands.now)))) 3 (map operand_seen operands.now) }
{
    match first_key_id(operands) {
        Some(id) => first_refusal(operands, Demand::Key(id)),
        None => None,
    }
}

/// The key id of the first cipher, if there is one.
pub fn first_key_id(operands: &[Operand]) -> Option<[u8; 16]>
    ensures told { (planned : List bindings.Operand) → AreSeen operands.now planned → IfSome result (λ id. id ≡ bindings.first_key_id planned) }
    ensures seen { IfSome result (λ id. id ≡ bindings.first_key_id (map operand_seen operands.now)) }
    ensures some { (p : ℕ) (head : Head) → slice_get operands.now p ≡ Some (Operand.Cipher head) → IsSome result }
{
    for operand in operands {
        if let Operand::Cipher(head) = operand {
            return Some(head.id);
        }
    }
    None
}

/// What is said of the first cipher that doesn't meet a demand.
fn first_refusal(operands: &[Operand], demand: Demand) -> Option<Status>
    requires few { length operands.now ≤ 997 }
    ensures { result ≡ plan.first_refusal (plan.of_cipher (refusal_of demand)) 3 (map operand_seen operands.now) }
{
    for (place, operand) in operands.iter().enumerate() {
        let refused = refusal(operand, demand, 3 + place as u32);
        if refused.is_some() {
            return refused;
        }
    }
    None
}

/// What is said of an operand that doesn't meet a demand, its file being named by a word.
fn refusal(operand: &Operand, demand: Demand, word: u32) -> Option<Status>
    ensures { result ≡ plan.of_cipher (refusal_of demand) word (operand_seen operand.now) }
{
    match operand {
        Operand::Cipher(head) => head_refusal(head, demand, word),
        Operand::Values(_) => None,
    }
}

fn head_refusal(head: &Head, demand: Demand, word: u32) -> Option<Status>
    ensures { result ≡ refusal_of demand word (content_with head.now []) }
{
    match demand {
        Demand::Set(set) => set_refusal(head, set, word),
        Demand::Parts => parts_refusal(head, word),
        Demand::Key(id) => key_refusal(head, id, word),
    }
}

fn set_refusal(head: &Head, set: SetName, word: u32) -> Option<Status>
    ensures { result ≡ plan.other_set set word (content_with head.now []) }
{
    if head.set == set {
        return None;
    }
    Some(Status::SetMismatch {
        word,
        have: head.set,
        want: set,
    })
}

fn parts_refusal(head: &Head, word: u32) -> Option<Status>
    ensures { result ≡ plan.other_parts word (content_with head.now []) }
{
    if head.parts == 2 {
        return None;
    }
    Some(Status::PartsMismatch {
        word,
        have: head.parts,
        want: 2,
    })
}

fn key_refusal(head: &Head, id: [u8; 16], word: u32) -> Option<Status>
    ensures { result ≡ plan.other_key id word (content_with head.now []) }
{
    if head.id == id {
        return None;
    }
    Some(Status::KeyMismatch {
        word,
        have: head.id,
        want: id,
    })
}
