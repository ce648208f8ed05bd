// The command `turn`.
ghost use Rattle.std.specs.Prelude.{◌≡◌, ◌≢◌, length, map, Some, None, IsTrue, IfOk, IfErr};
ghost use Rattle.std.specs.String.{string_bytes};
ghost use Rattle.set_table.specs.declared.KeyKind.TheVariants as key;
ghost use Rattle.set_table.specs.Sets.{degree_of};
ghost use Rattle.file_model.specs.declared.file_kind.FileKind.TheVariants as kind;
ghost use Rattle.file_model.specs.FileText.{element_fits};
ghost use Rattle.command_words.specs.Form.{form_of};
ghost use Rattle.command_words.specs.declared.form.Form.TheVariants as form;
ghost use Rattle.command_model.specs.Commanded.{Commanded};
ghost use Rattle.command_model.specs.Plan as plan;

use crate::switching::{KeyDraw, need_special, write_drawn};
use cipher_files::Wanted;
use command_stages::{name_of, read_seed, scan_operand};
use command_words::{Status, Step, step_named};
use galois_turn::element_of;
use outer_io::Store;
use set_table::{KeyKind, SetName};
use std::alloc::Global;

/// Does `turn SEC STEP SEEDFILE OUT`.
pub fn turn<S: Store>(alloc: Global, words: &[String], store: &mut S) -> Result<(), Status>
    requires form { form_of (map string_bytes words.now) ≡ Some form.Turn }
    requires count { length words.now ≡ 5 }
    ensures { Commanded (map string_bytes words.now) (λ _. None) (S.state store.old) (S.state store.new) result }
{
    let Some(step) = step_named(name_of(words, 2)) else {
        unreachable!()
    };
    let secret = scan_operand(store, words, Wanted::Secret, 1)?;
    need_special(secret.set)?;
    let element = element_for(step, secret.set)?;
    let seed = read_seed(store, words, 3)?;
    let draw = KeyDraw {
        kind: KeyKind::Turn,
        element,
        seed,
    };
    write_drawn(alloc, words, store, &secret, &draw, name_of(words, 4))
}

/// The Galois element of a step at the degree of a set, where a half of the slots has more places.
fn element_for(step: Step, set: SetName) -> Result<u32, Status>
    requires { step ≢ Step.Left 0 }
    ensures near { IfOk result (λ _. plan.too_far step (degree_of set) ≡ None) }
    ensures value { IfOk result (λ element. element ≡ plan.element_of step (degree_of set)) }
    ensures fits { IfOk result (λ element. IsTrue (element_fits (kind.SwitchKey key.Turn) set element)) }
    ensures far { IfErr result (λ status. plan.too_far step (degree_of set) ≡ Some status) }
{
    let n = set.degree();
    match step {
        Step::Left(places) if places < n as u64 / 2 => Ok(element_of(places as u32, n)),
        Step::Left(places) => Err(Status::BadStep {
            step: places,
            half: n as u64 / 2,
        }),
        Step::Swap => Ok(2 * n as u32 - 1),
    }
}
