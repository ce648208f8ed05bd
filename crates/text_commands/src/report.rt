// The command `report`.
ghost use Rattle.std.specs.Prelude.{◌≡◌, ◌+◌, ◌<◌, length, map, zip, slice_get, Some, None, IfOk, IfSome};
ghost use Rattle.std.specs.String.{string_bytes};
ghost use Rattle.serde_json.specs.Data.{array};
ghost use Rattle.serde_json.specs.View.{view, items_of};
ghost use Rattle.set_table.specs.Sets.{data_of};
ghost use Rattle.bfv_model.specs.Limit as limits;
ghost use Rattle.noise_check.specs.Numbers.{bound_of};
ghost use Rattle.script_text.specs.Scripts.{cipher_inputs, registers_of};
ghost use Rattle.command_words.specs.Form.{form_of};
ghost use Rattle.command_words.specs.declared.form.Form.TheVariants as form;
ghost use Rattle.command_model.specs.Report as model;
ghost use Rattle.command_model.specs.Commanded.{Commanded};

use crate::judge::judge_fresh;
use bound_num::Bound;
use command_stages::{name_of, read_script, write_status};
use command_words::Status;
use noise_check::{BoundList, limit};
use outer_io::{Store, write_file};
use script_text::Script;
use serde_json::{Value, json};
use set_table::SetName;
use std::alloc::{AllocError, Global};

/// Does `report SCRIPT OUT`.
pub fn report<S: Store>(alloc: Global, words: &[String], store: &mut S) -> Result<(), Status>
    requires form { form_of (map string_bytes words.now) ≡ Some form.Report }
    requires count { length words.now ≡ 3 }
    ensures { Commanded (map string_bytes words.now) (λ _. None) (S.state store.old) (S.state store.new) result }
{
    let script = read_script(alloc, store, words, 1)?;
    let bounds = judge_fresh(alloc, &script)?;
    let Ok(text) = report_text(alloc, &script, &bounds) else {
        return Err(Status::Memory);
    };
    match write_file(store, name_of(words, 2), &text) {
        Ok(()) => Ok(()),
        Err(fault) => Err(write_status(fault)),
    }
}

/// The text of the report on a script whose registers have these bounds.
fn report_text(alloc: Global, script: &Script, bounds: &BoundList) -> Result<Vec<u8>, AllocError>
    requires { length bounds.now ≡ length (cipher_inputs script.now.inputs) + length script.now.steps }
    ensures { IfOk result (λ text. text.items ≡ model.report_text script.now bounds.now) }
{
    let mut text = report_value(alloc, script, bounds)?.to_vec(alloc)?;
    text.push(b'\n')?;
    Ok(text)
}

fn report_value(alloc: Global, script: &Script, bounds: &BoundList) -> Result<Value, AllocError>
    requires { length bounds.now ≡ length (cipher_inputs script.now.inputs) + length script.now.steps }
    ensures { IfOk result (λ value. view value ≡ model.report_of script.now bounds.now) }
{
    let registers = register_values(alloc, script, bounds)?;
    let most = limit_value(alloc, script.set())?;
    json!(in alloc; {"bounds": registers, "limit": most, "set": script.set().text()})
}

/// The object of the greatest bound that a register of a set may have.
fn limit_value(alloc: Global, set: SetName) -> Result<Value, AllocError>
    ensures { IfOk result (λ value. view value ≡ model.limit_object (bound_of (limits.limit (data_of set)))) }
{
    limit_object(alloc, limit(set))
}

fn limit_object(alloc: Global, most: Bound) -> Result<Value, AllocError>
    ensures { IfOk result (λ value. view value ≡ model.limit_object most) }
{
    json!(in alloc; {"exp": most.e, "mant": most.m})
}

/// The list of the objects of a script's registers, which have these bounds.
fn register_values(alloc: Global, script: &Script, bounds: &BoundList) -> Result<Value, AllocError>
    requires { length bounds.now ≡ length (cipher_inputs script.now.inputs) + length script.now.steps }
    ensures { IfOk result (λ value. view value ≡ array (items_of (map model.register_object (zip (registers_of script.now) bounds.now)))) }
{
    let mut values = Vec::new(alloc);
    for register in 0..bounds.len() {
        let value = register_value(alloc, script, register, bounds.get(register))?;
        values.push(value)?;
    }
    Ok(Value::Array(values))
}

/// The object of a register that has this bound.
fn register_value(
    alloc: Global,
    script: &Script,
    register: usize,
    bound: Bound,
) -> Result<Value, AllocError>
    requires { register < length (cipher_inputs script.now.inputs) + length script.now.steps }
    ensures { IfOk result (λ value. IfSome (slice_get (registers_of script.now) register)
        (λ listed. view value ≡ model.register_object (listed, bound))) }
{
    json!(in alloc; {
        "exp": bound.e,
        "line": script.register_line(register),
        "mant": bound.m,
        "name": script.register_name(register),
        "parts": script.register_shape(register).parts,
    })
}
