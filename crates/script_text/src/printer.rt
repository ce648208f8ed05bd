// The text of a script.
ghost use Rattle.std.specs.Prelude.{◌≡◌, ◌++◌, ◌∷◌, [], IfOk, OnOk, take, codes, decimal, slice_index_or};
ghost use Rattle.std.specs.List.{flat_map};
ghost use Rattle.set_table.specs.Sets.{name_of};
ghost use Rattle.script_text.specs.Keywords.{keyword_text};
ghost use Rattle.script_text.specs.Scripts.{names_of, register_names};
ghost use Rattle.script_text.specs.Printed.{printed_line, printed_script, printed_input, printed_step, kind_text, keyword_of, first_operand, second_words, plain_names};

use crate::keyword::Keyword;
use crate::script::{Input, InputKind, Op, Script, Step};
use crate::values::push_number;
use std::alloc::{AllocError, Global};

/// The text of a script, with single spaces, and with no line that is passed over.
pub fn print(alloc: Global, script: &Script) -> Result<Vec<u8>, AllocError>
    ensures { IfOk result (λ text. text.items ≡ printed_script script.now) }
{
    let mut text = Vec::new(alloc);
    text.extend_from_slice(b"set")?;
    push_word(&mut text, script.set.text())?;
    text.push(b'\n')?;
    push_inputs(&mut text, script)?;
    push_steps(&mut text, script)?;
    text.extend_from_slice(b"output")?;
    push_word(&mut text, script.register_name(script.output as usize))?;
    text.push(b'\n')?;
    Ok(text)
}

/// A further word of a line, behind a space.
fn push_word(text: &mut Vec<u8>, word: &str) -> Result<(), AllocError>
    ensures { OnOk result (text.new.items ≡ text.old.items ++ 32 ∷ word.now) }
{
    text.push(b' ')?;
    text.extend_from_slice(word.as_bytes())?;
    Ok(())
}

fn push_inputs(text: &mut Vec<u8>, script: &Script) -> Result<(), AllocError>
    ensures { OnOk result (text.new.items ≡ text.old.items ++ flat_map printed_input script.now.inputs) }
{
    for i in 0..script.inputs.len() {
        let input = &script.inputs[i];
        push_input(text, input)?;
    }
    Ok(())
}

fn push_input(text: &mut Vec<u8>, input: &Input) -> Result<(), AllocError>
    ensures { OnOk result (text.new.items ≡ text.old.items ++ printed_input input.now) }
{
    let kind = match input.kind {
        InputKind::Cipher => "cipher",
        InputKind::Plain => "plain",
    };
    text.extend_from_slice(kind.as_bytes())?;
    push_word(text, input.name.as_str())?;
    text.push(b'\n')?;
    Ok(())
}

fn push_steps(text: &mut Vec<u8>, script: &Script) -> Result<(), AllocError>
    ensures { OnOk result (text.new.items ≡ text.old.items ++ flat_map (printed_step (register_names script.now) (plain_names script.now)) script.now.steps) }
{
    for i in 0..script.steps.len() {
        let step = &script.steps[i];
        push_step(text, script, step)?;
    }
    Ok(())
}

#[tactic(auto, unfolding(crate::specs::Printed::printed_step))]
fn push_step(text: &mut Vec<u8>, script: &Script, step: &Step) -> Result<(), AllocError>
    ensures { OnOk result (text.new.items ≡ text.old.items ++ printed_step (register_names script.now) (plain_names script.now) step.now) }
{
    text.extend_from_slice(step.name.as_str().as_bytes())?;
    push_word(text, "=")?;
    push_word(text, keyword_of(step.op).text())?;
    push_word(text, script.register_name(first_operand(step.op) as usize))?;
    push_second(text, script, step.op)?;
    text.push(b'\n')?;
    Ok(())
}

fn push_second(text: &mut Vec<u8>, script: &Script, op: Op) -> Result<(), AllocError>
    ensures { OnOk result (text.new.items ≡ text.old.items ++ flat_map (λ word. 32 ∷ word) (second_words (register_names script.now) (plain_names script.now) op)) }
{
    match op {
        Op::Add(_, b) | Op::Sub(_, b) | Op::Mul(_, b) => {
            push_word(text, script.register_name(b as usize))
        }
        Op::AddPlain(_, p) | Op::SubPlain(_, p) | Op::MulPlain(_, p) => {
            push_word(text, script.plain_name(p))
        }
        Op::MulConst(_, k) => push_second_number(text, k),
        Op::Turn(_, k) => push_second_number(text, u64::from(k)),
        Op::Neg(_) | Op::Relin(_) | Op::Swap(_) => Ok(()),
    }
}

fn push_second_number(text: &mut Vec<u8>, number: u64) -> Result<(), AllocError>
    ensures { OnOk result (text.new.items ≡ text.old.items ++ 32 ∷ decimal number) }
{
    text.push(b' ')?;
    push_number(text, number)
}

fn keyword_of(op: Op) -> Keyword
    ensures { result ≡ keyword_of op }
{
    match op {
        Op::Add(_, _) => Keyword::Add,
        Op::Sub(_, _) => Keyword::Sub,
        Op::Neg(_) => Keyword::Neg,
        Op::AddPlain(_, _) => Keyword::AddPlain,
        Op::SubPlain(_, _) => Keyword::SubPlain,
        Op::MulPlain(_, _) => Keyword::MulPlain,
        Op::MulConst(_, _) => Keyword::MulConst,
        Op::Mul(_, _) => Keyword::Mul,
        Op::Relin(_) => Keyword::Relin,
        Op::Turn(_, _) => Keyword::Turn,
        Op::Swap(_) => Keyword::Swap,
    }
}

fn first_operand(op: Op) -> u32
    ensures { result ≡ first_operand op }
{
    match op {
        Op::Add(a, _)
        | Op::Sub(a, _)
        | Op::Neg(a)
        | Op::AddPlain(a, _)
        | Op::SubPlain(a, _)
        | Op::MulPlain(a, _)
        | Op::MulConst(a, _)
        | Op::Mul(a, _)
        | Op::Relin(a)
        | Op::Turn(a, _)
        | Op::Swap(a) => a,
    }
}
