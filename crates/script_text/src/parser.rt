// Reading a script.
ghost use Rattle.std.specs.Prelude.{◌≡◌, ◌+◌, ◌<◌, ◌≤◌, [], ◌∷◌, length, IfOk, IfSome, None, Ok, Err};
ghost use Rattle.std.specs.List.{count_by};
ghost use Rattle.std.specs.Option.{option_map};
ghost use Rattle.script_text.specs.Drafts.{draft_seen, Gives, IsKept};
ghost use Rattle.script_text.specs.Scripts.{IsSound, shapes_of};
ghost use Rattle.script_text.specs.Limits.{max_script_bytes};
ghost use Rattle.line_text.specs.Lines.{Line, words_of, counted_lines, counted_from};
ghost use Rattle.script_text.specs.Grammar.{is_step_line, is_input_line, is_too_long, after_line, after_lines, script_of};
ghost use Rattle.script_text.specs.declared.faults.ScriptPlace.{ScriptPlace};
ghost use Rattle.script_text.specs.declared.faults.ScriptFault.TheVariants as fault;

use crate::draft::{Draft, syntax};
use crate::faults::{ScriptFault, ScriptPlace};
use crate::limits::{MAX_INPUTS, MAX_SCRIPT_BYTES, MAX_STEPS};
use crate::script::Script;
use crate::words::{is_input_line, is_step_line};
use line_text::{count_lines, is_passed_over};
use std::alloc::Global;

/// How many lines count as inputs.
fn count_inputs(text: &[u8]) -> usize
    ensures { result ≡ count_by (λ line. is_input_line line.words) (counted_lines text.now) }
{
    text.split(|byte| *byte == b'\n')
        .filter(|line| !is_passed_over(line) && is_input_line(line))
        .count()
}

/// How many lines count as steps.
fn count_steps(text: &[u8]) -> usize
    ensures { result ≡ count_by (λ line. is_step_line line.words) (counted_lines text.now) }
{
    text.split(|byte| *byte == b'\n')
        .filter(|line| !is_passed_over(line) && is_step_line(line))
        .count()
}

fn is_too_long(text: &[u8]) -> bool
    ensures { result ≡ is_too_long text.now }
{
    text.len() > MAX_SCRIPT_BYTES
        || count_inputs(text) > MAX_INPUTS
        || count_steps(text) > MAX_STEPS
}

/// The draft after one more line that isn't passed over.
#[tactic(auto, unfolding(crate::specs::Grammar::after_line))]
fn after_line(
    alloc: Global,
    draft: Option<Draft>,
    at: u32,
    line: &[u8],
) -> Result<Draft, ScriptFault>
    requires positive { 0 < at }
    requires kept { IfSome draft (λ draft. IsKept draft at) }
    ensures value { Gives draft_seen result (after_line (option_map draft_seen draft) (record { number = at; words = words_of line.now })) }
    ensures kept { IfOk result (λ draft. IsKept draft (at + 1)) }
{
    match draft {
        None => Draft::from_set_line(alloc, at, line),
        Some(draft) => {
            if draft.output.is_some() {
                return Err(syntax(at));
            }
            draft.next_line(alloc, at, line)
        }
    }
}

/// The draft after one more line. A line that is passed over leaves it.
fn after_piece(
    alloc: Global,
    draft: Option<Draft>,
    at: u32,
    line: &[u8],
) -> Result<Option<Draft>, ScriptFault>
    requires positive { 0 < at }
    requires kept { IfSome draft (λ draft. IsKept draft at) }
    ensures value { Gives (option_map draft_seen) result (after_lines (option_map draft_seen draft) (counted_from at (line.now ∷ []))) }
    ensures kept { IfOk result (λ next. IfSome next (λ draft. IsKept draft (at + 1))) }
{
    if is_passed_over(line) {
        return Ok(draft);
    }
    let next = after_line(alloc, draft, at, line)?;
    Ok(Some(next))
}

/// What all lines of a text give.
fn read_lines(alloc: Global, text: &[u8]) -> Result<Option<Draft>, ScriptFault>
    requires { length text.now ≤ max_script_bytes }
    ensures value { Gives (option_map draft_seen) result (after_lines None (counted_lines text.now)) }
    ensures shapes { IfOk result (λ draft. IfSome draft (λ draft. draft.shapes.items ≡ shapes_of draft.inputs.items draft.steps.items)) }
{
    let mut draft = None;
    let mut at = 1;
    'lines: for line in text.split(|byte| *byte == b'\n') {
        draft = after_piece(alloc, draft, at, line)?;
        at += 1;
    }
    Ok(draft)
}

/// The script that a text is. Of several faults the first is told: too long before all others,
/// then the first faulty line, and in it syntax before a name before a shape. Where the text ends
/// before the output line, the line after its last one is faulty.
pub fn parse(alloc: Global, text: &[u8]) -> Result<Script, ScriptFault>
    ensures script { IfOk result (λ script. script_of text.now ≡ Ok script) }
    ensures bad { (place : ScriptPlace) → result ≡ Err (fault.Bad place) → script_of text.now ≡ Err place }
    ensures sound { IfOk result IsSound }
{
    if is_too_long(text) {
        return Err(ScriptFault::Bad(ScriptPlace::TooLong));
    }
    let missed = count_lines(text) as u32 + 1;
    let Some(draft) = read_lines(alloc, text)? else {
        return Err(syntax(missed));
    };
    let Draft {
        set,
        inputs,
        steps,
        shapes,
        output,
    } = draft;
    match output {
        Some(output) => Ok(Script {
            set,
            inputs,
            steps,
            shapes,
            output,
        }),
        None => Err(syntax(missed)),
    }
}
