// Reading the commands of a batch.
ghost use Rattle.std.specs.Prelude.{◌≡◌, ◌≤◌, ◌∷◌, [], length, IfOk, Ok, Err};
ghost use Rattle.script_text.specs.Drafts.{Gives};
ghost use Rattle.line_text.specs.Lines.{counted_from, counted_lines};
ghost use Rattle.script_text.specs.declared.faults.ScriptPlace.{ScriptPlace};
ghost use Rattle.script_text.specs.declared.faults.ScriptFault.TheVariants as fault;
ghost use Rattle.batch_text.specs.Limits.{max_batch_bytes};
ghost use Rattle.batch_text.specs.Commands.{is_too_long, commands_of};
ghost use Rattle.batch_text.specs.Reading.{texts, commands_in, behind};

use crate::limits::{MAX_BATCH_BYTES, MAX_COMMANDS};
use crate::words::{is_command, words_of};
use line_text::is_passed_over;
use script_text::{ScriptFault, ScriptPlace};
use std::alloc::Global;

/// How many lines of a text are commands.
fn count_commands(text: &[u8]) -> usize
    ensures { result ≡ length (counted_lines text.now) }
{
    text.split(|byte| *byte == b'\n')
        .filter(|line| !is_passed_over(line))
        .count()
}

fn is_too_long(text: &[u8]) -> bool
    ensures { result ≡ is_too_long text.now }
{
    text.len() > MAX_BATCH_BYTES || count_commands(text) > MAX_COMMANDS
}

/// Reads one more line. A line that is passed over gives no command.
fn read_line(
    alloc: Global,
    commands: &mut Vec<Vec<String>>,
    at: u32,
    line: &[u8],
) -> Result<(), ScriptFault>
    ensures { Gives (λ _. texts commands.new.items) result (behind (texts commands.old.items) (commands_in (counted_from at (line.now ∷ [])))) }
{
    if is_passed_over(line) {
        return Ok(());
    }
    if !is_command(line) {
        return Err(ScriptFault::Bad(ScriptPlace::Syntax(at)));
    }
    commands.push(words_of(alloc, line)?)?;
    Ok(())
}

/// Reads all lines of a text.
fn read_lines(alloc: Global, text: &[u8]) -> Result<Vec<Vec<String>>, ScriptFault>
    requires { length text.now ≤ max_batch_bytes }
    ensures { Gives (λ commands. texts commands.items) result (commands_in (counted_lines text.now)) }
{
    let mut commands = Vec::new(alloc);
    let mut at = 1;
    'lines: for line in text.split(|byte| *byte == b'\n') {
        read_line(alloc, &mut commands, at, line)?;
        at += 1;
    }
    Ok(commands)
}

/// The commands that a text gives, each with its words. Of several faults the first is told: too
/// long before all others, then the first line that has a byte outside 0x21 to 0x7e in a word or
/// begins with `batch`.
pub fn read_commands(alloc: Global, text: &[u8]) -> Result<Vec<Vec<String>>, ScriptFault>
    ensures commands { IfOk result (λ commands. commands_of text.now ≡ Ok (texts commands.items)) }
    ensures bad { (place : ScriptPlace) → result ≡ Err (fault.Bad place) → commands_of text.now ≡ Err place }
{
    if is_too_long(text) {
        return Err(ScriptFault::Bad(ScriptPlace::TooLong));
    }
    read_lines(alloc, text)
}
