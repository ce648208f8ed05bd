// The command `batch`: commands in order, up to the first that isn't done.
ghost use Rattle.std.specs.Prelude.{◌≡◌, ◌≢◌, ◌⊎◌, length, map, Some, None, Ok, Err, IfOk, IfErr};
ghost use Rattle.std.specs.String.{string_bytes};
ghost use Rattle.script_text.specs.declared.faults.ScriptPlace.{ScriptPlace};
ghost use Rattle.batch_text.specs.Commands.{commands_of};
ghost use Rattle.batch_text.specs.Reading.{texts};
ghost use Rattle.command_words.specs.Form.{form_of};
ghost use Rattle.command_words.specs.Line.{word_at};
ghost use Rattle.command_words.specs.declared.form.Form.TheVariants as form;
ghost use Rattle.command_model.specs.Reading.{batch_file};
ghost use Rattle.command_model.specs.Batches.{BatchAnswered};
ghost use Rattle.command_stages.specs.Stages.{Took};
ghost use Rattle.bfv_commands.specs.Batching.{InOrder, AreSingle};

use crate::answer::{refuse, single};
use batch_text::{MAX_BATCH_BYTES, read_commands};
use command_stages::{name_of, unread};
use command_words::Status;
use outer_io::{Sink, Store, read_front};
use script_text::ScriptFault;
use std::alloc::Global;

/// One byte more than the text of a batch may have.
const BATCH_LIMIT: u64 = MAX_BATCH_BYTES as u64 + 1;

/// Does `batch FILE`.
pub fn batch<S: Store, O: Sink>(
    alloc: Global,
    words: &[String],
    store: &mut S,
    out: &mut O,
) -> Status
    requires form { form_of (map string_bytes words.now) ≡ Some form.Batch }
    requires count { length words.now ≡ 2 }
    requires idle { (S.state store.old).pending ≡ None }
    ensures { BatchAnswered (map string_bytes words.now) (record { store = S.state store.old; sink = O.state out.old })
        (record { store = S.state store.new; sink = O.state out.new }) result }
{
    match read_batch(alloc, words, store) {
        Ok(commands) => run_all(alloc, &commands, store, out),
        Err(status) => refuse(out, words, status),
    }
}

/// The commands in the text that the second word names. Only files are read.
fn read_batch<S: Store>(
    alloc: Global,
    words: &[String],
    store: &mut S,
) -> Result<Vec<Vec<String>>, Status>
    requires count { length words.now ≡ 2 }
    ensures took { Took (word_at (map string_bytes words.now) 1) 1 batch_file (λ said v. texts v.items ≡ said) (S.state store.old) (S.state store.new) result }
    ensures single { IfOk result (λ v. AreSingle (texts v.items)) }
{
    match read_front(alloc, store, name_of(words, 1), BATCH_LIMIT) {
        Ok(text) => take_commands(alloc, &text),
        Err(fault) => Err(unread(1, fault)),
    }
}

/// The commands of a text, of which at most a byte too many was read.
fn take_commands(alloc: Global, text: &[u8]) -> Result<Vec<Vec<String>>, Status>
    ensures ok { IfOk result (λ v. commands_of text.now ≡ Ok (texts v.items)) }
    ensures err { IfErr result (λ s. (s ≡ Status.Memory)
        ⊎ ((place : ScriptPlace) × ((s ≡ Status.BadScript place) × (commands_of text.now ≡ Err place)))) }
    ensures single { IfOk result (λ v. AreSingle (texts v.items)) }
{
    match read_commands(alloc, text) {
        Ok(commands) => Ok(commands),
        Err(ScriptFault::Bad(fault)) => Err(Status::BadScript { fault }),
        Err(ScriptFault::Memory) => Err(Status::Memory),
    }
}

/// Runs commands in order, up to the first that isn't done.
fn run_all<S: Store, O: Sink>(
    alloc: Global,
    commands: &[Vec<String>],
    store: &mut S,
    out: &mut O,
) -> Status
    requires single { AreSingle (texts commands.now) }
    requires idle { (S.state store.old).pending ≡ None }
    ensures order { InOrder (texts commands.now) (record { store = S.state store.old; sink = O.state out.old })
        (record { store = S.state store.new; sink = O.state out.new }) result }
    ensures idle { (S.state store.new).pending ≡ None }
{
    'commands: for words in commands {
        let status = single(alloc, words, store, out);
        if status != Status::Done {
            return status;
        }
    }
    Status::Done
}
