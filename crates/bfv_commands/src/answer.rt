// The top call: from words to a status.
ghost use Rattle.std.specs.Prelude.{◌≡◌, ◌≢◌, ◌⊎◌, ◌<◌, ◌≤◌, length, map, Option, Some, None, IsSome};
ghost use Rattle.std.specs.Option.{ForSome, option_map};
ghost use Rattle.std.specs.String.{string_bytes};
ghost use Rattle.outer_io.specs.Store.{Files};
ghost use Rattle.command_words.specs.Form.{form_of, HasCount};
ghost use Rattle.command_words.specs.Status.{parts_of};
ghost use Rattle.command_model.specs.Plan as plan;
ghost use Rattle.command_model.specs.Answers.{Printed};
ghost use Rattle.command_model.specs.Batches.{Answered, BatchAnswered};
ghost use Rattle.command_model.specs.Commanded.{Commanded};
ghost use Rattle.command_stages.specs.Stages.{Announced};

use crate::batch::batch;
use crate::run_script::run_script;
use command_words::{Form, Status, form_of, put_line};
use key_commands::decrypt::decrypt;
use key_commands::encrypt::encrypt;
use key_commands::public::public;
use key_commands::relin::relin;
use key_commands::secret::secret;
use key_commands::turn::turn;
use outer_io::{Sink, SinkFault, Store};
use std::alloc::Global;
use text_commands::check::check;
use text_commands::report::report;

/// Does what the words ask for.
///
/// `words` are those of the command line without the program's name. Files are read from the store
/// and the file OUT is written to it. What a command without a file OUT gives goes to the sink, and
/// so does the line of an answer other than `Done`. A batch of commands answers as the first of them
/// that isn't done.
///
/// Of a command other than a batch the contract says:
///
/// - `idle`, `counts`, `puts`: nothing is pending afterwards, and no count of failed calls falls.
/// - `told`: where the store tells its files, only the file OUT may differ at `Done`, and it is as the
///   words and the files determine it; at any other answer no file has changed. A refusal is the
///   first one in the order of reading.
/// - `complete`: where no call failed, the answer is what the words and the files lead to, or
///   `Memory`.
/// - `stands`: what the files stand for goes the way of the plain machine. This is the headline.
/// - `cause`: what an answer owes to, whether the store tells its files or not.
/// - `printed`: what was put.
///
/// A batch reads its text, and then runs the commands in order, each with the same promises.
pub fn command<S: Store, O: Sink>(
    alloc: Global,
    words: &[String],
    store: &mut S,
    out: &mut O,
) -> Status
    requires { (S.state store.old).pending ≡ None }
    ensures idle { (S.state store.new).pending ≡ None }
    ensures one { form_of (map string_bytes words.now) ≢ Some Form.Batch
        → Answered (map string_bytes words.now) (record { store = S.state store.old; sink = O.state out.old })
        (record { store = S.state store.new; sink = O.state out.new }) result }
    ensures batch { form_of (map string_bytes words.now) ≡ Some Form.Batch
        → BatchAnswered (map string_bytes words.now) (record { store = S.state store.old; sink = O.state out.old })
        (record { store = S.state store.new; sink = O.state out.new }) result }
{
    match form_of(words) {
        Some(Form::Batch) => batch(alloc, words, store, out),
        _ => single(alloc, words, store, out),
    }
}

/// Does what the words of one command ask for, which is no batch.
pub fn single<S: Store, O: Sink>(
    alloc: Global,
    words: &[String],
    store: &mut S,
    out: &mut O,
) -> Status
    requires one { form_of (map string_bytes words.now) ≢ Some Form.Batch }
    requires idle { (S.state store.old).pending ≡ None }
    ensures { Answered (map string_bytes words.now) (record { store = S.state store.old; sink = O.state out.old })
        (record { store = S.state store.new; sink = O.state out.new }) result }
{
    match form_of(words) {
        Some(form) => match run(alloc, form, words, store) {
            Ok(None) => Status::Done,
            Ok(Some(line)) => announce(out, &line),
            Err(status) => refuse(out, words, status),
        },
        None => refuse(out, words, Status::Usage),
    }
}

/// Does what words of this form ask for, up to the printed line. What is left to be put is the line
/// of a command that has no file OUT.
fn run<S: Store>(
    alloc: Global,
    form: Form,
    words: &[String],
    store: &mut S,
) -> Result<Option<Vec<u8>>, Status>
    requires form { form_of (map string_bytes words.now) ≡ Some form }
    requires one { form ≢ Form.Batch }
    requires count { HasCount form (length words.now) }
    ensures { Commanded (map string_bytes words.now) (λ left. option_map (λ v. v.items) left) (S.state store.old) (S.state store.new) result }
{
    match form {
        Form::Check => match check(alloc, words, store) {
            Ok(line) => Ok(Some(line)),
            Err(status) => Err(status),
        },
        Form::Secret
        | Form::Public
        | Form::Relin
        | Form::Turn
        | Form::Encrypt
        | Form::Report
        | Form::Run
        | Form::Decrypt => match write_out(alloc, form, words, store) {
            Ok(()) => Ok(None),
            Err(status) => Err(status),
        },
        Form::Batch => unreachable!(),
    }
}

/// Does a command that writes a file OUT.
fn write_out<S: Store>(
    alloc: Global,
    form: Form,
    words: &[String],
    store: &mut S,
) -> Result<(), Status>
    requires form { form_of (map string_bytes words.now) ≡ Some form }
    requires count { HasCount form (length words.now) }
    requires out { IsSome (plan.out_name (Some form) (map string_bytes words.now)) }
    ensures { Commanded (map string_bytes words.now) (λ _. None) (S.state store.old) (S.state store.new) result }
{
    match form {
        Form::Secret => secret(alloc, words, store),
        Form::Public => public(alloc, words, store),
        Form::Relin => relin(alloc, words, store),
        Form::Turn => turn(alloc, words, store),
        Form::Encrypt => encrypt(alloc, words, store),
        Form::Report => report(alloc, words, store),
        Form::Run => run_script(alloc, words, store),
        Form::Decrypt => decrypt(alloc, words, store),
        Form::Check | Form::Batch => unreachable!(),
    }
}

/// Puts the line of a status, and answers it unless that put wanted memory.
pub fn refuse<O: Sink>(out: &mut O, words: &[String], status: Status) -> Status
    requires refused { status ≢ Status.Done }
    requires word { ForSome (parts_of status).word (λ word. word < length words.now) }
    ensures status { (result ≡ status) ⊎ (result ≡ Status.Memory) }
    ensures puts { (O.state out.old).faults ≤ (O.state out.new).faults }
    ensures printed { (before : Option Files) → Printed (map string_bytes words.now) before (O.state out.old) (O.state out.new) result }
{
    match put_line(out, words, status) {
        Ok(()) => status,
        Err(SinkFault::Failed) => status,
        Err(SinkFault::Memory) => Status::Memory,
    }
}

/// Puts the line of an output, and answers how that went.
fn announce<O: Sink>(out: &mut O, line: &[u8]) -> Status
    ensures announced { Announced (O.state out.old) (O.state out.new) line.now result }
    ensures puts { (O.state out.old).faults ≤ (O.state out.new).faults }
{
    match out.put(line) {
        Ok(()) => Status::Done,
        Err(SinkFault::Failed) => Status::WriteFault,
        Err(SinkFault::Memory) => Status::Memory,
    }
}
