// The texts that a command reads.
ghost use Rattle.std.specs.Prelude.{◌≡◌, ◌⊎◌, ◌<◌, length, map, Ok, Err, IfOk, IfErr};
ghost use Rattle.std.specs.String.{string_bytes};
ghost use Rattle.script_text.specs.declared.faults.ValuePlace.{ValuePlace};
ghost use Rattle.script_text.specs.declared.faults.ScriptPlace.{ScriptPlace};
ghost use Rattle.command_words.specs.Line.{word_at};
ghost use Rattle.file_model.specs.Reading.{of_store};
ghost use Rattle.command_model.specs.Reading.{values_file, script_file, said_by, status_of};
ghost use Rattle.command_stages.specs.Operands.{AreValues};
ghost use Rattle.command_stages.specs.Stages.{Took};

use command_words::Status;
use outer_io::{Store, StoreFault, read_front};
use script_text::{
    MAX_SCRIPT_BYTES, MAX_VALUES_BYTES, Script, ScriptFault, ValueFault, parse, read_values,
};
use set_table::SetName;
use std::alloc::Global;

/// One byte more than a text of values may have.
const VALUES_LIMIT: u64 = MAX_VALUES_BYTES as u64 + 1;

/// One byte more than a text of a script may have.
const SCRIPT_LIMIT: u64 = MAX_SCRIPT_BYTES as u64 + 1;

/// The word of this number, as the name of a file.
pub fn name_of(words: &[String], word: u32) -> &str
    requires { word < length words.now }
    ensures { result.now ≡ word_at (map string_bytes words.now) word }
{
    words[word as usize].as_str()
}

/// What is said of a file that the store didn't give, the file being named by a word.
pub fn unread(word: u32, fault: StoreFault) -> Status
    ensures { result ≡ status_of word (of_store fault) }
{
    match fault {
        StoreFault::Missing => Status::MissingFile { word },
        StoreFault::Failed => Status::ReadFault { word },
        StoreFault::Memory => Status::Memory,
    }
}

/// The values in the text that a word names, as many as a set has slots.
pub fn read_values_operand<S: Store>(
    alloc: Global,
    store: &mut S,
    words: &[String],
    set: SetName,
    word: u32,
) -> Result<Vec<u64>, Status>
    requires { word < length words.now }
    ensures took { Took (word_at (map string_bytes words.now) word) word (values_file set) (λ listed v. v.items ≡ listed)
        (S.state store.old) (S.state store.new) result }
    ensures values { IfOk result (λ v. AreValues set v.items) }
{
    read_values_named(alloc, store, name_of(words, word), set, word)
}

/// The values in the text of a name, as many as a set has slots. The word of this number gives the
/// name.
pub fn read_values_named<S: Store>(
    alloc: Global,
    store: &mut S,
    name: &str,
    set: SetName,
    word: u32,
) -> Result<Vec<u64>, Status>
    ensures took { Took name.now word (values_file set) (λ listed v. v.items ≡ listed) (S.state store.old) (S.state store.new) result }
    ensures values { IfOk result (λ v. AreValues set v.items) }
{
    match read_front(alloc, store, name, VALUES_LIMIT) {
        Ok(text) => take_values(alloc, &text, set, word),
        Err(fault) => Err(unread(word, fault)),
    }
}

/// The values of a text, of which at most a byte too many was read.
fn take_values(alloc: Global, text: &[u8], set: SetName, word: u32) -> Result<Vec<u64>, Status>
    ensures ok { IfOk result (λ v. said_by (values_file set) word text.now ≡ Ok v.items) }
    ensures err { IfErr result (λ s. (s ≡ Status.Memory)
        ⊎ ((place : ValuePlace) × ((s ≡ Status.BadValues word place) × (said_by (values_file set) word text.now ≡ Err s)))) }
{
    match read_values(alloc, text, set.degree(), set.plain()) {
        Ok(values) => Ok(values),
        Err(ValueFault::Bad(fault)) => Err(Status::BadValues { word, fault }),
        Err(ValueFault::Memory) => Err(Status::Memory),
    }
}

/// The script in the text that a word names.
pub fn read_script<S: Store>(
    alloc: Global,
    store: &mut S,
    words: &[String],
    word: u32,
) -> Result<Script, Status>
    requires { word < length words.now }
    ensures { Took (word_at (map string_bytes words.now) word) word script_file (λ said script. script ≡ said)
        (S.state store.old) (S.state store.new) result }
{
    match read_front(alloc, store, name_of(words, word), SCRIPT_LIMIT) {
        Ok(text) => take_script(alloc, &text, word),
        Err(fault) => Err(unread(word, fault)),
    }
}

/// The script of a text, of which at most a byte too many was read.
fn take_script(alloc: Global, text: &[u8], word: u32) -> Result<Script, Status>
    ensures ok { IfOk result (λ script. said_by script_file word text.now ≡ Ok script) }
    ensures err { IfErr result (λ s. (s ≡ Status.Memory)
        ⊎ ((place : ScriptPlace) × ((s ≡ Status.BadScript place) × (said_by script_file word text.now ≡ Err s)))) }
{
    match parse(alloc, text) {
        Ok(script) => Ok(script),
        Err(ScriptFault::Bad(fault)) => Err(Status::BadScript { fault }),
        Err(ScriptFault::Memory) => Err(Status::Memory),
    }
}
