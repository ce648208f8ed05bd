// The files of keys and ciphers that a command names, as they are scanned.
ghost use Rattle.std.specs.Prelude.{◌≡◌, ◌<◌, true, length, map, None, Some, OnOk, IfOk, IfErr};
ghost use Rattle.std.specs.String.{string_bytes};
ghost use Rattle.file_model.specs.FileText.{FileContent};
ghost use Rattle.file_model.specs.Heads.{HeadKeepsRules, IsHeadOf, wants};
ghost use Rattle.command_words.specs.Line.{word_at};
ghost use Rattle.command_model.specs.Reading as reading;
ghost use Rattle.command_model.specs.Plan.{unmatched};
ghost use Rattle.command_stages.specs.Stages.{Took};

use crate::operand::name_of;
use command_words::Status;
use file_scan::{FileFault, Head, Wanted, scan};
use outer_io::Store;

/// The head of the file that a word names, where it is a file of a wanted kind.
pub fn scan_operand<S: Store>(
    store: &mut S,
    words: &[String],
    wanted: Wanted,
    word: u32,
) -> Result<Head, Status>
    requires { word < length words.now }
    ensures took { Took (word_at (map string_bytes words.now) word) word (reading.own_file wanted) (λ content head. IsHeadOf head content)
        (S.state store.old) (S.state store.new) result }
    ensures rules { IfOk result (λ head. HeadKeepsRules head × (wants wanted head.kind ≡ true)) }
{
    scan_named(store, name_of(words, word), wanted, word)
}

/// The head of the file of a name, where it is a file of a wanted kind. The word of this number
/// gives the name.
pub fn scan_named<S: Store>(
    store: &mut S,
    name: &str,
    wanted: Wanted,
    word: u32,
) -> Result<Head, Status>
    ensures took { Took name.now word (reading.own_file wanted) (λ content head. IsHeadOf head content) (S.state store.old) (S.state store.new) result }
    ensures rules { IfOk result (λ head. HeadKeepsRules head × (wants wanted head.kind ≡ true)) }
{
    match scan(store, name, wanted) {
        Ok(head) => Ok(head),
        Err(fault) => Err(status_of(word, fault)),
    }
}

/// What is said of a file that is refused with a fault, the file being named by a word.
pub fn status_of(word: u32, fault: FileFault) -> Status
    ensures { result ≡ reading.status_of word fault }
{
    match fault {
        FileFault::Missing => Status::MissingFile { word },
        FileFault::Failed => Status::ReadFault { word },
        FileFault::Memory => Status::Memory,
        FileFault::NotOurs => Status::NotOurs { word },
        FileFault::Version(have) => Status::Version { word, have },
        FileFault::Kind(have) => Status::WrongKind { word, have },
        FileFault::Damaged(fault) => Status::Damaged { word, fault },
    }
}

/// What is said where the file of a word doesn't belong to the set or to the secret of another file.
pub fn match_heads(word: u32, head: &Head, other: &Head) -> Result<(), Status>
    ensures ok { (a b : FileContent) → IsHeadOf head.now a → IsHeadOf other.now b → OnOk result (unmatched word a b ≡ None) }
    ensures err { (a b : FileContent) → IsHeadOf head.now a → IsHeadOf other.now b → IfErr result (λ s. unmatched word a b ≡ Some s) }
    ensures set { OnOk result (head.now.set ≡ other.now.set) }
{
    if head.set != other.set {
        return Err(Status::SetMismatch {
            word,
            have: head.set,
            want: other.set,
        });
    }
    if head.id != other.id {
        return Err(Status::KeyMismatch {
            word,
            have: head.id,
            want: other.id,
        });
    }
    Ok(())
}
