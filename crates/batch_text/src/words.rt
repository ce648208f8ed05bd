// The words of a line.
ghost use Rattle.std.specs.Prelude.{◌≡◌, ◌&&◌, not, true, [], map, IfOk, IsTrue};
ghost use Rattle.std.specs.List.{list_all};
ghost use Rattle.std.specs.String.{string_bytes};
ghost use Rattle.line_text.specs.Lines.{words_of};
ghost use Rattle.batch_text.specs.Commands.{is_word_byte, are_plain, begins_batch, is_command};

use line_text::{is_blank_in_line, word};
use std::alloc::{AllocError, Global};

/// Whether all bytes of a word are from 0x21 to 0x7e.
fn is_plain(word: &[u8]) -> bool
    ensures { result ≡ list_all is_word_byte word.now }
{
    word.iter().all(|byte| 0x21 <= *byte && *byte <= 0x7e)
}

/// Whether all words of a line are plain.
fn are_plain(line: &[u8]) -> bool
    ensures { result ≡ are_plain (words_of line.now) }
{
    line.split(|byte| is_blank_in_line(*byte))
        .filter(|word| !word.is_empty())
        .all(is_plain)
}

/// Whether the first word of a line is `batch`.
fn begins_batch(line: &[u8]) -> bool
    ensures { result ≡ begins_batch (words_of line.now) }
{
    word(line, 0) == b"batch".as_slice()
}

/// Whether the words of a line may be one of the commands of a batch.
pub fn is_command(line: &[u8]) -> bool
    ensures { result ≡ is_command (words_of line.now) }
{
    are_plain(line) && !begins_batch(line)
}

/// The words of a line as strings.
pub fn words_of(alloc: Global, line: &[u8]) -> Result<Vec<String>, AllocError>
    requires { IsTrue (are_plain (words_of line.now)) }
    ensures { IfOk result (λ words. map string_bytes words.items ≡ words_of line.now) }
{
    let mut words = Vec::new(alloc);
    'words: for word in line
        .split(|byte| is_blank_in_line(*byte))
        .filter(|word| !word.is_empty())
    {
        words.push(string_of(alloc, word)?)?;
    }
    Ok(words)
}

/// A plain word as a string.
fn string_of(alloc: Global, word: &[u8]) -> Result<String, AllocError>
    requires { IsTrue (list_all is_word_byte word.now) }
    ensures { IfOk result (λ text. string_bytes text ≡ word.now) }
{
    String::from_str(alloc, str::from_utf8(word).unwrap())
}
