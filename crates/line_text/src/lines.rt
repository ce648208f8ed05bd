//! The lines of a text and their words.
ghost use Rattle.std.specs.Prelude.{◌≡◌, [], length, slice_index_or};
ghost use Rattle.line_text.specs.Lines.{is_blank_in_line, words_of, without_end, lines_of, is_passed_over};

/// Whether a byte parts the words of a line: space, tab and carriage return do.
pub fn is_blank_in_line(byte: u8) -> bool
    ensures { result ≡ is_blank_in_line byte }
{
    matches!(byte, b' ' | b'\t' | b'\r')
}

/// A text without a line feed at its end.
fn without_end(text: &[u8]) -> &[u8]
    ensures { result.now ≡ without_end text.now }
{
    match text.split_last() {
        Some((b'\n', others)) => others,
        _ => text,
    }
}

/// How many lines a text has. The last may lack its line feed.
pub fn count_lines(text: &[u8]) -> usize
    ensures { result ≡ length (lines_of text.now) }
{
    if text.is_empty() {
        return 0;
    }
    without_end(text).split(|byte| *byte == b'\n').count()
}

/// How many words a line has.
pub fn count_words(line: &[u8]) -> usize
    ensures { result ≡ length (words_of line.now) }
{
    line.split(|byte| is_blank_in_line(*byte))
        .filter(|word| !word.is_empty())
        .count()
}

/// Word `i` of a line, and an empty one where it has no so many.
pub fn word(line: &[u8], i: usize) -> &[u8]
    ensures { result.now ≡ slice_index_or (words_of line.now) i [] }
{
    line.split(|byte| is_blank_in_line(*byte))
        .filter(|word| !word.is_empty())
        .nth(i)
        .unwrap_or(&[])
}

/// Whether a line has no words or begins with `#`.
pub fn is_passed_over(line: &[u8]) -> bool
    ensures { result ≡ is_passed_over (words_of line.now) }
{
    count_words(line) == 0 || word(line, 0).starts_with(b"#")
}
