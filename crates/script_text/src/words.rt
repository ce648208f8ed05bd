// What a line counts as.
ghost use Rattle.std.specs.Prelude.{◌≡◌};
ghost use Rattle.line_text.specs.Lines.{words_of};
ghost use Rattle.script_text.specs.Grammar.{is_step_line, is_input_line};

use line_text::word;

/// Whether a line counts as a step.
pub fn is_step_line(line: &[u8]) -> bool
    ensures { result ≡ is_step_line (words_of line.now) }
{
    word(line, 1) == b"=".as_slice()
}

/// Whether a line counts as an input.
pub fn is_input_line(line: &[u8]) -> bool
    ensures { result ≡ is_input_line (words_of line.now) }
{
    let first = word(line, 0);
    !is_step_line(line) && (first == b"cipher".as_slice() || first == b"plain".as_slice())
}
