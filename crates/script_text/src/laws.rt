// What reading makes of printed scripts, and what is known of a text that was read.
ghost use Rattle.std.specs.Prelude.{◌≡◌, ◌≢◌, ◌<◌, ◌≤◌, ◌++◌, ◌∷◌, ◌^◌, [], ℕ, List, All, length, Ok, Err};
ghost use Rattle.line_text.specs.Lines.{lines_of};
ghost use Rattle.script_text.specs.declared.faults.ScriptPlace.{ScriptPlace};
ghost use Rattle.script_text.specs.Scripts.{Script, IsSound};
ghost use Rattle.script_text.specs.Limits.{max_script_bytes};
ghost use Rattle.script_text.specs.Printed.{printed_script, renumbered};
ghost use Rattle.script_text.specs.Grammar.{script_of};
ghost use Rattle.script_text.specs.Reading.{values_of};
ghost use Rattle.script_text.specs.Values.{printed_values};
ghost use Rattle.script_text.specs.Counted.{words_in, words_until, numbers_in, kept_lines, IsInLine};

/// A printed script is read as the same script, but for its lines: they are those of the printed
/// text.
pub fn law_of_printing()
    ensures { (script : Script) → IsSound script
        → script_of (printed_script script) ≡ Ok (renumbered script) }
{}

/// What a text says that is read as a script: line by line, those of its lines that aren't passed
/// over have the words of the script's print. The first of them is that of the set and the last
/// that of the output; those between are the lines that the inputs and then the steps keep.
///
/// Conversely a text of at most `MAX_SCRIPT_BYTES` bytes with the words of a sound script's print is read as
/// that script, but for its lines. So a text is a script exactly where its lines that aren't
/// passed over are the words of a sound script's print, and nobody needs to follow the grammar to
/// know what a script means.
pub fn law_of_reading()
    ensures words { (text : List ℕ) (script : Script) → script_of text ≡ Ok script
        → words_in text ≡ words_in (printed_script script) }
    ensures lines { (text : List ℕ) (script : Script) → script_of text ≡ Ok script
        → (first : ℕ) × (last : ℕ) × (numbers_in text ≡ first ∷ kept_lines script ++ last ∷ []) }
    ensures only { (text : List ℕ) (script : Script) → IsSound script
        → length text ≤ max_script_bytes → words_in text ≡ words_in (printed_script script)
        → (read : Script) × (script_of text ≡ Ok read) × (renumbered read ≡ renumbered script) }
{}

/// Where the first fault of a text is in line n, and there is such a line, the print of no sound
/// script begins with the words of the lines up to and with line n: the fault can't be mended by
/// what follows.
pub fn law_of_faults()
    ensures { (text : List ℕ) (place : ScriptPlace) (n : ℕ) → script_of text ≡ Err place
        → IsInLine n place → n ≤ length (lines_of text) → (script : Script) → IsSound script
        → (rest : List (List (List ℕ)))
        → words_in (printed_script script) ≢ words_until n text ++ rest }
{}

/// A printed list of values is read as the same values.
pub fn law_of_printed_values()
    ensures { (values : List ℕ) (t : ℕ) → length values ≤ 65536 → t ≤ 2 ^ 32
        → All (λ value. value < t) values
        → values_of (printed_values values) (length values) t ≡ Ok values }
{}
