// The step of a turn.
ghost use Rattle.std.specs.Prelude.{◌≡◌, ◌≢◌, Some};
ghost use Rattle.command_words.specs.Step as step;

use itoa::Buffer;
use line_text::read_number;

/// How the slots of a cipher are turned.
#[derive(Clone, Copy, Debug, PartialEq, Eq)]
pub enum Step {
    /// Both halves of the slots are turned left by so many places.
    Left(u64),
    /// The halves are exchanged.
    Swap,
}

/// The step that a word names: a number of places other than 0, or `swap`.
#[tactic(auto, unfolding(crate::specs::Step::step_named))]
pub fn step_named(word: &str) -> Option<Step>
    ensures named { result ≡ step.step_named word.now }
    ensures some { result ≢ Some (Step.Left 0) }
{
    if word == "swap" {
        return Some(Step::Swap);
    }
    match decimal_number(word) {
        Some(places) => left_by(places),
        None => None,
    }
}

/// The turn by so many places, which are some.
fn left_by(places: u64) -> Option<Step>
    ensures named { result ≡ step.left_by (Some places) }
    ensures some { result ≢ Some (Step.Left 0) }
{
    if places == 0 {
        None
    } else {
        Some(Step::Left(places))
    }
}

/// The number that a word writes in decimal, without leading zeros.
fn decimal_number(word: &str) -> Option<u64>
    ensures { result ≡ step.decimal_number word.now }
{
    let number = read_number(word.as_bytes());
    if Buffer::new().format(number) == word {
        Some(number)
    } else {
        None
    }
}
