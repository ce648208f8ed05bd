// The forms of a command's words.
ghost use Rattle.std.specs.Prelude.{◌≡◌, ◌==◌, map, IfSome, is_some, length, if◌then◌else◌};
ghost use Rattle.std.specs.List.{list_all, list_any};
ghost use Rattle.std.specs.String.{string_bytes};
ghost use Rattle.set_table.specs.Sets.{set_named};
ghost use Rattle.command_words.specs.Form as form;
ghost use Rattle.command_words.specs.Step.{step_named};

use crate::step::step_named;
use line_text::is_name;
use set_table::SetName;

/// What the words of a command line ask for. Words are counted from 0, the command's name.
#[derive(Clone, Copy, Debug, PartialEq, Eq)]
pub enum Form {
    /// `secret SET SEEDFILE OUT` draws a ternary secret.
    Secret,
    /// `public SEC SEEDFILE OUT` makes a public key.
    Public,
    /// `relin SEC SEEDFILE OUT` makes a key of relinearisation.
    Relin,
    /// `turn SEC STEP SEEDFILE OUT` makes a key for the turn by a step.
    Turn,
    /// `encrypt PUB SEEDFILE VALUES OUT` encrypts a text of values.
    Encrypt,
    /// `run SCRIPT OUT BINDING..` runs a script on encrypted and plain values. A binding `NAME=FILE`
    /// binds an input of the script to a file.
    Run,
    /// `decrypt SEC CIPHER OUT` writes the values of a ciphertext.
    Decrypt,
    /// `check SCRIPT` prints the noise bound of what a script puts out.
    Check,
    /// `report SCRIPT OUT` writes the noise bounds of all registers of a script.
    Report,
    /// `batch FILE` runs the commands of a text in order.
    Batch,
}

/// The form of the words, and `None` where they have none.
pub fn form_of(words: &[String]) -> Option<Form>
    ensures form { result ≡ form.form_of (map string_bytes words.now) }
    ensures count { IfSome result (λ f. form.HasCount f (length words.now)) }
{
    if has_empty_word(words) {
        None
    } else if is_run(words) {
        Some(Form::Run)
    } else {
        form_of_full_words(words)
    }
}

fn has_empty_word(words: &[String]) -> bool
    ensures { result ≡ list_any (λ word. length (string_bytes word) == 0) words.now }
{
    words.iter().any(|word| word.is_empty())
}

/// Whether the words are those of `run`.
fn is_run(words: &[String]) -> bool
    ensures { result ≡ form.is_run (map string_bytes words.now) }
{
    match words {
        [command, _, _, bindings @ ..] => {
            command.as_str() == "run" && bindings.len() <= 997 && are_bindings(bindings)
        }
        _ => false,
    }
}

fn are_bindings(words: &[String]) -> bool
    ensures { result ≡ list_all (λ word. form.is_binding (string_bytes word)) words.now }
{
    words.iter().all(|word| is_binding(word.as_str()))
}

fn is_binding(word: &str) -> bool
    ensures { result ≡ form.is_binding word.now }
{
    is_name(binding_name(word).as_bytes()) && !binding_file(word).is_empty()
}

/// The name of the input in a binding `NAME=FILE`: what stands before the first `=`.
pub fn binding_name(word: &str) -> &str
    ensures { result.now ≡ form.binding_name word.now }
{
    match word.split_once('=') {
        Some((name, _)) => name,
        None => word,
    }
}

/// The name of the file in a binding `NAME=FILE`: what stands behind the first `=`.
pub fn binding_file(word: &str) -> &str
    ensures { result.now ≡ form.binding_file word.now }
{
    match word.split_once('=') {
        Some((_, file)) => file,
        None => "",
    }
}

fn form_of_full_words(words: &[String]) -> Option<Form>
    ensures form { result ≡ form.form_of_full_words (map string_bytes words.now) }
    ensures count { IfSome result (λ f. form.HasCount f (length words.now)) }
{
    match words {
        [command, _] => form_of_one(command.as_str()),
        [command, _, _] => form_of_two(command.as_str()),
        [command, first, _, _] => form_of_three(command.as_str(), first.as_str()),
        [command, _, second, _, _] => form_of_four(command.as_str(), second.as_str()),
        _ => None,
    }
}

fn form_of_one(command: &str) -> Option<Form>
    ensures form { result ≡ form.form_of_one command.now }
    ensures count { IfSome result (λ f. form.HasCount f 2) }
{
    if command == "check" {
        return Some(Form::Check);
    }
    if command == "batch" {
        return Some(Form::Batch);
    }
    None
}

fn form_of_two(command: &str) -> Option<Form>
    ensures form { result ≡ form.form_of_two command.now }
    ensures count { IfSome result (λ f. form.HasCount f 3) }
{
    if command == "report" {
        return Some(Form::Report);
    }
    None
}

#[tactic(auto, unfolding(crate::specs::Form::form_of_three))]
fn form_of_three(command: &str, first: &str) -> Option<Form>
    ensures form { result ≡ form.form_of_three command.now first.now }
    ensures count { IfSome result (λ f. form.HasCount f 4) }
{
    if command == "secret" {
        return form_of_secret(first);
    }
    if command == "public" {
        return Some(Form::Public);
    }
    if command == "relin" {
        return Some(Form::Relin);
    }
    if command == "decrypt" {
        return Some(Form::Decrypt);
    }
    None
}

fn form_of_secret(set: &str) -> Option<Form>
    ensures { result ≡ (if is_some (set_named set.now) then Some Form.Secret else None) }
{
    SetName::from_text(set).map(|_| Form::Secret)
}

#[tactic(auto, unfolding(crate::specs::Form::form_of_four))]
fn form_of_four(command: &str, second: &str) -> Option<Form>
    ensures form { result ≡ form.form_of_four command.now second.now }
    ensures count { IfSome result (λ f. form.HasCount f 5) }
{
    if command == "encrypt" {
        return Some(Form::Encrypt);
    }
    if command == "turn" {
        return form_of_turn(second);
    }
    None
}

fn form_of_turn(step: &str) -> Option<Form>
    ensures { result ≡ (if is_some (step_named step.now) then Some Form.Turn else None) }
{
    step_named(step).map(|_| Form::Turn)
}
