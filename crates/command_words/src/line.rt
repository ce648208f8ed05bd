// The line that a status prints.
ghost use Rattle.std.specs.Prelude.{◌≡◌, ◌≢◌, ◌<◌, [], ◌++◌, map, length, codes, decimal, IfOk, OnOk};
ghost use Rattle.std.specs.Option.{ForSome};
ghost use Rattle.std.specs.String.{string_bytes};
ghost use Rattle.outer_io.specs.Sink.{Puts};
ghost use Rattle.hex.specs.Hex.{encode_lower};
ghost use Rattle.command_words.specs.Status.{parts_of, damage_text, mismatch_text, place_text, script_place_text, text_and_number, text_and_bound, excess_text};
ghost use Rattle.command_words.specs.Line.{line, numbered, text_about, told_word, file_name, accepted_text};

use crate::{BindingFault, Status, binding_file};
use bound_num::Bound;
use itoa::Buffer;
use outer_io::{Damage, Sink, SinkFault, put_four, put_three, put_two};
use script_text::{ScriptPlace, ValuePlace};
use std::alloc::{AllocError, Global};

/// Puts the line of a status other than `Done`, with its line feed. After an `Err` a prefix of the
/// line stands at the end of the text.
pub fn put_line<O: Sink>(out: &mut O, words: &[String], status: Status) -> Result<(), SinkFault>
    requires refused { status ≢ Status.Done }
    requires word { ForSome (parts_of status).word (λ word. word < length words.now) }
    ensures { Puts (O.state out.old) (O.state out.new) (line (map string_bytes words.now) status) result }
{
    match put_text(out, words, status) {
        Ok(()) => put_rest(out, status),
        Err(fault) => Err(fault),
    }
}

/// Puts what the status is called, and the word that it is about.
fn put_text<O: Sink>(out: &mut O, words: &[String], status: Status) -> Result<(), SinkFault>
    requires { ForSome (parts_of status).word (λ word. word < length words.now) }
    ensures { Puts (O.state out.old) (O.state out.new)
        (text_about (map string_bytes words.now) (numbered (parts_of status).text (parts_of status).number) (parts_of status).whole (parts_of status).word) result }
{
    match put_call(out, status) {
        Ok(()) => put_word(out, words, status.word(), status.whole()),
        Err(fault) => Err(fault),
    }
}

/// Puts what the status is called, with its number.
fn put_call<O: Sink>(out: &mut O, status: Status) -> Result<(), SinkFault>
    ensures { Puts (O.state out.old) (O.state out.new) (numbered (parts_of status).text (parts_of status).number) result }
{
    let text = status.text().as_bytes();
    let mut buffer = Buffer::new();
    match status.number() {
        Some(number) => put_three(out, text, b" ", buffer.format(number).as_bytes()),
        None => out.put(text),
    }
}

/// Puts the word of this number, if there is one.
fn put_word<O: Sink>(
    out: &mut O,
    words: &[String],
    word: Option<u32>,
    whole: bool,
) -> Result<(), SinkFault>
    requires { ForSome word (λ w. w < length words.now) }
    ensures { Puts (O.state out.old) (O.state out.new) (text_about (map string_bytes words.now) [] whole word) result }
{
    match word {
        Some(word) => put_told(out, words, word as usize, whole),
        None => out.put(b""),
    }
}

/// Puts a word: whole behind a space, or the name of its file behind a colon.
fn put_told<O: Sink>(
    out: &mut O,
    words: &[String],
    word: usize,
    whole: bool,
) -> Result<(), SinkFault>
    requires { word < length words.now }
    ensures { Puts (O.state out.old) (O.state out.new) (told_word (map string_bytes words.now) whole word) result }
{
    if whole {
        put_two(out, b" ", words[word].as_bytes())
    } else {
        put_two(out, b": ", file_name(words, word).as_bytes())
    }
}

/// The name of the file that a word names. Behind the second file of `run` stand bindings.
fn file_name(words: &[String], word: usize) -> &str
    requires { word < length words.now }
    ensures { result.now ≡ file_name (map string_bytes words.now) word }
{
    let told = words[word].as_str();
    if word >= 3 && words[0].as_str() == "run" {
        binding_file(told)
    } else {
        told
    }
}

/// Puts the detail of the status and a line feed.
fn put_rest<O: Sink>(out: &mut O, status: Status) -> Result<(), SinkFault>
    ensures { Puts (O.state out.old) (O.state out.new) ((parts_of status).detail ++ codes "\n") result }
{
    match put_detail(out, status) {
        Ok(()) => out.put(b"\n"),
        Err(fault) => Err(fault),
    }
}

fn put_detail<O: Sink>(out: &mut O, status: Status) -> Result<(), SinkFault>
    ensures { Puts (O.state out.old) (O.state out.new) (parts_of status).detail result }
{
    match status {
        Status::Damaged { fault, .. } => put_damage(out, fault),
        Status::SetMismatch { have, want, .. } => put_mismatch(out, have.text(), want.text()),
        Status::KeyMismatch { have, want, .. } => put_ids(out, &have, &want),
        Status::BadValues { fault, .. } => put_place(out, fault),
        Status::BadScript { fault } => put_script_place(out, fault),
        Status::TooNoisy { line, bound, limit } => put_excess(out, line, bound, limit),
        Status::Binding { fault } => put_binding(out, fault),
        Status::NoSpecial { set } => put_two(out, b": ", set.text().as_bytes()),
        Status::ShortSeed { have, .. } => put_number(out, " ", have as u64),
        Status::BadStep { step, .. } => put_number(out, ": ", step),
        Status::PartsMismatch { have, want, .. } => put_parts(out, have, want),
        _ => out.put(b""),
    }
}

fn put_damage<O: Sink>(out: &mut O, damage: Damage) -> Result<(), SinkFault>
    ensures { Puts (O.state out.old) (O.state out.new) (damage_text damage) result }
{
    match damage {
        Damage::Field(at) => put_number(out, " field ", at as u64),
        Damage::Length { have, want } => put_lengths(out, have, want),
        Damage::Digest => out.put(b" digest"),
        Damage::NotReduced(place) => put_number(out, " word ", place),
        Damage::Changed => out.put(b" changed"),
    }
}

fn put_lengths<O: Sink>(out: &mut O, have: u64, want: u64) -> Result<(), SinkFault>
    ensures { Puts (O.state out.old) (O.state out.new) (text_and_number (codes " length ") have ++ text_and_number (codes " of ") want) result }
{
    match put_number(out, " length ", have) {
        Ok(()) => put_number(out, " of ", want),
        Err(fault) => Err(fault),
    }
}

/// Puts what a file has, and what was wanted.
fn put_mismatch<O: Sink>(out: &mut O, have: &str, want: &str) -> Result<(), SinkFault>
    ensures { Puts (O.state out.old) (O.state out.new) (mismatch_text have.now want.now) result }
{
    put_four(
        out,
        b" has ",
        have.as_bytes(),
        b", wanted ",
        want.as_bytes(),
    )
}

/// Puts two numbers of parts in decimal.
fn put_parts<O: Sink>(out: &mut O, have: u8, want: u8) -> Result<(), SinkFault>
    ensures { Puts (O.state out.old) (O.state out.new) (mismatch_text (decimal have) (decimal want)) result }
{
    let mut had = Buffer::new();
    let mut wanted = Buffer::new();
    put_mismatch(out, had.format(have), wanted.format(want))
}

/// Puts the input that is bound to no file.
fn put_binding<O: Sink>(out: &mut O, fault: BindingFault) -> Result<(), SinkFault>
    ensures { Puts (O.state out.old) (O.state out.new) (parts_of (Status.Binding fault)).detail result }
{
    match fault {
        BindingFault::Unbound(input) => put_number(out, " ", input as u64),
        _ => out.put(b""),
    }
}

/// Puts two key ids in hexadecimal digits.
fn put_ids<O: Sink>(out: &mut O, have: &[u8; 16], want: &[u8; 16]) -> Result<(), SinkFault>
    ensures { Puts (O.state out.old) (O.state out.new) (mismatch_text (encode_lower have.now) (encode_lower want.now)) result }
{
    put_four(
        out,
        b" has ",
        &hex_digits(have),
        b", wanted ",
        &hex_digits(want),
    )
}

fn hex_digits(id: &[u8; 16]) -> [u8; 32]
    ensures { result ≡ encode_lower id.now }
{
    let mut digits = [0; 32];
    let _ = hex::encode_to_slice(*id, &mut digits);
    digits
}

fn put_place<O: Sink>(out: &mut O, place: ValuePlace) -> Result<(), SinkFault>
    ensures { Puts (O.state out.old) (O.state out.new) (place_text place) result }
{
    match place {
        ValuePlace::BadText(at) => put_number(out, " text at ", at),
        ValuePlace::TooLarge(index) => put_number(out, " too large at ", index),
        ValuePlace::TooMany => out.put(b" too many"),
        ValuePlace::TooLong => out.put(b" too long"),
    }
}

fn put_script_place<O: Sink>(out: &mut O, place: ScriptPlace) -> Result<(), SinkFault>
    ensures { Puts (O.state out.old) (O.state out.new) (script_place_text place) result }
{
    match place {
        ScriptPlace::Syntax(line) => put_number(out, ": syntax line ", line as u64),
        ScriptPlace::Name(line) => put_number(out, ": name line ", line as u64),
        ScriptPlace::Shape(line) => put_number(out, ": shape line ", line as u64),
        ScriptPlace::TooLong => out.put(b": too long"),
    }
}

/// Puts the line of a script whose register has a bound above the limit.
fn put_excess<O: Sink>(out: &mut O, line: u32, bound: Bound, limit: Bound) -> Result<(), SinkFault>
    ensures { Puts (O.state out.old) (O.state out.new) (excess_text line bound limit) result }
{
    match put_number(out, ": line ", line as u64) {
        Ok(()) => put_excess_bounds(out, bound, limit),
        Err(fault) => Err(fault),
    }
}

fn put_excess_bounds<O: Sink>(out: &mut O, bound: Bound, limit: Bound) -> Result<(), SinkFault>
    ensures { Puts (O.state out.old) (O.state out.new) (text_and_bound (codes " bound ") bound ++ text_and_bound (codes " limit ") limit) result }
{
    match put_bound(out, " bound ", bound) {
        Ok(()) => put_bound(out, " limit ", limit),
        Err(fault) => Err(fault),
    }
}

/// Puts a bound behind a text.
fn put_bound<O: Sink>(out: &mut O, text: &str, bound: Bound) -> Result<(), SinkFault>
    ensures { Puts (O.state out.old) (O.state out.new) (text_and_bound text.now bound) result }
{
    match put_number(out, text, bound.m as u64) {
        Ok(()) => put_number(out, " ", bound.e as u64),
        Err(fault) => Err(fault),
    }
}

/// Puts a number in decimal behind a text.
fn put_number<O: Sink>(out: &mut O, text: &str, number: u64) -> Result<(), SinkFault>
    ensures { Puts (O.state out.old) (O.state out.new) (text_and_number text.now number) result }
{
    let mut buffer = Buffer::new();
    put_two(out, text.as_bytes(), buffer.format(number).as_bytes())
}

/// The line of a script that is accepted: the noise bound of what it puts out.
pub fn accepted_line(alloc: Global, bound: Bound) -> Result<Vec<u8>, AllocError>
    ensures { IfOk result (λ text. text.items ≡ accepted_text bound) }
{
    let mut text = Vec::new(alloc);
    push_number(&mut text, "accepted ", bound.m)?;
    push_number(&mut text, " ", bound.e)?;
    text.push(b'\n')?;
    Ok(text)
}

fn push_number(text: &mut Vec<u8>, before: &str, number: u32) -> Result<(), AllocError>
    ensures { OnOk result (text.new.items ≡ text.old.items ++ text_and_number before.now number) }
{
    let mut buffer = Buffer::new();
    text.extend_from_slice(before.as_bytes())?;
    text.extend_from_slice(buffer.format(number).as_bytes())?;
    Ok(())
}
