// Scripts that are read, refused and evaluated.
ghost use Rattle.std.specs.Prelude.{ℕ, ◌<◌, IsTrue, length, slice_index};

use crate::{
    InputKind, MAX_INPUTS, MAX_SCRIPT_BYTES, MAX_STEPS, MakeFault, Op, Refusal, ScriptFault,
    ScriptMaker, ScriptPlace, evaluate, parse, print,
};
use set_table::SetName;
use std::alloc::Global;
use std::process::Abort;
use std::test::Fail;

/// Reads each text between the two others, and compares what is wrong with it.
fn assert_read(
    rt: &impl Abort,
    alloc: Global,
    before: &[u8],
    rows: &[(&[u8], Option<ScriptPlace>)],
    after: &[u8],
) -> Result<(), Fail> {
    for (i, (middle, place)) in rows.iter().enumerate() {
        let mut text = before.to_vec(alloc)?;
        text.extend_from_slice(middle)?;
        text.extend_from_slice(after)?;
        let fault = parse(alloc, &text).err();
        assert_eq!(rt; fault, place.map(ScriptFault::Bad), "in row {i}");
    }
    Ok(())
}

const HEAD: &[u8] = b"set toy16\ncipher a\nplain p\n";

#[test]
fn reads_scripts(rt: HostRuntime) -> Result<(), Fail> {
    let rows: [(&[u8], Option<ScriptPlace>); 19] = [
        (b"set toy16\ncipher a\nplain p\noutput a\n", None),
        (b"set toy16\ncipher a\nplain p\noutput a", None),
        (
            b"set toy16\ncipher a\nplain p\nb = add a a\noutput b\n",
            None,
        ),
        (
            b"set toy16\ncipher a\nplain p\nb = sub a a\noutput b\n",
            None,
        ),
        (b"set toy16\ncipher a\nplain p\nb = neg a\noutput b\n", None),
        (
            b"set toy16\ncipher a\nplain p\nb = addp a p\noutput b\n",
            None,
        ),
        (
            b"set toy16\ncipher a\nplain p\nb = subp a p\noutput b\n",
            None,
        ),
        (
            b"set toy16\ncipher a\nplain p\nb = mulp a p\noutput b\n",
            None,
        ),
        (
            b"set toy16\ncipher a\nplain p\nb = mulk a 0\noutput b\n",
            None,
        ),
        (
            b"set toy16\ncipher a\nplain p\nb = mulk a 256\noutput b\n",
            None,
        ),
        (
            b"set toy16\ncipher a\nplain p\nb = mul a a\noutput b\n",
            None,
        ),
        (
            b"set toy16\ncipher a\nplain p\nb = turn a 1\noutput b\n",
            None,
        ),
        (
            b"set toy16\ncipher a\nplain p\nb = turn a 7\noutput b\n",
            None,
        ),
        (
            b"set toy16\ncipher a\nplain p\nb = swap a\noutput b\n",
            None,
        ),
        (
            b"set toy16\ncipher a\nplain p\nb = mul a a\nc = relin b\noutput c\n",
            None,
        ),
        (
            b"# head\n\n set one16\r\n\tcipher  a \n#\xff\x00\noutput a\n",
            None,
        ),
        (
            b"set toy16\ncipher cipher\nset = neg cipher\noutput set\n",
            None,
        ),
        (b"set toy16\ncipher a\nplain p\noutput a\n# end\n\n", None),
        (
            b"set toy16\ncipher aaaaaaaaaaaaaaaaaaaaaaaaaaaaaaaa\noutput aaaaaaaaaaaaaaaaaaaaaaaaaaaaaaaa\n",
            None,
        ),
    ];
    assert_read(&rt, rt.alloc(), b"", &rows, b"")
}

#[test]
fn refuses_steps(rt: HostRuntime) -> Result<(), Fail> {
    let rows: [(&[u8], Option<ScriptPlace>); 34] = [
        (b"b = add a", Some(ScriptPlace::Syntax(4))),
        (b"b = add a a a", Some(ScriptPlace::Syntax(4))),
        (b"b = add a p", Some(ScriptPlace::Name(4))),
        (b"b = add p a", Some(ScriptPlace::Name(4))),
        (b"b = add a 1", Some(ScriptPlace::Syntax(4))),
        (b"b = neg", Some(ScriptPlace::Syntax(4))),
        (b"b = neg a a", Some(ScriptPlace::Syntax(4))),
        (b"b = neg p", Some(ScriptPlace::Name(4))),
        (b"b = addp a a", Some(ScriptPlace::Name(4))),
        (b"b = addp p p", Some(ScriptPlace::Name(4))),
        (b"b = addp a q", Some(ScriptPlace::Name(4))),
        (b"b = mulk a 257", Some(ScriptPlace::Syntax(4))),
        (b"b = mulk a 01", Some(ScriptPlace::Syntax(4))),
        (b"b = mulk a 10000000000", Some(ScriptPlace::Syntax(4))),
        (b"b = mulk a 1234567890", Some(ScriptPlace::Syntax(4))),
        (b"b = mulk a x", Some(ScriptPlace::Syntax(4))),
        (b"b = mulk a", Some(ScriptPlace::Syntax(4))),
        (b"b = turn a 0", Some(ScriptPlace::Syntax(4))),
        (b"b = turn a 8", Some(ScriptPlace::Syntax(4))),
        (b"b = turn p 1", Some(ScriptPlace::Name(4))),
        (b"b = swap p", Some(ScriptPlace::Name(4))),
        (b"b = swap a 1", Some(ScriptPlace::Syntax(4))),
        (b"b = relin a", Some(ScriptPlace::Shape(4))),
        (b"b = plus a a", Some(ScriptPlace::Syntax(4))),
        (b"b == add a a", Some(ScriptPlace::Syntax(4))),
        (b"B = add a a", Some(ScriptPlace::Syntax(4))),
        (b"key = neg a", Some(ScriptPlace::Syntax(4))),
        (b"b = neg key", Some(ScriptPlace::Syntax(4))),
        (b"a = neg a", Some(ScriptPlace::Name(4))),
        (b"p = neg a", Some(ScriptPlace::Name(4))),
        (b"b = neg c", Some(ScriptPlace::Name(4))),
        (b"1b = neg a", Some(ScriptPlace::Syntax(4))),
        (b"b_1 = neg A", Some(ScriptPlace::Syntax(4))),
        (b"b = neg \xe4", Some(ScriptPlace::Syntax(4))),
    ];
    assert_read(&rt, rt.alloc(), HEAD, &rows, b"\noutput a\n")
}

#[test]
fn refuses_other_lines(rt: HostRuntime) -> Result<(), Fail> {
    let rows: [(&[u8], Option<ScriptPlace>); 17] = [
        (b"cipher", Some(ScriptPlace::Syntax(4))),
        (b"cipher a b", Some(ScriptPlace::Syntax(4))),
        (b"cipher A", Some(ScriptPlace::Syntax(4))),
        (b"cipher key", Some(ScriptPlace::Syntax(4))),
        (b"cipher a", Some(ScriptPlace::Name(4))),
        (b"plain a", Some(ScriptPlace::Name(4))),
        (b"plain p", Some(ScriptPlace::Name(4))),
        (b"cipher p", Some(ScriptPlace::Name(4))),
        (b"set toy16", Some(ScriptPlace::Syntax(4))),
        (b"nothing", Some(ScriptPlace::Syntax(4))),
        (b"plain x y", Some(ScriptPlace::Syntax(4))),
        (b"output", Some(ScriptPlace::Syntax(4))),
        (b"output p", Some(ScriptPlace::Name(4))),
        (b"output b", Some(ScriptPlace::Name(4))),
        (b"output a a", Some(ScriptPlace::Syntax(4))),
        (b"output key", Some(ScriptPlace::Syntax(4))),
        (b"output a", Some(ScriptPlace::Syntax(5))),
    ];
    assert_read(&rt, rt.alloc(), HEAD, &rows, b"\noutput a\n")
}

#[test]
fn refuses_by_order(rt: HostRuntime) -> Result<(), Fail> {
    let rows: [(&[u8], Option<ScriptPlace>); 23] = [
        (
            b"set toy16\ncipher a\nplain p\nb = mul a a\nc = mul b a\noutput a\n",
            Some(ScriptPlace::Shape(5)),
        ),
        (
            b"set toy16\ncipher a\nplain p\nb = mul a a\nc = mul a b\noutput a\n",
            Some(ScriptPlace::Shape(5)),
        ),
        (
            b"set toy16\ncipher a\nplain p\nb = mul a a\nc = turn b 1\noutput a\n",
            Some(ScriptPlace::Shape(5)),
        ),
        (
            b"set toy16\ncipher a\nplain p\nb = mul a a\nc = swap b\noutput a\n",
            Some(ScriptPlace::Shape(5)),
        ),
        (
            b"set toy16\ncipher a\nplain p\nb = mul a a\nc = relin a\noutput a\n",
            Some(ScriptPlace::Shape(5)),
        ),
        (
            b"set toy16\ncipher a\nplain p\nb = mul a a\nc = add b a\nd = relin c\ne = relin d\noutput a\n",
            Some(ScriptPlace::Shape(7)),
        ),
        (b"", Some(ScriptPlace::Syntax(1))),
        (b"\n\n", Some(ScriptPlace::Syntax(3))),
        (b"# x", Some(ScriptPlace::Syntax(2))),
        (b"cipher a\nset toy16\n", Some(ScriptPlace::Syntax(1))),
        (b"set toy17\n", Some(ScriptPlace::Syntax(1))),
        (b"set\n", Some(ScriptPlace::Syntax(1))),
        (b"set toy16\n", Some(ScriptPlace::Syntax(2))),
        (b"set toy16\ncipher a\n\n", Some(ScriptPlace::Syntax(4))),
        (
            b"set toy16\ncipher a\nplain p\nb = neg a\ncipher c\noutput a\n",
            Some(ScriptPlace::Syntax(5)),
        ),
        (
            b"set toy16\ncipher a\nplain p\noutput a\nb = neg a\n",
            Some(ScriptPlace::Syntax(5)),
        ),
        (b"set toy16\noutput a\n", Some(ScriptPlace::Name(2))),
        (
            b"set toy16\ncipher a\nplain p\nb = mul a a\nx = mul b c\noutput a\n",
            Some(ScriptPlace::Name(5)),
        ),
        (
            b"set toy16\ncipher a\nplain p\nx = relin c\ny = add\n",
            Some(ScriptPlace::Name(4)),
        ),
        (
            b"set toy16\ncipher a\nplain p\na = relin a\n",
            Some(ScriptPlace::Name(4)),
        ),
        (
            b"set toy16\ncipher a\nplain p\nb = mul a a\na = mul b b\n",
            Some(ScriptPlace::Name(5)),
        ),
        (
            b"set toy16\ncipher a\nplain p\na = turn a 0\n",
            Some(ScriptPlace::Syntax(4)),
        ),
        (
            b"set toy16\ncipher aaaaaaaaaaaaaaaaaaaaaaaaaaaaaaaaa\noutput aaaaaaaaaaaaaaaaaaaaaaaaaaaaaaaaa\n",
            Some(ScriptPlace::Syntax(2)),
        ),
    ];
    assert_read(&rt, rt.alloc(), b"", &rows, b"")
}

#[test]
fn counts_inputs_and_steps(rt: HostRuntime) -> Result<(), Fail> {
    let too_long = Some(ScriptFault::Bad(ScriptPlace::TooLong));
    let many = [
        (MAX_INPUTS - 1, MAX_STEPS, None),
        (MAX_INPUTS, 0, too_long),
        (0, MAX_STEPS + 1, too_long),
    ];
    for (inputs, steps, fault) in many {
        let mut text = b"set toy16\ncipher a\n".to_vec(rt.alloc())?;
        for i in 0..inputs {
            let line = format!(in rt.alloc(); "plain p{i}\n")?;
            text.extend_from_slice(line.as_bytes())?;
        }
        for i in 0..steps {
            let line = format!(in rt.alloc(); "b{i} = neg a\n")?;
            text.extend_from_slice(line.as_bytes())?;
        }
        text.extend_from_slice(b"output a\n")?;
        assert_eq!(rt;
            parse(rt.alloc(), &text).err(),
            fault,
            "{inputs} and {steps}"
        );
    }
    Ok(())
}

#[test]
fn counts_bytes(rt: HostRuntime) -> Result<(), Fail> {
    let mut text = HEAD.to_vec(rt.alloc())?;
    text.extend_from_slice(b"output a\n#")?;
    text.resize(MAX_SCRIPT_BYTES, b'x')?;
    assert_eq!(rt; parse(rt.alloc(), &text).err(), None);
    text.push(b'x')?;
    let too_long = ScriptFault::Bad(ScriptPlace::TooLong);
    assert_eq!(rt; parse(rt.alloc(), &text).err(), Some(too_long));
    Ok(())
}

#[test]
fn prints_in_one_form(rt: HostRuntime) -> Result<(), Fail> {
    let text =
        b"# product\n set  toy16\r\n\ncipher a\nplain p\n\tb = mul a a\nc =  relin b\nd = addp c p\ne = mulk d 0\nf = turn e 7\noutput f";
    let script = parse(rt.alloc(), text)?;
    let printed =
        b"set toy16\ncipher a\nplain p\nb = mul a a\nc = relin b\nd = addp c p\ne = mulk d 0\nf = turn e 7\noutput f\n";
    assert_eq!(rt; print(rt.alloc(), &script)?.as_slice(), printed.as_slice());
    Ok(())
}

/// A cipher `a`, a plain input `p` and the product `b` of `a` with itself.
fn half_made(alloc: Global) -> Result<ScriptMaker, MakeFault> {
    ScriptMaker::new(alloc, SetName::Toy16)
        .input(alloc, InputKind::Cipher, "a")?
        .input(alloc, InputKind::Plain, "p")?
        .step(alloc, "b", Op::Mul(0, 0))
}

#[test]
fn makes_a_script(rt: HostRuntime) -> Result<(), Fail> {
    let alloc = rt.alloc();
    let script = half_made(alloc)?
        .step(alloc, "c", Op::Relin(1))?
        .step(alloc, "d", Op::AddPlain(2, 0))?
        .step(alloc, "e", Op::Turn(3, 7))?
        .output(4)?;
    let printed =
        b"set toy16\ncipher a\nplain p\nb = mul a a\nc = relin b\nd = addp c p\ne = turn d 7\noutput e\n";
    assert_eq!(rt; print(alloc, &script)?.as_slice(), printed.as_slice());
    assert_eq!(rt; script.register_name(3), "d");
    Ok(())
}

#[test]
fn maker_refuses_steps(rt: HostRuntime) -> Result<(), Fail> {
    let rows = [
        ("key", Op::Neg(0), Refusal::NoName),
        ("p", Op::Neg(0), Refusal::Taken),
        ("c", Op::Neg(2), Refusal::Missing),
        ("c", Op::AddPlain(0, 1), Refusal::Missing),
        ("c", Op::MulConst(0, 257), Refusal::OutOfRange),
        ("c", Op::Turn(0, 8), Refusal::OutOfRange),
        ("c", Op::Relin(0), Refusal::Shape),
    ];
    for (i, (name, op, refusal)) in rows.iter().enumerate() {
        let fault = half_made(rt.alloc())?.step(rt.alloc(), name, *op).err();
        assert_eq!(rt; fault, Some(MakeFault::Refused(*refusal)), "in row {i}");
    }
    Ok(())
}

#[test]
fn refuses_a_late_input_and_a_missing_output(rt: HostRuntime) -> Result<(), Fail> {
    let late = half_made(rt.alloc())?.input(rt.alloc(), InputKind::Cipher, "x");
    assert_eq!(rt; late.err(), Some(MakeFault::Refused(Refusal::TooLate)));
    let missing = half_made(rt.alloc())?.output(2);
    assert_eq!(rt; missing.err(), Some(Refusal::Missing));
    Ok(())
}

const COUNTED: [u64; 16] = [1, 2, 3, 4, 5, 6, 7, 8, 9, 10, 11, 12, 13, 14, 15, 16];

/// Evaluates a script on the values, and compares.
fn assert_value(
    rt: &impl Abort,
    alloc: Global,
    text: &[u8],
    values: &[u64],
    output: &[u64],
) -> Result<(), Fail> {
    let script = parse(alloc, text)?;
    assert_eq!(rt; values.len(), script.set().degree() * script.inputs());
    assert!(rt; is_below(values, script.set().plain()));
    assert_eq!(rt; evaluate(alloc, &script, values)?.as_slice(), output);
    Ok(())
}

fn is_below(values: &[u64], t: u64) -> bool
    ensures { IsTrue result → (i : ℕ) → i < length values.now → slice_index values.now i < t }
{
    for i in 0..values.len() {
        if values[i] >= t {
            return false;
        }
    }
    true
}

#[test]
fn evaluates(rt: HostRuntime) -> Result<(), Fail> {
    let rows: [(&[u8], [u64; 16]); 5] = [
        (
            b"m = mul a a\nb = relin m\nn = mul b b\nc = relin n\no = mul c c\nd = relin o\np = mul d d\ne = relin p\noutput e",
            [
                1, 1, 249, 1, 225, 249, 128, 1, 64, 225, 241, 249, 193, 128, 256, 1,
            ],
        ),
        (
            b"b = turn a 1\noutput b",
            [2, 3, 4, 5, 6, 7, 8, 1, 10, 11, 12, 13, 14, 15, 16, 9],
        ),
        (
            b"b = turn a 7\noutput b",
            [8, 1, 2, 3, 4, 5, 6, 7, 16, 9, 10, 11, 12, 13, 14, 15],
        ),
        (
            b"b = swap a\noutput b",
            [9, 10, 11, 12, 13, 14, 15, 16, 1, 2, 3, 4, 5, 6, 7, 8],
        ),
        (
            b"b = mulk a 256\noutput b",
            [
                256, 255, 254, 253, 252, 251, 250, 249, 248, 247, 246, 245, 244, 243, 242, 241,
            ],
        ),
    ];
    for (steps, output) in &rows {
        let mut text = b"set toy16\ncipher a\n".to_vec(rt.alloc())?;
        text.extend_from_slice(steps)?;
        assert_value(&rt, rt.alloc(), &text, &COUNTED, output)?;
    }
    Ok(())
}

#[test]
fn evaluates_with_plain_inputs(rt: HostRuntime) -> Result<(), Fail> {
    let text =
        b"set one16\ncipher a\nplain p\ncipher b\nc = sub a b\nd = mulp c p\ne = neg d\nf = addp e p\ng = subp f p\noutput g";
    let mut values = COUNTED.to_vec(rt.alloc())?;
    for i in 0..16 {
        values.push((7 * i + 3) % 257)?;
    }
    for i in 0..16 {
        values.push(256 - i)?;
    }
    let output = [
        251, 217, 155, 65, 204, 58, 141, 196, 223, 222, 193, 136, 51, 195, 54, 142,
    ];
    assert_value(&rt, rt.alloc(), text, &values, &output)
}
