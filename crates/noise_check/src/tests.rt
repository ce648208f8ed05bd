use crate::{Verdict, check, fresh, fresh_bounds, limit, switches};
use bound_num::Bound;
use script_text::{Script, parse};
use set_table::SetName;
use std::alloc::Global;
use std::test::Fail;

fn bound(m: u32, e: u32) -> Bound {
    Bound { m, e }
}

const TOY16_LIMIT: Bound = Bound {
    m: 4294967104,
    e: 52,
};

/// Steps that square the register before them and bring the square back to two parts.
const TO_POWER_8: &[u8] =
    b"b = mul a a\nc = relin b\nd = mul c c\ne = relin d\nf = mul e e\ng = relin f\n";

const TO_POWER_128: &[u8] =
    b"h = mul g g\ni = relin h\nj = mul i i\nk = relin j\nl = mul k k\nm = relin l\nn = mul m m\no = relin n\n";

const TIMES_128_NINE_TIMES: &[u8] =
    b"b = mulk a 128\nc = mulk b 128\nd = mulk c 128\ne = mulk d 128\nf = mulk e 128\ng = mulk f 128\nh = mulk g 128\ni = mulk h 128\nj = mulk i 128\n";

fn script(alloc: Global, parts: &[&[u8]]) -> Result<Script, Fail> {
    let mut text = Vec::new(alloc);
    for part in parts {
        text.extend_from_slice(part)?;
    }
    Ok(parse(alloc, &text)?)
}

/// The verdict on a script whose cipher inputs are fresh, unless it lacks a special modulus.
fn verdict(alloc: Global, parts: &[&[u8]]) -> Result<Option<Verdict>, Fail> {
    let script = script(alloc, parts)?;
    if switches(&script) && script.set().special().is_none() {
        return Ok(None);
    }
    let inputs = fresh_bounds(alloc, &script)?;
    Ok(Some(check(alloc, &script, &inputs)?))
}

#[test]
fn tells_limits_and_fresh_bounds(rt: HostRuntime) {
    let rows = [
        (SetName::One16, bound(4294967295, 21), bound(178358, 0)),
        (SetName::Toy16, TOY16_LIMIT, bound(178358, 0)),
        (SetName::S4096, bound(4294947328, 38), bound(2818975750, 2)),
        (SetName::S8192, bound(4294966952, 140), bound(2818795523, 3)),
        (
            SetName::S16384,
            bound(4294967228, 355),
            bound(2818705410, 4),
        ),
    ];
    for (set, most, first) in rows {
        assert_eq!(rt; limit(set), most);
        assert_eq!(rt; fresh(set), first);
    }
}

#[test]
fn accepts_scripts_within_the_limit(rt: HostRuntime) -> Result<(), Fail> {
    let rows: [(&[&[u8]], Bound); 12] = [
        (&[b"set toy16\ncipher a\noutput a\n"], bound(178358, 0)),
        (
            &[b"set toy16\ncipher a\nb = turn a 1\noutput b\n"],
            bound(178358 + 257 * 353, 0),
        ),
        (
            &[b"set s4096\ncipher a\nb = turn a 1\noutput b\n"],
            bound(2147696643, 3),
        ),
        (
            &[b"set s8192\ncipher a\nb = turn a 1\noutput b\n"],
            bound(3556918275, 4),
        ),
        (
            &[b"set one16\ncipher a\nb = mul a a\noutput b\n"],
            bound(4033762069, 2),
        ),
        (
            &[b"set toy16\ncipher a\nb = mul a a\noutput b\n"],
            bound(4033779609, 2),
        ),
        (
            &[
                b"set toy16\ncipher a\n",
                TO_POWER_8,
                b"h = mul g g\ni = relin h\noutput i\n",
            ],
            bound(2652419344, 52),
        ),
        (
            &[
                b"set toy16\ncipher a\n",
                TIMES_128_NINE_TIMES,
                b"output j\n",
            ],
            bound(2922217472, 49),
        ),
        (
            &[b"set s4096\ncipher a\nplain p\nb = mulp a p\noutput b\n"],
            bound(2818975750, 29),
        ),
        (
            &[b"set s8192\ncipher a\n", TO_POWER_8, b"output g\n"],
            bound(2825123031, 129),
        ),
        (
            &[b"set s8192\ncipher a\nplain w\nb = mulp a w\nc = turn b 1\nd = add b c\noutput d\n"],
            bound(2818795532, 32),
        ),
        (
            &[
                b"set s16384\ncipher a\n",
                TO_POWER_8,
                TO_POWER_128,
                b"output o\n",
            ],
            bound(2826240914, 312),
        ),
    ];
    for (i, (parts, last)) in rows.iter().enumerate() {
        match verdict(rt.alloc(), parts)? {
            Some(Verdict::Accepted(bounds)) => {
                assert!(rt; bounds.len() > 0);
                assert_eq!(rt; bounds.get(bounds.len() - 1), *last, "in row {i}");
            }
            _ => panic!(rt; "row {i} is not accepted"),
        }
    }
    Ok(())
}

#[test]
fn tells_the_first_register_above_the_limit(rt: HostRuntime) -> Result<(), Fail> {
    let rows: [(&[&[u8]], u32, Bound, Bound); 6] = [
        (
            &[
                b"set toy16\ncipher a\n",
                TO_POWER_8,
                b"h = mul g g\ni = relin h\nj = mul i i\noutput j\n",
            ],
            11,
            bound(3661322992, 68),
            TOY16_LIMIT,
        ),
        (
            &[
                b"set toy16\ncipher a\n",
                TIMES_128_NINE_TIMES,
                b"k = mulk j 128\noutput k\n",
            ],
            12,
            bound(2922217472, 56),
            TOY16_LIMIT,
        ),
        (
            &[b"set s4096\ncipher a\nb = mul a a\noutput b\n"],
            3,
            bound(2823148188, 42),
            bound(4294947328, 38),
        ),
        (
            &[
                b"set s4096\n# a line that is passed over\ncipher a\nplain p\n\nb = mul a a\nc = mulk b 0\noutput c\n",
            ],
            6,
            bound(2823148188, 42),
            bound(4294947328, 38),
        ),
        (
            &[
                b"set s8192\ncipher a\n",
                TO_POWER_8,
                b"h = mul g g\noutput h\n",
            ],
            9,
            bound(2827235354, 171),
            bound(4294966952, 140),
        ),
        (
            &[
                b"set s16384\ncipher a\n",
                TO_POWER_8,
                TO_POWER_128,
                b"p = mul o o\noutput p\n",
            ],
            17,
            bound(2827319057, 356),
            bound(4294967228, 355),
        ),
    ];
    for (i, (parts, line, above, most)) in rows.iter().enumerate() {
        match verdict(rt.alloc(), parts)? {
            Some(Verdict::TooNoisy(first, bound, limit)) => {
                assert_eq!(rt; first, *line, "in row {i}");
                assert_eq!(rt; bound, *above, "in row {i}");
                assert_eq!(rt; limit, *most, "in row {i}");
            }
            _ => panic!(rt; "row {i} is not too noisy"),
        }
    }
    Ok(())
}

#[test]
fn bounds_every_operation(rt: HostRuntime) -> Result<(), Fail> {
    let text =
        b"set toy16\ncipher a\nplain p\ncipher b\nc = add a b\nd = sub c b\ne = neg d\nf = addp e p\ng = subp f p\nh = mulp g p\ni = mulk h 128\nj = mulk i 256\nk = mulk j 0\nl = mul c d\nm = relin l\nn = turn m 3\no = swap n\noutput o\n";
    let expected = [
        bound(178358, 0),
        bound(178358, 0),
        bound(356716, 0),
        bound(535074, 0),
        bound(535074, 0),
        bound(535331, 0),
        bound(535588, 0),
        bound(1096884224, 0),
        bound(2193768448, 6),
        bound(2193768448, 6),
        bound(0, 0),
        bound(2521099101, 4),
        bound(2521104772, 4),
        bound(2521110443, 4),
        bound(2521116114, 4),
    ];
    let Some(Verdict::Accepted(bounds)) = verdict(rt.alloc(), &[text])? else {
        panic!(rt; "too noisy")
    };
    assert_eq!(rt; bounds.len(), expected.len());
    for (i, own) in expected.iter().enumerate() {
        assert!(rt; i < bounds.len());
        assert_eq!(rt; bounds.get(i), *own, "of register {i}");
    }
    Ok(())
}

#[test]
fn takes_the_bounds_of_inputs(rt: HostRuntime) -> Result<(), Fail> {
    let script = script(
        rt.alloc(),
        &[b"set toy16\nplain p\ncipher a\ncipher b\noutput a\n"],
    )?;
    assert!(rt; !switches(&script));
    assert_eq!(rt;
        fresh_bounds(rt.alloc(), &script)?.as_slice(),
        [bound(178358, 0); 2].as_slice()
    );
    assert_eq!(rt; script.ciphers(), 2);

    let small = Bound { m: 5, e: 0 };
    let accepted = check(rt.alloc(), &script, &[small, TOY16_LIMIT])?;
    assert!(rt; matches!(&accepted, Verdict::Accepted(_)));
    let next = Bound {
        m: 4294967105,
        e: 52,
    };
    match check(rt.alloc(), &script, &[small, next])? {
        Verdict::Accepted(_) => panic!(rt; "accepted"),
        Verdict::TooNoisy(line, above, _) => {
            assert_eq!(rt; line, 4);
            assert_eq!(rt; above, next);
        }
    }
    Ok(())
}

#[test]
fn tells_which_scripts_switch_keys(rt: HostRuntime) -> Result<(), Fail> {
    let rows: [(&[u8], bool); 5] = [
        (b"b = mul a a\noutput b\n", false),
        (b"b = mulk a 3\nc = sub a b\noutput c\n", false),
        (b"b = mul a a\nc = relin b\noutput c\n", true),
        (b"b = turn a 1\noutput a\n", true),
        (b"b = swap a\noutput a\n", true),
    ];
    for (i, (steps, switched)) in rows.iter().enumerate() {
        let script = script(rt.alloc(), &[b"set one16\ncipher a\n", steps])?;
        assert_eq!(rt; switches(&script), *switched, "in row {i}");
    }
    Ok(())
}
