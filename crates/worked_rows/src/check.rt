// `check` on scripts of all sets.
use crate::words::words_of;
use bfv_commands::command;
use outer_io::{MemSink, MemStore};
use std::alloc::{AllocError, Global};
use std::test::Fail;

/// What a command leads to.
#[derive(Drop)]
struct Outcome {
    code: u8,
    printed: Vec<u8>,
}

/// The number of a put that no command here comes to.
const NEVER: u64 = 1000;

/// Runs `check s` on a store with one file, in which one put of the sink fails.
fn outcome_of(
    alloc: Global,
    name: &str,
    script: &[u8],
    failing_put: u64,
) -> Result<Outcome, AllocError> {
    let words = words_of(alloc, &["check", "s"])?;
    let mut store = MemStore::new(alloc);
    store.put_file(name, script)?;
    let mut out = MemSink::new(alloc);
    out.fail_at(failing_put)?;
    let status = command(alloc, &words, &mut store, &mut out);
    Ok(Outcome {
        code: status.code(),
        printed: out.text().to_vec(alloc)?,
    })
}

/// Squarings of the register before, each followed by its `relin`.
const LEVELS: [&str; 8] = [
    "p1 = mul r0 r0\nr1 = relin p1\n",
    "p2 = mul r1 r1\nr2 = relin p2\n",
    "p3 = mul r2 r2\nr3 = relin p3\n",
    "p4 = mul r3 r3\nr4 = relin p4\n",
    "p5 = mul r4 r4\nr5 = relin p5\n",
    "p6 = mul r5 r5\nr6 = relin p6\n",
    "p7 = mul r6 r6\nr7 = relin p7\n",
    "p8 = mul r7 r7\nr8 = relin p8\n",
];

/// A script that squares its input so many times.
fn squarings(alloc: Global, set: &str, levels: usize, output: &str) -> Result<Vec<u8>, AllocError> {
    let mut text = set.as_bytes().to_vec(alloc)?;
    text.extend_from_slice(b"\ncipher r0\n")?;
    for level in LEVELS.iter().take(levels) {
        text.extend_from_slice(level.as_bytes())?;
    }
    text.extend_from_slice(output.as_bytes())?;
    Ok(text)
}

#[test]
fn scripts_are_accepted_up_to_the_limit(rt: HostRuntime) -> Result<(), Fail> {
    let rows: [(&str, usize, &str, u8, &str); 6] = [
        ("set toy16", 4, "output r4", 0, "accepted 2652419344 52\n"),
        (
            "set toy16",
            5,
            "output r5",
            15,
            "too noisy: line 11 bound 3661322992 68 limit 4294967104 52\n",
        ),
        ("set s8192", 3, "output r3", 0, "accepted 2825123031 129\n"),
        (
            "set s8192",
            4,
            "output r4",
            15,
            "too noisy: line 9 bound 2827235354 171 limit 4294966952 140\n",
        ),
        ("set s16384", 7, "output r7", 0, "accepted 2826240914 312\n"),
        (
            "set s16384",
            8,
            "output r8",
            15,
            "too noisy: line 17 bound 2827319057 356 limit 4294967228 355\n",
        ),
    ];
    for (set, levels, output, code, line) in rows {
        let script = squarings(rt.alloc(), set, levels, output)?;
        let o = outcome_of(rt.alloc(), "s", &script, NEVER)?;
        assert_eq!(rt; o.code, code, "{line}");
        assert_eq!(rt; o.printed.as_slice(), line.as_bytes());
    }
    Ok(())
}

#[test]
fn verdicts_and_refusals_are_printed(rt: HostRuntime) -> Result<(), Fail> {
    let rows: [(&str, u8, &str); 9] = [
        (
            "set toy16\ncipher a\nb = mul a a\noutput b\n",
            0,
            "accepted 4033779609 2\n",
        ),
        (
            "set one16\ncipher a\nb = mul a a\noutput b\n",
            0,
            "accepted 4033762069 2\n",
        ),
        (
            "set s4096\ncipher a\nplain p\nb = mulp a p\noutput b\n",
            0,
            "accepted 2818975750 29\n",
        ),
        (
            "set s4096\ncipher a\nb = mul a a\noutput b\n",
            15,
            "too noisy: line 3 bound 2823148188 42 limit 4294947328 38\n",
        ),
        (
            "set s8192\ncipher a\nplain w\nb = mulp a w\nc = turn b 1\nd = add b c\noutput d",
            0,
            "accepted 2818795532 32\n",
        ),
        ("", 14, "bad script: syntax line 1\n"),
        (
            "set toy16\ncipher a\na = add a a\noutput a\n",
            14,
            "bad script: name line 3\n",
        ),
        (
            "set toy16\ncipher a\nb = mul a a\nc = turn b 1\noutput c\n",
            14,
            "bad script: shape line 4\n",
        ),
        (
            "set one16\ncipher a\nb = mul a a\nc = relin b\noutput c\n",
            18,
            "no special modulus: one16\n",
        ),
    ];
    for (script, code, line) in rows {
        let o = outcome_of(rt.alloc(), "s", script.as_bytes(), NEVER)?;
        assert_eq!(rt; o.code, code, "{line}");
        assert_eq!(rt; o.printed.as_slice(), line.as_bytes());
    }
    Ok(())
}

#[test]
fn a_missing_script_and_a_failing_put_are_told(rt: HostRuntime) -> Result<(), Fail> {
    let script = "set toy16\ncipher a\noutput a\n".as_bytes();
    let o = outcome_of(rt.alloc(), "other", script, NEVER)?;
    assert_eq!(rt; o.code, 6);
    assert_eq!(rt; o.printed.as_slice(), b"missing file: s\n".as_slice());

    let o = outcome_of(rt.alloc(), "s", script, 0)?;
    assert_eq!(rt; o.code, 5);
    assert_eq!(rt; o.printed.len(), 0);
    Ok(())
}
