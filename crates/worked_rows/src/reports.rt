// `report` on scripts of all sets.
use crate::commands::run;
use command_words::Status;
use outer_io::MemStore;
use sha2::{Digest, Sha256};
use std::alloc::{AllocError, Global};
use std::test::Fail;

/// The bytes of the file `r` before a command.
const OLD: &[u8; 3] = b"old";

/// What a command leads to, and the bytes of the file `r` after it.
#[derive(Drop)]
struct Outcome {
    status: Status,
    printed: Vec<u8>,
    written: Vec<u8>,
}

/// Runs `report s r` on a store with a script and a file `r`, of which a call may fail.
fn outcome_of(
    alloc: Global,
    script: &[u8],
    failing_call: Option<u64>,
) -> Result<Outcome, AllocError> {
    let mut store = MemStore::new(alloc);
    store.put_file("s", script)?;
    store.put_file("r", OLD)?;
    if let Some(call) = failing_call {
        store.fail_at(call)?;
    }
    let (status, printed) = run(alloc, &mut store, &["report", "s", "r"])?;
    let written = store.file("r").unwrap_or(b"").to_vec(alloc)?;
    Ok(Outcome {
        status,
        printed,
        written,
    })
}

/// Whether the file that was written has this length and the digest with these hexadecimal digits.
fn has_digest(o: &Outcome, length: usize, digits: &str) -> bool {
    let mut wanted = [0; 32];
    let decoded = hex::decode_to_slice(digits, &mut wanted).is_ok();
    decoded && o.written.len() == length && Sha256::digest(o.written.as_slice()) == wanted
}

const ONE_INPUT: &str = "set toy16\ncipher a\noutput a\n";

#[test]
fn reports_are_these_texts(rt: HostRuntime) -> Result<(), Fail> {
    let rows: [(&str, &str); 4] = [
        (
            ONE_INPUT,
            r#"{"bounds":[{"exp":0,"line":2,"mant":178358,"name":"a","parts":2}],"limit":{"exp":52,"mant":4294967104},"set":"toy16"}"#,
        ),
        (
            "set toy16\ncipher a\nplain p\ncipher b\nc = mul a b\n\n# back to two parts\nd = relin c\noutput a",
            r#"{"bounds":[{"exp":0,"line":2,"mant":178358,"name":"a","parts":2},{"exp":0,"line":4,"mant":178358,"name":"b","parts":2},{"exp":2,"line":5,"mant":4033779609,"name":"c","parts":3},{"exp":2,"line":8,"mant":4033802290,"name":"d","parts":2}],"limit":{"exp":52,"mant":4294967104},"set":"toy16"}"#,
        ),
        (
            "set one16\ncipher a\nb = mul a a\nc = neg b\noutput b\n",
            r#"{"bounds":[{"exp":0,"line":2,"mant":178358,"name":"a","parts":2},{"exp":2,"line":3,"mant":4033762069,"name":"b","parts":3},{"exp":2,"line":4,"mant":4033762069,"name":"c","parts":3}],"limit":{"exp":21,"mant":4294967295},"set":"one16"}"#,
        ),
        (
            "set s8192\ncipher a\nplain w\nb = mulp a w\nc = turn b 1\nd = add b c\noutput d\n",
            r#"{"bounds":[{"exp":3,"line":2,"mant":2818795523,"name":"a","parts":2},{"exp":31,"line":4,"mant":2818795523,"name":"b","parts":2},{"exp":31,"line":5,"mant":2818795540,"name":"c","parts":2},{"exp":32,"line":6,"mant":2818795532,"name":"d","parts":2}],"limit":{"exp":140,"mant":4294966952},"set":"s8192"}"#,
        ),
    ];
    for (script, text) in rows {
        let o = outcome_of(rt.alloc(), script.as_bytes(), None)?;
        assert_eq!(rt; o.status, Status::Done);
        assert_eq!(rt; o.printed.len(), 0);
        let mut line = text.as_bytes().to_vec(rt.alloc())?;
        line.push(b'\n')?;
        assert_eq!(rt; o.written.as_slice(), line.as_slice());
    }
    Ok(())
}

// The digests are those of the texts that an independent program writes.
#[test]
fn the_longest_scripts_have_reports(rt: HostRuntime) -> Result<(), Fail> {
    let mut inputs = b"set s8192\n".to_vec(rt.alloc())?;
    for i in 0..64 {
        let line = format!(in rt.alloc(); "cipher a{i}\n")?;
        inputs.extend_from_slice(line.as_bytes())?;
    }
    inputs.extend_from_slice(b"output a63\n")?;
    let o = outcome_of(rt.alloc(), &inputs, None)?;
    let digits = "a4f00d0723c44c815703572a9b3763a3a1273627847643e5e98cc4d1552723b5";
    assert!(rt; has_digest(&o, 3951, digits));

    let mut steps = b"set s16384\ncipher a0\n".to_vec(rt.alloc())?;
    for i in 0..4096 {
        let line = format!(in rt.alloc(); "a{} = add a{i} a0\n", i + 1)?;
        steps.extend_from_slice(line.as_bytes())?;
    }
    steps.extend_from_slice(b"output a4096\n")?;
    let o = outcome_of(rt.alloc(), &steps, None)?;
    let digits = "4cad833ed92e21f2dc32cd4a7a5283897a9436b5f97214001be89c75cfa7ec98";
    assert!(rt; has_digest(&o, 268_206, digits));
    Ok(())
}

#[test]
fn refused_scripts_have_no_report(rt: HostRuntime) -> Result<(), Fail> {
    let rows: [(&str, u8, &str); 3] = [
        (
            "set s4096\ncipher a\nb = mul a a\noutput a\n",
            15,
            "too noisy: line 3 bound 2823148188 42 limit 4294947328 38\n",
        ),
        (
            "set one16\ncipher a\nb = mul a a\nc = relin b\noutput a\n",
            18,
            "no special modulus: one16\n",
        ),
        (
            "set toy16\nplain w\noutput w\n",
            14,
            "bad script: name line 3\n",
        ),
    ];
    for (script, code, line) in rows {
        let o = outcome_of(rt.alloc(), script.as_bytes(), None)?;
        assert_eq!(rt; o.status.code(), code, "{line}");
        assert_eq!(rt; o.printed.as_slice(), line.as_bytes());
        assert_eq!(rt; o.written.as_slice(), OLD.as_slice());
    }
    Ok(())
}

// The script is asked for its size and read; then the file OUT is begun, and its text is appended and
// put in its place.
#[test]
fn a_failing_call_leaves_the_file(rt: HostRuntime) -> Result<(), Fail> {
    for call in 0..5 {
        let fault = if call < 2 {
            Status::ReadFault { word: 1 }
        } else {
            Status::WriteFault
        };
        let o = outcome_of(rt.alloc(), ONE_INPUT.as_bytes(), Some(call))?;
        assert_eq!(rt; o.status, fault, "{call}");
        assert_eq!(rt; o.written.as_slice(), OLD.as_slice());
    }
    let o = outcome_of(rt.alloc(), ONE_INPUT.as_bytes(), Some(5))?;
    assert_eq!(rt; o.status, Status::Done);
    assert!(rt; o.written.as_slice() != OLD.as_slice());
    Ok(())
}
