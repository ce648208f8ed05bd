// `run` on ciphers and texts.
ghost use Rattle.std.specs.Prelude.{◌≡◌, None, IfOk};
ghost use Rattle.outer_io.specs.Memory.{pending_name};

use crate::commands::{SIXTEEN, made, run, seed};
use crate::files::{FIRST_RESIDUES, cipher_file, long_toy_cipher_file, toy_cipher_file};
use command_words::Status;
use outer_io::MemStore;
use std::alloc::{AllocError, Global};
use std::test::Fail;

/// A script that hands its input on.
const SAME: &str = "set toy16\ncipher a\noutput a\n";

/// How many calls of the store it takes to run that script.
const CALLS: u64 = 18;

/// A script with each linear step, on two ciphers and a text.
const EACH_STEP: &str = "set toy16\ncipher a\nplain w\ncipher b\nx = mulp a w\ny = mulk b 3\n\
    s = add x y\nt = addp s w\nu = neg t\nv = sub a u\nz = subp v w\noutput z\n";

/// A script that multiplies its input nine times by 128.
const NINE_TIMES: &str =
    "set toy16\ncipher r0\nr1 = mulk r0 128\nr2 = mulk r1 128\nr3 = mulk r2 128\n\
    r4 = mulk r3 128\nr5 = mulk r4 128\nr6 = mulk r5 128\nr7 = mulk r6 128\nr8 = mulk r7 128\n\
    r9 = mulk r8 128\noutput r9\n";

/// A script that does so ten times.
const TEN_TIMES: &str =
    "set toy16\ncipher r0\nr1 = mulk r0 128\nr2 = mulk r1 128\nr3 = mulk r2 128\n\
    r4 = mulk r3 128\nr5 = mulk r4 128\nr6 = mulk r5 128\nr7 = mulk r6 128\nr8 = mulk r7 128\n\
    r9 = mulk r8 128\nrx = mulk r9 128\noutput rx\n";

/// The squares of the values from 1 to 16 modulo 257.
const SQUARES: &str = "1 4 9 16 25 36 49 64\n81 100 121 144 169 196 225 256\n";

/// A script that squares its input.
const SQUARE: &str = "cipher a\nb = mul a a\noutput b\n";

/// A script that multiplies its inputs.
const PRODUCT: &str = "cipher a\ncipher b\nc = mul a b\noutput c\n";

/// A script that takes a product from a square and adds a text.
const PRODUCTS: &str = "cipher a\ncipher b\nplain w\nc = mul a b\nd = mul a a\n\
    e = sub d c\nf = addp e w\noutput f\n";

/// What `run` leads to: what it printed, its output's length and the bound that it states, and the
/// values that come back.
#[derive(Drop)]
struct Outcome {
    status: Status,
    printed: Vec<u8>,
    length: usize,
    bound: [u8; 8],
    values: Vec<u8>,
}

/// A store with two ciphers of one secret of a set, `c` of the values from 1 to 16 and `d` of those
/// back to 1, which `w` lists.
fn two_ciphers(alloc: Global, set: &str) -> Result<MemStore, AllocError>
    ensures { IfOk result (λ s. pending_name s.pending ≡ None) }
{
    let mut store = made(alloc, set, SIXTEEN)?;
    store.put_file("w", b"16 15 14 13 12 11 10 9 8 7 6 5 4 3 2 1")?;
    store.put_file("s2", &seed(2))?;
    run(alloc, &mut store, &["encrypt", "pub", "s2", "w", "d"])?;
    Ok(store)
}

/// Such a store of `toy16` with ciphers of another set, of another secret and of three parts, and
/// with a script.
fn store_of(alloc: Global, script: &str) -> Result<MemStore, AllocError>
    ensures { IfOk result (λ s. pending_name s.pending ≡ None) }
{
    let mut store = two_ciphers(alloc, "toy16")?;
    store.put_file("one", &cipher_file(alloc)?)?;
    store.put_file("five", &toy_cipher_file(alloc, FIRST_RESIDUES[0])?)?;
    store.put_file("three", &long_toy_cipher_file(alloc)?)?;
    store.put_file("script", script.as_bytes())?;
    Ok(store)
}

/// Runs words on that store, and decrypts the file `x`.
fn outcome_of(alloc: Global, script: &str, texts: &[&str]) -> Result<Outcome, AllocError> {
    let mut store = store_of(alloc, script)?;
    let (status, printed) = run(alloc, &mut store, texts)?;
    run(alloc, &mut store, &["decrypt", "sec", "x", "values"])?;
    let mut bound = [0; 8];
    let mut length = 0;
    if let Some(bytes) = store.file("x") {
        length = bytes.len();
        for (place, byte) in bound.iter_mut().zip(bytes.iter().skip(32)) {
            *place = *byte;
        }
    }
    Ok(Outcome {
        status,
        printed,
        length,
        bound,
        values: bytes_of(alloc, &store, "values")?,
    })
}

#[test]
fn scripts_run_on_ciphers(rt: HostRuntime) -> Result<(), Fail> {
    let rows: [(&str, &[&str], [u8; 8], &str); 4] = [
        (
            SAME,
            &["run", "script", "x", "a=c"],
            [0xb6, 0xb8, 2, 0, 0, 0, 0, 0],
            SIXTEEN,
        ),
        (
            "set toy16\ncipher a\nb = mulk a 256\noutput b\n",
            &["run", "script", "x", "a=c"],
            [0xb6, 0xb8, 2, 0, 0, 0, 0, 0],
            "256 255 254 253 252 251 250 249\n248 247 246 245 244 243 242 241\n",
        ),
        (
            NINE_TIMES,
            &["run", "script", "x", "r0=c"],
            [0, 0x80, 0x2d, 0xae, 49, 0, 0, 0],
            "129 1 130 2 131 3 132 4\n133 5 134 6 135 7 136 8\n",
        ),
        (
            EACH_STEP,
            &["run", "script", "x", "a=c", "b=d", "w=w"],
            [0xda, 0x94, 0xd0, 0x15, 0, 0, 0, 0],
            "65 77 87 95 101 105 107 107\n105 101 95 87 77 65 51 35\n",
        ),
    ];
    for (script, texts, bound, values) in rows {
        let o = outcome_of(rt.alloc(), script, texts)?;
        assert_eq!(rt; o.status, Status::Done, "{script}");
        assert_eq!(rt; o.printed.len(), 0);
        assert_eq!(rt; o.length, 608);
        assert_eq!(rt; o.bound, bound, "{script}");
        assert_eq!(rt; o.values.as_slice(), values.as_bytes());
    }
    Ok(())
}

/// What `run` of a script with products leads to: the file that it writes, the values that come
/// back, and what `run` of a script that hands its input on then prints of that file.
#[derive(Drop)]
struct Multiplied {
    status: Status,
    written: Vec<u8>,
    values: Vec<u8>,
    refusal: Vec<u8>,
}

/// Runs such a script on a store of two ciphers of a set.
fn run_product(
    alloc: Global,
    set: &str,
    script: &str,
    texts: &[&str],
) -> Result<Multiplied, AllocError> {
    let mut store = two_ciphers(alloc, set)?;
    store.put_file("script", &script_for(alloc, set, script)?)?;
    store.put_file("same", &script_for(alloc, set, "cipher a\noutput a\n")?)?;
    let (status, _) = run(alloc, &mut store, texts)?;
    run(alloc, &mut store, &["decrypt", "sec", "x", "values"])?;
    let (_, refusal) = run(alloc, &mut store, &["run", "same", "y", "a=x"])?;
    Ok(Multiplied {
        status,
        written: bytes_of(alloc, &store, "x")?,
        values: bytes_of(alloc, &store, "values")?,
        refusal,
    })
}

fn script_for(alloc: Global, set: &str, lines: &str) -> Result<Vec<u8>, AllocError> {
    let mut text = b"set ".to_vec(alloc)?;
    text.extend_from_slice(set.as_bytes())?;
    text.extend_from_slice(b"\n")?;
    text.extend_from_slice(lines.as_bytes())?;
    Ok(text)
}

/// What a file holds, or no bytes.
fn bytes_of(alloc: Global, store: &MemStore, name: &str) -> Result<Vec<u8>, AllocError> {
    match store.file(name) {
        Some(bytes) => bytes.to_vec(alloc),
        None => Ok(Vec::new(alloc)),
    }
}

// The lengths, bounds and digests of the files that an independent program writes of the same
// operands.
#[test]
fn products_are_written_as_elsewhere(rt: HostRuntime) -> Result<(), Fail> {
    let rows: [(&str, &str, &[&str], usize, [u8; 8], &str, &str); 5] = [
        (
            "toy16",
            SQUARE,
            &["run", "script", "x", "a=c"],
            864,
            [0x99, 0x97, 0x6e, 0xf0, 2, 0, 0, 0],
            "bdff46e3b921cbe52e69b59d4505d762b446ecf61bce83eee99bad40ab599e60",
            SQUARES,
        ),
        (
            "one16",
            SQUARE,
            &["run", "script", "x", "a=c"],
            480,
            [0x15, 0x53, 0x6e, 0xf0, 2, 0, 0, 0],
            "ca02a5b12aa829be1a11e72842af5b7fa0fec0f88bbbbf707d26f36a197d90e1",
            SQUARES,
        ),
        (
            "toy16",
            PRODUCT,
            &["run", "script", "x", "a=c", "b=d"],
            864,
            [0x99, 0x97, 0x6e, 0xf0, 2, 0, 0, 0],
            "01f877493cef2eb90a992149e7c814d730e8de193c92a04c7ed0289bf489c254",
            "16 30 42 52 60 66 70 72\n72 70 66 60 52 42 30 16\n",
        ),
        (
            "toy16",
            PRODUCTS,
            &["run", "script", "x", "a=c", "b=d", "w=w"],
            864,
            [0xba, 0x97, 0x6e, 0xf0, 3, 0, 0, 0],
            "be2effafc308acc61a4719124f5d0dc125cbaff0b8aa5933cebf1c0bee615dc1",
            "1 246 238 234 234 238 246 1\n17 37 61 89 121 157 197 241\n",
        ),
        (
            "one16",
            PRODUCTS,
            &["run", "script", "x", "a=c", "b=d", "w=w"],
            480,
            [0x36, 0x53, 0x6e, 0xf0, 3, 0, 0, 0],
            "b6669060111b2d1045643e15f4b18c2ba334e97555950e2fb232d6213d4f01fb",
            "1 246 238 234 234 238 246 1\n17 37 61 89 121 157 197 241\n",
        ),
    ];
    for (set, script, texts, length, bound, digits, values) in rows {
        let o = run_product(rt.alloc(), set, script, texts)?;
        assert_eq!(rt; o.status, Status::Done, "{set} {script}");
        assert_eq!(rt; o.written.len(), length);
        assert_eq!(rt; o.written.get(32..40), Some(bound.as_slice()));
        let mut digest = [0; 32];
        assert!(rt; hex::decode_to_slice(digits, &mut digest).is_ok());
        assert!(rt; o.written.ends_with(&digest), "{set} {script}");
        assert_eq!(rt; o.values.as_slice(), values.as_bytes());
        assert_eq!(rt;
            o.refusal.as_slice(),
            b"parts mismatch: x has 3, wanted 2\n".as_slice()
        );
    }
    Ok(())
}

#[test]
fn runs_are_refused(rt: HostRuntime) -> Result<(), Fail> {
    const TWO: &str = "set toy16\ncipher a\ncipher b\nc = add a b\noutput c\n";
    let rows: [(&str, &[&str], u8, &str); 19] = [
        (SAME, &["run", "script"], 2, "usage\n"),
        (SAME, &["run", "script", "x", "a=c", "a"], 2, "usage\n"),
        (SAME, &["run", "script", "x", "a="], 2, "usage\n"),
        (SAME, &["run", "script", "x", "key=c"], 2, "usage\n"),
        (
            SAME,
            &["run", "none", "x", "a=c"],
            6,
            "missing file: none\n",
        ),
        (
            "set toy16\ncipher a\nb = mul a a\nc = relin b\noutput c\n",
            &["run", "script", "x", "b=c"],
            14,
            "bad script: syntax line 4\n",
        ),
        (
            "set toy16\ncipher a\nb = swap a\nc = turn a 1\noutput c\n",
            &["run", "script", "x", "b=c"],
            14,
            "bad script: syntax line 3\n",
        ),
        (
            "set toy16\ncipher a\nb = mul a a\nc = turn b 1\noutput c\n",
            &["run", "script", "x", "b=c"],
            14,
            "bad script: shape line 4\n",
        ),
        (
            SAME,
            &["run", "script", "x", "b=none"],
            17,
            "binding: undeclared b=none\n",
        ),
        (
            SAME,
            &["run", "script", "x", "a=c", "a=d"],
            17,
            "binding: twice a=d\n",
        ),
        (
            TWO,
            &["run", "script", "x", "a=c"],
            17,
            "binding: unbound input 1\n",
        ),
        (
            SAME,
            &["run", "script", "x", "a==c"],
            6,
            "missing file: =c\n",
        ),
        (
            SAME,
            &["run", "script", "x", "a=sec"],
            10,
            "wrong kind 1: sec\n",
        ),
        (
            EACH_STEP,
            &["run", "script", "x", "b=none", "w=c", "a=c"],
            6,
            "missing file: none\n",
        ),
        (
            EACH_STEP,
            &["run", "script", "x", "w=c", "b=none", "a=c"],
            13,
            "bad values: c text at 0\n",
        ),
        (
            SAME,
            &["run", "script", "x", "a=one"],
            11,
            "set mismatch: one has one16, wanted toy16\n",
        ),
        (
            SAME,
            &["run", "script", "x", "a=three"],
            26,
            "parts mismatch: three has 3, wanted 2\n",
        ),
        (
            TWO,
            &["run", "script", "x", "b=c", "a=five"],
            12,
            "key mismatch: five has 11111111111111111111111111111111, wanted c5d30a7ce1ec119378c84f487d775a85\n",
        ),
        (
            TEN_TIMES,
            &["run", "script", "x", "r0=c"],
            15,
            "too noisy: line 12 bound 2922217472 56 limit 4294967104 52\n",
        ),
    ];
    for (script, texts, code, line) in rows {
        let o = outcome_of(rt.alloc(), script, texts)?;
        assert_eq!(rt; o.status.code(), code, "{line}");
        assert_eq!(rt; o.printed.as_slice(), line.as_bytes());
        assert_eq!(rt; o.length, 0);
    }
    Ok(())
}

/// Runs a script on a cipher and writes the result in its place, while the store fails at one call.
/// Answers the status and what is in the file then.
fn own_input(alloc: Global, failing_call: u64) -> Result<(Status, Vec<u8>), AllocError> {
    let cipher = toy_cipher_file(alloc, FIRST_RESIDUES[0])?;
    let mut store = MemStore::new(alloc);
    store.put_file("script", SAME.as_bytes())?;
    store.put_file("a", &cipher)?;
    store.fail_at(failing_call)?;
    let (status, _) = run(alloc, &mut store, &["run", "script", "a", "a=a"])?;
    let held = match store.file("a") {
        Some(bytes) => bytes.to_vec(alloc)?,
        None => Vec::new(alloc),
    };
    Ok((status, held))
}

// The calls of the store are numbered from 0, and the last one is the commit.
#[test]
fn a_failing_call_leaves_the_input(rt: HostRuntime) -> Result<(), Fail> {
    let alloc = rt.alloc();
    let cipher = toy_cipher_file(alloc, FIRST_RESIDUES[0])?;
    for call in 0..CALLS {
        let (status, held) = own_input(alloc, call)?;
        assert!(rt;
            matches!(status, Status::ReadFault { .. } | Status::WriteFault),
            "{call}"
        );
        assert_eq!(rt; held.as_slice(), cipher.as_slice());
    }
    let (status, held) = own_input(alloc, CALLS)?;
    assert_eq!(rt; status, Status::Done);
    assert_eq!(rt; held.len(), 608);
    Ok(())
}
