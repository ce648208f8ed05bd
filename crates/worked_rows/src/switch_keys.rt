// Switching keys of all sets that have them, from seeds.
ghost use Rattle.std.specs.Prelude.{◌≡◌, None, IfOk};
ghost use Rattle.outer_io.specs.Memory.{pending_name};

use crate::commands::{run, seed};
use crate::keys::length_of;
use command_words::Status;
use outer_io::MemStore;
use std::alloc::{AllocError, Global};
use std::test::Fail;

/// The bytes of the file `x` before a command.
const OLD: &[u8; 3] = b"old";

/// What a command leads to, and the bytes of the file `x` after it.
#[derive(Drop)]
struct Outcome {
    status: Status,
    printed: Vec<u8>,
    written: Vec<u8>,
}

/// A store of which no call was made, with seeds, a file that is too short for one, a file `x`, and a
/// secret of a set and its public key.
fn with_secret(alloc: Global, set: &str) -> Result<MemStore, AllocError>
    ensures { IfOk result (λ s. pending_name s.pending ≡ None) }
{
    let mut first = MemStore::new(alloc);
    first.put_file("s0", &seed(0))?;
    run(alloc, &mut first, &["secret", set, "s0", "sec"])?;
    run(alloc, &mut first, &["public", "sec", "s0", "pub"])?;
    let mut store = MemStore::new(alloc);
    store.put_file("s2", &seed(2))?;
    store.put_file("s3", &seed(3))?;
    store.put_file("short", b"short")?;
    store.put_file("x", OLD)?;
    store.put_file("sec", first.file("sec").unwrap_or(b""))?;
    store.put_file("pub", first.file("pub").unwrap_or(b""))?;
    Ok(store)
}

/// Runs a command on the store of a set, of which a call may fail.
fn outcome_of(
    alloc: Global,
    set: &str,
    texts: &[&str],
    failing_call: Option<u64>,
) -> Result<Outcome, AllocError> {
    let mut store = with_secret(alloc, set)?;
    if let Some(call) = failing_call {
        store.fail_at(call)?;
    }
    let (status, printed) = run(alloc, &mut store, texts)?;
    let written = match store.file("x") {
        Some(bytes) => bytes.to_vec(alloc)?,
        None => Vec::new(alloc),
    };
    Ok(Outcome {
        status,
        printed,
        written,
    })
}

/// The lengths of the key of relinearisation and of two turn keys, where they end in these digests.
fn lengths_of(store: &MemStore, digests: [&str; 3]) -> Option<[usize; 3]> {
    let [relin, third, swap] = digests;
    Some([
        length_of(store, "relin", relin)?,
        length_of(store, "third", third)?,
        length_of(store, "swap", swap)?,
    ])
}

// The digests are those of the keys that an independent program makes of the same seeds.
#[test]
fn seeds_make_the_same_keys_as_elsewhere(rt: HostRuntime) -> Result<(), Fail> {
    let rows: [(&str, usize, [&str; 3]); 3] = [
        (
            "toy16",
            1632,
            [
                "2d36c3ef8ee602a8be84ed50495f95ba7a5a9c9748d8b41cdf7e4932426b30a2",
                "5bfc79f98257a5e1961cc9495ed1dac98b011648df5bfac979da351ed77c5f3e",
                "8b2ea92d2e5deb1f605434da203807ec8c33bb48b7766cc0c9b0143468869efa",
            ],
        ),
        (
            "s4096",
            393_312,
            [
                "62b10ebf74bd4887ab1964160604217699caa3396ce295377f79caa4f103848c",
                "d9b05d93b6a7f439cc3781ecde9429389ca95e4230cf57bee742da3a4f77cc78",
                "5b7299653251cbf70c096d042d5d2aaaa3f8345d069c0038e2e8abfb804da141",
            ],
        ),
        (
            "s8192",
            2_621_536,
            [
                "fc374432100e96621ecea73f592f21b80c1ef6dc66ba2cdf81c3c2fd82a72ba8",
                "429fa7ca42db9849a5af5b44afe6adb813020eaa347873fe0c5d9fdc5a8df802",
                "71462634c1bbcc55a73eefa23b223acdaa0e9153fb5614a0f2331ee7419adc12",
            ],
        ),
    ];
    for (set, length, digests) in rows {
        let mut store = with_secret(rt.alloc(), set)?;
        run(rt.alloc(), &mut store, &["relin", "sec", "s2", "relin"])?;
        run(rt.alloc(), &mut store, &["turn", "sec", "3", "s3", "third"])?;
        run(
            rt.alloc(),
            &mut store,
            &["turn", "sec", "swap", "s3", "swap"],
        )?;
        assert_eq!(rt; lengths_of(&store, digests), Some([length; 3]), "{set}");
    }
    Ok(())
}

#[test]
fn equal_seeds_make_equal_keys(rt: HostRuntime) -> Result<(), Fail> {
    let mut store = with_secret(rt.alloc(), "toy16")?;
    run(rt.alloc(), &mut store, &["turn", "sec", "7", "s3", "a"])?;
    run(rt.alloc(), &mut store, &["turn", "sec", "7", "s3", "b"])?;
    run(rt.alloc(), &mut store, &["turn", "sec", "7", "s2", "c"])?;
    assert!(rt; store.file("a").is_some());
    assert!(rt; store.file("a") == store.file("b"));
    assert!(rt; store.file("a") != store.file("c"));
    Ok(())
}

#[test]
fn keys_are_refused_in_order(rt: HostRuntime) -> Result<(), Fail> {
    let rows: [(&str, &[&str], u8, &str); 17] = [
        (
            "one16",
            &["relin", "sec", "none", "x"],
            18,
            "no special modulus: one16\n",
        ),
        (
            "one16",
            &["turn", "sec", "8", "none", "x"],
            18,
            "no special modulus: one16\n",
        ),
        (
            "one16",
            &["turn", "sec", "swap", "s3", "x"],
            18,
            "no special modulus: one16\n",
        ),
        (
            "toy16",
            &["relin", "none", "s2", "x"],
            6,
            "missing file: none\n",
        ),
        (
            "toy16",
            &["relin", "pub", "s2", "x"],
            10,
            "wrong kind 2: pub\n",
        ),
        (
            "toy16",
            &["relin", "sec", "none", "x"],
            6,
            "missing file: none\n",
        ),
        (
            "toy16",
            &["relin", "sec", "short", "x"],
            19,
            "short seed: short 5\n",
        ),
        (
            "toy16",
            &["turn", "none", "8", "s3", "x"],
            6,
            "missing file: none\n",
        ),
        (
            "toy16",
            &["turn", "sec", "8", "none", "x"],
            20,
            "bad step: 8\n",
        ),
        (
            "toy16",
            &["turn", "sec", "18446744073709551615", "s3", "x"],
            20,
            "bad step: 18446744073709551615\n",
        ),
        (
            "toy16",
            &["turn", "sec", "7", "short", "x"],
            19,
            "short seed: short 5\n",
        ),
        ("toy16", &["turn", "sec", "0", "s3", "x"], 2, "usage\n"),
        ("toy16", &["turn", "sec", "03", "s3", "x"], 2, "usage\n"),
        ("toy16", &["turn", "sec", "-1", "s3", "x"], 2, "usage\n"),
        ("toy16", &["turn", "sec", "Swap", "s3", "x"], 2, "usage\n"),
        (
            "toy16",
            &["turn", "sec", "18446744073709551616", "s3", "x"],
            2,
            "usage\n",
        ),
        ("toy16", &["turn", "sec", "s3", "x"], 2, "usage\n"),
    ];
    for (set, texts, code, line) in rows {
        let o = outcome_of(rt.alloc(), set, texts, None)?;
        assert_eq!(rt; o.status.code(), code, "{line}");
        assert_eq!(rt; o.printed.as_slice(), line.as_bytes());
        assert_eq!(rt; o.written.as_slice(), OLD.as_slice());
    }
    Ok(())
}

/// The calls of `relin` for `toy16`: the secret is asked for its size, and its head, words and digest
/// are read. Then the seed is read, and the words of the secret once more. The file OUT is begun, and
/// the head, six rows for each of two digits and the digest are appended, and it is put in its place.
const CALLS: u64 = 22;

/// What is answered where the call of this number fails.
fn fault_at(call: u64) -> Status {
    match call {
        4 => Status::ReadFault { word: 2 },
        0..6 => Status::ReadFault { word: 1 },
        _ => Status::WriteFault,
    }
}

#[test]
fn a_failing_call_leaves_the_file(rt: HostRuntime) -> Result<(), Fail> {
    let relin = ["relin", "sec", "s2", "x"];
    for call in 0..CALLS {
        let o = outcome_of(rt.alloc(), "toy16", &relin, Some(call))?;
        assert_eq!(rt; o.status, fault_at(call), "{call}");
        assert_eq!(rt; o.written.as_slice(), OLD.as_slice());
    }
    let o = outcome_of(rt.alloc(), "toy16", &relin, Some(CALLS))?;
    assert_eq!(rt; o.status, Status::Done);
    assert_eq!(rt; o.written.len(), 1632);
    Ok(())
}
