// Batches of commands: those that are done, the one that isn't, and texts that are refused.
use crate::commands::SIXTEEN;
use crate::words::words_of;
use bfv_commands::command;
use outer_io::{MemSink, MemStore};
use std::alloc::{AllocError, Global};
use std::test::Fail;

const SCRIPT: &str = "set toy16\ncipher a\noutput a\n";

/// What a batch leads to, and the store after it.
#[derive(Drop)]
struct Outcome {
    code: u8,
    printed: Vec<u8>,
    store: MemStore,
}

/// Runs `batch b` on a store with three seeds, values, a script and this file.
fn outcome_of(alloc: Global, name: &str, batch: &[u8]) -> Result<Outcome, AllocError> {
    let words = words_of(alloc, &["batch", "b"])?;
    let mut store = MemStore::new(alloc);
    store.put_file("s0", &[1; 32])?;
    store.put_file("s1", &[2; 32])?;
    store.put_file("s4", &[3; 32])?;
    store.put_file("v", SIXTEEN.as_bytes())?;
    store.put_file("s", SCRIPT.as_bytes())?;
    store.put_file(name, batch)?;
    let mut out = MemSink::new(alloc);
    let status = command(alloc, &words, &mut store, &mut out);
    Ok(Outcome {
        code: status.code(),
        printed: out.text().to_vec(alloc)?,
        store,
    })
}

/// How many of the files there are.
fn count_files(store: &MemStore, names: &[&str]) -> usize {
    names
        .iter()
        .filter(|name| store.file(name).is_some())
        .count()
}

const FIFTH_REFUSED: &[u8] = b"secret toy16 s0 sec
public sec s1 pub
encrypt pub s4 v c
decrypt sec c back
decrypt sec none x
secret toy16 s0 six
public sec s1 seven
encrypt pub s4 v eight
";

#[test]
fn stops_at_the_first_refusal(rt: HostRuntime) -> Result<(), Fail> {
    let alloc = rt.alloc();
    let outcome = outcome_of(alloc, "b", FIFTH_REFUSED)?;
    let made = count_files(&outcome.store, &["sec", "pub", "c", "back"]);
    let others = count_files(&outcome.store, &["x", "six", "seven", "eight"]);
    assert_eq!(rt; outcome.code, 6);
    assert_eq!(rt;
        outcome.printed.as_slice(),
        b"missing file: none\n".as_slice()
    );
    assert_eq!(rt; (made, others), (4, 0));
    assert_eq!(rt; outcome.store.file("back"), Some(SIXTEEN.as_bytes()));
    Ok(())
}

#[test]
fn answers_as_its_commands(rt: HostRuntime) -> Result<(), Fail> {
    let alloc = rt.alloc();
    let rows: [(&str, &[u8], u8, &[u8]); 12] = [
        ("b", b"", 0, b""),
        ("b", b"\n# no command \x80\n \t\r\n", 0, b""),
        ("b", b"check s", 0, b"accepted 178358 0\n"),
        (
            "b",
            b"\n  check\ts\r\n#\ncheck s\n",
            0,
            b"accepted 178358 0\naccepted 178358 0\n",
        ),
        (
            "b",
            b"check s\ncheck none\ncheck s\n",
            6,
            b"accepted 178358 0\nmissing file: none\n",
        ),
        ("b", b"no command\ncheck s\n", 2, b"usage\n"),
        ("b", b"drum\n", 2, b"usage\n"),
        (
            "b",
            b"check s\nbatch c\n",
            14,
            b"bad script: syntax line 2\n",
        ),
        ("b", b"batch\n", 14, b"bad script: syntax line 1\n"),
        (
            "b",
            b"check s\n\ncheck \x7f\n",
            14,
            b"bad script: syntax line 3\n",
        ),
        ("b", b"check s \x00\n", 14, b"bad script: syntax line 1\n"),
        ("c", b"check s\n", 6, b"missing file: b\n"),
    ];
    for (i, (name, batch, code, printed)) in rows.iter().enumerate() {
        let outcome = outcome_of(alloc, name, batch)?;
        assert_eq!(rt; outcome.code, *code, "in row {i}");
        assert_eq!(rt; outcome.printed.as_slice(), *printed, "in row {i}");
    }
    Ok(())
}

#[test]
fn has_at_most_a_thousand_commands(rt: HostRuntime) -> Result<(), Fail> {
    let alloc = rt.alloc();
    let mut batch = Vec::new(alloc);
    for _ in 0..1000 {
        batch.extend_from_slice(b"check none\n# \n")?;
    }
    let most = outcome_of(alloc, "b", &batch)?;
    assert_eq!(rt; most.printed.as_slice(), b"missing file: none\n".as_slice());
    batch.extend_from_slice(b"check none")?;
    let more = outcome_of(alloc, "b", &batch)?;
    assert_eq!(rt; more.code, 14);
    assert_eq!(rt;
        more.printed.as_slice(),
        b"bad script: too long\n".as_slice()
    );
    Ok(())
}
