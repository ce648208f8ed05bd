// `decrypt` on files of the two smallest sets.
use crate::files::{
    CIPHER_HEAD, FIRST_MODULUS, FIRST_RESIDUES, FIRST_WORD, SECRET_HEAD, SECRET_WORDS, cipher_file,
    file_of, front_of, long_toy_cipher_file, secret_file, toy_cipher_file, toy_secret_file,
    toy_secret_head, with_byte, with_other_end,
};
use crate::words::words_of;
use bfv_commands::command;
use command_words::Status;
use outer_io::{MemSink, MemStore};
use std::alloc::{AllocError, Global};
use std::test::Fail;

const FIVES: &str = "5 5 5 5 5 5 5 5\n5 5 5 5 5 5 5 5\n";

/// The number of a call that no command here comes to.
const NEVER: u64 = 1000;

/// The bytes of the file `out` before a command.
const OLD: &[u8; 3] = b"old";

/// What a command leads to.
#[derive(Drop)]
struct Outcome {
    status: Status,
    printed: Vec<u8>,
    written: Vec<u8>,
}

/// Runs a command on a store with the files `sec`, `c` and `out`, in which one call of the store
/// and one put of the sink fail.
fn outcome_of(
    alloc: Global,
    texts: &[&str],
    secret: &[u8],
    cipher: &[u8],
    failing_call: u64,
    failing_put: u64,
) -> Result<Outcome, AllocError> {
    let words = words_of(alloc, texts)?;
    let mut store = MemStore::new(alloc);
    store.put_file("sec", secret)?;
    store.put_file("c", cipher)?;
    store.put_file("out", OLD)?;
    store.fail_at(failing_call)?;
    let mut out = MemSink::new(alloc);
    out.fail_at(failing_put)?;
    let status = command(alloc, &words, &mut store, &mut out);
    let written = match store.file("out") {
        Some(bytes) => bytes.to_vec(alloc)?,
        None => Vec::new(alloc),
    };
    Ok(Outcome {
        status,
        printed: out.text().to_vec(alloc)?,
        written,
    })
}

const DECRYPT: [&str; 4] = ["decrypt", "sec", "c", "out"];

#[test]
fn ciphers_of_fives_decrypt(rt: HostRuntime) -> Result<(), Fail> {
    let alloc = rt.alloc();
    let (secret, cipher) = (secret_file(alloc)?, cipher_file(alloc)?);
    let toy_secret = toy_secret_file(alloc)?;
    let toy_cipher = toy_cipher_file(alloc, FIRST_RESIDUES[0])?;
    let long_cipher = long_toy_cipher_file(alloc)?;
    let rows: [(&[u8], &[u8]); 3] = [
        (&secret, &cipher),
        (&toy_secret, &toy_cipher),
        (&toy_secret, &long_cipher),
    ];
    for (secret, cipher) in rows {
        let o = outcome_of(alloc, &DECRYPT, secret, cipher, NEVER, NEVER)?;
        assert_eq!(rt; o.status, Status::Done);
        assert_eq!(rt; o.written.as_slice(), FIVES.as_bytes());
        assert_eq!(rt; o.printed.len(), 0);
    }
    Ok(())
}

#[test]
fn refusals_are_named(rt: HostRuntime) -> Result<(), Fail> {
    let alloc = rt.alloc();
    let (secret, cipher) = (secret_file(alloc)?, cipher_file(alloc)?);
    let rows: [(&[&str], u8, &str); 9] = [
        (&[], 2, "usage\n"),
        (&["decrypt", "sec", "c"], 2, "usage\n"),
        (&["decrypt", "sec", "", "out"], 2, "usage\n"),
        (&["seal", "sec", "c", "out"], 2, "usage\n"),
        (&["decrypt", "sec", "d", "out"], 6, "missing file: d\n"),
        (&["decrypt", "s", "d", "out"], 6, "missing file: s\n"),
        (&["decrypt", "c", "d", "out"], 10, "wrong kind 5: c\n"),
        (&["decrypt", "sec", "sec", "out"], 10, "wrong kind 1: sec\n"),
        (&["decrypt", "out", "c", "out"], 7, "not ours: out\n"),
    ];
    for (texts, code, line) in rows {
        let o = outcome_of(alloc, texts, &secret, &cipher, NEVER, NEVER)?;
        assert_eq!(rt; o.status.code(), code, "{line}");
        assert_eq!(rt; o.printed.as_slice(), line.as_bytes());
        assert_eq!(rt; o.written.as_slice(), OLD.as_slice());
    }
    Ok(())
}

#[test]
fn damage_is_named(rt: HostRuntime) -> Result<(), Fail> {
    let alloc = rt.alloc();
    let secret = toy_secret_file(alloc)?;
    let whole = toy_cipher_file(alloc, FIRST_RESIDUES[0])?;
    let short = front_of(alloc, &whole, 607)?;
    let name = front_of(alloc, &whole, 7)?;
    let half_a_head = front_of(alloc, &whole, 63)?;
    let head = front_of(alloc, &whole, 64)?;
    let mut long = whole.clone()?;
    long.push(0)?;
    let other_end = with_other_end(whole.clone()?);
    let unreduced = toy_cipher_file(alloc, FIRST_MODULUS)?;
    let unreduced_other_end = with_other_end(unreduced.clone()?);
    let rows: [(&[u8], u8, &str); 10] = [
        (b"", 7, "not ours: c\n"),
        (b"BFVRNS", 7, "not ours: c\n"),
        (&name, 9, "damaged: c length 7 of 64\n"),
        (&half_a_head, 9, "damaged: c length 63 of 64\n"),
        (&head, 9, "damaged: c length 64 of 608\n"),
        (&short, 9, "damaged: c length 607 of 608\n"),
        (&long, 9, "damaged: c length 609 of 608\n"),
        (&other_end, 9, "damaged: c digest\n"),
        (&unreduced, 9, "damaged: c word 0\n"),
        (&unreduced_other_end, 9, "damaged: c digest\n"),
    ];
    for (cipher, code, line) in rows {
        let o = outcome_of(alloc, &DECRYPT, &secret, cipher, NEVER, NEVER)?;
        assert_eq!(rt; o.status.code(), code, "{line}");
        assert_eq!(rt; o.printed.as_slice(), line.as_bytes());
        assert_eq!(rt; o.written.as_slice(), OLD.as_slice());
    }
    Ok(())
}

#[test]
fn words_of_a_secret_are_below_three(rt: HostRuntime) -> Result<(), Fail> {
    let alloc = rt.alloc();
    let mut words = SECRET_WORDS;
    words[15] = 3;
    let secret = file_of(alloc, &SECRET_HEAD, &words)?;
    let o = outcome_of(alloc, &DECRYPT, &secret, &secret, NEVER, NEVER)?;
    assert_eq!(rt; o.status.code(), 9);
    assert_eq!(rt; o.printed.as_slice(), b"damaged: sec word 15\n".as_slice());
    Ok(())
}

#[test]
fn files_that_do_not_match_are_named(rt: HostRuntime) -> Result<(), Fail> {
    let alloc = rt.alloc();
    let secret = secret_file(alloc)?;
    let toy_secret = toy_secret_file(alloc)?;
    let other = file_of(alloc, &with_byte(toy_secret_head(), 31, 171), &SECRET_WORDS)?;
    let cipher = toy_cipher_file(alloc, FIRST_RESIDUES[0])?;
    let broken = with_other_end(cipher.clone()?);
    let rows: [(&[u8], &[u8], u8, &str); 4] = [
        (
            &secret,
            &cipher,
            11,
            "set mismatch: c has toy16, wanted one16\n",
        ),
        (
            &other,
            &cipher,
            12,
            "key mismatch: c has 11111111111111111111111111111111, wanted 111111111111111111111111111111ab\n",
        ),
        (&secret, &broken, 9, "damaged: c digest\n"),
        (&other, &broken, 9, "damaged: c digest\n"),
    ];
    for (secret, cipher, code, line) in rows {
        let o = outcome_of(alloc, &DECRYPT, secret, cipher, NEVER, NEVER)?;
        assert_eq!(rt; o.status.code(), code, "{line}");
        assert_eq!(rt; o.printed.as_slice(), line.as_bytes());
        assert_eq!(rt; o.written.as_slice(), OLD.as_slice());
    }
    Ok(())
}

#[test]
fn a_failed_call_is_a_fault(rt: HostRuntime) -> Result<(), Fail> {
    let alloc = rt.alloc();
    let (secret, cipher) = (secret_file(alloc)?, cipher_file(alloc)?);
    let of_secret = Status::ReadFault { word: 1 };
    let of_cipher = Status::ReadFault { word: 2 };
    // Each file is asked for its size, and its head, words and digest are read. Then its words are
    // read again, row by row, and the file OUT is begun, written and put in its place.
    let faults = [
        of_secret,
        of_secret,
        of_secret,
        of_secret,
        of_cipher,
        of_cipher,
        of_cipher,
        of_cipher,
        of_secret,
        of_cipher,
        of_cipher,
        Status::WriteFault,
        Status::WriteFault,
        Status::WriteFault,
    ];
    for (call, status) in faults.into_iter().enumerate() {
        let o = outcome_of(alloc, &DECRYPT, &secret, &cipher, call as u64, NEVER)?;
        assert_eq!(rt; o.status, status, "call {call}");
        assert_eq!(rt; o.written.as_slice(), OLD.as_slice());
    }
    let texts = ["decrypt", "sec", "d", "out"];
    let o = outcome_of(alloc, &texts, &secret, &cipher, NEVER, 0)?;
    assert_eq!(rt; o.status, Status::MissingFile { word: 2 });
    assert_eq!(rt; o.printed.len(), 0);
    Ok(())
}

#[test]
fn each_field_of_a_head_counts(rt: HostRuntime) -> Result<(), Fail> {
    let alloc = rt.alloc();
    let secret = secret_file(alloc)?;
    let rows: [(usize, u8, &str); 23] = [
        (0, 67, "not ours: c\n"),
        (6, 71, "not ours: c\n"),
        (7, 0, "version 0: c\n"),
        (7, 2, "version 2: c\n"),
        (8, 0, "damaged: c field 8\n"),
        (8, 1, "wrong kind 1: c\n"),
        (8, 4, "wrong kind 4: c\n"),
        (8, 6, "damaged: c field 8\n"),
        (9, 1, "damaged: c field 40\n"),
        (9, 5, "damaged: c field 9\n"),
        (10, 0, "damaged: c field 10\n"),
        (10, 1, "damaged: c field 10\n"),
        (10, 3, "damaged: c field 40\n"),
        (11, 1, "damaged: c field 11\n"),
        (12, 3, "damaged: c field 12\n"),
        (15, 1, "damaged: c field 12\n"),
        (36, 1, "damaged: c field 32\n"),
        (39, 1, "damaged: c field 32\n"),
        (40, 31, "damaged: c field 40\n"),
        (40, 48, "damaged: c field 40\n"),
        (47, 1, "damaged: c field 40\n"),
        (48, 1, "damaged: c field 48\n"),
        (63, 1, "damaged: c field 48\n"),
    ];
    let mut words = [0; 32];
    words[0] = FIRST_WORD;
    for (at, byte, line) in rows {
        let cipher = file_of(alloc, &with_byte(CIPHER_HEAD, at, byte), &words)?;
        let o = outcome_of(alloc, &DECRYPT, &secret, &cipher, NEVER, NEVER)?;
        assert_eq!(rt; o.printed.as_slice(), line.as_bytes());
        assert_eq!(rt; o.written.as_slice(), OLD.as_slice());
    }
    Ok(())
}

#[test]
fn each_field_of_the_head_of_a_secret_counts(rt: HostRuntime) -> Result<(), Fail> {
    let alloc = rt.alloc();
    let cipher = cipher_file(alloc)?;
    let rows: [(usize, u8, &str); 19] = [
        (0, 67, "not ours: sec\n"),
        (6, 71, "not ours: sec\n"),
        (7, 0, "version 0: sec\n"),
        (7, 2, "version 2: sec\n"),
        (8, 2, "wrong kind 2: sec\n"),
        (8, 5, "wrong kind 5: sec\n"),
        (9, 2, "damaged: sec field 40\n"),
        (9, 5, "damaged: sec field 9\n"),
        (10, 2, "damaged: sec field 10\n"),
        (11, 1, "damaged: sec field 11\n"),
        (12, 1, "damaged: sec field 12\n"),
        (15, 1, "damaged: sec field 12\n"),
        (32, 1, "damaged: sec field 32\n"),
        (36, 1, "damaged: sec field 32\n"),
        (40, 15, "damaged: sec field 40\n"),
        (40, 32, "damaged: sec field 40\n"),
        (47, 1, "damaged: sec field 40\n"),
        (48, 1, "damaged: sec field 48\n"),
        (63, 1, "damaged: sec field 48\n"),
    ];
    for (at, byte, line) in rows {
        let secret = file_of(alloc, &with_byte(SECRET_HEAD, at, byte), &SECRET_WORDS)?;
        let o = outcome_of(alloc, &DECRYPT, &secret, &cipher, NEVER, NEVER)?;
        assert_eq!(rt; o.printed.as_slice(), line.as_bytes());
        assert_eq!(rt; o.written.as_slice(), OLD.as_slice());
    }
    Ok(())
}
