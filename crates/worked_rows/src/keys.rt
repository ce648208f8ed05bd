// Secrets, public keys and ciphers of all sets, from seeds.
use crate::commands::{SIXTEEN, made, run, seed};
use command_words::Status;
use outer_io::MemStore;
use std::alloc::{AllocError, Global};
use std::test::Fail;

/// The digest of the secret of `toy16` that the first seed draws.
const TOY_SECRET: &str = "8a9c25cc8f027d2025efb4041ecad25b52407f7e34297dbd113e300c48274dd9";

/// The digest of the secret of `s16384` that it draws.
const LARGEST_SECRET: &str = "55f2c00ecfc7c13eeab13b64f1946f426a86e260a4449553966f1563dac76f67";

const ZEROS: &str = "0 0 0 0 0 0 0 0\n0 0 0 0 0 0 0 0\n";

/// What a command leads to, and the bytes of the file `x` after it.
#[derive(Drop)]
struct Outcome {
    status: Status,
    printed: Vec<u8>,
    written: Vec<u8>,
}

/// Runs a command on the store that these values make for a set, with one more file.
fn outcome_of(
    alloc: Global,
    set: &str,
    values: &str,
    name: &str,
    bytes: &[u8],
    texts: &[&str],
) -> Result<Outcome, AllocError> {
    let mut store = made(alloc, set, values)?;
    store.put_file(name, bytes)?;
    let (status, printed) = run(alloc, &mut store, texts)?;
    let written = match store.file("x") {
        Some(bytes) => bytes.to_vec(alloc)?,
        None => Vec::new(alloc),
    };
    Ok(Outcome {
        status,
        printed,
        written,
    })
}

/// The length of a file that ends in the digest with these hexadecimal digits.
pub fn length_of(store: &MemStore, name: &str, digits: &str) -> Option<usize> {
    let bytes = store.file(name)?;
    let mut digest = [0; 32];
    hex::decode_to_slice(digits, &mut digest).ok()?;
    if bytes.ends_with(&digest) {
        Some(bytes.len())
    } else {
        None
    }
}

/// The lengths of the secret, the public key and the cipher, where they end in these digests.
fn lengths_of(store: &MemStore, digests: [&str; 3]) -> Option<[usize; 3]> {
    let [secret, public, cipher] = digests;
    Some([
        length_of(store, "sec", secret)?,
        length_of(store, "pub", public)?,
        length_of(store, "c", cipher)?,
    ])
}

/// The length of the values that came back, where they begin as the sixteen do.
fn length_back(store: &MemStore) -> Option<usize> {
    let text = store.file("back")?;
    if text.starts_with(b"1 2 3 4 5 6 7 8") {
        Some(text.len())
    } else {
        None
    }
}

// The lengths of the values that come back, and the lengths and digests of the secret, public key
// and cipher that an independent program makes of the same seeds.
#[test]
fn seeds_make_the_same_files_as_elsewhere(rt: HostRuntime) -> Result<(), Fail> {
    let rows: [(&str, usize, [usize; 3], [&str; 3]); 4] = [
        (
            "one16",
            39,
            [224, 352, 352],
            [
                "49321a9b52ca41e3ef02e7e3f9c07a288c742ef79610d11994898dcc5f11df6b",
                "533c6e13c563a844462b6d81a4da579379a9d1edd9730dc4b0c8e06495a400c2",
                "4cc3187dc27429d5371a03177cab6732280a24e813ec029d8e5156ca97cab531",
            ],
        ),
        (
            "toy16",
            39,
            [224, 608, 608],
            [
                TOY_SECRET,
                "c62a184e54935cba07f782b7a93de15919f1e109d42068ad709b2469d34061ea",
                "516c87bd5b48fae9570364bade9a2b9cd3e6100f1a4f717ae5c9d1bf6b62e0fe",
            ],
        ),
        (
            "s4096",
            8199,
            [32_864, 131_168, 131_168],
            [
                "909cb463909ad1084b836f37ea8d2a86423e947f5458754aedc5c370459afede",
                "5608196f6b03646f60888e4283adf1cad38c3619ff01b0c7325a2beee27847bb",
                "98001e881343cc5e43e21b5742b893612068b7f65c61506c6744ffc945c66d89",
            ],
        ),
        (
            "s8192",
            16_391,
            [65_632, 524_384, 524_384],
            [
                "79c270d404c8a6d5dcf8433be51543f35baca67a21b6e100f5a30807856efa63",
                "8cfdadb6aee74a057c9a8f7b89d15dd0598dac3b8331f8d3fff4ecc48499e116",
                "a9028ed5d2af84236abb245e2ab333e076ba2ef6ff7d8f1fa73080c2ec275e7e",
            ],
        ),
    ];
    for (set, values_length, lengths, digests) in rows {
        let store = made(rt.alloc(), set, SIXTEEN)?;
        assert_eq!(rt; length_back(&store), Some(values_length), "{set}");
        assert_eq!(rt; lengths_of(&store, digests), Some(lengths), "{set}");
    }
    Ok(())
}

#[test]
fn a_secret_of_the_largest_set_is_drawn(rt: HostRuntime) -> Result<(), Fail> {
    let mut store = MemStore::new(rt.alloc());
    store.put_file("seed", &seed(0))?;
    run(rt.alloc(), &mut store, &["secret", "s16384", "seed", "x"])?;
    assert_eq!(rt; length_of(&store, "x", LARGEST_SECRET), Some(131_168));
    Ok(())
}

/// Whether these printed values came back.
fn came_back(store: &MemStore, text: &str) -> bool {
    store.file("back") == Some(text.as_bytes())
}

#[test]
fn values_come_back(rt: HostRuntime) -> Result<(), Fail> {
    let rows: [(&str, &str, &str); 4] = [
        ("one16", SIXTEEN, SIXTEEN),
        ("one16", "", ZEROS),
        ("toy16", SIXTEEN, SIXTEEN),
        ("toy16", "256\t0007", "256 7 0 0 0 0 0 0\n0 0 0 0 0 0 0 0\n"),
    ];
    for (set, values, text) in rows {
        let store = made(rt.alloc(), set, values)?;
        assert!(rt; came_back(&store, text), "{set} {values}");
    }
    Ok(())
}

#[test]
fn a_seed_is_the_front_of_its_file(rt: HostRuntime) -> Result<(), Fail> {
    let mut longer = [7; 33];
    longer[..32].copy_from_slice(&seed(0));
    let mut store = MemStore::new(rt.alloc());
    store.put_file("seed", &longer)?;
    store.put_file("short", &[1; 31])?;
    let (status, _) = run(rt.alloc(), &mut store, &["secret", "toy16", "seed", "x"])?;
    assert_eq!(rt; status, Status::Done);
    assert_eq!(rt; length_of(&store, "x", TOY_SECRET), Some(224));

    let (status, printed) = run(rt.alloc(), &mut store, &["secret", "toy16", "short", "y"])?;
    assert_eq!(rt; status.code(), 19);
    assert_eq!(rt; printed.as_slice(), b"short seed: short 31\n".as_slice());
    assert!(rt; store.file("y").is_none());
    Ok(())
}

#[test]
fn values_are_refused_with_their_place(rt: HostRuntime) -> Result<(), Fail> {
    let rows: [(&str, &str); 3] = [
        ("1 2 3 257", "bad values: v too large at 3\n"),
        (
            "1 1 1 1 1 1 1 1 1 1 1 1 1 1 1 1 1",
            "bad values: v too many\n",
        ),
        ("1 x", "bad values: v text at 2\n"),
    ];
    for (values, line) in rows {
        let texts = ["encrypt", "pub", "s4", "v", "x"];
        let o = outcome_of(rt.alloc(), "toy16", "", "v", values.as_bytes(), &texts)?;
        assert_eq!(rt; o.status.code(), 13, "{line}");
        assert_eq!(rt; o.printed.as_slice(), line.as_bytes());
        assert_eq!(rt; o.written.len(), 0);
    }
    Ok(())
}

#[test]
fn operands_are_read_in_order(rt: HostRuntime) -> Result<(), Fail> {
    let rows: [(&[&str], &str); 9] = [
        (&["secret", "toy32", "s0", "x"], "usage\n"),
        (&["secret", "s4096", "none", "x"], "missing file: none\n"),
        (&["public", "pub", "seed", "x"], "wrong kind 2: pub\n"),
        (&["public", "seed", "seed", "x"], "not ours: seed\n"),
        (&["public", "sec", "seed", "x"], "short seed: seed 5\n"),
        (
            &["encrypt", "sec", "seed", "none", "x"],
            "wrong kind 1: sec\n",
        ),
        (
            &["encrypt", "pub", "seed", "none", "x"],
            "short seed: seed 5\n",
        ),
        (
            &["encrypt", "pub", "s4", "none", "x"],
            "missing file: none\n",
        ),
        (
            &["encrypt", "pub", "s4", "sec", "x"],
            "bad values: sec text at 0\n",
        ),
    ];
    for (texts, line) in rows {
        let o = outcome_of(rt.alloc(), "toy16", "", "seed", b"short", texts)?;
        assert_eq!(rt; o.printed.as_slice(), line.as_bytes());
        assert_eq!(rt; o.written.len(), 0);
    }
    Ok(())
}
