// Words of files whose heads and digests were scanned before: a second reading doesn't look at these.
ghost use Rattle.std.specs.Prelude.{◌+◌, ◌<◌, ◌^◌};

use crate::{FileFault, Head, read_cipher, read_digit, read_public, read_secret};
use bfv_params::{Cipher, Context, Public, Secret};
use bound_num::Bound;
use file_model::FileKind;
use outer_io::{Damage, MemStore};
use rns_poly::PolyBuf;
use set_table::{KeyKind, SetName};
use std::alloc::Global;
use std::test::Fail;

const KEY: Head = Head {
    kind: FileKind::SwitchKey(KeyKind::Relin),
    set: SetName::Toy16,
    parts: 0,
    element: 0,
    id: [0; 16],
    bound: Bound { m: 0, e: 0 },
    words: 192,
};

const SECRET: Head = Head {
    kind: FileKind::Secret,
    set: SetName::Toy16,
    parts: 0,
    element: 0,
    id: [0; 16],
    bound: Bound { m: 0, e: 0 },
    words: 16,
};

const PUBLIC: Head = Head {
    kind: FileKind::PublicKey,
    set: SetName::Toy16,
    parts: 0,
    element: 0,
    id: [0; 16],
    bound: Bound { m: 0, e: 0 },
    words: 64,
};

const CIPHER: Head = Head {
    kind: FileKind::Cipher,
    set: SetName::Toy16,
    parts: 2,
    element: 0,
    id: [0; 16],
    bound: Bound { m: 0, e: 0 },
    words: 64,
};

const CHANGED: Result<(), FileFault> = Err(FileFault::Damaged(Damage::Changed));

/// Puts a file whose words count up from the first.
fn put_words(
    alloc: Global,
    store: &mut MemStore,
    name: &str,
    first: u64,
    count: u64,
) -> Result<(), Fail>
    requires { first + count < 2 ^ 64 }
{
    let mut bytes = Vec::new(alloc);
    bytes.extend_from_slice(&[0; 64])?;
    for p in 0..count {
        bytes.extend_from_slice(&(first + p).to_le_bytes())?;
    }
    store.put_file(name, &bytes)?;
    Ok(())
}

#[test]
fn digit_is_read_again(rt: HostRuntime) -> Result<(), Fail> {
    let mut store = MemStore::new(rt.alloc());
    put_words(rt.alloc(), &mut store, "a", 7, 192)?;
    let mut rows = PolyBuf::<16>::new(rt.alloc(), 6)?;
    assert_eq!(rt;
        read_digit(&mut store, "a", &KEY, 1, rows.view_mut()),
        Ok(())
    );
    assert_eq!(rt; rows.view().row(5)[15], 198);
    Ok(())
}

#[test]
fn changed_secrets_are_refused(rt: HostRuntime) -> Result<(), Fail> {
    let mut store = MemStore::new(rt.alloc());
    put_words(rt.alloc(), &mut store, "above", 0, 16)?;
    put_words(rt.alloc(), &mut store, "short", 0, 2)?;
    let ctx = Context::<16>::new(rt.alloc(), SetName::Toy16)?;
    let mut into = Secret::new(rt.alloc(), &ctx)?;
    assert_eq!(rt;
        read_secret(&mut store, "above", &SECRET, &mut into),
        CHANGED
    );
    assert_eq!(rt;
        read_secret(&mut store, "short", &SECRET, &mut into),
        CHANGED
    );
    Ok(())
}

#[test]
fn changed_public_keys_are_refused(rt: HostRuntime) -> Result<(), Fail> {
    let mut store = MemStore::new(rt.alloc());
    put_words(rt.alloc(), &mut store, "above", 1 << 44, 64)?;
    put_words(rt.alloc(), &mut store, "short", 0, 63)?;
    let ctx = Context::<16>::new(rt.alloc(), SetName::Toy16)?;
    let mut into = Public::new(rt.alloc(), &ctx)?;
    assert_eq!(rt;
        read_public(&mut store, "above", &PUBLIC, &mut into),
        CHANGED
    );
    assert_eq!(rt;
        read_public(&mut store, "short", &PUBLIC, &mut into),
        CHANGED
    );
    Ok(())
}

#[test]
fn changed_ciphers_are_refused(rt: HostRuntime) -> Result<(), Fail> {
    let mut store = MemStore::new(rt.alloc());
    put_words(rt.alloc(), &mut store, "above", 1 << 44, 64)?;
    put_words(rt.alloc(), &mut store, "short", 0, 63)?;
    let ctx = Context::<16>::new(rt.alloc(), SetName::Toy16)?;
    let mut into = Cipher::new(rt.alloc(), &ctx)?;
    assert_eq!(rt;
        read_cipher(&mut store, "above", &CIPHER, &mut into),
        CHANGED
    );
    assert_eq!(rt;
        read_cipher(&mut store, "short", &CIPHER, &mut into),
        CHANGED
    );
    Ok(())
}

#[test]
fn changed_digits_are_refused(rt: HostRuntime) -> Result<(), Fail> {
    let mut store = MemStore::new(rt.alloc());
    put_words(rt.alloc(), &mut store, "above", 1 << 44, 192)?;
    put_words(rt.alloc(), &mut store, "short", 0, 191)?;
    let mut rows = PolyBuf::<16>::new(rt.alloc(), 6)?;
    assert_eq!(rt;
        read_digit(&mut store, "above", &KEY, 0, rows.view_mut()),
        CHANGED
    );
    assert_eq!(rt; rows.view().row(0)[0], 0);
    assert_eq!(rt;
        read_digit(&mut store, "short", &KEY, 1, rows.view_mut()),
        CHANGED
    );
    assert_eq!(rt;
        read_digit(&mut store, "none", &KEY, 0, rows.view_mut()),
        Err(FileFault::Missing)
    );
    Ok(())
}
