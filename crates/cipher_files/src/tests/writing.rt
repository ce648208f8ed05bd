// Switching keys that are written. Their digests are those of the same files by another program.
ghost use Rattle.std.specs.Prelude.{◌≡◌, ◌+◌, ◌*◌, length, true};
ghost use Rattle.set_table.specs.Sets.{data_of, degree_of, key_of};
ghost use Rattle.bfv_params.specs.Rows.{ReducedInTurn};
ghost use Rattle.file_model.specs.declared.head.Wanted.TheVariants.{Key};
ghost use Rattle.file_model.specs.Heads.{HeadKeepsRules, wants};

use crate::{Head, KeyWriter};
use bound_num::Bound;
use file_model::FileKind;
use outer_io::{MemStore, Store, StoreFault};
use rns_poly::{PolyBuf, View};
use set_table::{KeyKind, SetName};
use sha2::{Digest, Sha256};
use std::alloc::Global;
use std::test::Fail;

const RELIN: Head = Head {
    kind: FileKind::SwitchKey(KeyKind::Relin),
    set: SetName::Toy16,
    parts: 0,
    element: 0,
    id: *b"0123456789abcdef",
    bound: Bound { m: 0, e: 0 },
    words: 192,
};

const TURN: Head = Head {
    kind: FileKind::SwitchKey(KeyKind::Turn),
    set: SetName::Toy16,
    parts: 0,
    element: 3,
    id: *b"0123456789abcdef",
    bound: Bound { m: 0, e: 0 },
    words: 192,
};

const RELIN_DIGEST: [u8; 32] = [
    0x03, 0x2b, 0x69, 0xf1, 0xb3, 0x32, 0xce, 0xbf, 0x7a, 0xd5, 0xcb, 0xd7, 0xf4, 0x38, 0xcd, 0x1e,
    0x9b, 0x80, 0xf3, 0x05, 0xed, 0xc6, 0x5b, 0xdf, 0x9a, 0x73, 0x68, 0xda, 0x9e, 0x32, 0x09, 0xc0,
];

const TURN_DIGEST: [u8; 32] = [
    0x74, 0x20, 0x93, 0xeb, 0x73, 0xad, 0x54, 0xfb, 0x41, 0xc5, 0xd5, 0x45, 0x81, 0x4b, 0xa5, 0xbe,
    0x41, 0x2a, 0xd7, 0xd6, 0x87, 0x16, 0xe1, 0xf3, 0x7b, 0x09, 0x8b, 0x2a, 0xa8, 0xe4, 0xdf, 0xd4,
];

/// Writes a switching key whose digits are all the same.
fn write_key<S: Store, const N: usize>(
    store: &mut S,
    name: &str,
    head: &Head,
    digit: View<'_, N>,
) -> Result<(), StoreFault>
    requires rules { HeadKeepsRules head.now }
    requires kind { wants Key head.now.kind ≡ true }
    requires degree { N ≡ degree_of head.now.set }
    requires count { length digit.rows.now ≡ 2 * (length (data_of head.now.set) + 1) }
    requires reduced { ReducedInTurn N (length (data_of head.now.set) + 1) (key_of head.now.set) digit.rows.now }
{
    let mut writer = KeyWriter::begin(store, name, head)?;
    'digits: for _i in 0..head.set.data_count() {
        writer.put_digit(store, digit)?;
    }
    writer.finish(store)
}

/// The digest of the file of a key whose rows are zero.
fn key_digest<const N: usize>(
    alloc: Global,
    head: &Head,
    rows: &PolyBuf<N>,
) -> Result<Option<[u8; 32]>, Fail>
    requires rules { HeadKeepsRules head.now }
    requires kind { wants Key head.now.kind ≡ true }
    requires degree { N ≡ degree_of head.now.set }
    requires count { length rows.now ≡ 2 * (length (data_of head.now.set) + 1) }
    requires reduced { ReducedInTurn N (length (data_of head.now.set) + 1) (key_of head.now.set) rows.now }
{
    let mut store = MemStore::new(alloc);
    write_key(&mut store, "key", head, rows.view())?;
    match store.file("key") {
        Some(bytes) => Ok(Some(Sha256::digest(bytes))),
        None => Ok(None),
    }
}

#[test]
fn keys_are_written(rt: HostRuntime) -> Result<(), Fail> {
    let rows = PolyBuf::<16>::new(rt.alloc(), 6)?;
    assert_eq!(rt; key_digest(rt.alloc(), &RELIN, &rows)?, Some(RELIN_DIGEST));
    assert_eq!(rt; key_digest(rt.alloc(), &TURN, &rows)?, Some(TURN_DIGEST));
    Ok(())
}
