// Files of the set toy16, each with one rule broken.
ghost use Rattle.std.specs.Prelude.{◌≡◌, ◌≤◌, length, None, IsSome, IfOk, OnOk, OnErr};
ghost use Rattle.std.specs.Option.{ForSome};
ghost use Rattle.outer_io.specs.Store.{StoreState, OnlyReads, ReadCause, ReadTold, OnlyWrites, committed, IsBytes};
ghost use Rattle.outer_io.specs.Memory.{store_state};

use crate::{FileFault, Head, Wanted, scan};
use bound_num::Bound;
use file_model::FileKind;
use outer_io::{Damage, MemStore, Store, StoreFault};
use set_table::{KeyKind, SetName};
use sha2::{Digest, Sha256};
use std::alloc::{AllocError, Global};
use std::test::Fail;

/// What the head of a file of the set toy16 states.
#[derive(Clone, Copy)]
struct Form {
    wanted: Wanted,
    kind: FileKind,
    number: u8,
    parts: u8,
    element: u8,
    bound: Bound,
    /// How many rows of 16 words follow.
    rows: u8,
}

const NO_BOUND: Bound = Bound { m: 0, e: 0 };

/// The greatest bound that a cipher of the set may state.
const LIMIT: Bound = Bound {
    m: 4_294_967_104,
    e: 52,
};

const SECRET: Form = Form {
    wanted: Wanted::Secret,
    kind: FileKind::Secret,
    number: 1,
    parts: 0,
    element: 0,
    bound: NO_BOUND,
    rows: 1,
};

const PUBLIC: Form = Form {
    wanted: Wanted::Public,
    kind: FileKind::PublicKey,
    number: 2,
    parts: 0,
    element: 0,
    bound: NO_BOUND,
    rows: 4,
};

const RELIN: Form = Form {
    wanted: Wanted::Key,
    kind: FileKind::SwitchKey(KeyKind::Relin),
    number: 3,
    parts: 0,
    element: 0,
    bound: NO_BOUND,
    rows: 12,
};

const TURN: Form = Form {
    wanted: Wanted::Key,
    kind: FileKind::SwitchKey(KeyKind::Turn),
    number: 4,
    parts: 0,
    element: 31,
    bound: NO_BOUND,
    rows: 12,
};

const CIPHER: Form = Form {
    wanted: Wanted::Cipher,
    kind: FileKind::Cipher,
    number: 5,
    parts: 2,
    element: 0,
    bound: LIMIT,
    rows: 4,
};

const PRODUCT: Form = Form {
    wanted: Wanted::Cipher,
    kind: FileKind::Cipher,
    number: 5,
    parts: 3,
    element: 0,
    bound: LIMIT,
    rows: 6,
};

const FORMS: [Form; 6] = [SECRET, PUBLIC, RELIN, TURN, CIPHER, PRODUCT];

/// The modulus of a row.
fn modulus(form: &Form, row: u8) -> u64 {
    let place = match form.kind {
        FileKind::Secret => return 3,
        FileKind::SwitchKey(_) => row % 3,
        FileKind::PublicKey | FileKind::Cipher => row % 2,
    };
    match place {
        0 => 8796092858369,
        1 => 8796092792833,
        _ => 17592184717313,
    }
}

/// The text of a file whose words are the greatest that are reduced, but for one that is its
/// modulus.
fn text_of(alloc: Global, form: &Form, unreduced: Option<u16>) -> Result<Vec<u8>, AllocError> {
    let mut text = Vec::new(alloc);
    text.extend_from_slice(b"BFVRNSF")?;
    text.extend_from_slice(&[1, form.number, 1, form.parts, 0])?;
    text.extend_from_slice(&[form.element, 0, 0, 0])?;
    text.extend_from_slice(&[0x11; 16])?;
    text.extend_from_slice(&form.bound.m.to_le_bytes())?;
    text.extend_from_slice(&form.bound.e.to_le_bytes())?;
    text.extend_from_slice(&(form.rows as u64 * 16).to_le_bytes())?;
    text.extend_from_slice(&[0; 16])?;
    for row in 0..form.rows {
        for k in 0..16 {
            let mut word = modulus(form, row);
            if unreduced != Some(row as u16 * 16 + k) {
                word = word.saturating_sub(1);
            }
            text.extend_from_slice(&word.to_le_bytes())?;
        }
    }
    text.extend_from_slice(&[0; 32])?;
    seal(&mut text)?;
    Ok(text)
}

/// Writes the digest anew.
fn seal(text: &mut Vec<u8>) -> Result<(), AllocError> {
    let end = text.len().saturating_sub(32);
    text.truncate(end);
    let digest = Sha256::digest(text.as_slice());
    text.extend_from_slice(&digest)
}

fn set_byte(text: &mut Vec<u8>, at: usize, value: u8) {
    if let Some(byte) = text.get_mut(at) {
        *byte = value;
    }
}

/// What a scan of a file with this text answers.
fn scan_of(
    alloc: Global,
    text: &[u8],
    wanted: Wanted,
) -> Result<Result<Head, FileFault>, AllocError> {
    let mut store = MemStore::new(alloc);
    store.put_file("f", text)?;
    Ok(scan(&mut store, "f", wanted))
}

fn field(offset: u32) -> Result<Head, FileFault> {
    Err(FileFault::Damaged(Damage::Field(offset)))
}

#[test]
fn files_are_scanned(rt: HostRuntime) -> Result<(), Fail> {
    for form in FORMS {
        let text = text_of(rt.alloc(), &form, None)?;
        let head = Head {
            kind: form.kind,
            set: SetName::Toy16,
            parts: form.parts,
            element: form.element as u32,
            id: [0x11; 16],
            bound: form.bound,
            words: form.rows as u64 * 16,
        };
        assert_eq!(rt; scan_of(rt.alloc(), &text, form.wanted)?, Ok(head));
        for wanted in [Wanted::Secret, Wanted::Public, Wanted::Cipher, Wanted::Key] {
            if wanted != form.wanted {
                let answer = scan_of(rt.alloc(), &text, wanted)?;
                assert_eq!(rt; answer, Err(FileFault::Kind(form.number)));
            }
        }
    }
    Ok(())
}

#[test]
fn each_field_has_its_rule(rt: HostRuntime) -> Result<(), Fail> {
    let breaks: [(usize, u8, Result<Head, FileFault>); 20] = [
        (0, b'b', Err(FileFault::NotOurs)),
        (6, 0, Err(FileFault::NotOurs)),
        (7, 2, Err(FileFault::Version(2))),
        (8, 0, field(8)),
        (8, 6, field(8)),
        (9, 5, field(9)),
        (10, 1, field(10)),
        (10, 4, field(10)),
        (11, 1, field(11)),
        (12, 1, field(12)),
        (12, 2, field(12)),
        (12, 33, field(12)),
        (15, 1, field(12)),
        (32, 0x41, field(32)),
        (36, 53, field(32)),
        (39, 1, field(32)),
        (40, 1, field(40)),
        (47, 1, field(40)),
        (48, 1, field(48)),
        (63, 1, field(48)),
    ];
    for form in FORMS {
        for (at, value, fault) in breaks {
            let mut text = text_of(rt.alloc(), &form, None)?;
            set_byte(&mut text, at, value);
            seal(&mut text)?;
            assert_eq!(rt;
                scan_of(rt.alloc(), &text, form.wanted)?,
                fault,
                "kind {}, byte {at}",
                form.number
            );
        }
    }
    Ok(())
}

#[test]
fn rules_of_one_kind(rt: HostRuntime) -> Result<(), Fail> {
    let mut text = text_of(rt.alloc(), &RELIN, None)?;
    set_byte(&mut text, 9, 0);
    assert_eq!(rt; scan_of(rt.alloc(), &text, Wanted::Key)?, field(9));
    let mut text = text_of(rt.alloc(), &CIPHER, None)?;
    set_byte(&mut text, 35, 0x7f);
    assert_eq!(rt; scan_of(rt.alloc(), &text, Wanted::Cipher)?, field(32));
    let mut text = text_of(rt.alloc(), &CIPHER, None)?;
    set_byte(&mut text, 10, 3);
    assert_eq!(rt; scan_of(rt.alloc(), &text, Wanted::Cipher)?, field(40));
    Ok(())
}

#[test]
fn lengths_digests_and_words_are_tested(rt: HostRuntime) -> Result<(), Fail> {
    for form in FORMS {
        let whole = form.rows as usize * 128 + 96;
        for (length, want) in [
            (7, 64),
            (63, 64),
            (64, whole),
            (95, whole),
            (whole - 1, whole),
        ] {
            let mut text = text_of(rt.alloc(), &form, None)?;
            text.truncate(length);
            let fault = Damage::Length {
                have: length as u64,
                want: want as u64,
            };
            let answer = scan_of(rt.alloc(), &text, form.wanted)?;
            assert_eq!(rt; answer, Err(FileFault::Damaged(fault)));
            text.truncate(6);
            let answer = scan_of(rt.alloc(), &text, form.wanted)?;
            assert_eq!(rt; answer, Err(FileFault::NotOurs));
        }
        for row in 0..form.rows as u16 {
            for word in [row * 16, row * 16 + 15] {
                let mut text = text_of(rt.alloc(), &form, Some(word))?;
                let fault = Damage::NotReduced(word as u64);
                let answer = scan_of(rt.alloc(), &text, form.wanted)?;
                assert_eq!(rt; answer, Err(FileFault::Damaged(fault)));
                set_byte(&mut text, whole - 1, 0);
                set_byte(&mut text, whole - 2, 0);
                let answer = scan_of(rt.alloc(), &text, form.wanted)?;
                assert_eq!(rt; answer, Err(FileFault::Damaged(Damage::Digest)));
            }
        }
    }
    Ok(())
}

/// A store that ends each read at a place of the file.
#[derive(Drop)]
struct EarlyStore {
    held: MemStore,
    end: u64,
}

impl Store for EarlyStore {
    ghost state = { λ s. record (store_state s.held) { files = None } };

    fn size(&mut self, name: &str) -> Result<u64, StoreFault> {
        self.held.size(name)
    }

    fn read_at(&mut self, name: &str, at: u64, buf: &mut [u8]) -> Result<usize, StoreFault> {
        let n = self.held.read_at(name, at, buf)?;
        Ok(n.min(self.end.saturating_sub(at) as usize))
    }

    fn begin(&mut self, name: &str) -> Result<(), StoreFault> {
        self.held.begin(name)
    }

    fn append(&mut self, piece: &[u8]) -> Result<(), StoreFault> {
        self.held.append(piece)
    }

    fn commit(&mut self) -> Result<(), StoreFault> {
        self.held.commit()
    }
}

#[test]
fn reads_that_end_early_give_their_place(rt: HostRuntime) -> Result<(), Fail> {
    let text = text_of(rt.alloc(), &CIPHER, None)?;
    for (end, want) in [(0, 64), (40, 64), (64, 608), (300, 608), (607, 608)] {
        let mut held = MemStore::new(rt.alloc());
        held.put_file("f", &text)?;
        let mut store = EarlyStore { held, end };
        let fault = Damage::Length { have: end, want };
        let answer = scan(&mut store, "f", Wanted::Cipher);
        assert_eq!(rt; answer, Err(FileFault::Damaged(fault)));
    }
    Ok(())
}

#[test]
fn faults_of_the_store_are_answered(rt: HostRuntime) -> Result<(), Fail> {
    for call in 0..5 {
        let mut store = MemStore::new(rt.alloc());
        store.put_file("f", &text_of(rt.alloc(), &CIPHER, None)?)?;
        let missing = scan(&mut store, "g", Wanted::Cipher);
        assert_eq!(rt; missing, Err(FileFault::Missing));
        store.fail_at(call)?;
        let failed = scan(&mut store, "f", Wanted::Cipher);
        assert_eq!(rt; failed == Err(FileFault::Failed), 0 < call, "at {call}");
    }
    Ok(())
}
