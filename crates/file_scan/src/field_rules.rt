// The rules of the fields of a head, one function for each.
ghost use Rattle.std.specs.Prelude.{◌≡◌, ◌*◌, ◌^◌, ◌==◌, ◌<◌, true};
ghost use Rattle.std.specs.List.{list_all};
ghost use Rattle.set_table.specs.Sets.{degree_of};
ghost use Rattle.file_model.specs.FileText as text;
ghost use Rattle.file_model.specs.Heads as heads;

use crate::Wanted;
use bound_num::Bound;
use file_model::FileKind;
use set_table::{KeyKind, SetName};

/// Whether a file of this kind is wanted.
pub fn wants(wanted: Wanted, kind: FileKind) -> bool
    ensures { result ≡ heads.wants wanted kind }
{
    match wanted {
        Wanted::Secret => kind == FileKind::Secret,
        Wanted::Public => kind == FileKind::PublicKey,
        Wanted::Cipher => kind == FileKind::Cipher,
        Wanted::Key => matches!(kind, FileKind::SwitchKey(_)),
    }
}

pub fn set_fits(kind: FileKind, set: SetName) -> bool
    ensures { result ≡ text.set_fits kind set }
{
    match kind {
        FileKind::SwitchKey(_) => set.special().is_some(),
        _ => true,
    }
}

pub fn parts_fit(kind: FileKind, parts: u8) -> bool
    ensures { result ≡ text.parts_fit kind parts }
{
    match kind {
        FileKind::Cipher => parts == 2 || parts == 3,
        _ => parts == 0,
    }
}

pub fn element_fits(kind: FileKind, set: SetName, element: u32) -> bool
    ensures { result ≡ text.element_fits kind set element }
{
    match kind {
        FileKind::SwitchKey(KeyKind::Turn) => {
            element % 2 == 1 && 1 < element && (element as usize) < 2 * set.degree()
        }
        _ => element == 0,
    }
}

pub fn bound_fits(kind: FileKind, set: SetName, bound: Bound) -> bool
    ensures { result ≡ text.bound_fits kind set bound.m bound.e }
{
    match kind {
        FileKind::Cipher => is_within_limit(set, bound),
        _ => bound.m == 0 && bound.e == 0,
    }
}

/// Whether the bound is canonical, and at most the limit of the set.
fn is_within_limit(set: SetName, bound: Bound) -> bool
    ensures { result ≡ text.bound_fits FileKind.Cipher set bound.m bound.e }
{
    bound.is_canonical() && bound.cmp(noise_check::limit(set)).is_le()
}

pub fn count_fits(kind: FileKind, set: SetName, parts: u8, words: u64) -> bool
    ensures value { result ≡ (words == text.row_count kind set parts * degree_of set) }
    ensures few { result ≡ true → words < 2 ^ 32 }
{
    words == kind.row_count(set, parts) * set.degree() as u64
}

/// Whether the last bytes of a head are zero.
pub fn zeros_fit(bytes: &[u8]) -> bool
    ensures { result ≡ list_all (λ byte. byte == 0) bytes.now }
{
    bytes.iter().all(|byte| *byte == 0)
}
