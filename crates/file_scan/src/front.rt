// The head at the front of a file.
ghost use Rattle.std.specs.Prelude.{◌≡◌, ◌+◌, ◌^◌, ◌≤◌, ◌<◌, true, false, length, slice_index, Some, Result, Err, IfOk, IfErr, OnOk};
ghost use Rattle.set_table.specs.declared.SetName.{SetName};
ghost use Rattle.file_model.specs.declared.file_kind.FileKind.{FileKind};
ghost use Rattle.file_model.specs.Bytes.{bytes_from};
ghost use Rattle.file_model.specs.FileText.{FileContent};
ghost use Rattle.file_model.specs.Heads as heads;
ghost use Rattle.file_model.specs.Scan as scan;
ghost use Rattle.file_model.specs.Scan.{tested_fields, set_tests, head_tests};
ghost use Rattle.set_table.specs.Sets.{set_numbered};
ghost use Rattle.file_model.specs.Fronts.{head_at};
ghost use Rattle.file_scan.specs.Scanning.{IsTestFault};
ghost use Rattle.file_model.specs.ScanFaults.{IsScanFault, is_field};
ghost use Rattle.file_model.specs.declared.head.Wanted.{Wanted};
ghost use Rattle.file_model.specs.declared.faults.FileFault.{FileFault};

use crate::field_rules::{
    bound_fits, count_fits, element_fits, parts_fit, set_fits, wants, zeros_fit,
};
use crate::layout::{FORMAT_NAME, HEAD_BYTES, VERSION, number_4, number_8};
use crate::{FileFault, Head, Wanted};
use bound_num::Bound;
use file_model::FileKind;
use outer_io::Damage;
use set_table::SetName;

#[tactic(auto, unfolding(file_model::specs::Bytes::bytes_from))]
fn sixteen_bytes(bytes: &[u8], from: usize) -> [u8; 16]
    requires { from + 16 ≤ length bytes.now }
    ensures { result ≡ bytes_from from 16 bytes.now }
{
    let mut sixteen = [0; 16];
    sixteen.copy_from_slice(&bytes[from..from + 16]);
    sixteen
}

fn bad_field(offset: u32) -> FileFault
    ensures { result ≡ scan.bad_field offset }
{
    FileFault::Damaged(Damage::Field(offset))
}

/// The fault of the field at this offset, where its rule is broken.
fn check_field(passes: bool, offset: u32) -> Result<(), FileFault>
    requires field { is_field offset ≡ true }
    ensures ok { OnOk result (passes ≡ true) }
    ensures broken { IfErr result (λ _. passes ≡ false) }
    ensures fault { IfErr result (λ fault. fault ≡ scan.bad_field offset) }
    ensures faults { IsTestFault result }
    ensures kept { (wanted : Wanted) → IfErr result (IsScanFault wanted) }
{
    if passes {
        Ok(())
    } else {
        Err(bad_field(offset))
    }
}

/// The kind in a head of version 1, where it is wanted.
#[tactic(auto, unfolding(file_model::specs::Scan::head_tests))]
fn kind_in(front: &[u8], wanted: Wanted) -> Result<FileKind, FileFault>
    ensures long { IfOk result (λ _. 64 ≤ length front.now) }
    ensures wanted { IfOk result (λ kind. heads.wants wanted kind ≡ true) }
    ensures ok { IfOk result (λ kind. (further : FileKind → SetName → Result FileContent FileFault)
        → head_tests wanted front.now further ≡ set_tests kind (set_numbered (slice_index front.now 9)) front.now further) }
    ensures err { IfErr result (λ fault. (further : FileKind → SetName → Result FileContent FileFault)
        → head_tests wanted front.now further ≡ Err fault) }
    ensures faults { IsTestFault result }
    ensures kept { IfErr result (IsScanFault wanted) }
{
    if !front.starts_with(&FORMAT_NAME) {
        return Err(FileFault::NotOurs);
    }
    if front.len() < HEAD_BYTES {
        return Err(FileFault::Damaged(Damage::Length {
            have: front.len() as u64,
            want: HEAD_BYTES as u64,
        }));
    }
    if front[7] != VERSION {
        return Err(FileFault::Version(front[7]));
    }
    match FileKind::from_number(front[8]) {
        None => Err(bad_field(8)),
        Some(kind) => {
            if wants(wanted, kind) {
                Ok(kind)
            } else {
                Err(FileFault::Kind(front[8]))
            }
        }
    }
}

/// The head of a file of this kind and set.
#[tactic(auto, unfolding(file_model::specs::Scan::tested_fields))]
fn fields_in(front: &[u8], kind: FileKind, set: SetName) -> Result<Head, FileFault>
    requires { 64 ≤ length front.now }
    ensures head { IfOk result (λ head. head ≡ head_at kind set front.now) }
    ensures rules { IfOk result heads.HeadKeepsRules }
    ensures few { IfOk result (λ head. head.words < 2 ^ 32) }
    ensures ok { IfOk result (λ _. (further : Result FileContent FileFault)
        → tested_fields kind set front.now further ≡ further) }
    ensures err { IfErr result (λ fault. (further : Result FileContent FileFault)
        → tested_fields kind set front.now further ≡ Err fault) }
    ensures faults { IsTestFault result }
    ensures kept { (wanted : Wanted) → IfErr result (IsScanFault wanted) }
{
    let parts = front[10];
    let element = number_4(front, 12);
    let bound = Bound {
        m: number_4(front, 32),
        e: number_4(front, 36),
    };
    let words = number_8(front, 40);
    check_field(set_fits(kind, set), 9)?;
    check_field(parts_fit(kind, parts), 10)?;
    check_field(front[11] == 0, 11)?;
    check_field(element_fits(kind, set, element), 12)?;
    check_field(bound_fits(kind, set, bound), 32)?;
    check_field(count_fits(kind, set, parts, words), 40)?;
    check_field(zeros_fit(&sixteen_bytes(front, 48)), 48)?;
    Ok(Head {
        kind,
        set,
        parts,
        element,
        id: sixteen_bytes(front, 16),
        bound,
        words,
    })
}

/// The head that stands in the first bytes of a file, where it passes all its tests.
pub fn head_in(front: &[u8], wanted: Wanted) -> Result<Head, FileFault>
    ensures long { IfOk result (λ _. 64 ≤ length front.now) }
    ensures head { IfOk result (λ head. head ≡ head_at head.kind head.set front.now) }
    ensures rules { IfOk result (λ head. heads.HeadKeepsRules head × (heads.wants wanted head.kind ≡ true)) }
    ensures few { IfOk result (λ head. head.words < 2 ^ 32) }
    ensures ok { IfOk result (λ head. (further : FileKind → SetName → Result FileContent FileFault)
        → head_tests wanted front.now further ≡ further head.kind head.set) }
    ensures err { IfErr result (λ fault. (further : FileKind → SetName → Result FileContent FileFault)
        → head_tests wanted front.now further ≡ Err fault) }
    ensures faults { IsTestFault result }
    ensures kept { IfErr result (IsScanFault wanted) }
{
    let kind = kind_in(front, wanted)?;
    match SetName::from_number(front[9]) {
        Some(set) => fields_in(front, kind, set),
        None => Err(bad_field(9)),
    }
}
