// A file read once and tested.
ghost use Rattle.std.specs.Prelude.{◌≡◌, ℕ, ◌+◌, ◌*◌, ◌^◌, ◌<◌, true, ◌++◌, length, List, take, Some, Ok, Err, IfOk, IfErr, IfSome, IsErrOf, find};
ghost use Rattle.std.specs.List.{range_with_len};
ghost use Rattle.std.specs.Option.{ForSome};
ghost use Rattle.sha2.specs.Hashers.{Holds256};
ghost use Rattle.outer_io.specs.Store.{OnlyReads, file, contents};
ghost use Rattle.file_model.specs.Bytes.{IsBytes, bytes_from};
ghost use Rattle.file_model.specs.FileText.{FileContent};
ghost use Rattle.file_model.specs.Heads.{wants, IsHeadOf, HeadKeepsRules};
ghost use Rattle.file_model.specs.Fronts.{stated_count, content_at};
ghost use Rattle.file_model.specs.Scan.{digest_fits, is_unreduced, scanned, tested_body};
ghost use Rattle.file_model.specs.Reading.{FileCause, FileTold};
ghost use Rattle.file_scan.specs.Scanning.{BeginsWith};
ghost use Rattle.file_model.specs.ScanFaults.{IsScanFault};
ghost use Rattle.file_model.specs.declared.head.Wanted.{Wanted};

use crate::file_part::read_part;
use crate::front::head_in;
use crate::layout::{DIGEST_BYTES, HEAD_BYTES, PIECE_BYTES, PIECE_WORDS, WORD_BYTES};
use crate::words::first_unreduced;
use crate::{FileFault, Head, Wanted};
use outer_io::{Damage, Store};
use sha2::{Digest, Sha256};

/// Reads the head of a file of this size, and tests and hashes it.
fn scan_head<S: Store>(
    store: &mut S,
    name: &str,
    size: u64,
    wanted: Wanted,
    hasher: &mut Sha256,
) -> Result<Head, FileFault>
    requires told_size { ForSome (S.state store.old).files (λ files.
        size ≡ length (contents files name.now)) }
    ensures keeps { OnlyReads (S.state store.old) (S.state store.new) }
    ensures cause { FileCause (S.state store.old) (S.state store.new) result }
    ensures rules { IfOk result (λ head. HeadKeepsRules head × (wants wanted head.kind ≡ true)) }
    ensures few { IfOk result (λ head. head.words < 2 ^ 32) }
    ensures once { IsErrOf result (FileFault.Damaged Damage.Changed) → ⊥ }
    ensures kept { IfErr result (IsScanFault wanted) }
    ensures told { ForSome (S.state store.old).files (λ files. FileTold files name.now result
        (λ bytes head. BeginsWith wanted bytes head
        × ((m : List ℕ) → Holds256 hasher.old m → Holds256 hasher.new (m ++ take 64 bytes)))
        (λ bytes fault. scanned wanted bytes ≡ Err fault)) }
{
    let mut bytes = [0; HEAD_BYTES];
    let front = &mut bytes[..size.min(HEAD_BYTES as u64) as usize];
    read_part(store, name, 0, front, HEAD_BYTES as u64)?;
    hasher.update(&*front);
    match head_in(front, wanted) {
        Ok(head) => Ok(head),
        Err(fault) => Err(fault),
    }
}

/// Reads and hashes the words, and answers the number of the first that isn't below its modulus.
fn scan_words<S: Store>(
    store: &mut S,
    name: &str,
    size: u64,
    head: &Head,
    hasher: &mut Sha256,
) -> Result<Option<u64>, FileFault>
    requires few { head.now.words < 2 ^ 32 }
    requires size { size ≡ 96 + 8 * head.now.words }
    requires told_size { ForSome (S.state store.old).files (λ files.
        size ≡ length (contents files name.now)) }
    ensures keeps { OnlyReads (S.state store.old) (S.state store.new) }
    ensures cause { FileCause (S.state store.old) (S.state store.new) result }
    ensures once { IsErrOf result (FileFault.Damaged Damage.Changed) → ⊥ }
    ensures kept { (wanted : Wanted) → IfErr result (IsScanFault wanted) }
    ensures below { IfOk result (λ unreduced. IfSome unreduced (λ word. word < head.now.words)) }
    ensures told { ForSome (S.state store.old).files (λ files. FileTold files name.now result
        (λ bytes unreduced.
        (unreduced ≡ find (is_unreduced head.now.kind head.now.set bytes) (range_with_len 0 head.now.words))
        × ((m : List ℕ) → Holds256 hasher.old m
        → Holds256 hasher.new (m ++ bytes_from 64 (8 * head.now.words) bytes)))
        (λ _ _. ⊥)) }
{
    let words = head.words;
    let mut done = 0;
    let mut unreduced = None;
    let mut bytes = [0; PIECE_BYTES];
    'pieces: while done < words {
        let count = (words - done).min(PIECE_WORDS as u64);
        let piece = &mut bytes[..WORD_BYTES * count as usize];
        read_part(store, name, 64 + 8 * done, piece, size)?;
        hasher.update(&*piece);
        unreduced = unreduced.or(first_unreduced(head, piece, done));
        done += count;
    }
    Ok(unreduced)
}

/// Reads the digest, and answers whether it is that of the bytes before it.
fn has_digest<S: Store>(
    store: &mut S,
    name: &str,
    size: u64,
    head: &Head,
    hasher: Sha256,
) -> Result<bool, FileFault>
    requires few { head.now.words < 2 ^ 32 }
    requires size { size ≡ 96 + 8 * head.now.words }
    requires told_size { ForSome (S.state store.old).files (λ files.
        size ≡ length (contents files name.now)) }
    requires hashed { ForSome (S.state store.old).files (λ files.
        Holds256 hasher (take (64 + 8 * head.now.words) (contents files name.now))) }
    ensures keeps { OnlyReads (S.state store.old) (S.state store.new) }
    ensures cause { FileCause (S.state store.old) (S.state store.new) result }
    ensures once { IsErrOf result (FileFault.Damaged Damage.Changed) → ⊥ }
    ensures kept { (wanted : Wanted) → IfErr result (IsScanFault wanted) }
    ensures told { ForSome (S.state store.old).files (λ files. FileTold files name.now result
        (λ bytes fits. fits ≡ digest_fits head.now.words bytes)
        (λ _ _. ⊥)) }
{
    let digest = hasher.finalize();
    let mut stated = [0; DIGEST_BYTES];
    let at = HEAD_BYTES as u64 + WORD_BYTES as u64 * head.words;
    read_part(store, name, at, &mut stated, size)?;
    Ok(stated == digest)
}

/// Tests what stands behind the head of a file of this size: the length, the digest, the words.
fn scan_body<S: Store>(
    store: &mut S,
    name: &str,
    size: u64,
    head: &Head,
    mut hasher: Sha256,
) -> Result<(), FileFault>
    requires few { head.now.words < 2 ^ 32 }
    requires rules { HeadKeepsRules head.now }
    requires told_size { ForSome (S.state store.old).files (λ files.
        size ≡ length (contents files name.now)) }
    requires there { ForSome (S.state store.old).files (λ files.
        file files name.now ≡ Some (contents files name.now)) }
    requires stated { ForSome (S.state store.old).files (λ files.
        head.now.words ≡ stated_count (contents files name.now)) }
    requires hashed { ForSome (S.state store.old).files (λ files.
        Holds256 hasher (take 64 (contents files name.now))) }
    ensures keeps { OnlyReads (S.state store.old) (S.state store.new) }
    ensures cause { FileCause (S.state store.old) (S.state store.new) result }
    ensures once { IsErrOf result (FileFault.Damaged Damage.Changed) → ⊥ }
    ensures kept { (wanted : Wanted) → wants wanted head.now.kind ≡ true → IfErr result (IsScanFault wanted) }
    ensures told { ForSome (S.state store.old).files (λ files. FileTold files name.now result
        (λ bytes _. tested_body head.now.kind head.now.set bytes
        ≡ Ok (content_at head.now.kind head.now.set bytes))
        (λ bytes fault. tested_body head.now.kind head.now.set bytes ≡ Err fault)) }
{
    let want = (HEAD_BYTES + DIGEST_BYTES) as u64 + WORD_BYTES as u64 * head.words;
    if size != want {
        return Err(FileFault::Damaged(Damage::Length { have: size, want }));
    }
    let unreduced = scan_words(store, name, size, head, &mut hasher)?;
    if !has_digest(store, name, size, head, hasher)? {
        return Err(FileFault::Damaged(Damage::Digest));
    }
    match unreduced {
        Some(word) => Err(FileFault::Damaged(Damage::NotReduced(word))),
        None => Ok(()),
    }
}

/// Reads a file once, in pieces, and answers its head where it is a file of a wanted kind, and
/// else the first test that it fails: the name, 64 bytes, the version, the kind, each further field
/// in its order, the length, the digest, the words.
///
/// Where a store ends a read before the size that it answered, the fault is `Length` with the place
/// where the bytes ended.
pub fn scan<S: Store>(store: &mut S, name: &str, wanted: Wanted) -> Result<Head, FileFault>
    ensures keeps { OnlyReads (S.state store.old) (S.state store.new) }
    ensures cause { FileCause (S.state store.old) (S.state store.new) result }
    ensures rules { IfOk result (λ head. HeadKeepsRules head × (wants wanted head.kind ≡ true)) }
    ensures once { IsErrOf result (FileFault.Damaged Damage.Changed) → ⊥ }
    ensures kept { IfErr result (IsScanFault wanted) }
    ensures told { ForSome (S.state store.old).files (λ files. FileTold files name.now result
        (λ bytes head. (content : FileContent) × (scanned wanted bytes ≡ Ok content)
        × IsHeadOf head content × IsBytes bytes)
        (λ bytes fault. scanned wanted bytes ≡ Err fault)) }
{
    let size = store.size(name)?;
    let mut hasher = Sha256::new();
    let head = scan_head(store, name, size, wanted, &mut hasher)?;
    match scan_body(store, name, size, &head, hasher) {
        Ok(()) => Ok(head),
        Err(fault) => Err(fault),
    }
}
