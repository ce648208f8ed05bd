//! The pieces in which files are written: each is appended to the pending file and hashed.
ghost use Rattle.std.specs.Prelude.{◌≡◌, ℕ, ◌+◌, ◌*◌, ◌<◌, ◌≤◌, List, [], ◌++◌, length, map, slice_index, slice_index_or, None, Some, IsSome, IfOk, OnOk, OnErr, unwrap_or};
ghost use Rattle.std.specs.Option.{ForSome};
ghost use Rattle.std.specs.List.{concat};
ghost use Rattle.sha2.specs.Hashers.{Holds256};
ghost use Rattle.outer_io.specs.Store.{OnlyWrites, with_file};
ghost use Rattle.ring_law.specs.Residues.{residue};
ghost use Rattle.ring_law.specs.Rows.{listed_polynomial};
ghost use Rattle.file_model.specs.Bytes.{word_bytes};
ghost use Rattle.file_model.specs.FileText.{digested, head_text};
ghost use Rattle.file_model.specs.Heads.{content_with};

use crate::Head;
use crate::head_bytes::head_bytes;
use crate::lengths::has_its_length;
use byteorder::{ByteOrder, LittleEndian};
use file_scan::{PIECE_BYTES, PIECE_WORDS, WORD_BYTES};
use outer_io::{Store, StoreFault};
use rns_poly::View;
use sha2::{Digest, Sha256};

/// Begins a file with its head. The hasher has taken the head.
pub fn begin_file<S: Store>(store: &mut S, name: &str, head: &Head) -> Result<Sha256, StoreFault>
    ensures keeps { OnlyWrites (S.state store.old) (S.state store.new) result }
    ensures files { (S.state store.new).files ≡ (S.state store.old).files }
    ensures pending { OnOk result ((S.state store.new).pending ≡ Some name.now) }
    ensures written { ForSome (S.state store.old).files (λ _. OnOk result
        ((words : List ℕ) → length words ≡ head.now.words → (S.state store.new).written ≡ head_text (content_with head.now words))) }
    ensures hashed { ForSome (S.state store.old).files (λ _. IfOk result (λ hasher. Holds256 hasher (S.state store.new).written)) }
{
    let mut hasher = Sha256::new();
    store.begin(name)?;
    append_hashed(store, &mut hasher, &head_bytes(head))?;
    Ok(hasher)
}

/// Ends the pending file with the digest of its bytes, and puts it in its place.
pub fn finish_file<S: Store>(store: &mut S, hasher: Sha256) -> Result<(), StoreFault>
    requires pending { IsSome (S.state store.old).pending }
    requires hashed { ForSome (S.state store.old).files (λ _. Holds256 hasher (S.state store.old).written) }
    ensures keeps { OnlyWrites (S.state store.old) (S.state store.new) result }
    ensures idle { (S.state store.new).pending ≡ None }
    ensures ok { OnOk result ((S.state store.new).files ≡ with_file (S.state store.old).files
        (unwrap_or (S.state store.old).pending []) (digested (S.state store.old).written)) }
    ensures err { OnErr result ((S.state store.new).files ≡ (S.state store.old).files) }
{
    store.append(&hasher.finalize())?;
    store.commit()
}

/// Adds the rows at the end of the pending file, one row after another.
pub fn append_rows<S: Store, const N: usize>(
    store: &mut S,
    hasher: &mut Sha256,
    rows: View<'_, N>,
) -> Result<(), StoreFault>
    requires degree { N ≤ 32768 }
    requires pending { IsSome (S.state store.old).pending }
    ensures keeps { OnlyWrites (S.state store.old) (S.state store.new) result }
    ensures files { (S.state store.new).files ≡ (S.state store.old).files }
    ensures pending { OnOk result ((S.state store.new).pending ≡ (S.state store.old).pending) }
    ensures written { ForSome (S.state store.old).files (λ _. OnOk result
        ((S.state store.new).written ≡ (S.state store.old).written ++ word_bytes (concat rows.entry.rows.now))) }
    ensures hashed { OnOk result ((text : List ℕ) → Holds256 hasher.old text
        → Holds256 hasher.new (text ++ word_bytes (concat rows.entry.rows.now))) }
    ensures sizes { OnOk result ((i : ℕ) → i < length rows.entry.rows.now
        → length (slice_index_or rows.entry.rows.now i []) ≡ N) }
{
    'rows: for row in rows.rows {
        has_its_length(row);
        append_words(store, hasher, row)?;
    }
    Ok(())
}

/// Adds the residues of coefficients modulo 3 at the end of the pending file.
pub fn append_residues<S: Store>(
    store: &mut S,
    hasher: &mut Sha256,
    coefficients: &[i8],
) -> Result<(), StoreFault>
    requires { IsSome (S.state store.old).pending }
    ensures keeps { OnlyWrites (S.state store.old) (S.state store.new) result }
    ensures files { (S.state store.new).files ≡ (S.state store.old).files }
    ensures pending { OnOk result ((S.state store.new).pending ≡ (S.state store.old).pending) }
    ensures written { ForSome (S.state store.old).files (λ _. OnOk result
        ((S.state store.new).written ≡ (S.state store.old).written ++ word_bytes (map (residue 3) coefficients.now))) }
    ensures hashed { OnOk result ((text : List ℕ) → Holds256 hasher.old text
        → Holds256 hasher.new (text ++ word_bytes (map (residue 3) coefficients.now))) }
{
    let mut done = 0;
    let mut words = [0; PIECE_WORDS];
    'pieces: while done < coefficients.len() {
        let count = (coefficients.len() - done).min(PIECE_WORDS);
        let piece = &mut words[..count];
        fill_residues(&coefficients[done..done + count], piece);
        append_words(store, hasher, &*piece)?;
        done += count;
    }
    Ok(())
}

/// Writes the residues of coefficients modulo 3.
fn fill_residues(coefficients: &[i8], words: &mut [u64])
    requires { length words.old ≡ length coefficients.now }
    ensures size { length words.new ≡ length coefficients.now }
    ensures values { (i : ℕ) → i < length coefficients.now → slice_index words.new i ≡ residue 3 (listed_polynomial coefficients.now i) }
{
    'coefficients: for i in 0..coefficients.len() {
        words[i] = residue_of_three(coefficients[i]);
    }
}

/// The residue modulo 3.
fn residue_of_three(coefficient: i8) -> u64
    ensures { result ≡ residue 3 coefficient }
{
    coefficient.rem_euclid(3) as u64
}

/// Adds words at the end of the pending file.
fn append_words<S: Store>(
    store: &mut S,
    hasher: &mut Sha256,
    words: &[u64],
) -> Result<(), StoreFault>
    requires { IsSome (S.state store.old).pending }
    ensures keeps { OnlyWrites (S.state store.old) (S.state store.new) result }
    ensures files { (S.state store.new).files ≡ (S.state store.old).files }
    ensures pending { OnOk result ((S.state store.new).pending ≡ (S.state store.old).pending) }
    ensures written { ForSome (S.state store.old).files (λ _. OnOk result
        ((S.state store.new).written ≡ (S.state store.old).written ++ word_bytes words.now)) }
    ensures hashed { OnOk result ((text : List ℕ) → Holds256 hasher.old text → Holds256 hasher.new (text ++ word_bytes words.now)) }
{
    let mut done = 0;
    let mut bytes = [0; PIECE_BYTES];
    'pieces: while done < words.len() {
        let count = (words.len() - done).min(PIECE_WORDS);
        let piece = &mut bytes[..WORD_BYTES * count];
        encode(&words[done..done + count], piece);
        append_hashed(store, hasher, &*piece)?;
        done += count;
    }
    Ok(())
}

/// Writes the bytes of words.
#[tactic(auto, unfolding(file_model::specs::Bytes::word_bytes))]
fn encode(words: &[u64], bytes: &mut [u8])
    requires { length bytes.old ≡ 8 * length words.now }
    ensures { bytes.new ≡ word_bytes words.now }
{
    LittleEndian::write_u64_into(words, bytes);
}

/// Adds a piece at the end of the pending file, and to what is hashed.
fn append_hashed<S: Store>(
    store: &mut S,
    hasher: &mut Sha256,
    piece: &[u8],
) -> Result<(), StoreFault>
    requires { IsSome (S.state store.old).pending }
    ensures keeps { OnlyWrites (S.state store.old) (S.state store.new) result }
    ensures files { (S.state store.new).files ≡ (S.state store.old).files }
    ensures pending { OnOk result ((S.state store.new).pending ≡ (S.state store.old).pending) }
    ensures written { ForSome (S.state store.old).files (λ _. OnOk result
        ((S.state store.new).written ≡ (S.state store.old).written ++ piece.now)) }
    ensures hashed { OnOk result ((text : List ℕ) → Holds256 hasher.old text → Holds256 hasher.new (text ++ piece.now)) }
{
    store.append(piece)?;
    hasher.update(piece);
    Ok(())
}
