//! The words of a file that was scanned, read into a value of its set.
ghost use Rattle.std.specs.Prelude.{◌≡◌, ℕ, ◌+◌, ◌*◌, ◌<◌, ◌≤◌, length, slice_index, true, Some, OnOk, IfErr};
ghost use Rattle.std.specs.Option.{ForSome};
ghost use Rattle.set_table.specs.Sets.{degree_of, data_of, key_of};
ghost use Rattle.ring_law.specs.Polynomials.{AllWithin};
ghost use Rattle.ring_law.specs.Rows.{IsReduced, listed_polynomial, word_at};
ghost use Rattle.outer_io.specs.Store.{OnlyReads, file, contents};
ghost use Rattle.file_model.specs.FileText.{FileContent, IsFile};
ghost use Rattle.bfv_model.specs.Holds.{listed_word, stored_word, secret_polynomial, ternary_coefficient};
ghost use Rattle.bfv_model.specs.Keys.{stored_key_word};
ghost use Rattle.file_model.specs.Heads.{wants, HeadKeepsRules, IsHeadOf};
ghost use Rattle.file_model.specs.Reading.{FileCause, IsSecondFault};
ghost use Rattle.cipher_files.specs.SecondReading.{file_word, HoldsRows, HoldsRowsOf, RowsTold, ReadsBack};
ghost use Rattle.bfv_params.specs.Rows.{ReducedInTurn};
ghost use Rattle.file_model.specs.declared.head.Wanted.TheVariants as wanted;

use crate::file_rows::read_row;
use crate::{FileFault, Head};
use bfv_params::{Cipher, Public, Secret};
use file_scan::row_modulus;
use outer_io::Store;
use rns_poly::ViewMut;

/// Reads a secret. A word 2 is the coefficient -1.
///
/// `Damaged(Changed)` says that a read ended early or gave a word above 2.
pub fn read_secret<S: Store, const N: usize>(
    store: &mut S,
    name: &str,
    head: &Head,
    into: &mut Secret<N>,
) -> Result<(), FileFault>
    requires rules { HeadKeepsRules head.now }
    requires kind { wants wanted.Secret head.now.kind ≡ true }
    requires degree { degree_of head.now.set ≡ N }
    requires set { (into.old).set ≡ head.now.set }
    ensures keeps { OnlyReads (S.state store.old) (S.state store.new) }
    ensures cause { FileCause (S.state store.old) (S.state store.new) result }
    ensures only { IfErr result IsSecondFault }
    ensures set { (into.new).set ≡ (into.old).set }
    ensures held { ForSome (S.state store.old).files (λ files. RowsTold files name.now result (HoldsRowsOf N head.now)
        (λ bytes. (k : ℕ) → k < N → listed_polynomial (into.new).small k ≡ ternary_coefficient (file_word N bytes 0 k))) }
    ensures told { ForSome (S.state store.old).files (λ files. (content : FileContent)
        → file files name.now ≡ Some (contents files name.now)
        → IsFile (contents files name.now) content → IsHeadOf head.now content
        → ReadsBack result ((k : ℕ) → k < N
        → listed_polynomial (into.new).small k ≡ secret_polynomial content.words k)) }
{
    let mut row = [0; N];
    read_row(store, name, 0, 3, &mut row)?;
    into.set(&ternary_coefficients(&row));
    Ok(())
}

/// The coefficients that the words of a secret stand for.
fn ternary_coefficients<const N: usize>(words: &[u64; N]) -> [i8; N]
    requires degree { N ≤ 32768 }
    requires reduced { IsReduced N 3 words.now }
    ensures within { AllWithin N 1 (listed_polynomial result) }
    ensures value { (k : ℕ) → k < N →
        listed_polynomial result k ≡ ternary_coefficient (slice_index words.now k) }
{
    let mut small = [0; N];
    for k in 0..N {
        small[k] = ternary(words[k]);
    }
    small
}

fn ternary(word: u64) -> i8
    requires { word < 3 }
    ensures { result ≡ ternary_coefficient word }
{
    if word == 2 { -1 } else { word as i8 }
}

/// Reads a public key.
///
/// `Damaged(Changed)` says that a read ended early or gave a word that isn't below its modulus.
pub fn read_public<S: Store, const N: usize>(
    store: &mut S,
    name: &str,
    head: &Head,
    into: &mut Public<N>,
) -> Result<(), FileFault>
    requires rules { HeadKeepsRules head.now }
    requires kind { wants wanted.Public head.now.kind ≡ true }
    requires degree { degree_of head.now.set ≡ N }
    requires set { (into.old).set ≡ head.now.set }
    ensures keeps { OnlyReads (S.state store.old) (S.state store.new) }
    ensures cause { FileCause (S.state store.old) (S.state store.new) result }
    ensures only { IfErr result IsSecondFault }
    ensures set { (into.new).set ≡ (into.old).set }
    ensures held { ForSome (S.state store.old).files (λ files. RowsTold files name.now result (HoldsRowsOf N head.now)
        (λ bytes. (r k : ℕ) → r < 2 * length (data_of head.now.set) → k < N
        → word_at (into.new).rows r k ≡ file_word N bytes r k)) }
    ensures told { ForSome (S.state store.old).files (λ files. (content : FileContent)
        → file files name.now ≡ Some (contents files name.now)
        → IsFile (contents files name.now) content → IsHeadOf head.now content
        → ReadsBack result ((j i k : ℕ) → j < 2 → i < length (data_of head.now.set) → k < N
        → listed_word (length (data_of head.now.set)) (into.new).rows j i k
        ≡ stored_word N (length (data_of head.now.set)) content.words j i k)) }
{
    let mut row = [0; N];
    'rows: for i in 0..into.view().rows() {
        read_row(
            store,
            name,
            i,
            row_modulus(head.kind, head.set, i as u64),
            &mut row,
        )?;
        into.set_row(i, &row);
    }
    Ok(())
}

/// Reads a cipher with all data moduli of its set. It gets the number of parts of the head.
///
/// `Damaged(Changed)` says that a read ended early or gave a word that isn't below its modulus.
pub fn read_cipher<S: Store, const N: usize>(
    store: &mut S,
    name: &str,
    head: &Head,
    into: &mut Cipher<N>,
) -> Result<(), FileFault>
    requires rules { HeadKeepsRules head.now }
    requires kind { wants wanted.Cipher head.now.kind ≡ true }
    requires degree { degree_of head.now.set ≡ N }
    requires set { (into.old).set ≡ head.now.set }
    requires level { (into.old).level ≡ length (data_of head.now.set) }
    ensures keeps { OnlyReads (S.state store.old) (S.state store.new) }
    ensures cause { FileCause (S.state store.old) (S.state store.new) result }
    ensures only { IfErr result IsSecondFault }
    ensures set { (into.new).set ≡ (into.old).set }
    ensures room { (into.new).room ≡ (into.old).room }
    ensures level { (into.new).level ≡ (into.old).level }
    ensures parts { OnOk result ((into.new).parts ≡ head.now.parts) }
    ensures held { ForSome (S.state store.old).files (λ files. RowsTold files name.now result (HoldsRowsOf N head.now)
        (λ bytes. (r k : ℕ) → r < head.now.parts * length (data_of head.now.set) → k < N
        → word_at (into.new).rows r k ≡ file_word N bytes r k)) }
    ensures told { ForSome (S.state store.old).files (λ files. (content : FileContent)
        → file files name.now ≡ Some (contents files name.now)
        → IsFile (contents files name.now) content → IsHeadOf head.now content
        → ReadsBack result ((j i k : ℕ) → j < 3 → i < length (data_of head.now.set) → k < N
        → listed_word (length (data_of head.now.set)) (into.new).rows j i k
        ≡ stored_word N (length (data_of head.now.set)) content.words j i k)) }
{
    let count = head.set.data_count();
    let mut row = [0; N];
    into.set_parts(head.parts);
    'rows: for i in 0..head.parts as usize * count {
        read_row(
            store,
            name,
            i,
            row_modulus(head.kind, head.set, i as u64),
            &mut row,
        )?;
        into.set_row(i, &row);
    }
    Ok(())
}

/// Reads digit i of a switching key: the rows of its two parts, each with a row for each data
/// modulus and one for the special modulus, in transformed form. A row is copied where it was read
/// whole and is below its modulus, so rows that were reduced stay so after any answer.
///
/// `Damaged(Changed)` says that a read ended early or gave a word that isn't below its modulus.
pub fn read_digit<S: Store, const N: usize>(
    store: &mut S,
    name: &str,
    head: &Head,
    i: usize,
    into: ViewMut<'_, N>,
) -> Result<(), FileFault>
    requires rules { HeadKeepsRules head.now }
    requires kind { wants wanted.Key head.now.kind ≡ true }
    requires degree { degree_of head.now.set ≡ N }
    requires digit { i < length (data_of head.now.set) }
    requires rows { length into.old ≡ 2 * (length (data_of head.now.set) + 1) }
    ensures keeps { OnlyReads (S.state store.old) (S.state store.new) }
    ensures cause { FileCause (S.state store.old) (S.state store.new) result }
    ensures only { IfErr result IsSecondFault }
    ensures rows { length into.new ≡ length into.old }
    ensures reduced { OnOk result (ReducedInTurn N (length (data_of head.now.set) + 1) (key_of head.now.set) into.new) }
    ensures kept { ReducedInTurn N (length (data_of head.now.set) + 1) (key_of head.now.set) into.old
        → ReducedInTurn N (length (data_of head.now.set) + 1) (key_of head.now.set) into.new }
    ensures held { ForSome (S.state store.old).files (λ files. RowsTold files name.now result
        (λ bytes. HoldsRows N bytes (i * (2 * (length (data_of head.now.set) + 1)))
        (2 * (length (data_of head.now.set) + 1)) (key_of head.now.set))
        (λ bytes. (r k : ℕ) → r < 2 * (length (data_of head.now.set) + 1) → k < N
        → word_at into.new r k ≡ file_word N bytes (i * (2 * (length (data_of head.now.set) + 1)) + r) k)) }
    ensures told { ForSome (S.state store.old).files (λ files. (content : FileContent)
        → file files name.now ≡ Some (contents files name.now)
        → IsFile (contents files name.now) content → IsHeadOf head.now content
        → ReadsBack result ((j r k : ℕ) → j < 2 → r < length (data_of head.now.set) + 1 → k < N
        → word_at into.new (j * (length (data_of head.now.set) + 1) + r) k
        ≡ stored_key_word N (length (data_of head.now.set) + 1) content.words i j r k)) }
{
    let count = head.set.data_count() + 1;
    let mut row = [0; N];
    'rows: for r in 0..into.len() {
        let number = i * (2 * count) + r;
        let modulus = row_modulus(head.kind, head.set, number as u64);
        match read_row(store, name, number, modulus, &mut row) {
            Ok(()) => into[r] = row,
            Err(fault) => return Err(fault),
        }
    }
    Ok(())
}
