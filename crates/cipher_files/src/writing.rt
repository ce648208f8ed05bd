//! Files of one value, written whole.
ghost use Rattle.std.specs.Prelude.{◌≡◌, ℕ, ◌*◌, ◌<◌, ◌≤◌, length, map, None, OnOk, OnErr};
ghost use Rattle.outer_io.specs.Store.{OnlyWrites, with_file};
ghost use Rattle.set_table.specs.Sets.{degree_of, data_of};
ghost use Rattle.ring_law.specs.Residues.{residue};
ghost use Rattle.ring_law.specs.Rows.{listed_polynomial};
ghost use Rattle.file_model.specs.declared.file_kind.FileKind.TheVariants as kind;
ghost use Rattle.file_model.specs.FileText.{KeepsRules, file_text};
ghost use Rattle.bfv_model.specs.Holds.{listed_word, listed_words, secret_polynomial};
ghost use Rattle.file_model.specs.Heads.{HeadKeepsRules, content_with};
ghost use Rattle.cipher_files.specs.Contents.{secret_words, part_words};

use crate::Head;
use crate::pieces::{append_residues, append_rows, begin_file, finish_file};
use bfv_params::{Cipher, Public, Secret};
use outer_io::{Store, StoreFault};
use rns_poly::View;

/// Writes a secret, a word for each coefficient. What was pending is dropped; after an error no
/// file has changed and nothing is pending.
pub fn write_secret<S: Store, const N: usize>(
    store: &mut S,
    name: &str,
    head: &Head,
    secret: &Secret<N>,
) -> Result<(), StoreFault>
    requires rules { HeadKeepsRules head.now }
    requires kind { head.now.kind ≡ kind.Secret }
    requires degree { degree_of head.now.set ≡ N }
    requires set { (secret.now).set ≡ head.now.set }
    ensures keeps { OnlyWrites (S.state store.old) (S.state store.new) result }
    ensures idle { (S.state store.new).pending ≡ None }
    ensures ok { OnOk result ((S.state store.new).files ≡ with_file (S.state store.old).files name.now
        (file_text (content_with head.now (secret_words N (secret.now).small)))) }
    ensures err { OnErr result ((S.state store.new).files ≡ (S.state store.old).files) }
    ensures rules { KeepsRules (content_with head.now (secret_words N (secret.now).small)) }
    ensures meaning { (k : ℕ) → k < N →
        secret_polynomial (secret_words N (secret.now).small) k ≡ listed_polynomial (secret.now).small k }
{
    write_residues(store, name, head, secret.small())
}

/// Writes a public key, the rows of its two parts one part after the other. What was pending is
/// dropped; after an error no file has changed and nothing is pending.
pub fn write_public<S: Store, const N: usize>(
    store: &mut S,
    name: &str,
    head: &Head,
    public: &Public<N>,
) -> Result<(), StoreFault>
    requires rules { HeadKeepsRules head.now }
    requires kind { head.now.kind ≡ kind.PublicKey }
    requires set { (public.now).set ≡ head.now.set }
    ensures keeps { OnlyWrites (S.state store.old) (S.state store.new) result }
    ensures idle { (S.state store.new).pending ≡ None }
    ensures ok { OnOk result ((S.state store.new).files ≡ with_file (S.state store.old).files name.now
        (file_text (content_with head.now (part_words N head.now.set 2 (public.now).rows)))) }
    ensures err { OnErr result ((S.state store.new).files ≡ (S.state store.old).files) }
    ensures rules { KeepsRules (content_with head.now (part_words N head.now.set 2 (public.now).rows)) }
{
    write_rows(store, name, head, public.view())
}

/// Writes a cipher of all data moduli, the rows of its parts one part after the other. What was
/// pending is dropped; after an error no file has changed and nothing is pending.
pub fn write_cipher<S: Store, const N: usize>(
    store: &mut S,
    name: &str,
    head: &Head,
    cipher: &Cipher<N>,
) -> Result<(), StoreFault>
    requires rules { HeadKeepsRules head.now }
    requires kind { head.now.kind ≡ kind.Cipher }
    requires set { (cipher.now).set ≡ head.now.set }
    requires level { (cipher.now).level ≡ length (data_of head.now.set) }
    requires parts { (cipher.now).parts ≡ head.now.parts }
    ensures keeps { OnlyWrites (S.state store.old) (S.state store.new) result }
    ensures idle { (S.state store.new).pending ≡ None }
    ensures ok { OnOk result ((S.state store.new).files ≡ with_file (S.state store.old).files name.now
        (file_text (content_with head.now (part_words N head.now.set head.now.parts (cipher.now).rows)))) }
    ensures err { OnErr result ((S.state store.new).files ≡ (S.state store.old).files) }
    ensures rules { KeepsRules (content_with head.now (part_words N head.now.set head.now.parts (cipher.now).rows)) }
{
    let count = cipher.parts() as usize * head.set.data_count();
    write_rows(store, name, head, cipher.view().rows_from_to(0, count))
}

/// Writes a file of the residues of coefficients modulo 3.
fn write_residues<S: Store>(
    store: &mut S,
    name: &str,
    head: &Head,
    coefficients: &[i8],
) -> Result<(), StoreFault>
    requires count { length coefficients.now ≡ head.now.words }
    ensures keeps { OnlyWrites (S.state store.old) (S.state store.new) result }
    ensures idle { (S.state store.new).pending ≡ None }
    ensures ok { OnOk result ((S.state store.new).files ≡ with_file (S.state store.old).files name.now
        (file_text (content_with head.now (map (residue 3) coefficients.now)))) }
    ensures err { OnErr result ((S.state store.new).files ≡ (S.state store.old).files) }
{
    let mut hasher = begin_file(store, name, head)?;
    append_residues(store, &mut hasher, coefficients)?;
    finish_file(store, hasher)
}

/// Writes a file of rows, one row after another.
fn write_rows<S: Store, const N: usize>(
    store: &mut S,
    name: &str,
    head: &Head,
    rows: View<'_, N>,
) -> Result<(), StoreFault>
    requires some { 0 < N }
    requires degree { N ≤ 32768 }
    requires words { length rows.rows.now * N ≡ head.now.words }
    ensures keeps { OnlyWrites (S.state store.old) (S.state store.new) result }
    ensures idle { (S.state store.new).pending ≡ None }
    ensures ok { (count parts : ℕ) → length rows.entry.rows.now ≡ parts * count
        → OnOk result ((S.state store.new).files ≡ with_file (S.state store.old).files name.now
        (file_text (content_with head.now (listed_words N count parts (listed_word count rows.entry.rows.now))))) }
    ensures err { OnErr result ((S.state store.new).files ≡ (S.state store.old).files) }
{
    let mut hasher = begin_file(store, name, head)?;
    append_rows(store, &mut hasher, rows)?;
    finish_file(store, hasher)
}
