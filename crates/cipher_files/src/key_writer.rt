//! Switching keys, written digit by digit.
ghost use Rattle.std.specs.Prelude.{◌≡◌, ℕ, ◌+◌, ◌*◌, ◌<◌, List, length, None, IfOk, OnOk, OnErr, true};
ghost use Rattle.outer_io.specs.Store.{OnlyWrites, with_file};
ghost use Rattle.set_table.specs.Sets.{degree_of, data_of, key_of};
ghost use Rattle.bfv_params.specs.Rows.{ReducedInTurn};
ghost use Rattle.file_model.specs.FileText.{KeepsRules, file_text};
ghost use Rattle.bfv_model.specs.Holds.{listed_word};
ghost use Rattle.file_model.specs.declared.head.Wanted.TheVariants.{Key};
ghost use Rattle.file_model.specs.Heads.{HeadKeepsRules, content_with, wants};
ghost use Rattle.file_model.specs.KeyWords.{key_words};
ghost use Rattle.cipher_files.specs.Writing.{head_of, digits_put, IsWriting, HasWritten};

use crate::Head;
use crate::pieces::{append_rows, begin_file, finish_file};
use outer_io::{Store, StoreFault};
use rns_poly::View;
use sha2::Sha256;

/// Writes the file of a switching key: the digits are put in their order, each once, and no other
/// call writes on the store in between. After an error no file has changed and nothing is pending.
#[derive(Drop)]
pub struct KeyWriter {
    head: Head,
    put: usize,
    hasher: Sha256,
}

impl KeyWriter {
    /// Begins the file of this name. What was pending is dropped.
    pub fn begin<S: Store>(store: &mut S, name: &str, head: &Head) -> Result<KeyWriter, StoreFault>
        requires rules { HeadKeepsRules head.now }
        requires kind { wants Key head.now.kind ≡ true }
        ensures keeps { OnlyWrites (S.state store.old) (S.state store.new) result }
        ensures files { (S.state store.new).files ≡ (S.state store.old).files }
        ensures head { IfOk result (λ writer. head_of writer ≡ head.now) }
        ensures none_put { IfOk result (λ writer. digits_put writer ≡ 0) }
        ensures writing { IfOk result (λ writer. IsWriting writer (S.state store.new)) }
        ensures written { (word : ℕ → ℕ → ℕ → ℕ → ℕ) →
            IfOk result (λ writer. HasWritten writer (S.state store.new) name.now word) }
    {
        let hasher = begin_file(store, name, head)?;
        Ok(KeyWriter {
            head: *head,
            put: 0,
            hasher,
        })
    }

    /// Puts the next digit: the rows of its two parts one part after the other, each with a row for
    /// each data modulus and then one for the special modulus.
    pub fn put_digit<S: Store, const N: usize>(
        &mut self,
        store: &mut S,
        rows: View<'_, N>,
    ) -> Result<(), StoreFault>
        requires writing { IsWriting self.old (S.state store.old) }
        requires left { digits_put self.old < length (data_of (head_of self.old).set) }
        requires degree { N ≡ degree_of (head_of self.old).set }
        requires count { length rows.rows.now ≡ 2 * (length (data_of (head_of self.old).set) + 1) }
        requires reduced { ReducedInTurn N (length (data_of (head_of self.old).set) + 1) (key_of (head_of self.old).set) rows.rows.now }
        ensures keeps { OnlyWrites (S.state store.old) (S.state store.new) result }
        ensures files { (S.state store.new).files ≡ (S.state store.old).files }
        ensures head { head_of self.new ≡ head_of self.old }
        ensures one_more { OnOk result (digits_put self.new ≡ digits_put self.old + 1) }
        ensures writing { OnOk result (IsWriting self.new (S.state store.new)) }
        ensures written { (name : List ℕ) (word : ℕ → ℕ → ℕ → ℕ → ℕ) → HasWritten self.old (S.state store.old) name word
            → ((j r k : ℕ) → j < 2 → r < length (data_of (head_of self.old).set) + 1 → k < N →
            listed_word (length (data_of (head_of self.old).set) + 1) rows.entry.rows.now j r k ≡ word (digits_put self.old) j r k)
            → OnOk result (HasWritten self.new (S.state store.new) name word) }
    {
        append_rows(store, &mut self.hasher, rows)?;
        self.put += 1;
        Ok(())
    }

    /// Ends the file after the last digit, and puts it in its place.
    pub fn finish<S: Store>(self, store: &mut S) -> Result<(), StoreFault>
        requires writing { IsWriting self (S.state store.old) }
        requires all_put { digits_put self ≡ length (data_of (head_of self).set) }
        ensures keeps { OnlyWrites (S.state store.old) (S.state store.new) result }
        ensures idle { (S.state store.new).pending ≡ None }
        ensures ok { (name : List ℕ) (word : ℕ → ℕ → ℕ → ℕ → ℕ) → HasWritten self (S.state store.old) name word
            → OnOk result ((S.state store.new).files ≡ with_file (S.state store.old).files name
            (file_text (content_with (head_of self) (key_words (head_of self).set word)))) }
        ensures rules { (name : List ℕ) (word : ℕ → ℕ → ℕ → ℕ → ℕ) → HasWritten self (S.state store.old) name word
            → KeepsRules (content_with (head_of self) (key_words (head_of self).set word)) }
        ensures err { OnErr result ((S.state store.new).files ≡ (S.state store.old).files) }
    {
        finish_file(store, self.hasher)
    }
}
