// The words of the files that were scanned, read again.
ghost use Rattle.std.specs.Prelude.{◌≡◌, ℕ, ◌<◌, true, length, map, IfOk};
ghost use Rattle.std.specs.String.{string_bytes};
ghost use Rattle.set_table.specs.Sets.{data_of};
ghost use Rattle.ring_law.specs.Rows.{listed_polynomial};
ghost use Rattle.file_model.specs.FileText.{FileContent};
ghost use Rattle.bfv_model.specs.Holds.{listed_word, stored_word, secret_polynomial};
ghost use Rattle.file_model.specs.Heads.{HeadKeepsRules, wants};
ghost use Rattle.file_model.specs.declared.head.Wanted.TheVariants as wanted;
ghost use Rattle.command_stages.specs.Operands.{HasContent};
ghost use Rattle.command_stages.specs.Stages.{Made};

use bfv_params::{Cipher, Context, Public, Secret};
use cipher_files::{Head, read_cipher, read_public, read_secret};
use command_stages::{name_of, status_of};
use command_words::Status;
use outer_io::Store;
use std::alloc::Global;

/// The secret in a file that was scanned.
pub fn secret_again<S: Store, const N: usize>(
    alloc: Global,
    words: &[String],
    store: &mut S,
    ctx: &Context<N>,
    head: &Head,
    word: u32,
) -> Result<Secret<N>, Status>
    requires word { word < length words.now }
    requires rules { HeadKeepsRules head.now }
    requires kind { wants wanted.Secret head.now.kind ≡ true }
    requires set { (ctx.now).set ≡ head.now.set }
    ensures set { IfOk result (λ secret. secret.set ≡ head.now.set) }
    ensures made { (content : FileContent) → Made (λ w. w ≡ word) (λ files. HasContent (map string_bytes words.now) files word head.now content)
        (λ secret. (k : ℕ) → k < N → listed_polynomial secret.small k ≡ secret_polynomial content.words k) (S.state store.old) (S.state store.new) result }
{
    let Ok(mut secret) = Secret::new(alloc, ctx) else {
        return Err(Status::Memory);
    };
    match read_secret(store, name_of(words, word), head, &mut secret) {
        Ok(()) => Ok(secret),
        Err(fault) => Err(status_of(word, fault)),
    }
}

/// The public key in a file that was scanned.
pub fn public_again<S: Store, const N: usize>(
    alloc: Global,
    words: &[String],
    store: &mut S,
    ctx: &Context<N>,
    head: &Head,
    word: u32,
) -> Result<Public<N>, Status>
    requires word { word < length words.now }
    requires rules { HeadKeepsRules head.now }
    requires kind { wants wanted.Public head.now.kind ≡ true }
    requires set { (ctx.now).set ≡ head.now.set }
    ensures set { IfOk result (λ public. public.set ≡ head.now.set) }
    ensures made { (content : FileContent) → Made (λ w. w ≡ word) (λ files. HasContent (map string_bytes words.now) files word head.now content)
        (λ public. (j i k : ℕ) → j < 2 → i < length (data_of head.now.set) → k < N
        → listed_word (length (data_of head.now.set)) public.rows j i k
        ≡ stored_word N (length (data_of head.now.set)) content.words j i k) (S.state store.old) (S.state store.new) result }
{
    let Ok(mut public) = Public::new(alloc, ctx) else {
        return Err(Status::Memory);
    };
    match read_public(store, name_of(words, word), head, &mut public) {
        Ok(()) => Ok(public),
        Err(fault) => Err(status_of(word, fault)),
    }
}

/// The cipher in a file that was scanned, with all data moduli of its set.
pub fn cipher_again<S: Store, const N: usize>(
    alloc: Global,
    words: &[String],
    store: &mut S,
    ctx: &Context<N>,
    head: &Head,
    word: u32,
) -> Result<Cipher<N>, Status>
    requires word { word < length words.now }
    requires rules { HeadKeepsRules head.now }
    requires kind { wants wanted.Cipher head.now.kind ≡ true }
    requires set { (ctx.now).set ≡ head.now.set }
    requires level { (ctx.now).level ≡ length (data_of head.now.set) }
    ensures set { IfOk result (λ cipher. cipher.set ≡ head.now.set) }
    ensures level { IfOk result (λ cipher. cipher.level ≡ length (data_of head.now.set)) }
    ensures parts { IfOk result (λ cipher. cipher.parts ≡ head.now.parts) }
    ensures made { (content : FileContent) → Made (λ w. w ≡ word) (λ files. HasContent (map string_bytes words.now) files word head.now content)
        (λ cipher. (j i k : ℕ) → j < 3 → i < length (data_of head.now.set) → k < N
        → listed_word (length (data_of head.now.set)) cipher.rows j i k
        ≡ stored_word N (length (data_of head.now.set)) content.words j i k) (S.state store.old) (S.state store.new) result }
{
    let Ok(mut cipher) = Cipher::new(alloc, ctx) else {
        return Err(Status::Memory);
    };
    match read_cipher(store, name_of(words, word), head, &mut cipher) {
        Ok(()) => Ok(cipher),
        Err(fault) => Err(status_of(word, fault)),
    }
}
