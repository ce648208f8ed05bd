// The command `decrypt`.
ghost use Rattle.std.specs.Prelude.{◌≡◌, ◌⊎◌, ◌*◌, ◌≤◌, ℕ, true, length, map, Some, None, IfOk};
ghost use Rattle.std.specs.String.{string_bytes};
ghost use Rattle.set_table.specs.Sets.{degree_of, plain_of, data_of};
ghost use Rattle.ring_law.specs.Moduli.{product};
ghost use Rattle.ring_law.specs.Rows.{listed_polynomial, natural_polynomial};
ghost use Rattle.file_model.specs.FileText.{FileContent};
ghost use Rattle.bfv_model.specs.Holds.{CipherHolds, listed_word};
ghost use Rattle.bfv_model.specs.Slots.{slots_of};
ghost use Rattle.script_text.specs.Values.{printed_values};
ghost use Rattle.file_model.specs.Heads.{HeadKeepsRules, wants};
ghost use Rattle.file_model.specs.declared.head.Wanted.TheVariants as wanted;
ghost use Rattle.bfv_params.specs.Ciphers.{IsCipherOf};
ghost use Rattle.command_words.specs.Form.{form_of};
ghost use Rattle.command_words.specs.declared.form.Form.TheVariants as form;
ghost use Rattle.command_model.specs.Commanded.{Commanded};
ghost use Rattle.command_model.specs.Plan as plan;
ghost use Rattle.command_stages.specs.Operands.{HasContent};
ghost use Rattle.command_stages.specs.Stages.{Made};
ghost use Rattle.key_commands.specs.Decrypted.{IsDecryption};

use crate::reread::{cipher_again, secret_again};
use bfv_params::{Cipher, Context, Secret};
use cipher_files::{Head, Wanted};
use command_stages::{match_heads, name_of, scan_operand, write_status};
use command_words::Status;
use outer_io::{Store, write_file};
use rns_poly::PolyBuf;
use script_text::print_values;
use set_table::SetName;
use slot_batch::decode;
use std::alloc::{AllocError, Global};

/// Does `decrypt SEC CIPHER OUT`.
pub fn decrypt<S: Store>(alloc: Global, words: &[String], store: &mut S) -> Result<(), Status>
    requires form { form_of (map string_bytes words.now) ≡ Some form.Decrypt }
    requires count { length words.now ≡ 4 }
    ensures { Commanded (map string_bytes words.now) (λ _. None) (S.state store.old) (S.state store.new) result }
{
    let secret = scan_operand(store, words, Wanted::Secret, 1)?;
    let cipher = scan_operand(store, words, Wanted::Cipher, 2)?;
    match_heads(2, &cipher, &secret)?;
    let text = opened_text(alloc, words, store, &secret, &cipher)?;
    match write_file(store, name_of(words, 3), &text) {
        Ok(()) => Ok(()),
        Err(fault) => Err(write_status(fault)),
    }
}

/// The printed values of a cipher under a secret, whose files were scanned.
fn opened_text<S: Store>(
    alloc: Global,
    words: &[String],
    store: &mut S,
    secret: &Head,
    cipher: &Head,
) -> Result<Vec<u8>, Status>
    requires count { length words.now ≡ 4 }
    requires secret_rules { HeadKeepsRules secret.now }
    requires secret_kind { wants wanted.Secret secret.now.kind ≡ true }
    requires cipher_rules { HeadKeepsRules cipher.now }
    requires cipher_kind { wants wanted.Cipher cipher.now.kind ≡ true }
    requires set { cipher.now.set ≡ secret.now.set }
    ensures { (a b : FileContent) → Made (λ w. (w ≡ 1) ⊎ (w ≡ 2))
        (λ files. HasContent (map string_bytes words.now) files 1 secret.now a × HasContent (map string_bytes words.now) files 2 cipher.now b)
        (λ text. IsDecryption a b text.items) (S.state store.old) (S.state store.new) result }
{
    match secret.set {
        SetName::One16 | SetName::Toy16 => text_of_degree::<S, 16>(
            alloc, words, store, secret, cipher,
        ),
        SetName::S4096 => text_of_degree::<S, 4096>(alloc, words, store, secret, cipher),
        SetName::S8192 => text_of_degree::<S, 8192>(alloc, words, store, secret, cipher),
        SetName::S16384 => text_of_degree::<S, 16384>(alloc, words, store, secret, cipher),
    }
}

/// The same for files of degree N.
fn text_of_degree<S: Store, const N: usize>(
    alloc: Global,
    words: &[String],
    store: &mut S,
    secret: &Head,
    cipher: &Head,
) -> Result<Vec<u8>, Status>
    requires count { length words.now ≡ 4 }
    requires secret_rules { HeadKeepsRules secret.now }
    requires secret_kind { wants wanted.Secret secret.now.kind ≡ true }
    requires cipher_rules { HeadKeepsRules cipher.now }
    requires cipher_kind { wants wanted.Cipher cipher.now.kind ≡ true }
    requires set { cipher.now.set ≡ secret.now.set }
    requires degree { N ≡ degree_of secret.now.set }
    ensures { (a b : FileContent) → Made (λ w. (w ≡ 1) ⊎ (w ≡ 2))
        (λ files. HasContent (map string_bytes words.now) files 1 secret.now a × HasContent (map string_bytes words.now) files 2 cipher.now b)
        (λ text. IsDecryption a b text.items) (S.state store.old) (S.state store.new) result }
{
    let Ok(ctx) = Context::<N>::new(alloc, secret.set) else {
        return Err(Status::Memory);
    };
    let source = secret_again(alloc, words, store, &ctx, secret, 1)?;
    let sealed = cipher_again(alloc, words, store, &ctx, cipher, 2)?;
    match decrypted_text(alloc, &ctx, &source, &sealed) {
        Ok(text) => Ok(text),
        Err(_) => Err(Status::Memory),
    }
}

/// The printed values of a cipher under a secret.
fn decrypted_text<const N: usize>(
    alloc: Global,
    ctx: &Context<N>,
    secret: &Secret<N>,
    cipher: &Cipher<N>,
) -> Result<Vec<u8>, AllocError>
    requires secret_set { (secret.now).set ≡ (ctx.now).set }
    requires cipher_of { IsCipherOf (ctx.now) (cipher.now) }
    requires level { (ctx.now).level ≡ length (data_of (ctx.now).set) }
    ensures text { IfOk result (λ text. plan.IsValuesText (ctx.now).set text.items) }
    ensures right { (m : ℕ → ℕ) (bound : ℕ)
        → CipherHolds N (data_of (ctx.now).set) (plain_of (ctx.now).set) (listed_word (length (data_of (ctx.now).set)) (cipher.now).rows) (listed_polynomial (secret.now).small) m bound
        → 4 * bound ≤ product (data_of (ctx.now).set)
        → IfOk result (λ text. text.items ≡ printed_values (slots_of (ctx.now).set (natural_polynomial m))) }
{
    let mut scratch = PolyBuf::new(alloc, ctx.scratch_rows())?;
    let mut row = Box::new(alloc, [0; N])?;
    let mut values = Box::new(alloc, [0; N])?;
    behz_decrypt::decrypt(ctx, secret, cipher, &mut row, &mut scratch);
    decode(ctx, &row, &mut values);
    print_values(alloc, &*values)
}
