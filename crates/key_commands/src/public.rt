// The command `public`.
ghost use Rattle.std.specs.Prelude.{◌≡◌, ◌<◌, ℕ, true, length, map, Some, None, IfOk};
ghost use Rattle.std.specs.String.{string_bytes};
ghost use Rattle.set_table.specs.Sets.{degree_of, data_of};
ghost use Rattle.ring_law.specs.Rows.{listed_polynomial};
ghost use Rattle.bfv_model.specs.Drawn.{drawn_public};
ghost use Rattle.file_model.specs.DrawnFiles.{drawn_public_file};
ghost use Rattle.file_model.specs.FileText.{FileContent, file_text};
ghost use Rattle.bfv_model.specs.Holds.{listed_word, secret_polynomial};
ghost use Rattle.file_model.specs.Heads.{HeadKeepsRules, wants};
ghost use Rattle.file_model.specs.declared.head.Wanted.TheVariants as wanted;
ghost use Rattle.command_words.specs.Form.{form_of};
ghost use Rattle.command_words.specs.Line.{word_at};
ghost use Rattle.command_words.specs.declared.form.Form.TheVariants as form;
ghost use Rattle.command_model.specs.Commanded.{Commanded};
ghost use Rattle.command_model.specs.Plan as plan;
ghost use Rattle.command_stages.specs.Operands.{HasContent};
ghost use Rattle.command_stages.specs.Stages.{Made, Wrote};

use crate::reread::secret_again;
use bfv_params::{Context, Public, Secret};
use cipher_files::{Head, Wanted, write_public};
use command_stages::{SEED_BYTES, name_of, read_seed, scan_operand, write_status};
use command_words::Status;
use outer_io::Store;
use rand_chacha::ChaCha20Rng;
use rand_core::SeedableRng;
use rns_poly::PolyBuf;
use set_table::SetName;
use std::alloc::{AllocError, Global};

/// Does `public SEC SEEDFILE OUT`.
pub fn public<S: Store>(alloc: Global, words: &[String], store: &mut S) -> Result<(), Status>
    requires form { form_of (map string_bytes words.now) ≡ Some form.Public }
    requires count { length words.now ≡ 4 }
    ensures { Commanded (map string_bytes words.now) (λ _. None) (S.state store.old) (S.state store.new) result }
{
    let secret = scan_operand(store, words, Wanted::Secret, 1)?;
    let seed = read_seed(store, words, 2)?;
    write_drawn(alloc, words, store, &secret, &seed)
}

/// Writes the file of the public key that a seed draws for a secret whose file was scanned.
fn write_drawn<S: Store>(
    alloc: Global,
    words: &[String],
    store: &mut S,
    secret: &Head,
    seed: &[u8; SEED_BYTES],
) -> Result<(), Status>
    requires count { length words.now ≡ 4 }
    requires rules { HeadKeepsRules secret.now }
    requires kind { wants wanted.Secret secret.now.kind ≡ true }
    ensures { (content : FileContent) → Wrote (word_at (map string_bytes words.now) 3) (λ w. w ≡ 1) (λ files. HasContent (map string_bytes words.now) files 1 secret.now content)
        (λ bytes. bytes ≡ file_text (drawn_public_file content (plan.seed_word seed.now))) (S.state store.old) (S.state store.new) result }
{
    match secret.set {
        SetName::One16 | SetName::Toy16 => write_of_degree::<S, 16>(
            alloc, words, store, secret, seed,
        ),
        SetName::S4096 => write_of_degree::<S, 4096>(alloc, words, store, secret, seed),
        SetName::S8192 => write_of_degree::<S, 8192>(alloc, words, store, secret, seed),
        SetName::S16384 => write_of_degree::<S, 16384>(alloc, words, store, secret, seed),
    }
}

/// The same for a set of degree N.
fn write_of_degree<S: Store, const N: usize>(
    alloc: Global,
    words: &[String],
    store: &mut S,
    secret: &Head,
    seed: &[u8; SEED_BYTES],
) -> Result<(), Status>
    requires count { length words.now ≡ 4 }
    requires rules { HeadKeepsRules secret.now }
    requires kind { wants wanted.Secret secret.now.kind ≡ true }
    requires degree { N ≡ degree_of secret.now.set }
    ensures { (content : FileContent) → Wrote (word_at (map string_bytes words.now) 3) (λ w. w ≡ 1) (λ files. HasContent (map string_bytes words.now) files 1 secret.now content)
        (λ bytes. bytes ≡ file_text (drawn_public_file content (plan.seed_word seed.now))) (S.state store.old) (S.state store.new) result }
{
    let public = drawn_key::<S, N>(alloc, words, store, secret, seed)?;
    let head = Head::of_public(secret.set, secret.id);
    match write_public(store, name_of(words, 3), &head, &public) {
        Ok(()) => Ok(()),
        Err(fault) => Err(write_status(fault)),
    }
}

/// The public key that a seed draws for that secret, which is read again.
fn drawn_key<S: Store, const N: usize>(
    alloc: Global,
    words: &[String],
    store: &mut S,
    secret: &Head,
    seed: &[u8; SEED_BYTES],
) -> Result<Public<N>, Status>
    requires count { length words.now ≡ 4 }
    requires rules { HeadKeepsRules secret.now }
    requires kind { wants wanted.Secret secret.now.kind ≡ true }
    requires degree { N ≡ degree_of secret.now.set }
    ensures set { IfOk result (λ public. public.set ≡ secret.now.set) }
    ensures made { (content : FileContent) → Made (λ w. w ≡ 1) (λ files. HasContent (map string_bytes words.now) files 1 secret.now content)
        (λ public. (part i k : ℕ) → part < 2 → i < length (data_of secret.now.set) → k < N
        → listed_word (length (data_of secret.now.set)) public.rows part i k
        ≡ drawn_public N (data_of secret.now.set) (secret_polynomial content.words) (plan.seed_word seed.now) part i k)
        (S.state store.old) (S.state store.new) result }
{
    let Ok(ctx) = Context::<N>::new(alloc, secret.set) else {
        return Err(Status::Memory);
    };
    let source = secret_again(alloc, words, store, &ctx, secret, 1)?;
    match key_of(alloc, &ctx, &source, seed) {
        Ok(public) => Ok(public),
        Err(_) => Err(Status::Memory),
    }
}

/// The public key that a seed draws for a secret.
fn key_of<const N: usize>(
    alloc: Global,
    ctx: &Context<N>,
    secret: &Secret<N>,
    seed: &[u8; SEED_BYTES],
) -> Result<Public<N>, AllocError>
    requires level { (ctx.now).level ≡ length (data_of (ctx.now).set) }
    requires set { (secret.now).set ≡ (ctx.now).set }
    ensures set { IfOk result (λ public. public.set ≡ (ctx.now).set) }
    ensures words { IfOk result (λ public. (part i k : ℕ) → part < 2 → i < length (data_of (ctx.now).set) → k < N →
        listed_word (length (data_of (ctx.now).set)) public.rows part i k
        ≡ drawn_public N (data_of (ctx.now).set) (listed_polynomial (secret.now).small) (plan.seed_word seed.now) part i k) }
{
    let mut public = Public::new(alloc, ctx)?;
    let mut scratch = PolyBuf::new(alloc, ctx.scratch_rows())?;
    let mut rng = ChaCha20Rng::from_seed(*seed);
    key_make::public(ctx, secret, &mut public, &mut scratch, &mut rng);
    Ok(public)
}
