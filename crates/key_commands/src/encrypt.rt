// The command `encrypt`.
ghost use Rattle.std.specs.Prelude.{◌≡◌, ◌<◌, true, length, map, Some, None, IfOk};
ghost use Rattle.std.specs.String.{string_bytes};
ghost use Rattle.set_table.specs.Sets.{degree_of, data_of};
ghost use Rattle.file_model.specs.FileText.{FileContent};
ghost use Rattle.bfv_model.specs.Holds.{listed_word, stored_word};
ghost use Rattle.file_model.specs.Heads.{HeadKeepsRules, wants};
ghost use Rattle.file_model.specs.declared.head.Wanted.TheVariants as wanted;
ghost use Rattle.bfv_params.specs.Ciphers.{IsCipherOf};
ghost use Rattle.command_words.specs.Form.{form_of};
ghost use Rattle.command_words.specs.Line.{word_at};
ghost use Rattle.command_words.specs.declared.form.Form.TheVariants as form;
ghost use Rattle.command_model.specs.Commanded.{Commanded};
ghost use Rattle.command_model.specs.Plan as plan;
ghost use Rattle.command_stages.specs.Operands.{HasContent, AreValues};
ghost use Rattle.command_stages.specs.Stages.{Made, Wrote};
ghost use Rattle.key_commands.specs.Encrypted.{IsSealing};

use crate::reread::public_again;
use bfv_params::{Cipher, Context, Public};
use cipher_files::{Head, Wanted, write_cipher};
use command_stages::{
    SEED_BYTES, name_of, read_seed, read_values_operand, scan_operand, write_status,
};
use command_words::Status;
use noise_check::fresh;
use outer_io::Store;
use rand_chacha::ChaCha20Rng;
use rand_core::SeedableRng;
use rns_poly::PolyBuf;
use set_table::SetName;
use slot_batch::encode;
use std::alloc::{AllocError, Global};

/// Does `encrypt PUB SEEDFILE VALUES OUT`.
pub fn encrypt<S: Store>(alloc: Global, words: &[String], store: &mut S) -> Result<(), Status>
    requires form { form_of (map string_bytes words.now) ≡ Some form.Encrypt }
    requires count { length words.now ≡ 5 }
    ensures { Commanded (map string_bytes words.now) (λ _. None) (S.state store.old) (S.state store.new) result }
{
    let public = scan_operand(store, words, Wanted::Public, 1)?;
    let seed = read_seed(store, words, 2)?;
    let values = read_values_operand(alloc, store, words, public.set, 3)?;
    write_sealed(alloc, words, store, &public, &seed, &values)
}

/// Writes the file of the cipher of these values that a seed draws under a public key whose file
/// was scanned.
fn write_sealed<S: Store>(
    alloc: Global,
    words: &[String],
    store: &mut S,
    public: &Head,
    seed: &[u8; SEED_BYTES],
    values: &[u64],
) -> Result<(), Status>
    requires count { length words.now ≡ 5 }
    requires rules { HeadKeepsRules public.now }
    requires kind { wants wanted.Public public.now.kind ≡ true }
    requires values { AreValues public.now.set values.now }
    ensures { (content : FileContent) → Wrote (word_at (map string_bytes words.now) 4) (λ w. w ≡ 1) (λ files. HasContent (map string_bytes words.now) files 1 public.now content)
        (plan.IsFreshCipher content values.now seed.now) (S.state store.old) (S.state store.new) result }
{
    match public.set {
        SetName::One16 | SetName::Toy16 => write_of_degree::<S, 16>(
            alloc, words, store, public, seed, values,
        ),
        SetName::S4096 => write_of_degree::<S, 4096>(alloc, words, store, public, seed, values),
        SetName::S8192 => write_of_degree::<S, 8192>(alloc, words, store, public, seed, values),
        SetName::S16384 => write_of_degree::<S, 16384>(alloc, words, store, public, seed, values),
    }
}

/// The same for a set of degree N.
fn write_of_degree<S: Store, const N: usize>(
    alloc: Global,
    words: &[String],
    store: &mut S,
    public: &Head,
    seed: &[u8; SEED_BYTES],
    values: &[u64],
) -> Result<(), Status>
    requires count { length words.now ≡ 5 }
    requires rules { HeadKeepsRules public.now }
    requires kind { wants wanted.Public public.now.kind ≡ true }
    requires degree { N ≡ degree_of public.now.set }
    requires values { AreValues public.now.set values.now }
    ensures { (content : FileContent) → Wrote (word_at (map string_bytes words.now) 4) (λ w. w ≡ 1) (λ files. HasContent (map string_bytes words.now) files 1 public.now content)
        (plan.IsFreshCipher content values.now seed.now) (S.state store.old) (S.state store.new) result }
{
    let cipher = sealed::<S, N>(alloc, words, store, public, seed, values)?;
    let head = Head::of_cipher(public.set, 2, public.id, fresh(public.set));
    match write_cipher(store, name_of(words, 4), &head, &cipher) {
        Ok(()) => Ok(()),
        Err(fault) => Err(write_status(fault)),
    }
}

/// The cipher of these values that a seed draws under that public key, which is read again.
fn sealed<S: Store, const N: usize>(
    alloc: Global,
    words: &[String],
    store: &mut S,
    public: &Head,
    seed: &[u8; SEED_BYTES],
    values: &[u64],
) -> Result<Cipher<N>, Status>
    requires count { length words.now ≡ 5 }
    requires rules { HeadKeepsRules public.now }
    requires kind { wants wanted.Public public.now.kind ≡ true }
    requires degree { N ≡ degree_of public.now.set }
    requires values { AreValues public.now.set values.now }
    ensures set { IfOk result (λ cipher. cipher.set ≡ public.now.set) }
    ensures level { IfOk result (λ cipher. cipher.level ≡ length (data_of public.now.set)) }
    ensures parts { IfOk result (λ cipher. cipher.parts ≡ 2) }
    ensures made { (content : FileContent) → Made (λ w. w ≡ 1) (λ files. HasContent (map string_bytes words.now) files 1 public.now content)
        (λ cipher. IsSealing public.now.set (stored_word (degree_of public.now.set) (length (data_of public.now.set)) content.words)
        values.now (plan.seed_word seed.now) (listed_word (length (data_of public.now.set)) cipher.rows)) (S.state store.old) (S.state store.new) result }
{
    let Ok(ctx) = Context::<N>::new(alloc, public.set) else {
        return Err(Status::Memory);
    };
    let key = public_again(alloc, words, store, &ctx, public, 1)?;
    match sealed_under(alloc, &ctx, &key, seed, values) {
        Ok(cipher) => Ok(cipher),
        Err(_) => Err(Status::Memory),
    }
}

/// The cipher of these values that a seed draws under a public key.
fn sealed_under<const N: usize>(
    alloc: Global,
    ctx: &Context<N>,
    public: &Public<N>,
    seed: &[u8; SEED_BYTES],
    values: &[u64],
) -> Result<Cipher<N>, AllocError>
    requires level { (ctx.now).level ≡ length (data_of (ctx.now).set) }
    requires set { (public.now).set ≡ (ctx.now).set }
    requires values { AreValues (ctx.now).set values.now }
    ensures of_context { IfOk result (λ cipher. IsCipherOf (ctx.now) cipher) }
    ensures parts { IfOk result (λ cipher. cipher.parts ≡ 2) }
    ensures sealing { IfOk result (λ cipher. IsSealing (ctx.now).set (listed_word (length (data_of (ctx.now).set)) (public.now).rows)
        values.now (plan.seed_word seed.now) (listed_word (length (data_of (ctx.now).set)) cipher.rows)) }
{
    let mut cipher = Cipher::new(alloc, ctx)?;
    let mut scratch = PolyBuf::new(alloc, ctx.scratch_rows())?;
    let mut plain = Box::new(alloc, [0; N])?;
    let Some(listed) = values.as_array::<N>() else {
        unreachable!()
    };
    encode(ctx, listed, &mut plain);
    let mut rng = ChaCha20Rng::from_seed(*seed);
    bfv_encrypt::encrypt(ctx, public, &plain, &mut cipher, &mut scratch, &mut rng);
    Ok(cipher)
}
