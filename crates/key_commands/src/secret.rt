// The command `secret`.
ghost use Rattle.std.specs.Prelude.{◌≡◌, length, map, Some, None, IfOk};
ghost use Rattle.std.specs.String.{string_bytes};
ghost use Rattle.set_table.specs.Sets.{degree_of};
ghost use Rattle.file_model.specs.DrawnFiles.{drawn_secret_file};
ghost use Rattle.file_model.specs.FileText.{file_text};
ghost use Rattle.file_model.specs.declared.file_kind.FileKind.TheVariants as kind;
ghost use Rattle.cipher_files.specs.Contents.{secret_words};
ghost use Rattle.file_model.specs.Heads.{HeadKeepsRules, content_with};
ghost use Rattle.command_words.specs.Form.{form_of};
ghost use Rattle.command_words.specs.declared.form.Form.TheVariants as form;
ghost use Rattle.command_model.specs.Commanded.{Commanded};
ghost use Rattle.command_model.specs.Plan as plan;
ghost use Rattle.command_stages.specs.Stages.{Wrote};

use bfv_params::{Context, Secret};
use cipher_files::{Head, write_secret};
use command_stages::{SEED_BYTES, name_of, read_seed, write_status};
use command_words::Status;
use outer_io::Store;
use rand_chacha::ChaCha20Rng;
use rand_core::SeedableRng;
use set_table::SetName;
use std::alloc::{AllocError, Global};

/// Does `secret SET SEEDFILE OUT`.
pub fn secret<S: Store>(alloc: Global, words: &[String], store: &mut S) -> Result<(), Status>
    requires form { form_of (map string_bytes words.now) ≡ Some form.Secret }
    requires count { length words.now ≡ 4 }
    ensures { Commanded (map string_bytes words.now) (λ _. None) (S.state store.old) (S.state store.new) result }
{
    let Some(set) = SetName::from_text(name_of(words, 1)) else {
        unreachable!()
    };
    let seed = read_seed(store, words, 2)?;
    write_drawn(alloc, store, name_of(words, 3), set, &seed)
}

/// Writes the file of the secret that a seed draws for a set.
fn write_drawn<S: Store>(
    alloc: Global,
    store: &mut S,
    name: &str,
    set: SetName,
    seed: &[u8; SEED_BYTES],
) -> Result<(), Status>
    ensures { Wrote name.now (λ w. ⊥) (λ files. Unit {0}) (λ bytes. bytes ≡ file_text (drawn_secret_file set (plan.seed_word seed.now)))
        (S.state store.old) (S.state store.new) result }
{
    match set {
        SetName::One16 | SetName::Toy16 => write_of_degree::<S, 16>(alloc, store, name, set, seed),
        SetName::S4096 => write_of_degree::<S, 4096>(alloc, store, name, set, seed),
        SetName::S8192 => write_of_degree::<S, 8192>(alloc, store, name, set, seed),
        SetName::S16384 => write_of_degree::<S, 16384>(alloc, store, name, set, seed),
    }
}

/// The same for a set of degree N.
fn write_of_degree<S: Store, const N: usize>(
    alloc: Global,
    store: &mut S,
    name: &str,
    set: SetName,
    seed: &[u8; SEED_BYTES],
) -> Result<(), Status>
    requires degree { N ≡ degree_of set }
    ensures { Wrote name.now (λ w. ⊥) (λ files. Unit {0}) (λ bytes. bytes ≡ file_text (drawn_secret_file set (plan.seed_word seed.now)))
        (S.state store.old) (S.state store.new) result }
{
    let Ok((head, secret)) = drawn::<N>(alloc, set, seed) else {
        return Err(Status::Memory);
    };
    match write_secret(store, name, &head, &secret) {
        Ok(()) => Ok(()),
        Err(fault) => Err(write_status(fault)),
    }
}

/// The secret that a seed draws for a set, and the head of its file.
fn drawn<const N: usize>(
    alloc: Global,
    set: SetName,
    seed: &[u8; SEED_BYTES],
) -> Result<(Head, Secret<N>), AllocError>
    requires { N ≡ degree_of set }
    ensures rules { IfOk result (λ made. HeadKeepsRules made.0) }
    ensures kind { IfOk result (λ made. made.0.kind ≡ kind.Secret) }
    ensures set { IfOk result (λ made. made.1.set ≡ made.0.set) }
    ensures content { IfOk result (λ made. content_with made.0 (secret_words N made.1.small) ≡ drawn_secret_file set (plan.seed_word seed.now)) }
{
    let ctx = Context::<N>::new(alloc, set)?;
    let mut secret = Secret::new(alloc, &ctx)?;
    let id = key_make::secret(&ctx, &mut secret, &mut ChaCha20Rng::from_seed(*seed));
    Ok((Head::of_secret(set, id), secret))
}
