// Switching keys that are drawn to a secret, made and written digit by digit.
ghost use Rattle.std.specs.Prelude.{◌≡◌, ◌<◌, ℕ, true, length, map, Some, None, IsTrue, IsSome, IfOk, IfErr, OnOk, OnErr};
ghost use Rattle.std.specs.String.{string_bytes};
ghost use Rattle.outer_io.specs.Store.{OnlyWrites, with_file};
ghost use Rattle.set_table.specs.Sets.{data_of, degree_of, special_of};
ghost use Rattle.ring_law.specs.Rows.{listed_polynomial};
ghost use Rattle.rns_poly.specs.Rows.{AreReduced};
ghost use Rattle.rns_poly.specs.Transforms.{AreTransforms};
ghost use Rattle.bfv_model.specs.Holds.{secret_polynomial};
ghost use Rattle.bfv_model.specs.SwitchKeys.{key_source};
ghost use Rattle.bfv_params.specs.Contexts.{data_in, transforms_in};
ghost use Rattle.file_model.specs.declared.file_kind.FileKind.TheVariants as kind;
ghost use Rattle.file_model.specs.DrawnFiles.{drawn_switch_file};
ghost use Rattle.file_model.specs.FileText.{FileContent, IsFile, KeepsRules, element_fits, file_text};
ghost use Rattle.file_model.specs.Heads.{HeadKeepsRules, wants};
ghost use Rattle.file_model.specs.declared.head.Wanted.TheVariants as wanted;
ghost use Rattle.command_model.specs.Plan as plan;
ghost use Rattle.command_stages.specs.Operands.{HasContent};
ghost use Rattle.command_stages.specs.Stages.{Made, Wrote};
ghost use Rattle.key_commands.specs.SwitchKeys.{IsRoom, content_drawn};

use crate::reread::secret_again;
use bfv_params::{Context, Secret};
use cipher_files::{Head, KeyWriter};
use command_stages::{SEED_BYTES, write_status};
use command_words::Status;
use key_switch::{make_digit, relin_source, turn_source};
use outer_io::{Store, StoreFault};
use rand_chacha::ChaCha20Rng;
use rand_core::SeedableRng;
use rns_poly::{PolyBuf, ViewMut};
use set_table::{KeyKind, SetName};
use std::alloc::{AllocError, Global};

/// Which switching key is drawn to a secret: its kind, its Galois element, which is 0 for relinearisation, and the seed.
#[derive(Clone, Copy)]
pub struct KeyDraw {
    pub kind: KeyKind,
    pub element: u32,
    pub seed: [u8; SEED_BYTES],
}

/// All that a key is made in, one digit at a time. The source has the transforms of what the key switches from.
#[derive(Drop)]
struct KeyRoom<const N: usize> {
    ctx: Context<N>,
    secret: Secret<N>,
    source: PolyBuf<N>,
    digit: PolyBuf<N>,
    scratch: PolyBuf<N>,
}

/// Refuses a set without a special modulus.
pub fn need_special(set: SetName) -> Result<(), Status>
    ensures ok { OnOk result (plan.without_special set ≡ None) }
    ensures some { OnOk result (IsSome (special_of set)) }
    ensures err { IfErr result (λ status. plan.without_special set ≡ Some status) }
{
    match set.special() {
        Some(_) => Ok(()),
        None => Err(Status::NoSpecial { set }),
    }
}

/// Writes the file OUT of the switching key that is drawn to a secret, whose file was scanned as that of word 1.
pub fn write_drawn<S: Store>(
    alloc: Global,
    words: &[String],
    store: &mut S,
    secret: &Head,
    draw: &KeyDraw,
    out: &str,
) -> Result<(), Status>
    requires word { 1 < length words.now }
    requires rules { HeadKeepsRules secret.now }
    requires kind { wants wanted.Secret secret.now.kind ≡ true }
    requires special { IsSome (special_of secret.now.set) }
    requires element { IsTrue (element_fits (kind.SwitchKey draw.now.kind) secret.now.set draw.now.element) }
    ensures { (content : FileContent) → Wrote out.now (λ w. w ≡ 1) (λ files. HasContent (map string_bytes words.now) files 1 secret.now content)
        (λ bytes. IsFile bytes (drawn_switch_file draw.now.kind draw.now.element content (plan.seed_word draw.now.seed)))
        (S.state store.old) (S.state store.new) result }
{
    match secret.set {
        SetName::One16 | SetName::Toy16 => write_of_degree::<S, 16>(
            alloc, words, store, secret, draw, out,
        ),
        SetName::S4096 => write_of_degree::<S, 4096>(alloc, words, store, secret, draw, out),
        SetName::S8192 => write_of_degree::<S, 8192>(alloc, words, store, secret, draw, out),
        SetName::S16384 => write_of_degree::<S, 16384>(alloc, words, store, secret, draw, out),
    }
}

/// The same for a set of degree N.
fn write_of_degree<S: Store, const N: usize>(
    alloc: Global,
    words: &[String],
    store: &mut S,
    secret: &Head,
    draw: &KeyDraw,
    out: &str,
) -> Result<(), Status>
    requires word { 1 < length words.now }
    requires rules { HeadKeepsRules secret.now }
    requires kind { wants wanted.Secret secret.now.kind ≡ true }
    requires special { IsSome (special_of secret.now.set) }
    requires element { IsTrue (element_fits (kind.SwitchKey draw.now.kind) secret.now.set draw.now.element) }
    requires degree { N ≡ degree_of secret.now.set }
    ensures { (content : FileContent) → Wrote out.now (λ w. w ≡ 1) (λ files. HasContent (map string_bytes words.now) files 1 secret.now content)
        (λ bytes. IsFile bytes (drawn_switch_file draw.now.kind draw.now.element content (plan.seed_word draw.now.seed)))
        (S.state store.old) (S.state store.new) result }
{
    let mut room = room_of::<S, N>(alloc, words, store, secret, draw)?;
    let head = Head::of_switch_key(draw.kind, secret.set, draw.element, secret.id);
    match put_key(store, out, &head, &mut room, draw) {
        Ok(()) => Ok(()),
        Err(fault) => Err(write_status(fault)),
    }
}

/// The room for a key to that secret, which is read again.
fn room_of<S: Store, const N: usize>(
    alloc: Global,
    words: &[String],
    store: &mut S,
    secret: &Head,
    draw: &KeyDraw,
) -> Result<KeyRoom<N>, Status>
    requires word { 1 < length words.now }
    requires rules { HeadKeepsRules secret.now }
    requires kind { wants wanted.Secret secret.now.kind ≡ true }
    requires degree { N ≡ degree_of secret.now.set }
    ensures room { IfOk result (λ room. IsRoom N secret.now.set draw.now.kind draw.now.element room.ctx room.secret room.source room.digit room.scratch) }
    ensures made { (content : FileContent) → Made (λ w. w ≡ 1) (λ files. HasContent (map string_bytes words.now) files 1 secret.now content)
        (λ room. (k : ℕ) → k < N → listed_polynomial room.secret.small k ≡ secret_polynomial content.words k)
        (S.state store.old) (S.state store.new) result }
{
    let Ok(ctx) = Context::<N>::new(alloc, secret.set) else {
        return Err(Status::Memory);
    };
    let own = secret_again(alloc, words, store, &ctx, secret, 1)?;
    match filled_room(alloc, ctx, own, draw) {
        Ok(room) => Ok(room),
        Err(_) => Err(Status::Memory),
    }
}

/// The room for a key to a secret.
fn filled_room<const N: usize>(
    alloc: Global,
    ctx: Context<N>,
    secret: Secret<N>,
    draw: &KeyDraw,
) -> Result<KeyRoom<N>, AllocError>
    requires level { ctx.level ≡ length (data_of ctx.set) }
    requires secret_set { secret.set ≡ ctx.set }
    ensures room { IfOk result (λ room. IsRoom N ctx.entry.set draw.now.kind draw.now.element room.ctx room.secret room.source room.digit room.scratch) }
    ensures secret { IfOk result (λ room. room.secret ≡ secret.entry) }
{
    let level = ctx.data_moduli().len();
    let mut source = PolyBuf::new(alloc, level)?;
    let digit = PolyBuf::new(alloc, 2 * (level + 1))?;
    let scratch = PolyBuf::new(alloc, ctx.scratch_rows())?;
    fill_source(&ctx, &secret, draw, source.view_mut());
    Ok(KeyRoom {
        ctx,
        secret,
        source,
        digit,
        scratch,
    })
}

/// Writes the transforms of what the key switches from.
fn fill_source<const N: usize>(
    ctx: &Context<N>,
    secret: &Secret<N>,
    draw: &KeyDraw,
    out: ViewMut<'_, N>,
)
    requires secret_set { (secret.now).set ≡ (ctx.now).set }
    requires count { length out.old ≡ (ctx.now).level }
    ensures transforms { AreTransforms (transforms_in (ctx.now)) out.new (λ _. key_source draw.now.kind N draw.now.element (listed_polynomial (secret.now).small)) }
    ensures reduced { AreReduced N (data_in (ctx.now)) out.new }
{
    match draw.kind {
        KeyKind::Relin => relin_source(ctx, secret, out),
        KeyKind::Turn => turn_source(ctx, secret, draw.element, out),
    }
}

/// Writes the file of a key with this head: each digit is made and put before the next one.
fn put_key<S: Store, const N: usize>(
    store: &mut S,
    name: &str,
    head: &Head,
    room: &mut KeyRoom<N>,
    draw: &KeyDraw,
) -> Result<(), StoreFault>
    requires rules { HeadKeepsRules head.now }
    requires kind { wants wanted.Key head.now.kind ≡ true }
    requires degree { N ≡ degree_of head.now.set }
    requires special { IsSome (special_of head.now.set) }
    requires room { IsRoom N head.now.set draw.now.kind draw.now.element (room.old).ctx (room.old).secret (room.old).source (room.old).digit (room.old).scratch }
    ensures keeps { OnlyWrites (S.state store.old) (S.state store.new) result }
    ensures idle { (S.state store.new).pending ≡ None }
    ensures ok { OnOk result ((S.state store.new).files ≡ with_file (S.state store.old).files name.now
        (file_text (content_drawn N head.now draw.now.kind draw.now.element (listed_polynomial ((room.old).secret).small) (plan.seed_word draw.now.seed)))) }
    ensures rules { OnOk result (KeepsRules
        (content_drawn N head.now draw.now.kind draw.now.element (listed_polynomial ((room.old).secret).small) (plan.seed_word draw.now.seed))) }
    ensures err { OnErr result ((S.state store.new).files ≡ (S.state store.old).files) }
{
    let mut writer = KeyWriter::begin(store, name, head)?;
    let mut rng = ChaCha20Rng::from_seed(draw.seed);
    'digits: for i in 0..head.set.data_count() {
        make_digit(
            &room.ctx,
            &room.secret,
            room.source.view(),
            i,
            room.digit.view_mut(),
            &mut room.scratch,
            &mut rng,
        );
        writer.put_digit(store, room.digit.view())?;
    }
    writer.finish(store)
}
