//! Keys in memory, read through the bound; and digits of keys and switched pairs against checksums over all words by a
//! program in Python.

ghost use Rattle.std.specs.Prelude.{◌≡◌, ℕ, ◌+◌, ◌*◌, ◌<◌, ◌≤◌, length, nat_abs, slice_index, IfOk, IsSome, Contains};
ghost use Rattle.set_table.specs.Sets.{data_of, degree_of, key_of, special_of};
ghost use Rattle.set_table.specs.declared.SetName.TheVariants.{Toy16};
ghost use Rattle.ring_law.specs.Polynomials.{AllWithin};
ghost use Rattle.ring_law.specs.Rows.{IsReduced, listed_polynomial};
ghost use Rattle.rns_poly.specs.Rows.{AreReduced};
ghost use Rattle.bfv_params.specs.Contexts.{data_in, scratch_rows_in};
ghost use Rattle.bfv_params.specs.Kept.{IsElement};
ghost use Rattle.bfv_params.specs.Rows.{ReducedInTurn};

use crate::{Keys, MemKeys, apply, make_digit, relin_source, turn_source};
use bfv_params::{Context, Secret, SwitchKey};
use rand_chacha::ChaCha20Rng;
use rand_core::SeedableRng;
use rns_poly::{PolyBuf, View, ViewMut};
use set_table::{KeyKind, SetName};
use std::alloc::{AllocError, Global};
use std::process::Abort;
use std::test::Fail;
use word_mod::Modulus;

fn constant_row<const N: usize>(word: u64) -> [u64; N]
    requires { N ≤ 32768 }
    ensures { (k : ℕ) → k < N → slice_index result k ≡ word }
{
    [word; N]
}

/// A key for relinearisation whose first row has this word at each place.
fn relin_key<const N: usize>(
    alloc: Global,
    ctx: &Context<N>,
    word: u64,
) -> Result<SwitchKey<N>, AllocError>
    requires degree { N ≤ 32768 }
    requires toy { (ctx.now).set ≡ Toy16 }
    requires small { word < 100 }
    ensures { IfOk result (λ key. key.set ≡ Toy16) }
{
    let mut key = SwitchKey::new(alloc, ctx, KeyKind::Relin, 0)?;
    key.set_row(0, &constant_row(word));
    Ok(key)
}

/// The first word of the first digit of the key for relinearisation.
fn first_word<const N: usize, K: Keys<N>>(
    rt: &impl Abort,
    alloc: Global,
    keys: &mut K,
) -> Result<u64, Fail>
    requires toy { (K.state keys.old).set ≡ Toy16 }
    requires degree { N ≡ degree_of Toy16 }
{
    assert!(rt; keys.has(KeyKind::Relin, 0));
    assert!(rt; !keys.has(KeyKind::Turn, 3));
    let mut rows = PolyBuf::<N>::new(alloc, 6)?;
    keys.digit(KeyKind::Relin, 0, 0, rows.view_mut())?;
    Ok(rows.view().row(0)[0])
}

fn check_first_added<const N: usize>(rt: &impl Abort, alloc: Global) -> Result<(), Fail>
    requires { N ≡ degree_of Toy16 }
{
    let ctx = Context::<N>::new(alloc, SetName::Toy16)?;
    let mut keys = MemKeys::<N>::new(alloc, SetName::Toy16);
    keys.add_key(relin_key(alloc, &ctx, 7)?)?;
    keys.add_key(relin_key(alloc, &ctx, 8)?)?;
    assert_eq!(rt; first_word(rt, alloc, &mut keys)?, 7);
    Ok(())
}

#[test]
fn first_of_two_keys(rt: HostRuntime) -> Result<(), Fail> {
    check_first_added::<16>(&rt, rt.alloc())
}

fn ternary(word: u64) -> i8
    ensures { nat_abs result ≤ 1 }
{
    match word % 3 {
        0 => -1,
        1 => 0,
        _ => 1,
    }
}

fn next(word: u64) -> u64 {
    word.wrapping_mul(0x5851_f42d_4c95_7f2d)
        .wrapping_add(0x1405_7b7e_f767_814f)
}

fn fill_small<const N: usize>(small: &mut [i8; N])
    ensures { AllWithin N 1 (listed_polynomial small.new) }
{
    let mut word = 1;
    for k in 0..N {
        word = next(word);
        small[k] = ternary(word / 4096);
    }
}

/// A word at an end of the range, in its middle or anywhere.
fn word_at_end(m: &Modulus, k: usize, word: u64) -> u64
    ensures { result < m.now }
{
    let q = m.value();
    match k % 4 {
        0 => 0,
        1 => q - 1,
        2 => q / 2,
        _ => m.reduce(word),
    }
}

fn fill<const N: usize>(m: &Modulus, seed: u64, row: &mut [u64; N])
    requires { N ≤ 32768 }
    ensures { IsReduced N m.now row.new }
{
    let mut word = seed;
    for k in 0..N {
        word = next(word);
        row[k] = word_at_end(m, k, word);
    }
}

fn fill_rows<const N: usize>(moduli: &[Modulus], rows: ViewMut<'_, N>)
    requires degree { N ≤ 32768 }
    requires count { length rows.old ≡ length moduli.now }
    ensures { AreReduced N moduli.now rows.new }
{
    for i in 0..moduli.len() {
        fill(&moduli[i], i as u64, &mut rows[i]);
    }
}

/// The rows of a part.
fn filled<const N: usize>(alloc: Global, ctx: &Context<N>) -> Result<PolyBuf<N>, AllocError>
    ensures count { IfOk result (λ rows. length rows ≡ (ctx.now).level) }
    ensures reduced { IfOk result (λ rows. AreReduced N (data_in (ctx.now)) rows) }
{
    let moduli = ctx.data_moduli();
    let mut rows = PolyBuf::<N>::new(alloc, moduli.len())?;
    fill_rows(moduli, rows.view_mut());
    Ok(rows)
}

/// The checksum with the words of the rows folded in.
fn fold<const N: usize>(sum: u64, rows: &[[u64; N]]) -> u64 {
    let mut sum = sum;
    for row in rows {
        for word in row {
            sum = sum.wrapping_mul(0x100_0000_01b3) ^ *word;
        }
    }
    sum
}

fn source_into<const N: usize>(
    ctx: &Context<N>,
    secret: &Secret<N>,
    kind: KeyKind,
    element: u32,
    out: ViewMut<'_, N>,
)
    requires secret_set { (secret.now).set ≡ (ctx.now).set }
    requires count { length out.old ≡ (ctx.now).level }
    ensures { AreReduced N (data_in (ctx.now)) out.new }
{
    match kind {
        KeyKind::Relin => relin_source(ctx, secret, out),
        KeyKind::Turn => turn_source(ctx, secret, element, out),
    }
}

/// The source of a key.
fn source_of<const N: usize>(
    alloc: Global,
    ctx: &Context<N>,
    secret: &Secret<N>,
    key: &SwitchKey<N>,
) -> Result<PolyBuf<N>, AllocError>
    requires secret_set { (secret.now).set ≡ (ctx.now).set }
    ensures count { IfOk result (λ rows. length rows ≡ (ctx.now).level) }
    ensures reduced { IfOk result (λ rows. AreReduced N (data_in (ctx.now)) rows) }
{
    let mut rows = PolyBuf::<N>::new(alloc, ctx.data_moduli().len())?;
    source_into(ctx, secret, key.kind(), key.element(), rows.view_mut());
    Ok(rows)
}

/// Puts the rows of digit i into a key.
fn put_digit<const N: usize>(key: &mut SwitchKey<N>, count: usize, i: usize, digit: View<'_, N>)
    requires degree { N ≤ 32768 }
    requires count { count ≡ length (data_of (key.old).set) + 1 }
    requires index { i < length (data_of (key.old).set) }
    requires rows { length digit.rows.now ≡ 2 * count }
    requires reduced { ReducedInTurn N count (key_of (key.old).set) digit.rows.now }
    ensures set { (key.new).set ≡ (key.old).set }
    ensures kind { (key.new).kind ≡ (key.old).kind }
    ensures element { (key.new).element ≡ (key.old).element }
{
    for r in 0..digit.rows() {
        key.set_row(i * 2 * count + r, digit.row(r));
    }
}

/// Draws digit i of a key.
fn draw_digit<const N: usize>(
    ctx: &Context<N>,
    secret: &Secret<N>,
    source: View<'_, N>,
    i: usize,
    digit: ViewMut<'_, N>,
    key: &mut SwitchKey<N>,
    scratch: &mut PolyBuf<N>,
    rng: &mut ChaCha20Rng,
)
    requires level { (ctx.now).level ≡ length (data_of (ctx.now).set) }
    requires special { IsSome (special_of (ctx.now).set) }
    requires secret_set { (secret.now).set ≡ (ctx.now).set }
    requires key_set { (key.old).set ≡ (ctx.now).set }
    requires index { i < (ctx.now).level }
    requires source_count { length source.rows.now ≡ (ctx.now).level }
    requires source_reduced { AreReduced N (data_in (ctx.now)) source.rows.now }
    requires count { length digit.old ≡ 2 * ((ctx.now).level + 1) }
    requires room { length scratch.old ≡ scratch_rows_in (ctx.now) }
    ensures set { (key.new).set ≡ (key.old).set }
    ensures kind { (key.new).kind ≡ (key.old).kind }
    ensures element { (key.new).element ≡ (key.old).element }
    ensures room { length scratch.new ≡ length scratch.old }
{
    make_digit(ctx, secret, source, i, &mut *digit, scratch, rng);
    put_digit(key, ctx.data_moduli().len() + 1, i, View { rows: digit });
}

/// Draws all digits of a key, and returns their checksum.
fn draw_key<const N: usize>(
    alloc: Global,
    ctx: &Context<N>,
    secret: &Secret<N>,
    seed: u8,
    key: &mut SwitchKey<N>,
    scratch: &mut PolyBuf<N>,
) -> Result<u64, AllocError>
    requires level { (ctx.now).level ≡ length (data_of (ctx.now).set) }
    requires special { IsSome (special_of (ctx.now).set) }
    requires secret_set { (secret.now).set ≡ (ctx.now).set }
    requires key_set { (key.old).set ≡ (ctx.now).set }
    requires room { length scratch.old ≡ scratch_rows_in (ctx.now) }
    ensures set { (key.new).set ≡ (key.old).set }
    ensures kind { (key.new).kind ≡ (key.old).kind }
    ensures element { (key.new).element ≡ (key.old).element }
    ensures room { length scratch.new ≡ length scratch.old }
{
    let level = ctx.data_moduli().len();
    let source = source_of(alloc, ctx, secret, key)?;
    let mut digit = PolyBuf::<N>::new(alloc, 2 * (level + 1))?;
    let mut rng = ChaCha20Rng::from_seed([seed; 32]);
    let mut sum = 0;
    for i in 0..level {
        draw_digit(
            ctx,
            secret,
            source.view(),
            i,
            digit.view_mut(),
            key,
            scratch,
            &mut rng,
        );
        sum = fold(sum, digit.view().slice());
    }
    Ok(sum)
}

/// The checksum of the pair that switching a part by the key gives.
fn switched_sum<const N: usize>(
    alloc: Global,
    ctx: &Context<N>,
    key: SwitchKey<N>,
    scratch: &mut PolyBuf<N>,
) -> Result<u64, Fail>
    requires special { IsSome (special_of (ctx.now).set) }
    requires key_set { key.set ≡ (ctx.now).set }
    requires room { length scratch.old ≡ scratch_rows_in (ctx.now) }
{
    let (kind, element) = (key.kind(), key.element());
    let mut keys = MemKeys::new(alloc, ctx.set());
    keys.add_key(key)?;
    let part = filled(alloc, ctx)?;
    let mut pair = PolyBuf::<N>::new(alloc, 2 * part.rows())?;
    apply(
        ctx,
        &mut keys,
        kind,
        element,
        part.view(),
        pair.view_mut(),
        scratch,
    )?;
    Ok(fold(0, pair.view().slice()))
}

/// Checks a key that is drawn from a seed of 32 equal bytes: the checksum of its digits, and that of the pair that switching
/// a part by it gives.
fn check_key<const N: usize>(
    rt: &impl Abort,
    alloc: Global,
    set: SetName,
    kind: KeyKind,
    element: u32,
    seed: u8,
    sums: (u64, u64),
) -> Result<(), Fail>
    requires degree { N ≡ degree_of set }
    requires special { IsSome (special_of set) }
    requires element { IsElement N kind element }
{
    let ctx = Context::<N>::new(alloc, set)?;
    let mut small = [0; N];
    fill_small(&mut small);
    let mut secret = Secret::<N>::new(alloc, &ctx)?;
    secret.set(&small);
    let mut scratch = PolyBuf::<N>::new(alloc, ctx.scratch_rows())?;
    let mut key = SwitchKey::<N>::new(alloc, &ctx, kind, element)?;
    let sum = draw_key(alloc, &ctx, &secret, seed, &mut key, &mut scratch)?;
    assert_eq!(rt; sum, sums.0);
    assert_eq!(rt; switched_sum(alloc, &ctx, key, &mut scratch)?, sums.1);
    Ok(())
}

#[test]
fn keys_of_a_small_set(rt: HostRuntime) -> Result<(), Fail> {
    let sums = (0xc889_d493_a49a_8761, 0x3753_f333_f9af_eac8);
    check_key::<16>(&rt, rt.alloc(), SetName::Toy16, KeyKind::Relin, 0, 3, sums)?;
    let sums = (0x0b61_7099_9f8c_80fc, 0x6210_d7e9_fc3e_0fc9);
    check_key::<16>(&rt, rt.alloc(), SetName::Toy16, KeyKind::Turn, 3, 4, sums)?;
    let sums = (0xe66a_7dfb_9136_9192, 0xca33_5042_1a1d_d872);
    check_key::<16>(&rt, rt.alloc(), SetName::Toy16, KeyKind::Turn, 31, 5, sums)
}

#[test]
fn keys_of_a_set_with_two_data_moduli(rt: HostRuntime) -> Result<(), Fail> {
    let sums = (0x9d51_88d4_3f40_439e, 0x14f5_ad29_22b8_2460);
    check_key::<4096>(&rt, rt.alloc(), SetName::S4096, KeyKind::Relin, 0, 3, sums)?;
    let sums = (0x3c58_9d80_ce9b_041d, 0xd828_8d23_c084_5d6e);
    check_key::<4096>(&rt, rt.alloc(), SetName::S4096, KeyKind::Turn, 3, 4, sums)?;
    let sums = (0xdb1a_da52_933b_b0fb, 0xf564_da4c_3ade_f038);
    check_key::<4096>(
        &rt,
        rt.alloc(),
        SetName::S4096,
        KeyKind::Turn,
        8191,
        5,
        sums,
    )
}

#[test]
fn key_of_a_set_with_four_data_moduli(rt: HostRuntime) -> Result<(), Fail> {
    let sums = (0x07d0_fc67_148c_3817, 0xb35e_0b0f_d997_c456);
    check_key::<8192>(&rt, rt.alloc(), SetName::S8192, KeyKind::Relin, 0, 3, sums)
}
