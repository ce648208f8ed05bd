//! Ciphers whose plaintexts were computed with Python's whole numbers, as the whole numbers nearest
//! to `t / q` times the phase.

ghost use Rattle.std.specs.Prelude.{◌≡◌, ◌*◌, ◌<◌, ◌≤◌, nat_abs, IfOk};
ghost use Rattle.set_table.specs.Sets.{degree_of};
ghost use Rattle.ring_law.specs.Polynomials.{AllWithin};
ghost use Rattle.ring_law.specs.Rows.{IsReduced, listed_polynomial};

use super::*;
use bfv_params::{Cipher, Context, Secret};
use rns_poly::PolyBuf;
use set_table::SetName;
use std::alloc::Global;
use std::process::Abort;
use std::test::Fail;
use word_mod::Modulus;

/// The first and the last word of a plaintext, and the value of all its words at 31 modulo 2^64,
/// where the last word is the constant coefficient.
struct Plain {
    first: u64,
    last: u64,
    value: u64,
}

const ONE16: Plain = Plain {
    first: 244,
    last: 165,
    value: 2351736086453865744,
};

const TOY16: Plain = Plain {
    first: 46,
    last: 156,
    value: 2046136393265870951,
};

const FIVE: Plain = Plain {
    first: 5,
    last: 0,
    value: 5017650430681371995,
};

const S4096: Plain = Plain {
    first: 17996,
    last: 63132,
    value: 11801527685649386130,
};

const S8192: Plain = Plain {
    first: 47878,
    last: 55056,
    value: 220988434568388236,
};

/// The next word of a linear congruence.
fn next_word(word: u64) -> u64 {
    word.wrapping_mul(0x5851_f42d_4c95_7f2d)
        .wrapping_add(0x1405_7b7e_f767_814f)
}

fn ternary(word: u64) -> i8
    ensures { nat_abs result ≤ 1 }
{
    match word % 3 {
        0 => -1,
        1 => 0,
        _ => 1,
    }
}

/// Writes coefficients from the words after `seed`.
fn fill_small<const N: usize>(seed: u64, small: &mut [i8; N])
    ensures { AllWithin N 1 (listed_polynomial small.new) }
{
    let mut word = seed;
    for k in 0..N {
        word = next_word(word);
        small[k] = ternary(word);
    }
}

/// Writes the words after `seed`, and gives the last of these.
fn fill_row<const N: usize>(seed: u64, row: &mut [u64; N]) -> u64 {
    let mut word = seed;
    for k in 0..N {
        word = next_word(word);
        row[k] = word;
    }
    word
}

fn reduce_row<const N: usize>(m: &Modulus, row: &[u64; N], residues: &mut [u64; N])
    ensures { IsReduced N m.now residues.new }
{
    for k in 0..N {
        residues[k] = m.reduce(row[k]);
    }
}

/// Writes row i of a cipher by its residues.
fn set_reduced<const N: usize>(ctx: &Context<N>, cipher: &mut Cipher<N>, i: usize, row: &[u64; N])
    requires set { (cipher.old).set ≡ (ctx.now).set }
    requires level { (cipher.old).level ≡ (ctx.now).level }
    requires place { i < (cipher.old).parts * (ctx.now).level }
    ensures set { (cipher.new).set ≡ (cipher.old).set }
    ensures level { (cipher.new).level ≡ (cipher.old).level }
    ensures parts { (cipher.new).parts ≡ (cipher.old).parts }
{
    let moduli = ctx.data_moduli();
    let m = moduli[i % moduli.len()];
    let mut residues = [0; N];
    reduce_row(&m, row, &mut residues);
    cipher.set_row(i, &residues);
}

/// Writes the rows of all parts from the words after `seed`.
fn fill_cipher<const N: usize>(seed: u64, ctx: &Context<N>, cipher: &mut Cipher<N>)
    requires set { (cipher.old).set ≡ (ctx.now).set }
    requires level { (cipher.old).level ≡ (ctx.now).level }
    ensures set { (cipher.new).set ≡ (cipher.old).set }
    ensures level { (cipher.new).level ≡ (cipher.old).level }
{
    let mut row = [0; N];
    let mut word = seed;
    let count = cipher.parts() as usize * ctx.data_moduli().len();
    for i in 0..count {
        word = fill_row(word, &mut row);
        set_reduced(ctx, cipher, i, &row);
    }
}

fn filled_cipher<const N: usize>(
    alloc: Global,
    ctx: &Context<N>,
    parts: u8,
) -> Result<Cipher<N>, Fail>
    ensures set { IfOk result (λ c. c.set ≡ (ctx.now).set) }
    ensures level { IfOk result (λ c. c.level ≡ (ctx.now).level) }
{
    let mut cipher = Cipher::new(alloc, ctx)?;
    if parts == 3 {
        cipher.set_parts(3);
    }
    fill_cipher(2, ctx, &mut cipher);
    Ok(cipher)
}

/// A cipher of two parts with constants in the rows of its first part.
fn constant_cipher<const N: usize>(
    alloc: Global,
    ctx: &Context<N>,
    words: &[u64],
) -> Result<Cipher<N>, Fail>
    requires { 0 < N }
    ensures set { IfOk result (λ c. c.set ≡ (ctx.now).set) }
    ensures level { IfOk result (λ c. c.level ≡ (ctx.now).level) }
{
    let mut cipher = Cipher::new(alloc, ctx)?;
    let mut row = [0; N];
    for i in 0..words.len().min(ctx.data_moduli().len()) {
        row[0] = words[i];
        set_reduced(ctx, &mut cipher, i, &row);
    }
    Ok(cipher)
}

fn filled_secret<const N: usize>(alloc: Global, ctx: &Context<N>) -> Result<Secret<N>, Fail>
    ensures { IfOk result (λ s. s.set ≡ (ctx.now).set) }
{
    let mut secret = Secret::new(alloc, ctx)?;
    let mut small = [0; N];
    fill_small(1, &mut small);
    secret.set(&small);
    Ok(secret)
}

fn value_at_31(words: &[u64]) -> u64 {
    let mut value: u64 = 0;
    for word in words {
        value = value.wrapping_mul(31).wrapping_add(*word);
    }
    value
}

/// Decrypts a cipher and compares the plaintext.
fn check_decrypted<const N: usize>(
    rt: &impl Abort,
    alloc: Global,
    ctx: &Context<N>,
    cipher: &Cipher<N>,
    secret: &Secret<N>,
    plain: &Plain,
) -> Result<(), Fail>
    requires cipher_set { (cipher.now).set ≡ (ctx.now).set }
    requires secret_set { (secret.now).set ≡ (ctx.now).set }
    requires level { (cipher.now).level ≡ (ctx.now).level }
{
    let mut row = [0; N];
    let mut scratch = PolyBuf::new(alloc, ctx.scratch_rows())?;
    decrypt(ctx, secret, cipher, &mut row, &mut scratch);
    assert_eq!(rt; row[0], plain.first);
    assert_eq!(rt; row[N - 1], plain.last);
    assert_eq!(rt; value_at_31(&row), plain.value);
    Ok(())
}

fn check_filled<const N: usize>(
    rt: &impl Abort,
    alloc: Global,
    ctx: &Context<N>,
    parts: u8,
    plain: &Plain,
) -> Result<(), Fail> {
    let secret = filled_secret(alloc, ctx)?;
    let cipher = filled_cipher(alloc, ctx, parts)?;
    check_decrypted(rt, alloc, ctx, &cipher, &secret, plain)
}

fn check_set<const N: usize>(
    rt: &impl Abort,
    alloc: Global,
    set: SetName,
    parts: u8,
    plain: &Plain,
) -> Result<(), Fail>
    requires { N ≡ degree_of set }
{
    let ctx = Context::<N>::new(alloc, set)?;
    check_filled(rt, alloc, &ctx, parts, plain)
}

#[test]
fn ciphers_of_two_parts(rt: HostRuntime) -> Result<(), Fail> {
    check_set::<16>(&rt, rt.alloc(), SetName::One16, 2, &ONE16)?;
    check_set::<4096>(&rt, rt.alloc(), SetName::S4096, 2, &S4096)
}

#[test]
fn ciphers_of_three_parts(rt: HostRuntime) -> Result<(), Fail> {
    check_set::<16>(&rt, rt.alloc(), SetName::Toy16, 3, &TOY16)?;
    check_set::<8192>(&rt, rt.alloc(), SetName::S8192, 3, &S8192)
}

fn check_constants<const N: usize>(
    rt: &impl Abort,
    alloc: Global,
    set: SetName,
    words: &[u64],
    plain: &Plain,
) -> Result<(), Fail>
    requires degree { N ≡ degree_of set }
    requires some { 0 < N }
{
    let ctx = Context::<N>::new(alloc, set)?;
    let secret = filled_secret(alloc, &ctx)?;
    let cipher = constant_cipher(alloc, &ctx, words)?;
    check_decrypted(rt, alloc, &ctx, &cipher, &secret, plain)
}

// The cipher holds the constant 5 under every secret, which is 5 in every slot.
#[test]
fn five_in_every_slot(rt: HostRuntime) -> Result<(), Fail> {
    let words = [2601179211035, 2772309401632];
    check_constants::<16>(&rt, rt.alloc(), SetName::Toy16, &words, &FIVE)
}
