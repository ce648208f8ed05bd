//! Products of ciphertexts against checksums over all words of the results by Python's whole numbers. The words of the
//! factors are at the ends of their ranges, all over them, or those of two plaintexts whose product they hold.

ghost use Rattle.std.specs.Prelude.{◌≡◌, ◌<◌, ◌≤◌, length, IfOk};
ghost use Rattle.set_table.specs.Sets.{degree_of};
ghost use Rattle.ring_law.specs.Rows.{IsReduced};
ghost use Rattle.bfv_params.specs.Ciphers.{IsCipherOf};
ghost use Rattle.bfv_params.specs.Contexts.{scratch_rows_in};

use super::*;
use bfv_params::{Cipher, Context};
use rns_poly::{PolyBuf, View};
use set_table::SetName;
use std::alloc::{AllocError, Global};
use std::process::Abort;
use std::test::Fail;
use word_mod::Modulus;

/// The words of a factor's rows.
#[derive(Clone, Copy)]
enum Words {
    /// The greatest ones.
    Greatest,
    /// 0 and the greatest one.
    Ends,
    /// All over the range.
    Mixed,
    /// Those of a ciphertext of such a plaintext under the secret 1, without an error.
    Plaintext,
}

/// Two factors, and the checksums of their product and of the square of the first.
struct Case {
    a: Words,
    b: Words,
    product: u64,
    square: u64,
}

const ONE16: [Case; 2] = [
    Case {
        a: Words::Greatest,
        b: Words::Ends,
        product: 0x06a1_138d_ec0a_0000,
        square: 0x8b29_e8f9_dded_0000,
    },
    Case {
        a: Words::Mixed,
        b: Words::Mixed,
        product: 0x7f58_1975_b840_09f3,
        square: 0x4692_236e_ffea_12e8,
    },
];

const TOY16: [Case; 4] = [
    Case {
        a: Words::Greatest,
        b: Words::Greatest,
        product: 0xea1f_b1da_1dd2_0000,
        square: 0xea1f_b1da_1dd2_0000,
    },
    Case {
        a: Words::Greatest,
        b: Words::Ends,
        product: 0x55da_7dce_a17b_6692,
        square: 0xea1f_b1da_1dd2_0000,
    },
    Case {
        a: Words::Ends,
        b: Words::Mixed,
        product: 0x925e_1e56_ad5c_dd13,
        square: 0x6f7d_2b1c_64d8_910e,
    },
    Case {
        a: Words::Mixed,
        b: Words::Mixed,
        product: 0x5229_5648_38bb_920b,
        square: 0xa0ac_48a7_09ae_a533,
    },
];

const S4096: [Case; 2] = [
    Case {
        a: Words::Ends,
        b: Words::Greatest,
        product: 0x0964_b727_a759_5c28,
        square: 0xbbbc_228e_a084_3f8c,
    },
    Case {
        a: Words::Plaintext,
        b: Words::Plaintext,
        product: 0x000c_e330_857c_65f6,
        square: 0x95f0_7d75_a82b_705e,
    },
];

const S8192: [Case; 1] = [Case {
    a: Words::Mixed,
    b: Words::Ends,
    product: 0x0284_8013_a6a3_efad,
    square: 0xbd23_dc09_4eec_d786,
}];

const FACTOR: u64 = 0x5851_f42d_4c95_7f2d;

fn picked(m: &Modulus, words: Words, word: u64) -> u64
    ensures { result < m.now }
{
    let greatest = m.value() - 1;
    match words {
        Words::Greatest => greatest,
        Words::Ends => { if word < 1 << 63 { 0 } else { greatest } }
        _ => m.reduce(word),
    }
}

/// Writes a row from the words after `seed`.
fn fill<const N: usize>(m: &Modulus, words: Words, seed: u64, row: &mut [u64; N])
    ensures { IsReduced N m.now row.new }
{
    let mut word = seed;
    for k in 0..N {
        word = word
            .wrapping_mul(FACTOR)
            .wrapping_add(0x1405_7b7e_f767_814f);
        row[k] = picked(m, words, word);
    }
}

fn filled<const N: usize>(
    alloc: Global,
    ctx: &Context<N>,
    words: Words,
    seed: u64,
) -> Result<Cipher<N>, AllocError>
    ensures of_context { IfOk result (IsCipherOf (ctx.now)) }
    ensures parts { IfOk result (λ c. c.parts ≡ 2) }
{
    let moduli = ctx.data_moduli();
    let mut cipher = Cipher::<N>::new(alloc, ctx)?;
    let mut row = [0; N];
    for i in 0..2 * moduli.len() {
        fill(
            &moduli[i % moduli.len()],
            words,
            seed.wrapping_add(i as u64),
            &mut row,
        );
        cipher.set_row(i, &row);
    }
    Ok(cipher)
}

fn subtract<const N: usize>(m: &Modulus, a: &[u64; N], b: &[u64; N], out: &mut [u64; N])
    ensures { IsReduced N m.now out.new }
{
    for k in 0..N {
        out[k] = m.sub(m.reduce(a[k]), m.reduce(b[k]));
    }
}

/// A ciphertext of the plaintext with the words after `seed`: its part 0 is the scaled plaintext less its part 1.
fn sealed<const N: usize>(
    alloc: Global,
    ctx: &Context<N>,
    seed: u64,
) -> Result<Cipher<N>, AllocError>
    ensures of_context { IfOk result (IsCipherOf (ctx.now)) }
    ensures parts { IfOk result (λ c. c.parts ≡ 2) }
{
    let moduli = ctx.data_moduli();
    let mut cipher = filled(alloc, ctx, Words::Mixed, seed)?;
    let (mut plain, mut mask, mut row) = ([0; N], [0; N], [0; N]);
    let mut scaled = [[0; N]];
    fill(ctx.plain_modulus(), Words::Mixed, seed, &mut plain);
    for i in 0..moduli.len() {
        let modulus = moduli[i % moduli.len()];
        let seed = seed.wrapping_add((moduli.len() + i) as u64);
        fill(&modulus, Words::Mixed, seed, &mut mask);
        ctx.scaled_row_into(i, &plain, &mut scaled);
        subtract(&modulus, &scaled[0], &mask, &mut row);
        cipher.set_row(i, &row);
    }
    Ok(cipher)
}

fn factor<const N: usize>(
    alloc: Global,
    ctx: &Context<N>,
    words: Words,
    seed: u64,
) -> Result<Cipher<N>, AllocError>
    ensures of_context { IfOk result (IsCipherOf (ctx.now)) }
    ensures parts { IfOk result (λ c. c.parts ≡ 2) }
{
    match words {
        Words::Plaintext => sealed(alloc, ctx, seed),
        _ => filled(alloc, ctx, words, seed),
    }
}

fn checksum<const N: usize>(view: View<'_, N>) -> u64
    requires { N ≤ 32768 }
{
    let mut sum: u64 = 0;
    for row in view.slice() {
        for k in 0..N {
            sum = sum.wrapping_mul(FACTOR).wrapping_add(row[k]);
        }
    }
    sum
}

fn check_result<const N: usize>(rt: &impl Abort, out: &Cipher<N>, sum: u64)
    requires { N ≤ 32768 }
{
    assert_eq!(rt; out.parts(), 3);
    assert_eq!(rt; checksum(out.view()), sum);
}

fn check_case<const N: usize>(
    rt: &impl Abort,
    alloc: Global,
    ctx: &Context<N>,
    scratch: &mut PolyBuf<N>,
    case: &Case,
) -> Result<(), AllocError>
    requires degree { N ≤ 32768 }
    requires scratch_rows { scratch_rows_in (ctx.now) ≤ length scratch.old }
    ensures scratch_rows { length scratch.new ≡ length scratch.old }
{
    let a = factor(alloc, ctx, case.a, 100)?;
    let b = factor(alloc, ctx, case.b, 200)?;
    let mut out = Cipher::<N>::new(alloc, ctx)?;
    multiply(ctx, &a, &b, &mut out, scratch);
    check_result(rt, &out, case.product);
    square(ctx, &a, &mut out, scratch);
    check_result(rt, &out, case.square);
    Ok(())
}

fn check_cases<const N: usize>(
    rt: &impl Abort,
    alloc: Global,
    ctx: &Context<N>,
    cases: &[Case],
) -> Result<(), Fail>
    requires { N ≤ 32768 }
{
    let mut scratch = PolyBuf::<N>::new(alloc, ctx.scratch_rows())?;
    'cases: for case in cases {
        check_case(rt, alloc, ctx, &mut scratch, case)?;
    }
    Ok(())
}

fn check<const N: usize>(
    rt: &impl Abort,
    alloc: Global,
    set: SetName,
    cases: &[Case],
) -> Result<(), Fail>
    requires degree { N ≡ degree_of set }
    requires limit { N ≤ 32768 }
{
    let ctx = Context::<N>::new(alloc, set)?;
    check_cases(rt, alloc, &ctx, cases)
}

#[test]
fn products_are_those_of_whole_numbers(rt: HostRuntime) -> Result<(), Fail> {
    check::<16>(&rt, rt.alloc(), SetName::One16, &ONE16)?;
    check::<16>(&rt, rt.alloc(), SetName::Toy16, &TOY16)?;
    check::<4096>(&rt, rt.alloc(), SetName::S4096, &S4096)?;
    check::<8192>(&rt, rt.alloc(), SetName::S8192, &S8192)
}
