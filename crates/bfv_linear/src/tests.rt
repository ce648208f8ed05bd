//! Each operation on ciphertexts of two and of three parts, against checksums over all words of the results by Python's
//! whole numbers.

ghost use Rattle.std.specs.Prelude.{◌≡◌, ◌⊎◌, ◌≤◌, length, IfOk};
ghost use Rattle.set_table.specs.Sets.{degree_of};
ghost use Rattle.ring_law.specs.Rows.{IsReduced};
ghost use Rattle.bfv_params.specs.Ciphers.{IsCipherOf};
ghost use Rattle.bfv_params.specs.Contexts.{scratch_rows_in};

use super::*;
use bfv_params::{Cipher, Context};
use rns_poly::{PolyBuf, View};
use set_table::SetName;
use std::alloc::{AllocError, Global};
use std::process::Abort;
use std::test::Fail;
use word_mod::Modulus;

/// The checksums of what is written from a ciphertext a of two parts, b of three, a plaintext, and the constant -3.
struct Sums {
    sum: u64,
    difference: u64,
    negative_b: u64,
    plain_sum_b: u64,
    plain_difference_a: u64,
    product_b: u64,
    multiple_a: u64,
}

const TOY16: Sums = Sums {
    sum: 0x23b1_3324_217f_25b4,
    difference: 0x152b_8e3a_eefd_dcee,
    negative_b: 0x0518_4242_39e8_0f65,
    plain_sum_b: 0xe9f5_b3c1_7bbd_b72a,
    plain_difference_a: 0xc0af_ec16_e8bf_4047,
    product_b: 0xfdc4_9faf_2aee_676f,
    multiple_a: 0xbe6b_dc4e_a1aa_9470,
};

const S4096: Sums = Sums {
    sum: 0x08c4_6196_1f3c_2e12,
    difference: 0x0598_7d8b_5f07_3efe,
    negative_b: 0x1dbd_21a2_e7b2_c023,
    plain_sum_b: 0x0dd9_fc77_d6e5_9ad2,
    plain_difference_a: 0x958d_f6f1_1335_d92f,
    product_b: 0x1486_3121_3bc2_edd1,
    multiple_a: 0xea5b_380f_1b74_2a89,
};

const FACTOR: u64 = 0x5851_f42d_4c95_7f2d;

fn fill<const N: usize>(m: &Modulus, seed: u64, row: &mut [u64; N])
    ensures { IsReduced N m.now row.new }
{
    let mut word = seed;
    for k in 0..N {
        word = word
            .wrapping_mul(FACTOR)
            .wrapping_add(0x1405_7b7e_f767_814f);
        row[k] = m.reduce(word);
    }
}

fn filled<const N: usize>(
    alloc: Global,
    ctx: &Context<N>,
    parts: u8,
    seed: u64,
) -> Result<Cipher<N>, AllocError>
    requires { (parts ≡ 2) ⊎ (parts ≡ 3) }
    ensures { IfOk result (IsCipherOf (ctx.now)) }
{
    let moduli = ctx.data_moduli();
    let mut cipher = Cipher::<N>::new(alloc, ctx)?;
    let mut row = [0; N];
    cipher.set_parts(parts);
    for i in 0..parts as usize * moduli.len() {
        fill(
            &moduli[i % moduli.len()],
            seed.wrapping_add(i as u64),
            &mut row,
        );
        cipher.set_row(i, &row);
    }
    Ok(cipher)
}

fn checksum<const N: usize>(view: View<'_, N>) -> u64
    requires { N ≤ 32768 }
{
    let mut sum: u64 = 0;
    for row in view.slice() {
        for k in 0..N {
            sum = sum.wrapping_mul(FACTOR).wrapping_add(row[k]);
        }
    }
    sum
}

fn check_sums<const N: usize>(
    rt: &impl Abort,
    ctx: &Context<N>,
    a: &Cipher<N>,
    b: &Cipher<N>,
    out: &mut Cipher<N>,
    sums: &Sums,
)
    requires degree { N ≤ 32768 }
    requires a_of { IsCipherOf (ctx.now) (a.now) }
    requires b_of { IsCipherOf (ctx.now) (b.now) }
    requires out_of { IsCipherOf (ctx.now) (out.old) }
    ensures { IsCipherOf (ctx.now) (out.new) }
{
    add(ctx, a, b, out);
    check_result(rt, out, 3, sums.sum);
    sub(ctx, a, b, out);
    check_result(rt, out, 3, sums.difference);
    neg(ctx, b, out);
    check_result(rt, out, 3, sums.negative_b);
}

fn check_plain<const N: usize>(
    rt: &impl Abort,
    ctx: &Context<N>,
    a: &Cipher<N>,
    b: &Cipher<N>,
    out: &mut Cipher<N>,
    scratch: &mut PolyBuf<N>,
    sums: &Sums,
)
    requires degree { N ≤ 32768 }
    requires a_of { IsCipherOf (ctx.now) (a.now) }
    requires b_of { IsCipherOf (ctx.now) (b.now) }
    requires out_of { IsCipherOf (ctx.now) (out.old) }
    requires scratch_rows { length scratch.old ≡ scratch_rows_in (ctx.now) }
{
    let mut plain = [0; N];
    fill(ctx.plain_modulus(), 300, &mut plain);
    add_plain(ctx, b, &plain, out);
    check_result(rt, out, 3, sums.plain_sum_b);
    sub_plain(ctx, a, &plain, out);
    check_result(rt, out, 2, sums.plain_difference_a);
    mul_plain(ctx, b, &plain, out, scratch);
    check_result(rt, out, 3, sums.product_b);
    mul_const(ctx, a, ctx.set().plain() - 3, out);
    check_result(rt, out, 2, sums.multiple_a);
}

fn check_result<const N: usize>(rt: &impl Abort, out: &Cipher<N>, parts: u8, sum: u64)
    requires { N ≤ 32768 }
{
    assert_eq!(rt; out.parts(), parts);
    assert_eq!(rt; checksum(out.view()), sum);
}

fn scratch_of<const N: usize>(alloc: Global, ctx: &Context<N>) -> Result<PolyBuf<N>, AllocError>
    requires { N ≤ 32768 }
    ensures { IfOk result (λ b. length b ≡ scratch_rows_in (ctx.now)) }
{
    PolyBuf::<N>::new(alloc, ctx.scratch_rows())
}

fn check_results<const N: usize>(
    rt: &impl Abort,
    alloc: Global,
    ctx: &Context<N>,
    sums: &Sums,
) -> Result<(), Fail>
    requires { N ≤ 32768 }
{
    let a = filled(alloc, ctx, 2, 100)?;
    let b = filled(alloc, ctx, 3, 200)?;
    let mut out = filled(alloc, ctx, 3, 400)?;
    let mut scratch = scratch_of(alloc, ctx)?;
    check_sums(rt, ctx, &a, &b, &mut out, sums);
    check_plain(rt, ctx, &a, &b, &mut out, &mut scratch, sums);
    Ok(())
}

fn check<const N: usize>(
    rt: &impl Abort,
    alloc: Global,
    set: SetName,
    sums: &Sums,
) -> Result<(), Fail>
    requires degree { N ≡ degree_of set }
    requires limit { N ≤ 32768 }
{
    let ctx = Context::<N>::new(alloc, set)?;
    check_results(rt, alloc, &ctx, sums)
}

#[test]
fn results_are_those_of_whole_numbers(rt: HostRuntime) -> Result<(), Fail> {
    check::<16>(&rt, rt.alloc(), SetName::Toy16, &TOY16)?;
    check::<4096>(&rt, rt.alloc(), SetName::S4096, &S4096)
}
