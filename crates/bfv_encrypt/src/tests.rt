//! Ciphers that are drawn from a fixed seed. The expected words are computed from the definitions,
//! in whole numbers, by a program in Python.

ghost use Rattle.std.specs.Prelude.{◌≡◌, ◌≤◌, length};
ghost use Rattle.set_table.specs.Sets.{data_of, degree_of};
ghost use Rattle.ring_law.specs.Rows.{IsReduced};

use super::*;
use bfv_params::{Cipher, Context, Public};
use rand_chacha::ChaCha20Rng;
use rand_core::SeedableRng;
use rns_poly::PolyBuf;
use set_table::SetName;
use std::alloc::Global;
use std::test::Fail;
use word_mod::Modulus;

const CIPHER: [[u64; 16]; 4] = [
    [
        0x7b4_eb03_3ca3,
        0x4b2_f6ba_a2a3,
        0x65d_d776_c2df,
        0x405_0bc0_90ea,
        0x13e_f68a_0380,
        0x6bf_b85e_8e0f,
        0x79c_ce00_c660,
        0xac_99e5_2346,
        0x130_86d4_f386,
        0x5c1_4909_7e14,
        0x53_0095_b63b,
        0x12b_2b52_31ee,
        0x3c1_20c8_9582,
        0x700_3ed1_6125,
        0x4fb_b0e7_da97,
        0x4ab_c4e5_d3e2,
    ],
    [
        0x7fa_37d3_dca3,
        0x6c4_5b53_44e1,
        0x249_1ce7_2859,
        0x1f2_2a0d_b8a2,
        0x103_449f_2e75,
        0x85_7529_7c40,
        0x34b_f186_76cf,
        0x65a_7b0e_56f3,
        0xb2_0da7_a970,
        0x6e4_3e8e_773b,
        0x3ba_15db_329f,
        0x616_ca80_b090,
        0x281_c3fd_1760,
        0x7cb_a71d_2640,
        0x779_d653_61f0,
        0x137_6079_5e77,
    ],
    [
        0x7b6_cb02_7cac,
        0xf7_52ff_49c1,
        0x292_43ab_7ee4,
        0x47d_3437_b409,
        0x1a8_6ef0_bb8e,
        0x719_40b5_5afc,
        0x43a_129c_7a67,
        0x53b_2e6d_ec3c,
        0x201_97a3_2398,
        0x682_69c7_c312,
        0x102_f144_9022,
        0x61d_9843_f2ec,
        0xa2_5dad_6b64,
        0x3d1_8ba6_4bf7,
        0x610_b9ff_2c8d,
        0x5af_9ded_baba,
    ],
    [
        0x7fc_d7d3_1cac,
        0x11a_e5ab_29c1,
        0x2a9_9d46_5ee4,
        0x4a8_54c1_9409,
        0x1c5_255d_5b8e,
        0x751_4bee_fafc,
        0x46d_72a4_1a67,
        0x587_b236_4c3c,
        0x233_2f24_c398,
        0x66f_5616_6312,
        0x14d_636e_7022,
        0x5fe_0269_12ec,
        0x71_31f0_cb64,
        0x3c5_0b1b_abf7,
        0x5c8_e4a6_8c8d,
        0x58e_a4d4_5aba,
    ],
];

/// Words all over the range below a modulus: multiples of the golden ratio times `2^64`.
fn fill<const N: usize>(m: &Modulus, first: u64, row: &mut [u64; N])
    requires { N ≤ 32768 }
    ensures { IsReduced N m.now row.new }
{
    let mut word = first;
    for k in 0..N {
        row[k] = m.reduce(word);
        word = word.wrapping_add(0x9e37_79b9_7f4a_7c15);
    }
}

/// Fills the rows of a key, each from another multiple of `2^56` on.
fn fill_key<const N: usize>(ctx: &Context<N>, key: &mut Public<N>)
    requires level { (ctx.now).level ≡ length (data_of (ctx.now).set) }
    requires set { (key.old).set ≡ (ctx.now).set }
    ensures { (key.new).set ≡ (key.old).set }
{
    let moduli = ctx.data_moduli();
    let mut row = [0; N];
    for i in 0..2 * moduli.len() {
        let first = (i as u64).wrapping_mul(1 << 56);
        fill(&moduli[i % moduli.len()], first, &mut row);
        key.set_row(i, &row);
    }
}

/// The cipher of a plaintext under a key that needn't be one of a secret.
fn draw_cipher<const N: usize>(alloc: Global, set: SetName) -> Result<Cipher<N>, Fail>
    requires { N ≡ degree_of set }
{
    let ctx = Context::<N>::new(alloc, set)?;
    let mut public = Public::new(alloc, &ctx)?;
    fill_key(&ctx, &mut public);
    let mut plain = [0; N];
    fill(ctx.plain_modulus(), 0, &mut plain);
    let mut cipher = Cipher::new(alloc, &ctx)?;
    let mut scratch = PolyBuf::new(alloc, ctx.scratch_rows())?;
    let mut rng = ChaCha20Rng::from_seed([3; 32]);
    encrypt(&ctx, &public, &plain, &mut cipher, &mut scratch, &mut rng);
    Ok(cipher)
}

fn checksum<const N: usize>(rows: &[[u64; N]]) -> u64 {
    let mut sum: u64 = 0;
    for row in rows {
        for word in row {
            sum = sum.wrapping_mul(0x100_0000_01b3) ^ *word;
        }
    }
    sum
}

#[test]
fn words_of_a_small_set(rt: HostRuntime) -> Result<(), Fail> {
    let cipher = draw_cipher::<16>(rt.alloc(), SetName::Toy16)?;
    let rows = cipher.view().slice();
    assert_eq!(rt; rows.len(), 6);
    assert!(rt; &rows[..4] == CIPHER.as_slice());
    Ok(())
}

#[test]
fn checksum_of_a_large_set(rt: HostRuntime) -> Result<(), Fail> {
    let cipher = draw_cipher::<4096>(rt.alloc(), SetName::S4096)?;
    let rows = cipher.view().slice();
    assert_eq!(rt; rows.len(), 6);
    assert_eq!(rt; checksum(&rows[..4]), 0xd2ef_a53f_b953_181b);
    Ok(())
}
