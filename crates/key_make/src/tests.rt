//! Keys that are drawn from fixed seeds. The expected words are computed from the definitions, in
//! whole numbers, by a program in Python.

ghost use Rattle.std.specs.Prelude.{◌≡◌, ◌≤◌};
ghost use Rattle.set_table.specs.Sets.{degree_of};

use bfv_params::{Context, Public, Secret};
use rand_chacha::ChaCha20Rng;
use rand_core::SeedableRng;
use rns_poly::PolyBuf;
use set_table::SetName;
use std::alloc::Global;
use std::process::Abort;
use std::test::Fail;

/// The id that the first two words of the secret's seed make.
const KEY_ID: [u8; 16] = [
    0x02, 0x3f, 0x37, 0x20, 0x3a, 0x24, 0x76, 0xc4, 0x25, 0x66, 0xa6, 0x1c, 0xc5, 0x5c, 0x3c, 0xa8,
];

const SMALL: [i8; 16] = [-1, 0, 0, 1, 1, 1, 1, 1, 1, 1, 1, 1, 1, -1, 1, 0];

const PUBLIC: [[u64; 16]; 4] = [
    [
        0xbd_f895_d062,
        0x28c_17fd_a129,
        0x69b_d9a7_4ccd,
        0x5ae_8820_116f,
        0x61_9c8f_5ba0,
        0x95_add5_6dc1,
        0x52b_0ec6_9fd9,
        0x1ad_b8fb_7e08,
        0x6c9_793e_34f7,
        0x502_6299_18c4,
        0x622_2dea_b2d9,
        0x652_1394_fd3b,
        0x21_0223_97be,
        0x111_5c56_f26a,
        0x1e7_aae6_8f22,
        0xad_4a0a_835f,
    ],
    [
        0x3b4_8477_7ef1,
        0xb2_0904_8f67,
        0x4e3_69c8_49a3,
        0x6a9_8a5f_fa75,
        0x6d3_9798_51a2,
        0x4ad_ccdb_fbe4,
        0x34d_63ef_f571,
        0x682_f36e_292f,
        0xfc_8a6c_10a8,
        0x164_1e71_3245,
        0xa_53a3_4439,
        0x3d6_4591_a2d0,
        0x771_ec37_da60,
        0x686_f79d_c52e,
        0x6c8_f4bb_d405,
        0x516_cddb_d21e,
    ],
    [
        0x30d_5feb_5271,
        0x1a0_fb84_c6a3,
        0x1bd_cf03_c44f,
        0x158_1c2e_1a7e,
        0x4bd_c71c_e0f9,
        0x2f2_78ce_c1f9,
        0x350_b4a2_3109,
        0x160_45b9_6ae2,
        0x1d9_541b_17a7,
        0x661_9095_f375,
        0x7dc_7669_e4f6,
        0xe1_18c7_052c,
        0x272_2ccf_b62e,
        0x57f_0acf_69d9,
        0x3c3_a8b2_2ddb,
        0x1b4_6dbc_8a78,
    ],
    [
        0x2d9_c49f_6882,
        0x38b_6b02_516c,
        0x4d4_f4e1_a60d,
        0x2f6_893e_9dec,
        0x5ae_d58c_52d4,
        0x29a_b62d_c200,
        0x84_22f8_c7da,
        0x6b8_31e7_ed05,
        0x794_7ba7_d888,
        0x262_08f0_1937,
        0x53f_a00a_fc3c,
        0x1f2_99de_d0a7,
        0x43_b4fc_be26,
        0x60a_000a_47d5,
        0x691_6ba7_376b,
        0x7b6_2162_61e2,
    ],
];

/// A secret, and its public key.
fn draw_keys<const N: usize>(
    rt: &impl Abort,
    alloc: Global,
    set: SetName,
) -> Result<(Secret<N>, Public<N>), Fail>
    requires { N ≡ degree_of set }
{
    let ctx = Context::<N>::new(alloc, set)?;
    let mut secret = Secret::new(alloc, &ctx)?;
    let mut public = Public::new(alloc, &ctx)?;
    let mut scratch = PolyBuf::new(alloc, ctx.scratch_rows())?;
    let mut rng = ChaCha20Rng::from_seed([1; 32]);
    assert_eq!(rt; crate::secret(&ctx, &mut secret, &mut rng), KEY_ID);
    let mut rng = ChaCha20Rng::from_seed([2; 32]);
    crate::public(&ctx, &secret, &mut public, &mut scratch, &mut rng);
    Ok((secret, public))
}

/// Folds one more word into a checksum.
fn fold(sum: u64, word: u64) -> u64 {
    sum.wrapping_mul(0x100_0000_01b3) ^ word
}

/// The checksum of the coefficients, of which -1 counts as 2.
fn checksum_of_secret<const N: usize>(secret: &Secret<N>) -> u64
    requires { N ≤ 32768 }
{
    let mut sum = 0;
    for coefficient in secret.small() {
        let word = match *coefficient {
            -1 => 2,
            0 => 0,
            _ => 1,
        };
        sum = fold(sum, word);
    }
    sum
}

fn checksum_of_rows<const N: usize>(rows: &[[u64; N]]) -> u64 {
    let mut sum = 0;
    for row in rows {
        for word in row {
            sum = fold(sum, *word);
        }
    }
    sum
}

#[test]
fn words_of_a_small_set(rt: HostRuntime) -> Result<(), Fail> {
    let (secret, public) = draw_keys::<16>(&rt, rt.alloc(), SetName::Toy16)?;
    assert_eq!(rt; *secret.small(), SMALL);
    assert!(rt; public.view().slice() == PUBLIC.as_slice());
    Ok(())
}

#[test]
fn checksums_of_a_large_set(rt: HostRuntime) -> Result<(), Fail> {
    let (secret, public) = draw_keys::<4096>(&rt, rt.alloc(), SetName::S4096)?;
    assert_eq!(rt; checksum_of_secret(&secret), 0x788a_dde5_69c4_fbf6);
    assert_eq!(rt;
        checksum_of_rows(public.view().slice()),
        0x3b39_d6e7_2e69_6831
    );
    Ok(())
}
