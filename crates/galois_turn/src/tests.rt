//! Turned rows, whose words are at both ends of their range and within it, against checksums over all words by a program
//! in Python.

ghost use Rattle.std.specs.Prelude.{◌≡◌, ◌*◌, ◌%◌, ◌<◌, ◌≤◌, length, IfOk};
ghost use Rattle.set_table.specs.Sets.{degree_of};
ghost use Rattle.ring_law.specs.Rows.{IsReduced};
ghost use Rattle.neg_ntt.specs.Parameters.{IsDegree};
ghost use Rattle.rns_poly.specs.Rows.{AreReduced};
ghost use Rattle.bfv_params.specs.Contexts.{data_in};

use super::{element_of, turn_rows};
use bfv_params::Context;
use rns_poly::{PolyBuf, ViewMut};
use set_table::SetName;
use std::alloc::{AllocError, Global};
use std::process::Abort;
use std::test::Fail;
use word_mod::Modulus;

/// Galois elements, and the checksums of rows that are turned by them: by one step, by as many as there are less one, and
/// for the exchange of both halves.
struct Turns {
    first: (u32, u64),
    last: (u32, u64),
    swap: u64,
}

const TOY16: Turns = Turns {
    first: (3, 0x96fd_40fb_7179_3f6b),
    last: (11, 0x45cd_4d07_3208_5947),
    swap: 0x92f8_3146_a936_e143,
};

const S4096: Turns = Turns {
    first: (3, 0x67e7_d5ad_e6a5_2033),
    last: (2731, 0x9818_1253_4bc8_6147),
    swap: 0x05a7_ac7a_7e9e_1447,
};

const S8192: Turns = Turns {
    first: (3, 0x135c_1265_7512_bd95),
    last: (10923, 0x73bb_fb5d_1f95_88bd),
    swap: 0xb88e_9c63_6f55_b221,
};

/// A word at an end of the range, in its middle or anywhere.
fn word_at_end(m: &Modulus, k: usize, word: u64) -> u64
    ensures { result < m.now }
{
    let q = m.value();
    match k % 4 {
        0 => 0,
        1 => q - 1,
        2 => q / 2,
        _ => m.reduce(word),
    }
}

fn fill<const N: usize>(m: &Modulus, seed: u64, row: &mut [u64; N])
    requires { N ≤ 32768 }
    ensures { IsReduced N m.now row.new }
{
    let mut word = seed;
    for k in 0..N {
        word = word
            .wrapping_mul(0x5851_f42d_4c95_7f2d)
            .wrapping_add(0x1405_7b7e_f767_814f);
        row[k] = word_at_end(m, k, word);
    }
}

fn fill_rows<const N: usize>(moduli: &[Modulus], rows: ViewMut<'_, N>)
    requires degree { N ≤ 32768 }
    requires count { length rows.old ≡ length moduli.now }
    ensures { AreReduced N moduli.now rows.new }
{
    for i in 0..moduli.len() {
        fill(&moduli[i], i as u64, &mut rows[i]);
    }
}

fn checksum<const N: usize>(rows: &[[u64; N]]) -> u64 {
    let mut sum: u64 = 0;
    for row in rows {
        for word in row {
            sum = sum.wrapping_mul(0x100_0000_01b3) ^ *word;
        }
    }
    sum
}

fn filled<const N: usize>(alloc: Global, ctx: &Context<N>) -> Result<PolyBuf<N>, AllocError>
    ensures count { IfOk result (λ rows. length rows ≡ (ctx.now).level) }
    ensures reduced { IfOk result (λ rows. AreReduced N (data_in (ctx.now)) rows) }
{
    let moduli = ctx.data_moduli();
    let mut rows = PolyBuf::<N>::new(alloc, moduli.len())?;
    fill_rows(moduli, rows.view_mut());
    Ok(rows)
}

/// The checksum of rows that are turned.
fn turned_checksum<const N: usize>(
    alloc: Global,
    ctx: &Context<N>,
    g: u32,
) -> Result<u64, AllocError>
    requires degree { N ≤ 32768 }
    requires odd { g % 2 ≡ 1 }
    requires element_below { g < 2 * N }
{
    let from = filled(alloc, ctx)?;
    let mut to = PolyBuf::<N>::new(alloc, from.rows())?;
    turn_rows(ctx, g, from.view(), to.view_mut());
    Ok(checksum(to.view().slice()))
}

fn check_turns<const N: usize>(
    rt: &impl Abort,
    alloc: Global,
    set: SetName,
    turns: &Turns,
) -> Result<(), Fail>
    requires set_degree { N ≡ degree_of set }
    requires degree { IsDegree N }
    requires limit { N ≤ 32768 }
{
    let ctx = Context::<N>::new(alloc, set)?;
    let first = element_of(1, N);
    assert_eq!(rt; first, turns.first.0);
    assert_eq!(rt; turned_checksum(alloc, &ctx, first)?, turns.first.1);
    let last = element_of(N as u32 / 2 - 1, N);
    assert_eq!(rt; last, turns.last.0);
    assert_eq!(rt; turned_checksum(alloc, &ctx, last)?, turns.last.1);
    let swap = 2 * N as u32 - 1;
    assert_eq!(rt; turned_checksum(alloc, &ctx, swap)?, turns.swap);
    Ok(())
}

#[test]
fn turns_of_a_small_set(rt: HostRuntime) -> Result<(), Fail> {
    check_turns::<16>(&rt, rt.alloc(), SetName::Toy16, &TOY16)
}

#[test]
fn turns_of_large_sets(rt: HostRuntime) -> Result<(), Fail> {
    check_turns::<4096>(&rt, rt.alloc(), SetName::S4096, &S4096)?;
    check_turns::<8192>(&rt, rt.alloc(), SetName::S8192, &S8192)
}
