//! Contexts of all sets with their keys and ciphertexts. The scaled plaintexts are those of
//! Python's whole numbers.

ghost use Rattle.std.specs.Prelude.{◌≡◌, ℕ, ◌<◌, ◌≤◌, slice_index};
ghost use Rattle.set_table.specs.Sets.{degree_of};

use super::*;
use rns_poly::PolyBuf;
use set_table::{GAMMA, KeyKind, SetName};
use std::alloc::Global;
use std::process::Abort;
use std::test::Fail;

/// The numbers of a set's moduli, of the rows to work in, and of the rows of its keys and
/// ciphertexts, and the first and the last residue of `q * m / t`, rounded, for m = t - 1.
struct Row {
    data: usize,
    keys: usize,
    aux: usize,
    scratch: usize,
    public: usize,
    cipher: usize,
    switch_key: usize,
    scaled: (u64, u64),
}

const ONE16: Row = Row {
    data: 1,
    keys: 1,
    aux: 2,
    scratch: 32,
    public: 2,
    cipher: 3,
    switch_key: 0,
    scaled: (35888607145793386, 35888607145793386),
};

const TOY16: Row = Row {
    data: 2,
    keys: 3,
    aux: 2,
    scratch: 40,
    public: 4,
    cipher: 6,
    switch_key: 12,
    scaled: (4757419872814, 4723193795373),
};

const S4096: Row = Row {
    data: 2,
    keys: 3,
    aux: 2,
    scratch: 40,
    public: 4,
    cipher: 6,
    switch_key: 12,
    scaled: (51517794660, 8570898790),
};

const S8192: Row = Row {
    data: 4,
    keys: 5,
    aux: 4,
    scratch: 72,
    public: 8,
    cipher: 12,
    switch_key: 40,
    scaled: (532836239799, 7162285302383),
};

const S16384: Row = Row {
    data: 8,
    keys: 9,
    aux: 8,
    scratch: 136,
    public: 16,
    cipher: 24,
    switch_key: 144,
    scaled: (81719095758980, 80709793671909),
};

fn constant_row<const N: usize>(word: u64) -> [u64; N]
    requires { N ≤ 32768 }
    ensures { (k : ℕ) → k < N → slice_index result k ≡ word }
{
    [word; N]
}

fn check_moduli<const N: usize>(rt: &impl Abort, ctx: &Context<N>, row: &Row) {
    assert_eq!(rt; ctx.scratch_rows(), row.scratch);
    assert_eq!(rt; ctx.data_moduli().len(), row.data);
    assert_eq!(rt; ctx.data_base().len(), row.data);
    assert_eq!(rt; ctx.key_moduli().len(), row.keys);
    assert_eq!(rt; ctx.aux_moduli().len(), row.aux);
    assert_eq!(rt; ctx.plain_modulus().value(), ctx.set().plain());
    assert_eq!(rt; ctx.gamma().value(), GAMMA);
}

fn check_transforms<const N: usize>(rt: &impl Abort, ctx: &Context<N>, row: &Row) {
    assert_eq!(rt; ctx.data_transforms().len(), row.data);
    assert_eq!(rt; ctx.key_transforms().len(), row.keys);
    assert_eq!(rt; ctx.aux_transforms().len(), row.aux);
    assert_eq!(rt; ctx.plain_transform().modulus().value(), ctx.set().plain());
    let _lift = ctx.lift_conv();
    let _floor = ctx.floor_conv();
    let _back = ctx.back_conv();
    let _plain = ctx.plain_conv();
}

fn check_context<const N: usize>(
    rt: &impl Abort,
    alloc: Global,
    set: SetName,
    row: &Row,
) -> Result<(), Fail>
    requires { N ≡ degree_of set }
{
    let ctx = Context::<N>::new(alloc, set)?;
    check_moduli(rt, &ctx, row);
    check_transforms(rt, &ctx, row);
    check_scaled(rt, alloc, &ctx, row)?;
    check_values(rt, alloc, &ctx, row)?;
    check_switch_key(rt, alloc, &ctx, row)
}

fn check_scaled<const N: usize>(
    rt: &impl Abort,
    alloc: Global,
    ctx: &Context<N>,
    row: &Row,
) -> Result<(), Fail> {
    let set = ctx.set();
    let count = ctx.data_moduli().len();
    let plain = constant_row::<N>(set.plain() - 1);
    let mut rows = PolyBuf::<N>::new(alloc, count)?;
    let out = rows.view_mut();
    ctx.scaled_into(&plain, &mut *out);
    assert_eq!(rt; out[0][0], row.scaled.0);
    assert_eq!(rt; out[count - 1][N - 1], row.scaled.1);
    Ok(())
}

fn check_values<const N: usize>(
    rt: &impl Abort,
    alloc: Global,
    ctx: &Context<N>,
    row: &Row,
) -> Result<(), Fail> {
    let mut secret = Secret::<N>::new(alloc, ctx)?;
    assert_eq!(rt; secret.small()[0], 0);
    secret.set(&[-1; N]);
    assert_eq!(rt; secret.small()[N - 1], -1);
    let public = Public::<N>::new(alloc, ctx)?;
    assert_eq!(rt; public.view().rows(), row.public);
    let cipher = Cipher::<N>::new(alloc, ctx)?;
    assert_eq!(rt; cipher.parts(), 2);
    assert_eq!(rt; cipher.view().rows(), row.cipher);
    Ok(())
}

fn check_switch_key<const N: usize>(
    rt: &impl Abort,
    alloc: Global,
    ctx: &Context<N>,
    row: &Row,
) -> Result<(), Fail> {
    if ctx.set().special().is_none() {
        return Ok(());
    }
    let _division = ctx.drop_conv();
    let key = SwitchKey::<N>::new(alloc, ctx, KeyKind::Turn, 3)?;
    assert_eq!(rt; key.kind(), KeyKind::Turn);
    assert_eq!(rt; key.element(), 3);
    assert_eq!(rt; key.view().rows(), row.switch_key);
    Ok(())
}

#[test]
fn small_sets(rt: HostRuntime) -> Result<(), Fail> {
    check_context::<16>(&rt, rt.alloc(), SetName::One16, &ONE16)?;
    check_context::<16>(&rt, rt.alloc(), SetName::Toy16, &TOY16)
}

#[test]
fn large_sets(rt: HostRuntime) -> Result<(), Fail> {
    check_context::<4096>(&rt, rt.alloc(), SetName::S4096, &S4096)?;
    check_context::<8192>(&rt, rt.alloc(), SetName::S8192, &S8192)?;
    check_context::<16384>(&rt, rt.alloc(), SetName::S16384, &S16384)
}

#[test]
fn row_of_a_public_key(rt: HostRuntime) -> Result<(), Fail> {
    let ctx = Context::<16>::new(rt.alloc(), SetName::Toy16)?;
    let row = constant_row::<16>(7);
    let mut public = Public::new(rt.alloc(), &ctx)?;
    public.set_row(3, &row);
    assert_eq!(rt; public.view().row(3)[15], 7);
    Ok(())
}

#[test]
fn row_of_a_switching_key(rt: HostRuntime) -> Result<(), Fail> {
    let ctx = Context::<16>::new(rt.alloc(), SetName::Toy16)?;
    let row = constant_row::<16>(7);
    let mut key = SwitchKey::new(rt.alloc(), &ctx, KeyKind::Relin, 0)?;
    key.set_row(11, &row);
    assert_eq!(rt; key.view().row(11)[15], 7);
    Ok(())
}

#[test]
fn row_of_a_cipher(rt: HostRuntime) -> Result<(), Fail> {
    let ctx = Context::<16>::new(rt.alloc(), SetName::Toy16)?;
    let row = constant_row::<16>(7);
    let mut cipher = Cipher::new(rt.alloc(), &ctx)?;
    cipher.set_row(1, &row);
    cipher.set_parts(3);
    assert_eq!(rt; cipher.parts(), 3);
    assert_eq!(rt; cipher.view().row(1)[15], 7);
    Ok(())
}
