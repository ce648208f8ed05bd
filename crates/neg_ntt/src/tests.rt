//! Transforms that were worked out by their definition, and products that are compared with those by all pairs.

ghost use Rattle.std.specs.Prelude.{ℕ, ◌≡◌, ◌<◌, length};
ghost use Rattle.lane_rows.specs.Rows.{RowBelow};
ghost use Rattle.neg_ntt.specs.Parameters.{IsDegree};

use super::*;
use ring_law::product_plain;
use std::alloc::Global;
use std::process::Abort;
use std::test::Fail;
use word_mod::Modulus;

#[test]
fn entries_stand_in_reversed_order(rt: HostRuntime) -> Result<(), Fail> {
    let m = Modulus::new(17)?;
    let transform = Transform::<4>::new(rt.alloc(), &m, 2)?;
    let mut row = [0, 1, 0, 0];
    transform.forward(&mut row);
    assert_eq!(rt; row, [2, 15, 8, 9]);
    transform.inverse(&mut row);
    assert_eq!(rt; row, [0, 1, 0, 0]);
    Ok(())
}

#[test]
fn only_roots_make_a_transform(rt: HostRuntime) -> Result<(), Fail> {
    let m = Modulus::new(17)?;
    for (psi, fault) in [
        (0, Some(TransformFault::NoRoot)),
        (1, Some(TransformFault::NoRoot)),
        (2, None),
        (4, Some(TransformFault::NoRoot)),
        (8, None),
        (9, None),
        (15, None),
        (16, Some(TransformFault::NoRoot)),
    ] {
        assert_eq!(rt;
            Transform::<4>::new(rt.alloc(), &m, psi).err(),
            fault,
            "for {psi}"
        );
    }
    Ok(())
}

#[test]
fn faults_are_told_in_words(rt: HostRuntime) -> Result<(), Fail> {
    let no_root = format!(in rt.alloc(); "{}", TransformFault::NoRoot)?;
    assert_eq!(rt; no_root.as_str(), "no root");
    let memory = format!(in rt.alloc(); "{}", TransformFault::Memory)?;
    assert_eq!(rt; memory.as_str(), "memory");
    Ok(())
}

// Words all over the range below q, with some at its ends.
fn fill(q: u64, first: u64, row: &mut [u64])
    requires { 0 < q }
    ensures { RowBelow q row.new }
{
    let mut word = first;
    for i in 0..row.len() {
        word = word
            .wrapping_mul(0x5851_f42d_4c95_7f2d)
            .wrapping_add(0x1405_7b7e_f767_814f);
        row[i] = match word % 5 {
            0 => q - 1,
            1 => 0,
            _ => word % q,
        };
    }
}

fn multiply(m: &Modulus, a: &[u64], out: &mut [u64])
    requires len { length a.now ≡ length out.old }
    requires a_below { RowBelow m.now a.now }
    requires out_below { RowBelow m.now out.old }
    ensures { RowBelow m.now out.new }
{
    for i in 0..out.len() {
        out[i] = m.mul(a[i], out[i]);
    }
}

fn check_products<const N: usize>(
    rt: &impl Abort,
    alloc: Global,
    q: u64,
    psi: u64,
) -> Result<(), Fail>
    requires { IsDegree N }
{
    let m = Modulus::new(q)?;
    assert!(rt; psi < m.value());
    let transform = Transform::<N>::new(alloc, &m, psi)?;
    let (mut a, mut b, mut expected) = ([0; N], [0; N], [0; N]);
    fill(q, 1, &mut a);
    fill(q, 2, &mut b);
    product_plain(q, &a, &b, &mut expected);
    transform.forward(&mut a);
    transform.forward(&mut b);
    multiply(&m, &a, &mut b);
    transform.inverse(&mut b);
    assert_eq!(rt; b, expected, "degree {N} modulo {q}");
    Ok(())
}

// The first modulus of degree 64 is 257 * 65537, which is no prime.
#[test]
fn products_agree_with_those_by_all_pairs(rt: HostRuntime) -> Result<(), Fail> {
    for (q, psi) in [
        (17, 8),
        (12289, 8246),
        (36028797014704129, 27053686748033916),
        (2305843009213693921, 60380610097375278),
    ] {
        check_products::<4>(&rt, rt.alloc(), q, psi)?;
    }
    for (q, psi) in [(12289, 4134), (2305843009213693921, 530148583312262783)] {
        check_products::<8>(&rt, rt.alloc(), q, psi)?;
    }
    for (q, psi) in [(65537, 65529), (2305843009213693921, 952250207257475153)] {
        check_products::<16>(&rt, rt.alloc(), q, psi)?;
    }
    for (q, psi) in [
        (16843009, 13580146),
        (2305843009213689601, 471345213009844031),
    ] {
        check_products::<64>(&rt, rt.alloc(), q, psi)?;
    }
    for (q, psi) in [(12289, 3400), (2305843009213687297, 502364153934162438)] {
        check_products::<256>(&rt, rt.alloc(), q, psi)?;
    }
    for (q, psi) in [(12289, 10302), (2305843009213683713, 707355631940785515)] {
        check_products::<512>(&rt, rt.alloc(), q, psi)?;
    }
    for (q, psi) in [
        (12289, 1945),
        (65537, 61869),
        (36028797014704129, 13385576938484686),
        (2305843009213683713, 346697834596438798),
    ] {
        check_products::<1024>(&rt, rt.alloc(), q, psi)?;
    }
    Ok(())
}
