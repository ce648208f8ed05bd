//! Worked rows, and the conversions on the bases of all parameter sets.
ghost use Rattle.std.specs.Prelude.{◌<◌, IsTrue, EachIndex, slice_index};
ghost use Rattle.std.specs.Int.{IsGcd};
ghost use Rattle.ring_law.specs.Moduli.{product};

use super::*;
use crate::set_rows::{SETS, SetRows};
use res_base::Base;
use set_table::{GAMMA, M_SK};
use std::alloc::Global;
use std::process::Abort;
use std::test::Fail;
use word_mod::Modulus;

fn moduli(alloc: Global, numbers: &[u64]) -> Result<Vec<Modulus>, Fail> {
    let mut moduli = Vec::new(alloc);
    for q in numbers {
        moduli.push(Modulus::new(*q)?)?;
    }
    Ok(moduli)
}

fn base(rt: &impl Abort, alloc: Global, numbers: &[u64]) -> Result<Base, Fail> {
    let moduli = moduli(alloc, numbers)?;
    assert!(rt; moduli.len() > 0);
    assert!(rt; moduli.len() <= 32);
    Ok(Base::new(alloc, &moduli)?)
}

fn is_coprime(base: &Base, p: &Modulus) -> bool
    ensures { IsTrue result → IsGcd (product base.now) p.now 1 }
{
    p.inverse(base.product_mod(p)).is_some()
}

fn are_coprime(base: &Base, moduli: &[Modulus]) -> bool
    ensures { IsTrue result → EachIndex moduli.now (λ j. IsGcd (product base.now) (slice_index moduli.now j) 1) }
{
    for p in moduli {
        if !is_coprime(base, p) {
            return false;
        }
    }
    true
}

fn check_convert(
    rt: &impl Abort,
    alloc: Global,
    from: &Base,
    to: &[Modulus],
    rows: &[[u64; 4]],
    expected: &[[u64; 4]],
) -> Result<(), Fail> {
    let conversion = FastConv::new(alloc, from, to)?;
    let mut out = vec![in alloc; [0; 4]; to.len()]?;
    assert!(rt; rows.len() == from.len());
    conversion.convert(rows, out.as_mut_slice());
    assert_eq!(rt; out.as_slice(), expected);
    Ok(())
}

fn check_lift(
    rt: &impl Abort,
    alloc: Global,
    from: &Base,
    to: &[Modulus],
    rows: &[[u64; 4]],
    expected: &[[u64; 4]],
) -> Result<(), Fail> {
    let lift = MontLift::new(alloc, from, to)?;
    let mut out = vec![in alloc; [0; 4]; to.len()]?;
    assert!(rt; rows.len() == from.len());
    lift.lift(rows, out.as_mut_slice());
    assert_eq!(rt; out.as_slice(), expected);
    Ok(())
}

fn check_floor(
    rt: &impl Abort,
    alloc: Global,
    from: &Base,
    to: &[Modulus],
    case: &SetRows,
) -> Result<(), Fail> {
    assert!(rt; are_coprime(from, to));
    let floor = FastFloor::new(alloc, from, to, case.plain)?;
    let mut out = case.d_aux.to_vec(alloc)?;
    assert!(rt; case.d.len() == from.len());
    assert!(rt; out.len() == to.len());
    floor.floor(case.d, out.as_mut_slice());
    assert_eq!(rt; out.as_slice(), case.floor);
    Ok(())
}

fn check_back(
    rt: &impl Abort,
    alloc: Global,
    aux: &Base,
    sk: &Modulus,
    to: &[Modulus],
    case: &SetRows,
) -> Result<(), Fail> {
    assert!(rt; is_coprime(aux, sk));
    let quarter = sk.value() / 4;
    assert!(rt; aux.len() as u64 + quarter <= (sk.value() - 1) / 2);
    let back = SkBack::new(alloc, aux, sk, to)?;
    let mut out = vec![in alloc; [0; 4]; to.len()]?;
    assert!(rt; case.e.len() == aux.len() + 1);
    back.back(case.e, out.as_mut_slice());
    assert_eq!(rt; out.as_slice(), case.back);
    Ok(())
}

fn check_drop(
    rt: &impl Abort,
    alloc: Global,
    base: &Base,
    rows: &[[u64; 4]],
    expected: &[[u64; 4]],
) -> Result<(), Fail> {
    let last = base.len() - 1;
    assert!(rt; base.len() >= 2);
    let drop = DropLast::new(alloc, base)?;
    let mut out = rows.to_vec(alloc)?;
    assert!(rt; out.len() == base.len());
    drop.drop_last(out.as_mut_slice());
    assert_eq!(rt; &out[..last], expected);
    assert_eq!(rt; out[last], rows[last]);
    Ok(())
}

fn check_set(rt: &impl Abort, alloc: Global, case: &SetRows) -> Result<(), Fail> {
    let data = base(rt, alloc, case.data)?;
    let aux = base(rt, alloc, case.aux)?;
    let keys = base(rt, alloc, case.keys)?;
    let plain = moduli(alloc, &[case.plain, GAMMA])?;
    let sk = Modulus::new(M_SK)?;
    let back = moduli(alloc, case.data)?;
    let mut lifted = moduli(alloc, case.aux)?;
    lifted.push(sk)?;
    check_convert(rt, alloc, &data, &plain, case.x, case.converted)?;
    check_lift(rt, alloc, &data, &lifted, case.x, case.lifted)?;
    check_floor(rt, alloc, &data, &lifted, case)?;
    check_back(rt, alloc, &aux, &sk, &back, case)?;
    check_drop(rt, alloc, &keys, case.whole, case.dropped)
}

#[test]
fn whole_numbers_of_all_sets(rt: HostRuntime) -> Result<(), Fail> {
    for case in &SETS {
        check_set(&rt, rt.alloc(), case)?;
    }
    Ok(())
}

#[test]
fn a_small_base(rt: HostRuntime) -> Result<(), Fail> {
    let alloc = rt.alloc();
    let from = base(&rt, alloc, &[3, 5])?;
    let to = moduli(alloc, &[7])?;
    check_convert(
        &rt,
        alloc,
        &from,
        &to,
        &[[2, 1, 0, 1], [4, 2, 0, 1]],
        &[[0, 1, 0, 2]],
    )?;
    let keys = base(&rt, alloc, &[7, 5])?;
    check_drop(&rt, alloc, &keys, &[[6; 4], [3; 4]], &[[3; 4]])
}
