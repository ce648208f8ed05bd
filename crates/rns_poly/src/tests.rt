//! The rows of two small polynomials under three moduli, and what the calls make of them, by Python's whole numbers.

ghost use Rattle.std.specs.Prelude.{◌≡◌, length};
ghost use Rattle.rns_poly.specs.Rows.{AreReduced};

use super::*;
use neg_ntt::Transform;
use std::process::Abort;
use std::test::Fail;
use word_mod::Modulus;

type Rows = [[u64; 4]; 3];

// The greatest modulus.
const Q: u64 = (1 << 61) - 1;

const A: [i8; 4] = [1, -2, 3, -128];

const B: [i8; 4] = [127, 5, -7, 0];

const FACTORS: [u64; 3] = [3, 300, u64::MAX];

const A_ROWS: Rows = [[1, 15, 3, 8], [1, 255, 3, 129], [1, Q - 2, 3, Q - 128]];

const B_ROWS: Rows = [[8, 5, 10, 0], [127, 5, 250, 0], [127, 5, Q - 7, 0]];

const SUMS: Rows = [[9, 3, 13, 8], [128, 3, 253, 129], [128, 3, Q - 4, Q - 128]];

const DIFFERENCES: Rows = [
    [10, 10, 10, 8],
    [131, 250, 10, 129],
    [Q - 126, Q - 7, 10, Q - 128],
];

const NEGATIVES: Rows = [[16, 2, 14, 9], [256, 2, 254, 128], [Q - 1, 2, Q - 3, 128]];

const PRODUCTS: Rows = [[8, 7, 13, 0], [127, 247, 236, 0], [127, Q - 10, Q - 21, 0]];

const SCALED: Rows = [[3, 11, 9, 7], [43, 171, 129, 150], [7, Q - 14, 21, Q - 896]];

// The calls that write from rows of two polynomials, each into `out`.
fn check_written(
    rt: &impl Abort,
    moduli: &[Modulus],
    a: View<'_, 4>,
    b: View<'_, 4>,
    out: ViewMut<'_, 4>,
)
    requires a_length { length a.rows.now ≡ length moduli.now }
    requires b_length { length b.rows.now ≡ length moduli.now }
    requires out_length { length out.old ≡ length moduli.now }
    requires a_reduced { AreReduced 4 moduli.now a.rows.now }
    requires b_reduced { AreReduced 4 moduli.now b.rows.now }
{
    assert!(rt; a.slice() == A_ROWS.as_slice());
    assert!(rt; b.slice() == B_ROWS.as_slice());
    add_into(moduli, a, b, &mut *out);
    assert!(rt; &*out == SUMS.as_slice());
    sub_into(moduli, a, b, &mut *out);
    assert!(rt; &*out == DIFFERENCES.as_slice());
    neg_into(moduli, a, &mut *out);
    assert!(rt; &*out == NEGATIVES.as_slice());
    pointwise_into(moduli, a, b, &mut *out);
    assert!(rt; &*out == PRODUCTS.as_slice());
}

#[test]
fn calls_at_three_moduli(rt: HostRuntime) -> Result<(), Fail> {
    let moduli = [Modulus::new(17)?, Modulus::new(257)?, Modulus::new(Q)?];
    let mut buffer = PolyBuf::<4>::new(rt.alloc(), 9)?;
    let (a, rest) = split(buffer.view_mut(), 3);
    let (b, out) = split(rest, 3);
    set_small(&moduli, &A, &mut *a);
    set_small(&moduli, &B, &mut *b);
    check_written(&rt, &moduli, View { rows: a }, View { rows: b }, out);
    scale_each(&moduli, &FACTORS, &mut *a);
    assert!(rt; &*a == SCALED.as_slice());
    Ok(())
}

#[test]
fn views_share_one_buffer(rt: HostRuntime) -> Result<(), Fail> {
    let mut buffer = PolyBuf::<4>::new(rt.alloc(), 3)?;
    row_mut(buffer.view_mut(), 1)[2] = 5;
    let view = buffer.view();
    assert_eq!(rt; (buffer.rows(), view.rows()), (3, 3));
    let last = view.rows_from_to(1, 3);
    assert_eq!(rt; last.rows(), 2);
    assert_eq!(rt; *last.row(0), [0, 0, 5, 0]);
    assert_eq!(rt; *last.row(1), [0; 4]);
    Ok(())
}

// X times 5 + X^3 is -1 + 5X modulo X^4 + 1. The powers of the roots 2 and 4 with exponents 1, 5, 3, 7 are the transforms of X.
#[test]
fn products_by_transforms(rt: HostRuntime) -> Result<(), Fail> {
    let (first, second) = (Modulus::new(17)?, Modulus::new(257)?);
    let moduli = [first, second];
    let first = Transform::<4>::new(rt.alloc(), &first, 2)?;
    let second = Transform::<4>::new(rt.alloc(), &second, 4)?;
    let transforms = [first, second];
    let mut buffer = PolyBuf::<4>::new(rt.alloc(), 6)?;
    let (a, rest) = split(buffer.view_mut(), 2);
    let (b, out) = split(rest, 2);
    set_small(&moduli, &[0, 1, 0, 0], &mut *a);
    set_small(&moduli, &[5, 0, 0, 1], &mut *b);
    forward_all(&transforms, &mut *a);
    forward_all(&transforms, &mut *b);
    assert!(rt; &*a == [[2, 15, 8, 9], [4, 253, 64, 193]].as_slice());
    pointwise_into(&moduli, View { rows: a }, View { rows: b }, &mut *out);
    inverse_all(&transforms, &mut *out);
    assert!(rt; &*out == [[16, 5, 0, 0], [256, 5, 0, 0]].as_slice());
    Ok(())
}
