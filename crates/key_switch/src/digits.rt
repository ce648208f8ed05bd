//! Digits of a polynomial as whole numbers, taken into all moduli of a key.

ghost use Rattle.std.specs.Prelude.{◌≡◌, ℕ, ◌<◌, ◌≤◌, [], length, slice_index, slice_index_or};
ghost use Rattle.ring_law.specs.Rows.{IsReduced, RowRepresents, row_polynomial};
ghost use Rattle.rns_poly.specs.Rows.{AreReduced};
ghost use Rattle.rns_poly.specs.Transforms.{AreTransforms, moduli_of};

use lane_rows::scale_row;
use neg_ntt::Transform;
use rns_poly::{ViewMut, forward_all};
use word_mod::Modulus;

/// Writes the transforms, one for each modulus, of the polynomial whose coefficients are the words of a row.
pub fn lift_into<const N: usize>(
    moduli: &[Modulus],
    transforms: &[Transform<N>],
    row: &[u64; N],
    out: ViewMut<'_, N>,
)
    requires degree { N ≤ 32768 }
    requires same_moduli { moduli_of transforms.now ≡ moduli.now }
    requires same_count { length transforms.now ≡ length moduli.now }
    requires count { length out.old ≡ length moduli.now }
    ensures transforms { AreTransforms transforms.now out.new (λ i. row_polynomial row.now) }
    ensures reduced { AreReduced N moduli.now out.new }
{
    reduce_into(moduli, row, &mut *out);
    forward_all(transforms, out);
}

/// Writes the residues of the words of a row modulo each modulus.
fn reduce_into<const N: usize>(moduli: &[Modulus], row: &[u64; N], out: ViewMut<'_, N>)
    requires degree { N ≤ 32768 }
    requires count { length out.old ≡ length moduli.now }
    ensures represents { (i : ℕ) → i < length moduli.now →
        RowRepresents N (slice_index moduli.now i) (slice_index_or out.new i []) (row_polynomial row.now) }
    ensures reduced { AreReduced N moduli.now out.new }
{
    for i in 0..moduli.len() {
        reduce_row(&moduli[i], row, &mut out[i]);
    }
}

/// The same modulo one modulus.
fn reduce_row<const N: usize>(m: &Modulus, row: &[u64; N], out: &mut [u64; N])
    requires degree { N ≤ 32768 }
    ensures represents { RowRepresents N m.now out.new (row_polynomial row.now) }
    ensures reduced { IsReduced N m.now out.new }
{
    let q = m.value();
    let one = m.factor(1);
    scale_row(q, one.w, one.shoup, row, out);
}
