//! Arithmetic on single rows, each of residues modulo one modulus.

ghost use Rattle.std.specs.Prelude.{◌≡◌, ℕ, ◌<◌, ◌≤◌, ℤ};
ghost use Rattle.ring_law.specs.Residues.{residue};
ghost use Rattle.ring_law.specs.Polynomials.{ring_sum, ring_negative};
ghost use Rattle.ring_law.specs.Rows.{IsReduced, RowRepresents, listed_polynomial};
ghost use Rattle.rns_poly.specs.Rows.{entrywise_product, multiple};

use word_mod::Modulus;

/// Writes the sum of two rows.
pub fn add<const N: usize>(m: &Modulus, a: &[u64; N], b: &[u64; N], out: &mut [u64; N])
    requires degree { N ≤ 32768 }
    requires a_reduced { IsReduced N m.now a.now }
    requires b_reduced { IsReduced N m.now b.now }
    ensures represents { (x y : ℕ → ℤ) → RowRepresents N m.now a.now x → RowRepresents N m.now b.now y →
        RowRepresents N m.now out.new (ring_sum x y) }
    ensures reduced { IsReduced N m.now out.new }
{
    lane_rows::add_row(m.value(), a, b, out);
}

/// Writes the difference of two rows.
pub fn sub<const N: usize>(m: &Modulus, a: &[u64; N], b: &[u64; N], out: &mut [u64; N])
    requires degree { N ≤ 32768 }
    requires a_reduced { IsReduced N m.now a.now }
    requires b_reduced { IsReduced N m.now b.now }
    ensures represents { (x y : ℕ → ℤ) → RowRepresents N m.now a.now x → RowRepresents N m.now b.now y →
        RowRepresents N m.now out.new (ring_sum x (ring_negative y)) }
    ensures reduced { IsReduced N m.now out.new }
{
    lane_rows::sub_row(m.value(), a, b, out);
}

/// Writes the negative of a row.
pub fn neg<const N: usize>(m: &Modulus, a: &[u64; N], out: &mut [u64; N])
    requires degree { N ≤ 32768 }
    requires reduced { IsReduced N m.now a.now }
    ensures represents { (x : ℕ → ℤ) → RowRepresents N m.now a.now x → RowRepresents N m.now out.new (ring_negative x) }
    ensures reduced { IsReduced N m.now out.new }
{
    lane_rows::neg_row(m.value(), a, out);
}

/// Writes the product of two rows word by word.
pub fn pointwise<const N: usize>(m: &Modulus, a: &[u64; N], b: &[u64; N], out: &mut [u64; N])
    requires degree { N ≤ 32768 }
    requires a_reduced { IsReduced N m.now a.now }
    requires b_reduced { IsReduced N m.now b.now }
    ensures represents { (x y : ℕ → ℤ) → RowRepresents N m.now a.now x → RowRepresents N m.now b.now y →
        RowRepresents N m.now out.new (entrywise_product x y) }
    ensures reduced { IsReduced N m.now out.new }
{
    for k in 0..N {
        out[k] = m.mul(a[k], b[k]);
    }
}

fn small_residue(m: &Modulus, small: i8) -> u64
    ensures value { result ≡ residue m.now small }
    ensures below { result < m.now }
{
    let size = m.reduce(u64::from(small.unsigned_abs()));
    if small < 0 { m.neg(size) } else { size }
}

/// Writes the row that represents a polynomial of small coefficients.
pub fn set_small<const N: usize>(m: &Modulus, small: &[i8; N], out: &mut [u64; N])
    requires degree { N ≤ 32768 }
    ensures represents { RowRepresents N m.now out.new (listed_polynomial small.now) }
    ensures reduced { IsReduced N m.now out.new }
{
    for k in 0..N {
        out[k] = small_residue(m, small[k]);
    }
}

/// Multiplies a row by a factor of any size.
pub fn scale<const N: usize>(m: &Modulus, factor: u64, row: &mut [u64; N])
    requires { N ≤ 32768 }
    ensures represents { (x : ℕ → ℤ) → RowRepresents N m.now row.old x → RowRepresents N m.now row.new (multiple factor x) }
    ensures reduced { IsReduced N m.now row.new }
{
    let factor = m.factor(m.reduce(factor));
    lane_rows::scale_row_in_place(m.value(), factor.w, factor.shoup, row);
}
