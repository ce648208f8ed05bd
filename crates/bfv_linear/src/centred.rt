//! Plaintexts and constants modulo t, taken from `-(t / 2)` to `t / 2`, under other moduli.

ghost use Rattle.std.specs.Prelude.{◌≡◌, ◌<◌, ◌≤◌, pos, length, slice_index};
ghost use Rattle.ring_law.specs.Residues.{centred_residue, residue};
ghost use Rattle.ring_law.specs.Rows.{IsReduced, Represents, RowRepresents};
ghost use Rattle.rns_poly.specs.Rows.{AreReduced};
ghost use Rattle.bfv_linear.specs.Plaintexts.{centred_plain};

use rns_poly::ViewMut;
use word_mod::Modulus;

/// The residue of a coefficient modulo t, when it is taken from `-(t / 2)` to `t / 2`.
pub fn centred_word(m: &Modulus, t: u64, coefficient: u64) -> u64
    requires { coefficient < t }
    ensures value { result ≡ residue m.now (centred_residue t (pos coefficient)) }
    ensures below { result < m.now }
{
    if coefficient > t / 2 {
        m.neg(m.reduce(t - coefficient))
    } else {
        m.reduce(coefficient)
    }
}

fn set_centred_row<const N: usize>(m: &Modulus, t: u64, plain: &[u64; N], out: &mut [u64; N])
    requires degree { N ≤ 32768 }
    requires below { IsReduced N t plain.now }
    ensures represents { RowRepresents N m.now out.new (centred_plain t (slice_index plain.now)) }
    ensures reduced { IsReduced N m.now out.new }
{
    for k in 0..N {
        out[k] = centred_word(m, t, plain[k]);
    }
}

/// Writes the rows of a plaintext whose coefficients are taken from `-(t / 2)` to `t / 2`.
pub fn set_centred<const N: usize>(
    moduli: &[Modulus],
    t: u64,
    plain: &[u64; N],
    out: ViewMut<'_, N>,
)
    requires degree { N ≤ 32768 }
    requires below { IsReduced N t plain.now }
    requires rows { length out.old ≡ length moduli.now }
    ensures represents { Represents N moduli.now out.new (centred_plain t (slice_index plain.now)) }
    ensures reduced { AreReduced N moduli.now out.new }
{
    for i in 0..moduli.len() {
        set_centred_row(&moduli[i], t, plain, &mut out[i]);
    }
}
