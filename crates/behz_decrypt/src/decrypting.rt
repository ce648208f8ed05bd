//! The plaintext of a cipher.

ghost use Rattle.std.specs.Prelude.{◌≡◌, ℕ, ℤ, pos, ◌*ℤ◌, ◌+◌, ◌*◌, ◌%◌, ◌<◌, ◌≤◌, [], ◌∷◌, length, slice_index};
ghost use Rattle.set_table.specs.Sets.{plain_of, gamma};
ghost use Rattle.ring_law.specs.Rows.{IsReduced, Represents, listed_polynomial};
ghost use Rattle.rns_poly.specs.Rows.{AreReduced};
ghost use Rattle.fast_conv.specs.Converters.{AreFastConversions};
ghost use Rattle.bfv_params.specs.Ciphers.{HoldsIn, IsCipherOf};
ghost use Rattle.bfv_params.specs.Contexts.{data_in, modulus_in, scratch_rows_in};

use crate::phases::phase_into;
use crate::rounding::round_row;
use bfv_params::{Cipher, Context, Secret};
use rns_poly::{PolyBuf, ViewMut, scale_each, split};
use word_mod::Modulus;

/// The most moduli of a base.
const MOST_MODULI: usize = 32;

/// Writes the N coefficients of the plaintext that the cipher holds under the secret, where its
/// noise is at most a quarter of q. They are residues modulo the plaintext modulus t for every
/// cipher.
///
/// The rows of the phase, times t and gamma, are converted to the moduli t and gamma. There minus
/// their quotient by q is the plaintext times gamma and a small error, which its residue modulo
/// gamma tells.
pub fn decrypt<const N: usize>(
    ctx: &Context<N>,
    secret: &Secret<N>,
    cipher: &Cipher<N>,
    row: &mut [u64; N],
    scratch: &mut PolyBuf<N>,
)
    requires secret_set { (secret.now).set ≡ (ctx.now).set }
    requires cipher_of { IsCipherOf (ctx.now) (cipher.now) }
    requires room { scratch_rows_in (ctx.now) ≤ length scratch.old }
    ensures reduced { IsReduced N (plain_of (ctx.now).set) row.new }
    ensures plain { (m : ℕ → ℕ) (W : ℕ) →
        HoldsIn N (ctx.now) (cipher.now) (listed_polynomial (secret.now).small) m W → 4 * W ≤ modulus_in (ctx.now) →
        (k : ℕ) → k < N → slice_index row.new k ≡ m k }
    ensures scratch { length scratch.new ≡ length scratch.old }
{
    decrypt_in_rows(ctx, secret, cipher, row, scratch.view_mut());
}

/// The same with borrowed rows to work in.
fn decrypt_in_rows<const N: usize>(
    ctx: &Context<N>,
    secret: &Secret<N>,
    cipher: &Cipher<N>,
    row: &mut [u64; N],
    rows: ViewMut<'_, N>,
)
    requires secret_set { (secret.now).set ≡ (ctx.now).set }
    requires cipher_of { IsCipherOf (ctx.now) (cipher.now) }
    requires room { 5 * (ctx.now).level + 2 ≤ length rows.old }
    ensures reduced { IsReduced N (plain_of (ctx.now).set) row.new }
    ensures plain { (m : ℕ → ℕ) (W : ℕ) →
        HoldsIn N (ctx.now) (cipher.now) (listed_polynomial (secret.now).small) m W → 4 * W ≤ modulus_in (ctx.now) →
        (k : ℕ) → k < N → slice_index row.new k ≡ m k }
{
    let level = ctx.data_moduli().len();
    let (phase, rest) = split(rows, level);
    let (scratch, rest) = split(rest, 4 * level);
    let (converted, _) = split(rest, 2);
    phase_into(ctx, secret, cipher, &mut *phase, scratch);
    convert_phase(ctx, phase, &mut *converted);
    round_row(ctx, &converted[0], &converted[1], row);
}

/// Writes the rows modulo t and gamma of a phase times t and gamma, up to a small multiple of q.
fn convert_phase<const N: usize>(ctx: &Context<N>, phase: ViewMut<'_, N>, out: ViewMut<'_, N>)
    requires phase_count { length phase.old ≡ (ctx.now).level }
    requires phase_reduced { AreReduced N (data_in (ctx.now)) phase.old }
    requires count { length out.old ≡ 2 }
    ensures { (x : ℕ → ℤ) → Represents N (data_in (ctx.now)) phase.old x → (y : ℕ → ℤ)
        × AreFastConversions N (modulus_in (ctx.now)) (ctx.now).level
        (λ k. pos gamma *ℤ (pos (plain_of (ctx.now).set) *ℤ x k)) y
        × Represents N (plain_of (ctx.now).set ∷ gamma ∷ []) out.new y }
{
    let moduli = ctx.data_moduli();
    let count = ctx.data_base().len();
    let mut factors = [0; MOST_MODULI];
    set_factors(
        moduli,
        ctx.plain_modulus().value(),
        ctx.gamma().value(),
        &mut factors,
    );
    scale_each(moduli, &factors[..count], &mut *phase);
    ctx.plain_conv().convert(phase, out);
}

/// Writes `gamma * t` modulo each of the moduli.
fn set_factors(moduli: &[Modulus], t: u64, gamma: u64, factors: &mut [u64; MOST_MODULI])
    requires { length moduli.now ≤ MOST_MODULI }
    ensures { (i : ℕ) → i < length moduli.now → slice_index factors.new i ≡ gamma * t % slice_index moduli.now i }
{
    for i in 0..moduli.len() {
        factors[i] = moduli[i].reduce_wide(gamma as u128 * t as u128);
    }
}
