//! Encoding and decoding.

ghost use Rattle.std.specs.Prelude.{◌≡◌, ℕ, ℤ};
ghost use Rattle.set_table.specs.Sets.{plain_of};
ghost use Rattle.ring_law.specs.Rows.{IsReduced, RowRepresents, row_polynomial};
ghost use Rattle.bfv_model.specs.Slots.{slots_of};

use crate::places::{read_slots, write_slots};
use bfv_params::Context;

/// Replaces the row by the N coefficients of the plaintext whose slots are the values, all modulo the plaintext modulus t. The
/// first half of the values are row 0 of the slots, and the others row 1.
pub fn encode<const N: usize>(ctx: &Context<N>, values: &[u64; N], row: &mut [u64; N])
    requires { IsReduced N (plain_of (ctx.now).set) values.now }
    ensures slots { slots_of (ctx.now).set (row_polynomial row.new) ≡ values.now }
    ensures unique { (m : ℕ → ℤ) → slots_of (ctx.now).set m ≡ values.now → RowRepresents N (plain_of (ctx.now).set) row.new m }
    ensures reduced { IsReduced N (plain_of (ctx.now).set) row.new }
{
    let transform = ctx.plain_transform();
    write_slots(values, row);
    transform.inverse(row);
}

/// Replaces the values by the N slots of the plaintext with these coefficients, all modulo the plaintext modulus t, in the same
/// order.
pub fn decode<const N: usize>(ctx: &Context<N>, row: &[u64; N], values: &mut [u64; N])
    requires { IsReduced N (plain_of (ctx.now).set) row.now }
    ensures { values.new ≡ slots_of (ctx.now).set (row_polynomial row.now) }
{
    let mut entries = *row;
    ctx.plain_transform().forward(&mut entries);
    read_slots(&entries, values);
}
