//! Switching a part of a ciphertext.

ghost use Rattle.std.specs.Prelude.{◌≡◌, ℕ, ℤ, ◌+◌, ◌*◌, ◌%◌, ◌<◌, ◌≤◌, length, slice_index, IsSome, IsOk, OnOk, Contains, Some};
ghost use Rattle.set_table.specs.Sets.{data_of, degree_of, log_degree_of, special_of};
ghost use Rattle.ring_law.specs.Polynomials.{AllWithin};
ghost use Rattle.ring_law.specs.Rows.{Represents, WordsRepresent};
ghost use Rattle.ring_law.specs.Transform.{transform_entry};
ghost use Rattle.rns_poly.specs.Rows.{AreReduced};
ghost use Rattle.bfv_model.specs.Holds.{listed_word};
ghost use Rattle.bfv_model.specs.Keys.{dropped_quotient};
ghost use Rattle.bfv_model.specs.SwitchKeys.{IsSwitchKeyIn};
ghost use Rattle.bfv_params.specs.Contexts.{data_in, scratch_rows_in};
ghost use Rattle.bfv_params.specs.Rows.{ReducedInTurn, ZeroFrom};
ghost use Rattle.bfv_params.specs.Transforms.{transform_of};
ghost use Rattle.key_switch.specs.Memory.{digits_of, memory_state};
ghost use Rattle.key_switch.specs.Providers.{Digits, Keeps, FaultCause, IsThere};
ghost use Rattle.key_switch.specs.Sums.{AreDigitSums, AreSumsOf, key_in, sum_word};
ghost use Rattle.key_switch.specs.Switching.{AreKeyTransforms, IsSwitchedPair, PairStandsFor};

use crate::digits::lift_into;
use crate::sums::{add_digit, reduce_sums};
use crate::{KeyFault, Keys, MemKeys};
use bfv_params::Context;
use rns_poly::{PolyBuf, View, ViewMut, inverse_all, split};
use set_table::KeyKind;

/// Writes the pair that stands for a part of a ciphertext times what the provider's key of this kind and Galois element
/// switches from: the rows of its two parts, one for each data modulus of the context, from those of the part, all in
/// coefficient form. The fault is that of a `digit` of this call.
pub fn apply<const N: usize, K: Keys<N>>(
    ctx: &Context<N>,
    keys: &mut K,
    kind: KeyKind,
    element: u32,
    part: View<'_, N>,
    out: ViewMut<'_, N>,
    scratch: &mut PolyBuf<N>,
) -> Result<(), KeyFault>
    requires special { IsSome (special_of (ctx.now).set) }
    requires keys_set { (K.state keys.old).set ≡ (ctx.now).set }
    requires has { Contains (K.state keys.old).pairs (record { 0 = kind; 1 = element }) }
    requires part_count { length part.rows.now ≡ (ctx.now).level }
    requires part_reduced { AreReduced N (data_in (ctx.now)) part.rows.now }
    requires count { length out.old ≡ 2 * (ctx.now).level }
    requires room { length scratch.old ≡ scratch_rows_in (ctx.now) }
    ensures keeps { Keeps (K.state keys.old) (K.state keys.new) }
    ensures origin { K.origin keys.new ≡ K.origin keys.old }
    ensures cause { FaultCause (K.state keys.old) (K.state keys.new) result }
    ensures tells { (digits : Digits) → K.Tells keys.old digits → K.Tells keys.new digits }
    ensures there { (digits : Digits) → K.Tells keys.old digits → IsThere result }
    ensures reduced { OnOk result (ReducedInTurn N (ctx.now).level (data_in (ctx.now)) out.new) }
    ensures words { (digits : Digits) (P : ℕ) (key : ℕ → ℕ → ℕ → ℤ) (c : ℕ → ℤ) → K.Tells keys.old digits
        → special_of (ctx.now).set ≡ Some P → AreKeyTransforms (ctx.now).set (digits kind element) key
        → Represents N (data_in (ctx.now)) part.entry.rows.now c
        → OnOk result (IsSwitchedPair N (data_in (ctx.now)) P key c out.new) }
    ensures stands { (digits : Digits) (P : ℕ) (c source s : ℕ → ℤ) → K.Tells keys.old digits
        → special_of (ctx.now).set ≡ Some P → IsSwitchKeyIn (ctx.now).set (digits kind element) source s
        → AllWithin N 1 s → Represents N (data_in (ctx.now)) part.entry.rows.now c
        → OnOk result (PairStandsFor N (data_in (ctx.now)) P c source s out.new) }
    ensures scratch { length scratch.new ≡ length scratch.old }
{
    let count = ctx.data_moduli().len() + 1;
    let (sums, work) = split(scratch.view_mut(), 4 * count);
    clear(&mut *sums);
    sum_digits(ctx, keys, kind, element, part, &mut *sums, work)?;
    write_pair(ctx, sums, out);
    Ok(())
}

fn clear<const N: usize>(rows: ViewMut<'_, N>)
    requires { N ≤ 32768 }
    ensures { ZeroFrom N 0 rows.new }
{
    for i in 0..rows.len() {
        rows[i] = [0; N];
    }
}

/// Adds all digits of the part, each times that of the key, to sums that are 0.
fn sum_digits<const N: usize, K: Keys<N>>(
    ctx: &Context<N>,
    keys: &mut K,
    kind: KeyKind,
    element: u32,
    part: View<'_, N>,
    sums: ViewMut<'_, N>,
    work: ViewMut<'_, N>,
) -> Result<(), KeyFault>
    requires special { IsSome (special_of (ctx.now).set) }
    requires keys_set { (K.state keys.old).set ≡ (ctx.now).set }
    requires has { Contains (K.state keys.old).pairs (record { 0 = kind; 1 = element }) }
    requires part_count { length part.rows.now ≡ (ctx.now).level }
    requires count { length sums.old ≡ 4 * ((ctx.now).level + 1) }
    requires zero { ZeroFrom N 0 sums.old }
    requires room { (ctx.now).level + 1 + 2 * (length (data_of (ctx.now).set) + 1) ≤ length work.old }
    ensures keeps { Keeps (K.state keys.old) (K.state keys.new) }
    ensures origin { K.origin keys.new ≡ K.origin keys.old }
    ensures cause { FaultCause (K.state keys.old) (K.state keys.new) result }
    ensures tells { (digits : Digits) → K.Tells keys.old digits → K.Tells keys.new digits }
    ensures there { (digits : Digits) → K.Tells keys.old digits → IsThere result }
    ensures sums { (digits : Digits) → K.Tells keys.old digits → OnOk result
        (AreDigitSums N (ctx.now) part.entry.rows.now (digits kind element) (ctx.now).level sums.new) }
{
    for i in 0..ctx.data_moduli().len() {
        sum_digit(ctx, keys, kind, element, i, part, &mut *sums, &mut *work)?;
    }
    Ok(())
}

/// Adds digit i of the part times that of the key to the sums over the digits before it.
fn sum_digit<const N: usize, K: Keys<N>>(
    ctx: &Context<N>,
    keys: &mut K,
    kind: KeyKind,
    element: u32,
    i: usize,
    part: View<'_, N>,
    sums: ViewMut<'_, N>,
    work: ViewMut<'_, N>,
) -> Result<(), KeyFault>
    requires degree { N ≡ degree_of (ctx.now).set }
    requires within { (ctx.now).level ≤ length (data_of (ctx.now).set) }
    requires special { IsSome (special_of (ctx.now).set) }
    requires keys_set { (K.state keys.old).set ≡ (ctx.now).set }
    requires has { Contains (K.state keys.old).pairs (record { 0 = kind; 1 = element }) }
    requires index { i < (ctx.now).level }
    requires part_count { length part.rows.now ≡ (ctx.now).level }
    requires count { length sums.old ≡ 4 * ((ctx.now).level + 1) }
    requires small { AreSumsOf N ((ctx.now).level + 1) i sums.old }
    requires room { (ctx.now).level + 1 + 2 * (length (data_of (ctx.now).set) + 1) ≤ length work.old }
    ensures keeps { Keeps (K.state keys.old) (K.state keys.new) }
    ensures origin { K.origin keys.new ≡ K.origin keys.old }
    ensures cause { FaultCause (K.state keys.old) (K.state keys.new) result }
    ensures tells { (digits : Digits) → K.Tells keys.old digits → K.Tells keys.new digits }
    ensures there { (digits : Digits) → K.Tells keys.old digits → IsThere result }
    ensures small { OnOk result (AreSumsOf N ((ctx.now).level + 1) (i + 1) sums.new) }
    ensures sums { (digits : Digits) → K.Tells keys.old digits
        → AreDigitSums N (ctx.now) part.entry.rows.now (digits kind element) i sums.old
        → OnOk result (AreDigitSums N (ctx.now) part.entry.rows.now (digits kind element) (i + 1) sums.new) }
{
    let (moduli, transforms) = (ctx.key_moduli(), ctx.key_transforms());
    let (lifted, rest) = split(work, moduli.len());
    let (digit, _) = split(rest, 2 * (ctx.set().data_count() + 1));
    keys.digit(kind, element, i, &mut *digit)?;
    lift_into(moduli, transforms, &part.rows[i], &mut *lifted);
    add_digit(View { rows: lifted }, View { rows: digit }, sums);
    Ok(())
}

/// Writes the rows of both parts of a pair from its sums.
fn write_pair<const N: usize>(ctx: &Context<N>, sums: ViewMut<'_, N>, out: ViewMut<'_, N>)
    requires special { IsSome (special_of (ctx.now).set) }
    requires sums_count { length sums.old ≡ 4 * ((ctx.now).level + 1) }
    requires count { length out.old ≡ 2 * (ctx.now).level }
    ensures represents { (P : ℕ) (y : ℕ → ℕ → ℤ) → special_of (ctx.now).set ≡ Some P
        → ((j r k : ℕ) → j < 2 → r < (ctx.now).level + 1 → k < N
        → sum_word ((ctx.now).level + 1) sums.old (j * (2 * ((ctx.now).level + 1))) r k % slice_index (key_in (ctx.now)) r
        ≡ transform_entry (slice_index (key_in (ctx.now)) r) (log_degree_of (ctx.now).set)
        (transform_of (ctx.now).set (slice_index (key_in (ctx.now)) r)).root (y j) k)
        → (j : ℕ) → j < 2 → WordsRepresent N (data_in (ctx.now)) (listed_word (ctx.now).level out.new j) (λ k. dropped_quotient P (y j k)) }
    ensures reduced { ReducedInTurn N (ctx.now).level (data_in (ctx.now)) out.new }
{
    let (first, second) = split(sums, 2 * ctx.key_moduli().len());
    let (first_out, second_out) = split(out, ctx.data_moduli().len());
    write_part(ctx, first, first_out);
    write_part(ctx, second, second_out);
}

/// Writes the rows of one part: the residues of its sums are transformed back and divided by the special modulus.
fn write_part<const N: usize>(ctx: &Context<N>, sums: ViewMut<'_, N>, out: ViewMut<'_, N>)
    requires degree { N ≡ degree_of (ctx.now).set }
    requires within { (ctx.now).level ≤ length (data_of (ctx.now).set) }
    requires special { IsSome (special_of (ctx.now).set) }
    requires sums_count { length sums.old ≡ 2 * ((ctx.now).level + 1) }
    requires count { length out.old ≡ (ctx.now).level }
    ensures represents { (P : ℕ) (y : ℕ → ℤ) → special_of (ctx.now).set ≡ Some P
        → ((r k : ℕ) → r < (ctx.now).level + 1 → k < N
        → sum_word ((ctx.now).level + 1) sums.old 0 r k % slice_index (key_in (ctx.now)) r
        ≡ transform_entry (slice_index (key_in (ctx.now)) r) (log_degree_of (ctx.now).set)
        (transform_of (ctx.now).set (slice_index (key_in (ctx.now)) r)).root y k)
        → Represents N (data_in (ctx.now)) out.new (λ k. dropped_quotient P (y k)) }
    ensures reduced { AreReduced N (data_in (ctx.now)) out.new }
{
    let moduli = ctx.key_moduli();
    let (high, low) = split(sums, moduli.len());
    reduce_sums(moduli, View { rows: high }, &mut *low);
    inverse_all(ctx.key_transforms(), &mut *low);
    ctx.drop_conv().drop_last(&mut *low);
    out.copy_from_slice(&low[..out.len()]);
}

/// The same with keys in memory, which never fail.
pub fn apply_in_memory<const N: usize>(
    ctx: &Context<N>,
    keys: &mut MemKeys<N>,
    kind: KeyKind,
    element: u32,
    part: View<'_, N>,
    out: ViewMut<'_, N>,
    scratch: &mut PolyBuf<N>,
) -> Result<(), KeyFault>
    requires special { IsSome (special_of (ctx.now).set) }
    requires keys_set { (keys.old).set ≡ (ctx.now).set }
    requires has { Contains (memory_state keys.old).pairs (record { 0 = kind; 1 = element }) }
    requires part_count { length part.rows.now ≡ (ctx.now).level }
    requires part_reduced { AreReduced N (data_in (ctx.now)) part.rows.now }
    requires count { length out.old ≡ 2 * (ctx.now).level }
    requires room { length scratch.old ≡ scratch_rows_in (ctx.now) }
    ensures ok { IsOk result }
    ensures keeps { Keeps (memory_state keys.old) (memory_state keys.new) }
    ensures reduced { OnOk result (ReducedInTurn N (ctx.now).level (data_in (ctx.now)) out.new) }
    ensures words { (P : ℕ) (key : ℕ → ℕ → ℕ → ℤ) (c : ℕ → ℤ) → special_of (ctx.now).set ≡ Some P
        → AreKeyTransforms (ctx.now).set (digits_of (keys.old).set (keys.old).keys kind element) key
        → Represents N (data_in (ctx.now)) part.entry.rows.now c
        → OnOk result (IsSwitchedPair N (data_in (ctx.now)) P key c out.new) }
    ensures scratch { length scratch.new ≡ length scratch.old }
{
    apply(ctx, keys, kind, element, part, out, scratch)
}
