//! Digits of switching keys, drawn from a generator of random words.

ghost use Rattle.std.specs.Prelude.{◌≡◌, ℕ, ℤ, pos, neg_ℤ, ◌+ℤ◌, ◌*ℤ◌, ◌==◌, if◌then◌else◌, ◌+◌, ◌*◌, ◌%◌, ◌<◌, ◌≤◌, [], length, slice_index, slice_index_or, Some, IsSome};
ghost use Rattle.set_table.specs.declared.SetName.{SetName};
ghost use Rattle.set_table.specs.Sets.{data_of, degree_of, key_of, log_degree_of, special_of};
ghost use Rattle.ring_law.specs.Residues.{residue};
ghost use Rattle.ring_law.specs.Rows.{IsReduced, listed_polynomial, word_at};
ghost use Rattle.ring_law.specs.Transform.{transform_entry};
ghost use Rattle.rns_poly.specs.Rows.{AreReduced};
ghost use Rattle.rns_poly.specs.Transforms.{AreTransforms};
ghost use Rattle.rand_words.specs.Words.{after_words};
ghost use Rattle.bfv_model.specs.Drawn.{digit_place, drawn_switch, stream_word};
ghost use Rattle.bfv_model.specs.SwitchKeys.{IsSwitchKeyIn, key_roots_of};
ghost use Rattle.bfv_params.specs.Contexts.{scratch_rows_in, transforms_in};
ghost use Rattle.bfv_params.specs.Rows.{ReducedInTurn};
ghost use Rattle.bfv_params.specs.Transforms.{transform_of};
ghost use Rattle.key_switch.specs.Providers.{AreDigitRows};
ghost use Rattle.key_switch.specs.Sums.{key_in};

use bfv_params::{Context, Secret};
use rand_core::Rng;
use rand_words::{error_row, uniform_rows};
use rns_poly::{PolyBuf, View, ViewMut, forward_all, pointwise_into, set_small, split, sub_into};
use word_mod::Modulus;

/// Draws digit i of a switching key to a secret s, in transformed form: a row for each data modulus and one for the
/// special modulus P of each of its two parts, `e - k1 * s`, to which `P * source` is added in row i, and k1. One word for
/// each coefficient of the error e is drawn first, and then for each of these moduli two words for each entry of k1.
///
/// The source is given by its transforms, one for each data modulus. The digit is that of a drawn key whose words go on
/// from its place as the generator's do: the digits of a key are made in order from 0 on.
pub fn make_digit<const N: usize, R: Rng>(
    ctx: &Context<N>,
    secret: &Secret<N>,
    source: View<'_, N>,
    i: usize,
    out: ViewMut<'_, N>,
    scratch: &mut PolyBuf<N>,
    rng: &mut R,
)
    requires level { (ctx.now).level ≡ length (data_of (ctx.now).set) }
    requires special { IsSome (special_of (ctx.now).set) }
    requires secret_set { (secret.now).set ≡ (ctx.now).set }
    requires index { i < length (data_of (ctx.now).set) }
    requires source_count { length source.rows.now ≡ length (data_of (ctx.now).set) }
    requires source_reduced { AreReduced N (data_of (ctx.now).set) source.rows.now }
    requires count { length out.old ≡ 2 * (length (data_of (ctx.now).set) + 1) }
    requires room { length scratch.old ≡ scratch_rows_in (ctx.now) }
    ensures words { (P : ℕ) (x : ℕ → ℤ) (words : ℕ → ℕ) → special_of (ctx.now).set ≡ Some P
        → AreTransforms (transforms_in (ctx.now)) source.entry.rows.now (λ _. x)
        → ((place : ℕ) → words (digit_place N (data_of (ctx.now).set) i + place) ≡ stream_word (R.stream rng.old) place)
        → AreDigitRows N (length (data_of (ctx.now).set) + 1) out.new (drawn_switch (log_degree_of (ctx.now).set)
        (data_of (ctx.now).set) P (key_roots_of (ctx.now).set) x (listed_polynomial (secret.now).small) words i) }
    ensures reduced { ReducedInTurn N (length (data_of (ctx.now).set) + 1) (key_of (ctx.now).set) out.new }
    ensures rest { R.stream rng.new ≡ after_words (N + 2 * N * (length (data_of (ctx.now).set) + 1)) (R.stream rng.old) }
    ensures scratch { length scratch.new ≡ length scratch.old }
{
    let moduli = ctx.key_moduli();
    // Tells that N is the degree of a set.
    let _degree = ctx.data_moduli();
    let mut error = [0; N];
    error_row(rng, &mut error);
    let (body, mask) = split(out, moduli.len());
    uniform_rows(rng, moduli, &mut *mask);
    mask_error(
        ctx,
        secret,
        &error,
        View { rows: mask },
        &mut *body,
        scratch.view_mut(),
    );
    let special = moduli[moduli.len() - 1].value();
    add_multiple(&moduli[i], special, &source.rows[i], &mut body[i]);
}

/// Writes the transforms of `e - k1 * s`, one for each key modulus, from those of k1.
fn mask_error<const N: usize>(
    ctx: &Context<N>,
    secret: &Secret<N>,
    error: &[i8; N],
    mask: View<'_, N>,
    out: ViewMut<'_, N>,
    work: ViewMut<'_, N>,
)
    requires degree { N ≡ degree_of (ctx.now).set }
    requires limit { N ≤ 32768 }
    requires mask_count { length mask.rows.now ≡ length (key_in (ctx.now)) }
    requires mask_reduced { AreReduced N (key_in (ctx.now)) mask.rows.now }
    requires count { length out.old ≡ length (key_in (ctx.now)) }
    requires room { 2 * length (key_in (ctx.now)) ≤ length work.old }
    ensures words { (r k : ℕ) → r < length (key_in (ctx.now)) → k < N → word_at out.new r k
        ≡ residue (slice_index (key_in (ctx.now)) r)
        (pos (transform_entry (slice_index (key_in (ctx.now)) r) (log_degree_of (ctx.now).set)
        (transform_of (ctx.now).set (slice_index (key_in (ctx.now)) r)).root (listed_polynomial error.now) k)
        +ℤ neg_ℤ (pos (word_at mask.entry.rows.now r k)
        *ℤ pos (transform_entry (slice_index (key_in (ctx.now)) r) (log_degree_of (ctx.now).set)
        (transform_of (ctx.now).set (slice_index (key_in (ctx.now)) r)).root (listed_polynomial (secret.now).small) k))) }
    ensures reduced { AreReduced N (key_in (ctx.now)) out.new }
{
    let (moduli, transforms) = (ctx.key_moduli(), ctx.key_transforms());
    let (small, rest) = split(work, moduli.len());
    let (product, _) = split(rest, moduli.len());
    set_small(moduli, secret.small(), &mut *small);
    forward_all(transforms, &mut *small);
    pointwise_into(moduli, mask, View { rows: small }, &mut *product);
    set_small(moduli, error, &mut *small);
    forward_all(transforms, &mut *small);
    sub_into(moduli, View { rows: small }, View { rows: product }, out);
}

/// Adds the words of a row, each times a factor of any size.
fn add_multiple<const N: usize>(m: &Modulus, factor: u64, from: &[u64; N], to: &mut [u64; N])
    requires degree { N ≤ 32768 }
    requires to_reduced { IsReduced N m.now to.old }
    ensures sums { (k : ℕ) → k < N → slice_index to.new k ≡ (slice_index to.old k + factor * slice_index from.now k) % m.now }
    ensures reduced { IsReduced N m.now to.new }
{
    for k in 0..N {
        to[k] = m.reduce_wide(to[k] as u128 + factor as u128 * from[k] as u128);
    }
}

/// A key of which each digit is the drawn one of its number, as those that are made in order from one generator are, is a
/// switching key from the source to the secret.
pub fn law_of_made_keys()
    ensures { (set : SetName) (P : ℕ) (source s : ℕ → ℤ) (words : ℕ → ℕ) (word : ℕ → ℕ → ℕ → ℕ → ℕ) → special_of set ≡ Some P
        → ((i part r k : ℕ) → i < length (data_of set) → part < 2 → r < length (data_of set) + 1 → k < degree_of set
        → word i part r k ≡ drawn_switch (log_degree_of set) (data_of set) P (key_roots_of set) source s words i part r k)
        → IsSwitchKeyIn set word source s }
{}
