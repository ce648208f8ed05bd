//! Fresh ciphertexts.

ghost use Rattle.std.specs.Prelude.{◌≡◌, ℕ, ℤ, ◌*◌, ◌<◌, ◌≤◌, length, slice_index};
ghost use Rattle.set_table.specs.Sets.{data_of, plain_of};
ghost use Rattle.ring_law.specs.Moduli.{product};
ghost use Rattle.ring_law.specs.Polynomials.{AllWithin, ring_product, ring_sum};
ghost use Rattle.ring_law.specs.Rows.{IsReduced, listed_polynomial, natural_polynomial};
ghost use Rattle.rns_poly.specs.Rows.{AreReduced, EachRepresents};
ghost use Rattle.rns_poly.specs.Transforms.{AreTransforms};
ghost use Rattle.rand_words.specs.Words.{after_words};
ghost use Rattle.bfv_model.specs.Drawn.{drawn_cipher, greatest_error, greatest_ternary, stream_word};
ghost use Rattle.bfv_model.specs.Holds.{listed_word};
ghost use Rattle.bfv_model.specs.Keys.{WordsArePublicKeyOf};
ghost use Rattle.bfv_model.specs.NoiseBounds.{fresh_bound, fresh_bound_under};
ghost use Rattle.bfv_model.specs.Plaintexts.{scaled_plain};
ghost use Rattle.bfv_params.specs.Ciphers.{HoldsIn, IsCipherOf};
ghost use Rattle.bfv_params.specs.Contexts.{data_in, modulus_in, scratch_rows_in, transforms_in};

use bfv_params::{Cipher, Context, Public, product_into, transform_into, transform_small_into};
use rand_core::Rng;
use rand_words::{error_row, ternary_row};
use rns_poly::{PolyBuf, View, ViewMut, add_into, set_small, split};

/// Encrypts a plaintext m, whose N coefficients are below the plaintext modulus t, under a public
/// key (p0, p1): the two parts are `p0 * u + e1` with the scaled plaintext, and `p1 * u + e2`,
/// modulo the product of all data moduli. One word for each coefficient of the ternary u is drawn
/// first, and then one for each of the error e1 and one for each of the error e2.
///
/// The cipher holds m under every secret of the key, within a bound that the key's error and the
/// secret's size give: under a ternary secret of a drawn key it is the fresh bound.
pub fn encrypt<const N: usize, R: Rng>(
    ctx: &Context<N>,
    public: &Public<N>,
    plain: &[u64; N],
    out: &mut Cipher<N>,
    scratch: &mut PolyBuf<N>,
    rng: &mut R,
)
    requires level { (ctx.now).level ≡ length (data_of (ctx.now).set) }
    requires public_set { (public.now).set ≡ (ctx.now).set }
    requires plain { IsReduced N (plain_of (ctx.now).set) plain.now }
    requires out_of { IsCipherOf (ctx.now) (out.old) }
    requires scratch { length scratch.old ≡ scratch_rows_in (ctx.now) }
    ensures of_context { IsCipherOf (ctx.now) (out.new) }
    ensures room { (out.new).room ≡ (out.old).room }
    ensures parts { (out.new).parts ≡ 2 }
    ensures words { (part i k : ℕ) → part < 3 → i < length (data_of (ctx.now).set) → k < N →
        listed_word (length (data_of (ctx.now).set)) (out.new).rows part i k
        ≡ drawn_cipher N (data_of (ctx.now).set) (product (data_of (ctx.now).set)) (plain_of (ctx.now).set)
        (listed_word (length (data_of (ctx.now).set)) (public.now).rows) (slice_index plain.now)
        (stream_word (R.stream rng.old)) part i k }
    ensures holds { (key_error size : ℕ) (s : ℕ → ℤ) → AllWithin N size s
        → WordsArePublicKeyOf N (data_of (ctx.now).set) key_error (listed_word (length (data_of (ctx.now).set)) (public.now).rows) s
        → HoldsIn N (ctx.now) (out.new) s (slice_index plain.now)
        (fresh_bound_under N (plain_of (ctx.now).set) greatest_error key_error size) }
    ensures ternary { (s : ℕ → ℤ) → AllWithin N greatest_ternary s
        → WordsArePublicKeyOf N (data_of (ctx.now).set) greatest_error (listed_word (length (data_of (ctx.now).set)) (public.now).rows) s
        → HoldsIn N (ctx.now) (out.new) s (slice_index plain.now) (fresh_bound N (plain_of (ctx.now).set) greatest_error) }
    ensures rest { R.stream rng.new ≡ after_words (3 * N) (R.stream rng.old) }
    ensures scratch { length scratch.new ≡ length scratch.old }
{
    let count = ctx.data_moduli().len();
    let mut mask = [0; N];
    ternary_row(rng, &mut mask);
    let mut error_first = [0; N];
    error_row(rng, &mut error_first);
    let mut error_second = [0; N];
    error_row(rng, &mut error_second);

    let (factor, work) = split(scratch.view_mut(), count);
    transform_small_into(ctx, &mask, &mut *factor);
    let factor = View { rows: factor };
    let (part, work) = split(work, count);
    out.set_parts(2);
    let first = public.part(0);
    plain_part(
        ctx,
        first,
        factor,
        &error_first,
        plain,
        &mut *part,
        &mut *work,
    );
    out.set_part(0, View { rows: part });
    let second = public.part(1);
    masked_part(ctx, second, factor, &error_second, &mut *part, work);
    out.set_part(1, View { rows: part });
}

/// Writes the rows of `p * u + e` with the scaled plaintext, of u the transforms being given.
fn plain_part<const N: usize>(
    ctx: &Context<N>,
    key: View<'_, N>,
    mask: View<'_, N>,
    error: &[i8; N],
    plain: &[u64; N],
    out: ViewMut<'_, N>,
    work: ViewMut<'_, N>,
)
    requires key_length { length key.rows.now ≡ (ctx.now).level }
    requires mask_length { length mask.rows.now ≡ (ctx.now).level }
    requires out_length { length out.old ≡ (ctx.now).level }
    requires work_length { 4 * (ctx.now).level ≤ length work.old }
    requires key_reduced { AreReduced N (data_in (ctx.now)) key.rows.now }
    requires mask_reduced { AreReduced N (data_in (ctx.now)) mask.rows.now }
    requires plain { IsReduced N (plain_of (ctx.now).set) plain.now }
    ensures represents { (p u : ℕ → ℕ → ℤ) → EachRepresents N (data_in (ctx.now)) key.entry.rows.now p
        → AreTransforms (transforms_in (ctx.now)) mask.entry.rows.now u
        → EachRepresents N (data_in (ctx.now)) out.new
        (λ i. ring_sum (ring_sum (ring_product N (p i) (u i)) (listed_polynomial error.now))
        (natural_polynomial (λ k. scaled_plain (modulus_in (ctx.now)) (plain_of (ctx.now).set) (slice_index plain.now k)))) }
    ensures reduced { AreReduced N (data_in (ctx.now)) out.new }
{
    let moduli = ctx.data_moduli();
    let (masked, work) = split(work, moduli.len());
    masked_part(ctx, key, mask, error, &mut *masked, &mut *work);
    let (scaled, _) = split(work, moduli.len());
    ctx.scaled_into(plain, &mut *scaled);
    add_into(moduli, View { rows: masked }, View { rows: scaled }, out);
}

/// Writes the rows of `p * u + e`, of u the transforms being given.
fn masked_part<const N: usize>(
    ctx: &Context<N>,
    key: View<'_, N>,
    mask: View<'_, N>,
    error: &[i8; N],
    out: ViewMut<'_, N>,
    work: ViewMut<'_, N>,
)
    requires key_length { length key.rows.now ≡ (ctx.now).level }
    requires mask_length { length mask.rows.now ≡ (ctx.now).level }
    requires out_length { length out.old ≡ (ctx.now).level }
    requires work_length { 2 * (ctx.now).level ≤ length work.old }
    requires key_reduced { AreReduced N (data_in (ctx.now)) key.rows.now }
    requires mask_reduced { AreReduced N (data_in (ctx.now)) mask.rows.now }
    ensures represents { (p u : ℕ → ℕ → ℤ) → EachRepresents N (data_in (ctx.now)) key.entry.rows.now p
        → AreTransforms (transforms_in (ctx.now)) mask.entry.rows.now u
        → EachRepresents N (data_in (ctx.now)) out.new
        (λ i. ring_sum (ring_product N (p i) (u i)) (listed_polynomial error.now)) }
    ensures reduced { AreReduced N (data_in (ctx.now)) out.new }
{
    let moduli = ctx.data_moduli();
    let (rows, work) = split(work, moduli.len());
    transform_into(ctx, key, &mut *rows);
    let (product, _) = split(work, moduli.len());
    product_into(ctx, View { rows: &*rows }, mask, &mut *product);
    set_small(moduli, error, &mut *rows);
    add_into(moduli, View { rows: product }, View { rows }, out);
}
