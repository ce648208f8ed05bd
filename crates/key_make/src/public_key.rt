//! Public keys.

ghost use Rattle.std.specs.Prelude.{◌≡◌, ℕ, ℤ, ◌+◌, ◌*◌, ◌<◌, ◌≤◌, length};
ghost use Rattle.set_table.specs.Sets.{data_of};
ghost use Rattle.ring_law.specs.Polynomials.{ring_negative, ring_product, ring_sum};
ghost use Rattle.ring_law.specs.Rows.{listed_polynomial};
ghost use Rattle.rns_poly.specs.Rows.{AreReduced, EachRepresents};
ghost use Rattle.rand_words.specs.Words.{after_words};
ghost use Rattle.bfv_model.specs.Drawn.{drawn_public, greatest_error, stream_word};
ghost use Rattle.bfv_model.specs.Holds.{listed_word};
ghost use Rattle.bfv_model.specs.Keys.{WordsArePublicKeyOf};
ghost use Rattle.bfv_params.specs.Contexts.{data_in, scratch_rows_in};

use bfv_params::{Context, Public, Secret, multiply_into, transform_small_into};
use rand_core::Rng;
use rand_words::{error_row, uniform_rows};
use rns_poly::{PolyBuf, View, ViewMut, add_into, neg_into, set_small, split};

/// Draws the public key of a secret s, in coefficient form: its parts are `-(a * s + e)` and a,
/// modulo the product of all data moduli. One word for each coefficient of the error e is drawn
/// first, and then for each data modulus two words for each coefficient of a.
pub fn public<const N: usize, R: Rng>(
    ctx: &Context<N>,
    secret: &Secret<N>,
    out: &mut Public<N>,
    scratch: &mut PolyBuf<N>,
    rng: &mut R,
)
    requires level { (ctx.now).level ≡ length (data_of (ctx.now).set) }
    requires secret_set { (secret.now).set ≡ (ctx.now).set }
    requires out_set { (out.old).set ≡ (ctx.now).set }
    requires scratch { length scratch.old ≡ scratch_rows_in (ctx.now) }
    ensures set { (out.new).set ≡ (out.old).set }
    ensures words { (part i k : ℕ) → part < 2 → i < length (data_of (ctx.now).set) → k < N →
        listed_word (length (data_of (ctx.now).set)) (out.new).rows part i k
        ≡ drawn_public N (data_of (ctx.now).set) (listed_polynomial (secret.now).small) (stream_word (R.stream rng.old)) part i k }
    ensures relation { WordsArePublicKeyOf N (data_of (ctx.now).set) greatest_error
        (listed_word (length (data_of (ctx.now).set)) (out.new).rows) (listed_polynomial (secret.now).small) }
    ensures rest { R.stream rng.new ≡ after_words (N + 2 * N * length (data_of (ctx.now).set)) (R.stream rng.old) }
    ensures scratch { length scratch.new ≡ length scratch.old }
{
    let moduli = ctx.data_moduli();
    let mut error = [0; N];
    error_row(rng, &mut error);
    let (mask, work) = split(scratch.view_mut(), moduli.len());
    uniform_rows(rng, moduli, &mut *mask);
    out.set_part(1, View { rows: mask });
    let (first, work) = split(work, moduli.len());
    mask_error(ctx, secret, &error, mask, &mut *first, work);
    out.set_part(0, View { rows: first });
}

/// Writes the rows of `-(a * s + e)` for the secret s. The rows of a become their transforms.
fn mask_error<const N: usize>(
    ctx: &Context<N>,
    secret: &Secret<N>,
    error: &[i8; N],
    mask: ViewMut<'_, N>,
    out: ViewMut<'_, N>,
    work: ViewMut<'_, N>,
)
    requires mask_length { length mask.old ≡ (ctx.now).level }
    requires out_length { length out.old ≡ (ctx.now).level }
    requires work_length { 2 * (ctx.now).level ≤ length work.old }
    requires reduced { AreReduced N (data_in (ctx.now)) mask.old }
    ensures represents { (a : ℕ → ℕ → ℤ) → EachRepresents N (data_in (ctx.now)) mask.old a
        → EachRepresents N (data_in (ctx.now)) out.new
        (λ i. ring_negative (ring_sum (ring_product N (a i) (listed_polynomial (secret.now).small)) (listed_polynomial error.now))) }
    ensures reduced { AreReduced N (data_in (ctx.now)) out.new }
{
    let moduli = ctx.data_moduli();
    let (factor, work) = split(work, moduli.len());
    transform_small_into(ctx, secret.small(), &mut *factor);
    let (product, _) = split(work, moduli.len());
    multiply_into(ctx, &mut *mask, View { rows: factor }, &mut *product);
    set_small(moduli, error, &mut *factor);
    add_into(
        moduli,
        View { rows: product },
        View { rows: factor },
        &mut *mask,
    );
    neg_into(moduli, View { rows: mask }, out);
}
