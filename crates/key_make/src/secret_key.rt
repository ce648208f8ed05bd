//! Secrets.

ghost use Rattle.std.specs.Prelude.{◌≡◌, ◌+◌};
ghost use Rattle.ring_law.specs.Polynomials.{AllWithin};
ghost use Rattle.ring_law.specs.Rows.{listed_polynomial};
ghost use Rattle.ring_law.specs.Sums.{values_below};
ghost use Rattle.rand_words.specs.Words.{after_words};
ghost use Rattle.bfv_model.specs.Drawn.{drawn_key_id, drawn_secret, greatest_ternary, stream_word};
ghost use Rattle.bfv_model.specs.Holds.{ternary_coefficient};

use bfv_params::{Context, Secret};
use rand_core::Rng;
use rand_words::{key_id, ternary_row};

/// Draws a secret, and returns the id of its keys: two words are for the id, and then one for each
/// of the N coefficients, which are -1, 0 or 1.
pub fn secret<const N: usize, R: Rng>(
    ctx: &Context<N>,
    out: &mut Secret<N>,
    rng: &mut R,
) -> [u8; 16]
    requires { (out.old).set ≡ (ctx.now).set }
    ensures id { result ≡ drawn_key_id (stream_word (R.stream rng.old)) }
    ensures set { (out.new).set ≡ (out.old).set }
    ensures coefficients { (out.new).small ≡ values_below N (λ k. ternary_coefficient (drawn_secret (stream_word (R.stream rng.old)) k)) }
    ensures ternary { AllWithin N greatest_ternary (listed_polynomial (out.new).small) }
    ensures rest { R.stream rng.new ≡ after_words (2 + N) (R.stream rng.old) }
{
    // Tells that N is the degree of a set.
    let _degree = ctx.set();
    let id = key_id(rng);
    let mut small = [0; N];
    ternary_row(rng, &mut small);
    out.set(&small);
    id
}
