//! Dropping a modulus.

ghost use Rattle.std.specs.Prelude.{◌≡◌, ◌≢◌, ℕ, ◌+◌, ◌-◌, ◌*◌, ◌/◌, ◌<◌, ◌≤◌, ℤ, [], ◌∷◌, ◌++◌, length, slice_index_or, IfOk};
ghost use Rattle.std.specs.Int.{IsGcd};
ghost use Rattle.ring_law.specs.Rows.{Represents, word_at};
ghost use Rattle.bfv_model.specs.Keys.{dropped_quotient};
ghost use Rattle.fast_conv.specs.Rows.{IsKeptAt, kept_word, no_kept, shifted_word};

use crate::outputs::set_word;
use res_base::Base;
use std::alloc::{AllocError, Global};
use std::marker::Model;
use word_mod::Modulus;

/// The division of rows by the last modulus of their base, rounded to the nearest number.
#[derive(Drop)]
pub struct DropLast {
    dropped: Modulus,
    kept: Vec<KeptRow>,
}

impl Model for DropLast {
    ghost use Rattle.std.specs.Prelude.{All};
    ghost use Rattle.word_mod.specs.Moduli.{IsModulus};
    ghost use Rattle.fast_conv.specs.Converters.{ModulusDrop};
    ghost use Rattle.fast_conv.specs.Rows.{IsKeptAt, kept_moduli};

    ghost Value = { ModulusDrop };

    ghost view = { λ c. record { kept = kept_moduli c.kept.items; dropped = c.dropped } };

    ghost invariant = { λ c. IsModulus c.dropped × All (IsKeptAt c.dropped) c.kept.items };
}

impl DropLast {
    /// The division by the last modulus of `base`.
    pub fn new(alloc: Global, base: &Base) -> Result<DropLast, AllocError>
        requires { 2 ≤ length base.now }
        ensures { IfOk result (λ c. c.kept ++ c.dropped ∷ [] ≡ base.now) }
    {
        let last = base.len() - 1;
        let dropped = *base.modulus(last);
        let mut kept = Vec::new(alloc);
        for i in 0..last {
            kept.push(KeptRow::new(*base.modulus(i), dropped))?;
        }
        Ok(DropLast { dropped, kept })
    }

    /// Replaces all rows but the last by those of `(x - r) / P`, where the rows stand for x, P is
    /// the last modulus and r the centred residue of x modulo P.
    pub fn drop_last<const N: usize>(&self, rows: &mut [[u64; N]])
        requires degree { N ≤ 32768 }
        requires rows { length rows.old ≡ length self.now.kept + 1 }
        ensures kept { (x : ℕ → ℤ) → Represents N (self.now.kept ++ self.now.dropped ∷ []) rows.old x
            → Represents N self.now.kept rows.new (λ k. dropped_quotient self.now.dropped (x k)) }
        ensures last { slice_index_or rows.new (length self.now.kept) [] ≡ slice_index_or rows.old (length self.now.kept) [] }
    {
        for k in 0..N {
            drop_column(self.dropped, &self.kept, k, rows);
        }
    }
}

/// The modulus of a row that stays, with the inverse of the dropped modulus, its negative, and its
/// product with one half of the dropped modulus.
#[derive(Drop)]
struct KeptRow {
    modulus: Modulus,
    inverse: u64,
    negative: u64,
    added: u64,
}

impl Model for KeptRow {
    ghost use Rattle.fast_conv.specs.Rows.{IsKept, Kept};

    ghost Value = { Kept };

    ghost view = { λ r. record { modulus = r.modulus; inverse = r.inverse; negative = r.negative; added = r.added } };

    ghost invariant = { λ r. IsKept (record { modulus = r.modulus; inverse = r.inverse; negative = r.negative; added = r.added }) };
}

impl KeptRow {
    fn new(modulus: Modulus, dropped: Modulus) -> KeptRow
        requires { IsGcd dropped modulus 1 }
        ensures modulus { result.modulus ≡ modulus }
        ensures value { IsKeptAt dropped result }
    {
        let half = modulus.reduce((dropped.value() - 1) / 2);
        let inverse = modulus.inverse(dropped.value()).unwrap();
        KeptRow {
            modulus,
            inverse,
            negative: modulus.neg(inverse),
            added: modulus.mul(half, inverse),
        }
    }

    /// The word of the row, from its word and the residue modulo the dropped modulus to which one
    /// half of that modulus is added.
    fn word(&self, x: u64, shifted: u64) -> u64
        ensures { result ≡ kept_word self.now x shifted }
    {
        let sum = x as u128 * self.inverse as u128 + shifted as u128 * self.negative as u128;
        self.modulus.reduce_wide(sum + self.added as u128)
    }
}

/// Replaces coefficient `k` of each row but the last.
fn drop_column<const N: usize>(dropped: Modulus, kept: &[KeptRow], k: usize, rows: &mut [[u64; N]])
    requires degree { N ≤ 32768 }
    requires rows { length rows.old ≡ length kept.now + 1 }
    requires place { k < N }
    ensures set { (i : ℕ) → i < length kept.now
        → word_at rows.new i k ≡ kept_word (slice_index_or kept.now i no_kept) (word_at rows.old i k)
        (shifted_word dropped (word_at rows.old (length kept.now) k)) }
    ensures rest { (i m : ℕ) → m ≢ k → word_at rows.new i m ≡ word_at rows.old i m }
    ensures last { slice_index_or rows.new (length kept.now) [] ≡ slice_index_or rows.old (length kept.now) [] }
{
    let half = (dropped.value() - 1) / 2;
    let shifted = dropped.reduce_wide(rows[kept.len()][k] as u128 + half as u128);
    for i in 0..kept.len() {
        let word = kept[i].word(rows[i][k], shifted);
        set_word(&mut rows[i], k, word);
    }
}
