//! Sums of the digits of a part, each times a digit of a key.

ghost use Rattle.std.specs.Prelude.{◌≡◌, ℕ, ◌+◌, ◌*◌, ◌/◌, ◌%◌, ◌^◌, ◌<◌, ◌≤◌, [], length, slice_index, slice_index_or};
ghost use Rattle.ring_law.specs.Rows.{IsReduced, word_at};
ghost use Rattle.rns_poly.specs.Rows.{AreReduced};
ghost use Rattle.key_switch.specs.Sums.{digit_row, sum_word, two_words};

use rns_poly::{View, ViewMut, split};
use word_mod::Modulus;

/// Adds the words of a digit, each times that of the row of a digit of a key, to the sums of both parts. In the sums of a
/// part the rows of upper words stand before those of lower ones, as many of each as the digit has. Of a part of the key
/// the first rows and the last one are used.
pub fn add_digit<const N: usize>(lifted: View<'_, N>, key: View<'_, N>, sums: ViewMut<'_, N>)
    requires degree { N ≤ 32768 }
    requires some { 0 < length lifted.rows.now }
    requires key_count { 2 * length lifted.rows.now ≤ length key.rows.now }
    requires count { length sums.old ≡ 2 * (2 * length lifted.rows.now) }
    requires room { (j r k : ℕ) → j < 2 → r < length lifted.rows.now → k < N →
        sum_word (length lifted.rows.now) sums.old (j * (2 * length lifted.rows.now)) r k + word_at lifted.rows.now r k
        * word_at key.rows.now (j * (length key.rows.now / 2) + digit_row (length lifted.rows.now) (length key.rows.now / 2) r) k < 2 ^ 128 }
    ensures { (j r k : ℕ) → j < 2 → r < length lifted.entry.rows.now → k < N →
        sum_word (length lifted.entry.rows.now) sums.new (j * (2 * length lifted.entry.rows.now)) r k
        ≡ sum_word (length lifted.entry.rows.now) sums.old (j * (2 * length lifted.entry.rows.now)) r k + word_at lifted.entry.rows.now r k
        * word_at key.entry.rows.now (j * (length key.entry.rows.now / 2) + digit_row (length lifted.entry.rows.now) (length key.entry.rows.now / 2) r) k }
{
    let rows = key.rows() / 2;
    let (first, second) = split(sums, 2 * lifted.rows());
    add_part(lifted, key.rows_from_to(0, rows), first);
    add_part(lifted, key.rows_from_to(rows, 2 * rows), second);
}

/// The same for one part.
fn add_part<const N: usize>(lifted: View<'_, N>, key: View<'_, N>, sums: ViewMut<'_, N>)
    requires degree { N ≤ 32768 }
    requires some { 0 < length lifted.rows.now }
    requires key_count { length lifted.rows.now ≤ length key.rows.now }
    requires count { length sums.old ≡ 2 * length lifted.rows.now }
    requires room { (r k : ℕ) → r < length lifted.rows.now → k < N →
        sum_word (length lifted.rows.now) sums.old 0 r k + word_at lifted.rows.now r k
        * word_at key.rows.now (digit_row (length lifted.rows.now) (length key.rows.now) r) k < 2 ^ 128 }
    ensures { (r k : ℕ) → r < length lifted.entry.rows.now → k < N →
        sum_word (length lifted.entry.rows.now) sums.new 0 r k
        ≡ sum_word (length lifted.entry.rows.now) sums.old 0 r k + word_at lifted.entry.rows.now r k
        * word_at key.entry.rows.now (digit_row (length lifted.entry.rows.now) (length key.entry.rows.now) r) k }
{
    let (high, low) = split(sums, lifted.rows());
    add_rows(lifted, key, high, low);
}

/// The same with the rows of upper and of lower words apart.
fn add_rows<const N: usize>(
    lifted: View<'_, N>,
    key: View<'_, N>,
    high: ViewMut<'_, N>,
    low: ViewMut<'_, N>,
)
    requires degree { N ≤ 32768 }
    requires key_count { length lifted.rows.now ≤ length key.rows.now }
    requires high_count { length high.old ≡ length lifted.rows.now }
    requires low_count { length low.old ≡ length lifted.rows.now }
    requires room { (r k : ℕ) → r < length lifted.rows.now → k < N →
        two_words (slice_index_or high.old r []) (slice_index_or low.old r []) k + word_at lifted.rows.now r k
        * word_at key.rows.now (digit_row (length lifted.rows.now) (length key.rows.now) r) k < 2 ^ 128 }
    ensures { (r k : ℕ) → r < length lifted.entry.rows.now → k < N →
        two_words (slice_index_or high.new r []) (slice_index_or low.new r []) k
        ≡ two_words (slice_index_or high.old r []) (slice_index_or low.old r []) k + word_at lifted.entry.rows.now r k
        * word_at key.entry.rows.now (digit_row (length lifted.entry.rows.now) (length key.entry.rows.now) r) k }
{
    let count = lifted.rows();
    for r in 0..count {
        let place = digit_row(count, key.rows(), r);
        add_products(&lifted.rows[r], &key.rows[place], &mut high[r], &mut low[r]);
    }
}

/// The row of a part of a key for row r of so many.
fn digit_row(count: usize, rows: usize, r: usize) -> usize
    requires some { r < count }
    requires enough { count ≤ rows }
    ensures row { result ≡ digit_row count rows r }
    ensures below { result < rows }
{
    if r + 1 < count { r } else { rows - 1 }
}

/// Adds the products of the words of two rows to the sums whose upper and lower words are the two others.
fn add_products<const N: usize>(a: &[u64; N], b: &[u64; N], high: &mut [u64; N], low: &mut [u64; N])
    requires degree { N ≤ 32768 }
    requires room { (k : ℕ) → k < N → two_words high.old low.old k + slice_index a.now k * slice_index b.now k < 2 ^ 128 }
    ensures { (k : ℕ) → k < N → two_words high.new low.new k ≡ two_words high.old low.old k + slice_index a.now k * slice_index b.now k }
{
    for k in 0..N {
        let sum = high[k] as u128 * (1 << 64) + low[k] as u128 + a[k] as u128 * b[k] as u128;
        high[k] = (sum / (1 << 64)) as u64;
        low[k] = (sum % (1 << 64)) as u64;
    }
}

/// Writes the residues of sums, row i by modulus i, over their lower words.
pub fn reduce_sums<const N: usize>(moduli: &[Modulus], high: View<'_, N>, low: ViewMut<'_, N>)
    requires degree { N ≤ 32768 }
    requires high_count { length high.rows.now ≡ length moduli.now }
    requires low_count { length low.old ≡ length moduli.now }
    ensures residues { (i k : ℕ) → i < length moduli.now → k < N → word_at low.new i k
        ≡ two_words (slice_index_or high.entry.rows.now i []) (slice_index_or low.old i []) k % slice_index moduli.now i }
    ensures reduced { AreReduced N moduli.now low.new }
{
    for i in 0..moduli.len() {
        reduce_row(&moduli[i], &high.rows[i], &mut low[i]);
    }
}

/// The same of one row.
fn reduce_row<const N: usize>(m: &Modulus, high: &[u64; N], low: &mut [u64; N])
    requires { N ≤ 32768 }
    ensures residues { (k : ℕ) → k < N → slice_index low.new k ≡ two_words high.now low.old k % m.now }
    ensures reduced { IsReduced N m.now low.new }
{
    for k in 0..N {
        low[k] = m.reduce_wide(high[k] as u128 * (1 << 64) + low[k] as u128);
    }
}
