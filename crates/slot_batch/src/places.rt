//! The order of the slots among the entries of a transform.

ghost use Rattle.std.specs.Prelude.{◌≡◌, ℕ, suc, ◌^◌, ◌<◌, ◌≤◌, length, slice_index};
ghost use Rattle.ring_law.specs.Transform.{bit_reversal};
ghost use Rattle.bfv_model.specs.Slots.{slot_place};

/// Reverses the binary digits of j, of which there are k where n is `2^k`.
fn reversed_digits(n: usize, j: usize) -> usize
    requires { 0 < n }
    ensures below { result < n }
    ensures digits { (k : ℕ) → n ≡ 2 ^ k → result ≡ bit_reversal k j }
{
    let mut reversed = 0;
    let mut rest = j;
    let mut span = n;
    while span > 1 {
        reversed = 2 * reversed + rest % 2;
        rest /= 2;
        span /= 2;
    }
    reversed
}

/// Takes the slots of a plaintext out of its transform.
pub fn read_slots<const N: usize>(entries: &[u64; N], values: &mut [u64; N])
    requires { N ≤ 32768 }
    ensures len { length values.new ≡ N }
    ensures slots { (log i : ℕ) → N ≡ 2 ^ suc (suc log) → i < N
        → slice_index values.new i ≡ slice_index entries.now (slot_place (suc (suc log)) i) }
{
    let mut power = 1;
    for i in 0..N / 2 {
        let place = reversed_digits(N, power / 2);
        values[i] = entries[place];
        values[N / 2 + i] = entries[N - 1 - place];
        power = 3 * power % (2 * N);
    }
}

/// Makes the transform of the plaintext with these slots.
pub fn write_slots<const N: usize>(values: &[u64; N], entries: &mut [u64; N])
    requires { N ≤ 32768 }
    ensures { (log i : ℕ) → N ≡ 2 ^ suc (suc log) → i < N
        → slice_index entries.new (slot_place (suc (suc log)) i) ≡ slice_index values.now i }
{
    let mut power = 1;
    for i in 0..N / 2 {
        let place = reversed_digits(N, power / 2);
        entries[place] = values[i];
        entries[N - 1 - place] = values[N / 2 + i];
        power = 3 * power % (2 * N);
    }
}
