//! The product and the turn of polynomials modulo `X^N + 1` and q, by their definitions.

ghost use Rattle.std.specs.Prelude.{◌≡◌, ◌+◌, ◌-◌, ◌*◌, ◌%◌, ◌<◌, ◌≤◌, ◌^◌, replicate};
ghost use Rattle.ring_law.specs.Residues.{residue};
ghost use Rattle.ring_law.specs.Polynomials.{ring_product, ring_turn};
ghost use Rattle.ring_law.specs.Rows.{row_polynomial, RowRepresents};

fn mul_mod(q: u64, a: u64, b: u64) -> u64
    requires { 0 < q }
    ensures { result ≡ (a * b) % q }
{
    ((a as u128 * b as u128) % q as u128) as u64
}

// Coefficient k of the product: for each word of a there is one word of b, and its sign turns where the powers pass `X^N`.
fn product_coefficient<const N: usize>(q: u64, a: &[u64; N], b: &[u64; N], k: usize) -> u64
    requires positive { 0 < q }
    requires below { q < 2 ^ 61 }
    requires place { k < N }
    ensures { result ≡ residue q (ring_product N (row_polynomial a.now) (row_polynomial b.now) k) }
{
    let mut sum = 0;
    for i in 0..N {
        sum = if i <= k {
            (sum + mul_mod(q, a[i], b[k - i])) % q
        } else {
            (sum + (q - mul_mod(q, a[i], b[k + N - i]))) % q
        };
    }
    sum
}

/// The product of two polynomials modulo `X^N + 1` and q, by the sum of all pairs (Fan and Vercauteren 2012): word k
/// of a row is coefficient k. The words of a and b may be any; those of out are reduced. It takes `N * N` steps.
pub fn product_plain<const N: usize>(q: u64, a: &[u64; N], b: &[u64; N], out: &mut [u64; N])
    requires positive { 0 < q }
    requires below { q < 2 ^ 61 }
    ensures { RowRepresents N q out.new (ring_product N (row_polynomial a.now) (row_polynomial b.now)) }
{
    for k in 0..N {
        out[k] = product_coefficient(q, a, b, k);
    }
}

fn clear<const N: usize>(row: &mut [u64; N])
    requires { N ≤ 32768 }
    ensures { row.new ≡ replicate N 0 }
{
    row.fill(0);
}

/// The turn of X to `X^g` of a polynomial modulo `X^N + 1` and q: word k of a row is coefficient k. The words of from
/// may be any; those of to are reduced. It is a ring map where g, the Galois element, is odd.
pub fn turn_plain<const N: usize>(q: u64, g: u32, from: &[u64; N], to: &mut [u64; N])
    requires positive { 0 < q }
    requires below { q < 2 ^ 61 }
    requires degree { N ≤ 32768 }
    ensures { RowRepresents N q to.new (ring_turn N g (row_polynomial from.now)) }
{
    clear(to);
    for place in 0..N {
        let power = g as usize * place % (2 * N);
        if power < N {
            to[power] = (to[power] + from[place] % q) % q;
        } else {
            to[power - N] = (to[power - N] + (q - from[place] % q)) % q;
        }
    }
}
