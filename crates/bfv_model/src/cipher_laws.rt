//! What the results of operations on ciphers hold.
ghost use Rattle.std.specs.Prelude.{◌<◌, ◌≤◌, ◌+◌, ◌-◌, ◌*◌, ◌/◌, ℕ, ℤ, pos, ◌+ℤ◌, ◌-ℤ◌, ◌*ℤ◌, nat_abs};
ghost use Rattle.ring_law.specs.Polynomials.{AllWithin, CongruentPolynomials, ring_sum, ring_negative, ring_product};
ghost use Rattle.ring_law.specs.Rows.{natural_polynomial};
ghost use Rattle.bfv_model.specs.Holds.{Holds, zero_polynomial};
ghost use Rattle.bfv_model.specs.Plaintexts.{scaled_plain, plain_sum, plain_difference, plain_negative, plain_multiple, plain_product};
ghost use Rattle.bfv_model.specs.NoiseBounds.{product_bound};
ghost use Rattle.bfv_model.specs.Conversions.{IsCipherProduct};

/// Sum, difference and negative part by part. The noise bounds of a sum and of a difference add up,
/// under every secret.
pub fn law_of_sums()
    ensures sum { (n q t bound more : ℕ) (a0 a1 a2 b0 b1 b2 s : ℕ → ℤ) (m other : ℕ → ℕ)
        → 0 < n → 0 < q → 0 < t
        → Holds n q t a0 a1 a2 s m bound → Holds n q t b0 b1 b2 s other more
        → Holds n q t (ring_sum a0 b0) (ring_sum a1 b1) (ring_sum a2 b2) s
        (plain_sum t m other) (bound + more) }
    ensures difference { (n q t bound more : ℕ) (a0 a1 a2 b0 b1 b2 s : ℕ → ℤ) (m other : ℕ → ℕ)
        → 0 < n → 0 < q → 0 < t
        → Holds n q t a0 a1 a2 s m bound → Holds n q t b0 b1 b2 s other more
        → Holds n q t (ring_sum a0 (ring_negative b0)) (ring_sum a1 (ring_negative b1))
        (ring_sum a2 (ring_negative b2)) s (plain_difference t m other) (bound + more) }
    ensures negative { (n q t bound : ℕ) (a0 a1 a2 s : ℕ → ℤ) (m : ℕ → ℕ)
        → 0 < n → 0 < q → 0 < t → Holds n q t a0 a1 a2 s m bound
        → Holds n q t (ring_negative a0) (ring_negative a1) (ring_negative a2) s
        (plain_negative t m) bound }
{}

/// A cipher with a plaintext: added to part 0 or taken from it when scaled up to q, or multiplied
/// into each part when its coefficients are at most `half` in absolute value; and a cipher times a
/// whole number.
pub fn law_of_plain_operations()
    ensures sum { (n q t bound : ℕ) (a0 a1 a2 s : ℕ → ℤ) (m other : ℕ → ℕ)
        → 0 < n → 0 < q → 0 < t → Holds n q t a0 a1 a2 s m bound
        → Holds n q t (λ k. a0 k +ℤ pos (scaled_plain q t (other k))) a1 a2 s
        (plain_sum t m other) (bound + t) }
    ensures difference { (n q t bound : ℕ) (a0 a1 a2 s : ℕ → ℤ) (m other : ℕ → ℕ)
        → 0 < n → 0 < q → 0 < t → Holds n q t a0 a1 a2 s m bound
        → Holds n q t (λ k. a0 k -ℤ pos (scaled_plain q t (other k))) a1 a2 s
        (plain_difference t m other) (bound + t) }
    ensures product { (n q t bound half : ℕ) (a0 a1 a2 p s : ℕ → ℤ) (m other : ℕ → ℕ)
        → 0 < n → 0 < q → 0 < t → Holds n q t a0 a1 a2 s m bound
        → AllWithin n half p → CongruentPolynomials t n p (natural_polynomial other)
        → Holds n q t (ring_product n a0 p) (ring_product n a1 p) (ring_product n a2 p) s
        (plain_product n t m other) (n * half * bound) }
    ensures multiple { (n q t bound : ℕ) (a0 a1 a2 s : ℕ → ℤ) (c : ℤ) (m : ℕ → ℕ)
        → 0 < n → 0 < q → 0 < t → Holds n q t a0 a1 a2 s m bound
        → Holds n q t (λ k. c *ℤ a0 k) (λ k. c *ℤ a1 k) (λ k. c *ℤ a2 k) s
        (plain_multiple t c m) (nat_abs c * bound) }
{}

/// The product of two ciphers of two parts, whose noise is at most q/4, under a ternary secret.
pub fn law_of_products()
    ensures { (n q t M L bound more : ℕ) (a0 a1 b0 b1 c0 c1 c2 s : ℕ → ℤ) (m other : ℕ → ℕ)
        → 0 < n → 0 < q → 0 < t → 0 < M
        → 4 * (1 + n) * L ≤ M → 4 * bound ≤ q → 4 * more ≤ q → AllWithin n 1 s
        → Holds n q t a0 a1 zero_polynomial s m bound
        → Holds n q t b0 b1 zero_polynomial s other more
        → IsCipherProduct n q t M L a0 a1 b0 b1 c0 c1 c2
        → Holds n q t c0 c1 c2 s (plain_product n t m other) (product_bound n t L bound more) }
{}
