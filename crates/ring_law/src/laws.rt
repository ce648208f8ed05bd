//! The laws of centred residues, of the ring of polynomials modulo `X^n + 1`, of rows and of transforms, each the contract of
//! a function that does nothing.

ghost use Rattle.std.specs.Prelude.{◌≡◌, ℕ, ℤ, ◌+◌, ◌-◌, ◌*◌, ◌%◌, ◌^◌, ◌<◌, ◌≤◌, pos, neg_ℤ, ◌*ℤ◌, nat_abs, nat_le, if◌then◌else◌, List, length, slice_index};
ghost use Rattle.ring_law.specs.Sums.{sum_below};
ghost use Rattle.ring_law.specs.Residues.{Congruent, centred_residue};
ghost use Rattle.ring_law.specs.Moduli.{PairwiseCoprime, AllAboveOne, product};
ghost use Rattle.ring_law.specs.Polynomials.{ring_sum, ring_negative, ring_constant, ring_product, ring_turn, ring_size, EqualPolynomials, CongruentPolynomials};
ghost use Rattle.ring_law.specs.Rows.{WordsRepresent, natural_polynomial};
ghost use Rattle.ring_law.specs.Transform.{transform_entry};

/// Sums commute and associate, 0 is neutral, and the sum of a polynomial and its negative is 0.
pub fn ring_sum_laws()
    ensures commutes { (n : ℕ) (a b : ℕ → ℤ) → EqualPolynomials n (ring_sum a b) (ring_sum b a) }
    ensures associates { (n : ℕ) (a b c : ℕ → ℤ) →
        EqualPolynomials n (ring_sum (ring_sum a b) c) (ring_sum a (ring_sum b c)) }
    ensures neutral { (n : ℕ) (a : ℕ → ℤ) → EqualPolynomials n (ring_sum a (ring_constant (pos 0))) a }
    ensures negative { (n : ℕ) (a : ℕ → ℤ) →
        EqualPolynomials n (ring_sum a (ring_negative a)) (ring_constant (pos 0)) }
{}

/// Products commute, associate and distribute over sums, and 1 is neutral. Coefficient k is the sum of
/// `a_i * b_j` over `i + j = k` less the sum over `i + j = k + n`.
pub fn ring_product_laws()
    ensures commutes { (n : ℕ) (a b : ℕ → ℤ) →
        EqualPolynomials n (ring_product n a b) (ring_product n b a) }
    ensures associates { (n : ℕ) (a b c : ℕ → ℤ) → 0 < n →
        EqualPolynomials n (ring_product n (ring_product n a b) c) (ring_product n a (ring_product n b c)) }
    ensures distributes { (n : ℕ) (a b c : ℕ → ℤ) →
        EqualPolynomials n (ring_product n (ring_sum a b) c) (ring_sum (ring_product n a c) (ring_product n b c)) }
    ensures neutral { (n : ℕ) (a : ℕ → ℤ) → EqualPolynomials n (ring_product n a (ring_constant (pos 1))) a }
    ensures schoolbook { (n : ℕ) (a b : ℕ → ℤ) →
        EqualPolynomials n (ring_product n a b) (λ k. sum_below n (λ i.
        if nat_le i k then a i *ℤ b (k - i) else (neg_ℤ (a i *ℤ b (k + n - i))))) }
{}

/// The size of a sum is at most the sum of the sizes, and that of a product at most n times the product of the sizes.
pub fn ring_size_laws()
    ensures of_sum { (n : ℕ) (a b : ℕ → ℤ) → ring_size n (ring_sum a b) ≤ ring_size n a + ring_size n b }
    ensures of_product { (n : ℕ) (a b : ℕ → ℤ) →
        ring_size n (ring_product n a b) ≤ n * (ring_size n a * ring_size n b) }
{}

/// The turn of X to `X^g` for odd `g = 2h + 1` is a ring map, turns follow one another by the product of their
/// elements, and where n is a power of two a turn keeps the size.
pub fn ring_turn_laws()
    ensures of_sum { (n h : ℕ) (a b : ℕ → ℤ) →
        EqualPolynomials n (ring_turn n (2 * h + 1) (ring_sum a b))
        (ring_sum (ring_turn n (2 * h + 1) a) (ring_turn n (2 * h + 1) b)) }
    ensures of_product { (n h : ℕ) (a b : ℕ → ℤ) → 0 < n →
        EqualPolynomials n (ring_turn n (2 * h + 1) (ring_product n a b))
        (ring_product n (ring_turn n (2 * h + 1) a) (ring_turn n (2 * h + 1) b)) }
    ensures of_constant { (n h : ℕ) (c : ℤ) →
        EqualPolynomials n (ring_turn n (2 * h + 1) (ring_constant c)) (ring_constant c) }
    ensures of_turn { (n h g : ℕ) (a : ℕ → ℤ) → 0 < n →
        EqualPolynomials n (ring_turn n (2 * h + 1) (ring_turn n g a)) (ring_turn n (g * (2 * h + 1)) a) }
    ensures of_size { (k h : ℕ) (a : ℕ → ℤ) →
        ring_size (2 ^ k) (ring_turn (2 ^ k) (2 * h + 1) a) ≡ ring_size (2 ^ k) a }
{}

/// A centred residue is congruent to its number, no congruent number has a smaller absolute value, and where two have
/// the least one it is the positive of them.
pub fn centred_residue_laws()
    ensures congruent { (m : ℕ) (x : ℤ) → 0 < m → Congruent m x (centred_residue m x) }
    ensures least { (m : ℕ) (x y : ℤ) → 0 < m → Congruent m x y → nat_abs (centred_residue m x) ≤ nat_abs y }
    ensures positive { (m : ℕ) (x : ℤ) → 0 < m → 2 * nat_abs (centred_residue m x) ≡ m →
        centred_residue m x ≡ pos (nat_abs (centred_residue m x)) }
{}

/// Rows of reduced words over coprime moduli represent exactly one polynomial modulo the product of the moduli.
pub fn representation_laws()
    ensures exists { (n : ℕ) (moduli : List ℕ) (word : ℕ → ℕ → ℕ) → PairwiseCoprime moduli → AllAboveOne moduli →
        ((i k : ℕ) → i < length moduli → k < n → word i k < slice_index moduli i) →
        (x : ℕ → ℕ) × ((k : ℕ) → x k < product moduli) × WordsRepresent n moduli word (natural_polynomial x) }
    ensures unique { (n : ℕ) (moduli : List ℕ) (word : ℕ → ℕ → ℕ) (x y : ℕ → ℤ) → PairwiseCoprime moduli →
        AllAboveOne moduli → WordsRepresent n moduli word x → WordsRepresent n moduli word y →
        CongruentPolynomials (product moduli) n x y }
{}

/// For an odd modulus p, n = `2^k` and a root x of `X^n + 1` modulo p: the entries of a transform of a product are the
/// products of the entries, the entries determine the polynomial modulo p, and any reduced words are those of one.
pub fn transform_laws()
    ensures of_product { (p k x : ℕ) → 0 < p → Congruent p (pos (x ^ (2 ^ k))) (neg_ℤ (pos 1)) →
        (a b : ℕ → ℤ) (j : ℕ) → transform_entry p k x (ring_product (2 ^ k) a b) j
        ≡ (transform_entry p k x a j * transform_entry p k x b j) % p }
    ensures determines { (h k x : ℕ) → Congruent (2 * h + 1) (pos (x ^ (2 ^ k))) (neg_ℤ (pos 1)) → (a b : ℕ → ℤ) →
        ((j : ℕ) → j < 2 ^ k → transform_entry (2 * h + 1) k x a j ≡ transform_entry (2 * h + 1) k x b j) →
        CongruentPolynomials (2 * h + 1) (2 ^ k) a b }
    ensures any { (h k x : ℕ) → Congruent (2 * h + 1) (pos (x ^ (2 ^ k))) (neg_ℤ (pos 1)) → (word : ℕ → ℕ) →
        ((j : ℕ) → j < 2 ^ k → word j < 2 * h + 1) →
        (a : ℕ → ℤ) × ((j : ℕ) → j < 2 ^ k → transform_entry (2 * h + 1) k x a j ≡ word j) }
{}
