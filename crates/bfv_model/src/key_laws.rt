//! What keys and fresh ciphers are, and what key switching leaves.
ghost use Rattle.std.specs.Prelude.{◌≡◌, ◌<◌, ◌+◌, ◌*◌, ◌^◌, ℕ, ℤ, List, [], ◌∷◌, ◌++◌, length, slice_index, Contains, Some, unwrap_or};
ghost use Rattle.set_table.specs.declared.SetName.{SetName};
ghost use Rattle.set_table.specs.Sets.{data_of, special_of, transform_moduli_of, log_degree_of};
ghost use Rattle.set_table.specs.Roots.{root_of};
ghost use Rattle.ring_law.specs.Moduli.{PairwiseCoprime, AllAboveOne, product};
ghost use Rattle.ring_law.specs.Polynomials.{AllWithin, ring_sum, ring_product, ring_turn};
ghost use Rattle.bfv_model.specs.Holds.{Holds, CipherHolds, zero_polynomial};
ghost use Rattle.bfv_model.specs.Keys.{IsSwitchKeyOf, IsTransformRoot, WordsArePublicKeyOf, WordsAreSwitchKeyOf, StandsForProduct, switched_part};
ghost use Rattle.bfv_model.specs.SwitchKeys.{IsSwitchKeyIn, key_roots_of};
ghost use Rattle.bfv_model.specs.Plaintexts.{plain_turn};
ghost use Rattle.bfv_model.specs.NoiseBounds.{fresh_bound, fresh_bound_under, switch_bound};
ghost use Rattle.bfv_model.specs.Drawn.{greatest_error, greatest_ternary, drawn_public, drawn_switch, drawn_cipher};

/// A drawn public key is one of its secret. A cipher that is drawn under a public key holds its
/// plaintext under every secret of that key, within a bound that the key's error and the secret's
/// size give: for a key with drawn errors and a ternary secret it is the fresh bound.
pub fn law_of_fresh_ciphers()
    ensures key { (n : ℕ) (moduli : List ℕ) (s : ℕ → ℤ) (words : ℕ → ℕ)
        → PairwiseCoprime moduli → AllAboveOne moduli
        → WordsArePublicKeyOf n moduli greatest_error (drawn_public n moduli s words) s }
    ensures cipher { (n t key_error size : ℕ) (moduli : List ℕ) (key : ℕ → ℕ → ℕ → ℕ) (s : ℕ → ℤ)
        (m words : ℕ → ℕ) → 0 < n → 0 < t → PairwiseCoprime moduli → AllAboveOne moduli
        → WordsArePublicKeyOf n moduli key_error key s → AllWithin n size s
        → ((k : ℕ) → k < n → m k < t)
        → CipherHolds n moduli t (drawn_cipher n moduli (product moduli) t key m words) s m
        (fresh_bound_under n t greatest_error key_error size) }
    ensures ternary { (n t : ℕ) (moduli : List ℕ) (key : ℕ → ℕ → ℕ → ℕ) (s : ℕ → ℤ)
        (m words : ℕ → ℕ) → 0 < n → 0 < t → PairwiseCoprime moduli → AllAboveOne moduli
        → WordsArePublicKeyOf n moduli greatest_error key s → AllWithin n greatest_ternary s
        → ((k : ℕ) → k < n → m k < t)
        → CipherHolds n moduli t (drawn_cipher n moduli (product moduli) t key m words) s m
        (fresh_bound n t greatest_error) }
{}

/// In each set the moduli under which rows are transformed have their listed roots.
pub fn law_of_roots()
    ensures { (set : SetName) (q : ℕ) → Contains (transform_moduli_of set) q
        → IsTransformRoot (log_degree_of set) q (unwrap_or (root_of set q) 0) }
{}

/// A drawn switching key is one from its source to its secret: of any moduli with roots, and so of
/// each set that has a special modulus.
pub fn law_of_drawn_switches()
    ensures words { (log P : ℕ) (moduli roots : List ℕ) (source s : ℕ → ℤ) (words : ℕ → ℕ)
        → PairwiseCoprime (moduli ++ P ∷ []) → AllAboveOne (moduli ++ P ∷ [])
        → ((r : ℕ) → r < length moduli + 1
        → IsTransformRoot log (slice_index (moduli ++ P ∷ []) r) (slice_index roots r))
        → WordsAreSwitchKeyOf log moduli P roots greatest_error
        (drawn_switch log moduli P roots source s words) source s }
    ensures in_set { (set : SetName) (P : ℕ) (source s : ℕ → ℤ) (words : ℕ → ℕ)
        → special_of set ≡ Some P
        → IsSwitchKeyIn set (drawn_switch (log_degree_of set) (data_of set) P (key_roots_of set)
        source s words) source s }
{}

/// The digits of a part times a switching key stand for the part times the key's source, within the
/// bound of a switch.
pub fn law_of_key_switching()
    ensures { (n P error : ℕ) (moduli : List ℕ) (part source s : ℕ → ℤ) (key0 key1 : ℕ → ℕ → ℤ)
        → 0 < n → 0 < P → PairwiseCoprime moduli → AllAboveOne moduli → AllWithin n 1 s
        → IsSwitchKeyOf n moduli P error key0 key1 source s
        → StandsForProduct n (product moduli) (switch_bound n error P moduli)
        (switched_part n moduli P part key0) (switched_part n moduli P part key1)
        part source s }
{}

/// Relinearisation adds the pair of part 2 to the other parts. A turn by an odd element brings a
/// cipher under the turned secret, and the pair of its part 1 brings it back.
pub fn law_of_switched_ciphers()
    ensures relinearised { (n q t bound more : ℕ) (c0 c1 c2 y0 y1 s : ℕ → ℤ) (m : ℕ → ℕ)
        → 0 < q → 0 < t → Holds n q t c0 c1 c2 s m bound
        → StandsForProduct n q more y0 y1 c2 (ring_product n s s) s
        → Holds n q t (ring_sum c0 y0) (ring_sum c1 y1) zero_polynomial s m (bound + t * more) }
    ensures turned { (log h q t bound : ℕ) (c0 c1 s : ℕ → ℤ) (m : ℕ → ℕ)
        → 0 < q → 0 < t → Holds (2 ^ log) q t c0 c1 zero_polynomial s m bound
        → Holds (2 ^ log) q t (ring_turn (2 ^ log) (2 * h + 1) c0)
        (ring_turn (2 ^ log) (2 * h + 1) c1) zero_polynomial
        (ring_turn (2 ^ log) (2 * h + 1) s) (plain_turn (2 ^ log) (2 * h + 1) t m) bound }
    ensures back { (n q t bound more : ℕ) (c0 c1 source y0 y1 s : ℕ → ℤ) (m : ℕ → ℕ)
        → 0 < q → 0 < t → Holds n q t c0 c1 zero_polynomial source m bound
        → StandsForProduct n q more y0 y1 c1 source s
        → Holds n q t (ring_sum c0 y0) y1 zero_polynomial s m (bound + t * more) }
{}
