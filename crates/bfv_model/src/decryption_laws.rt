//! The laws of decryption.
ghost use Rattle.std.specs.Prelude.{◌≡◌, ◌<◌, ◌≤◌, ◌+◌, ◌*◌, ◌%◌, ℕ, ℤ, pos, neg_ℤ, ◌-ℤ◌, ◌*ℤ◌, [], ◌∷◌};
ghost use Rattle.ring_law.specs.Residues.{Congruent, HasInverse, residue, centred_residue};
ghost use Rattle.ring_law.specs.Moduli.{IsFastConversion};
ghost use Rattle.ring_law.specs.Rows.{natural_polynomial};
ghost use Rattle.bfv_model.specs.Holds.{phase, Holds, CipherHolds, nearest_quotient};

/// Where the noise is at most q/4, rounding t/q times the phase to the nearest whole number gives
/// the plaintext modulo t. In a cipher with one data modulus the words are the coefficients.
pub fn law_of_rounding()
    ensures rounded { (n q t : ℕ) (x0 x1 x2 s : ℕ → ℤ) (m : ℕ → ℕ) (bound : ℕ)
        → 0 < q → 4 * bound ≤ q → Holds n q t x0 x1 x2 s m bound
        → (k : ℕ) → k < n
        → nearest_quotient (t * residue q (phase n x0 x1 x2 s k)) q % t ≡ m k }
    ensures one_modulus { (n q t : ℕ) (word : ℕ → ℕ → ℕ → ℕ) (s : ℕ → ℤ) (m : ℕ → ℕ) (bound : ℕ)
        → 0 < q → 0 < t → CipherHolds n (q ∷ []) t word s m bound
        → Holds n q t (natural_polynomial (word 0 0)) (natural_polynomial (word 1 0))
        (natural_polynomial (word 2 0)) s m bound }
{}

/// The same over residues (Bajard, Eynard, Hasan and Zucca 2016), coefficient by coefficient:
/// `converted` is the fast conversion of `gamma * t` times the phase, y its negative quotient by q
/// in the moduli t and gamma, and v the inverse of gamma modulo t.
pub fn law_of_residue_decryption()
    ensures { (n q t bound gamma L : ℕ) (x0 x1 x2 s : ℕ → ℤ) (m : ℕ → ℕ) (k : ℕ)
        (x converted y_t y_gamma v : ℤ) → 0 < q → 0 < t
        → Holds n q t x0 x1 x2 s m bound → 4 * bound ≤ q → 4 * (L + 1) ≤ gamma → k < n
        → Congruent q x (phase n x0 x1 x2 s k)
        → IsFastConversion q L (pos gamma *ℤ (pos t *ℤ x)) converted
        → HasInverse t q → HasInverse gamma q
        → Congruent t (y_t *ℤ pos q) (neg_ℤ converted)
        → Congruent gamma (y_gamma *ℤ pos q) (neg_ℤ converted)
        → Congruent t (v *ℤ pos gamma) (pos 1)
        → residue t ((y_t -ℤ centred_residue gamma y_gamma) *ℤ v) ≡ m k }
{}
