//! The law of products of transforms, as the contract of a function that does nothing.

ghost use Rattle.std.specs.Prelude.{◌≡◌, ℕ, ℤ, ◌*◌, ◌%◌, ◌<◌, List, slice_index};
ghost use Rattle.ring_law.specs.Polynomials.{ring_product};
ghost use Rattle.neg_ntt.specs.Parameters.{AreParameters, IsTransformBy, Parameters};

/// The product word by word of the transforms of two polynomials is the transform of their product modulo `X^n + 1`.
pub fn transform_product_law()
    ensures { (n : ℕ) (t : Parameters) (a b : ℕ → ℤ) (a_row b_row row : List ℕ) → AreParameters n t
        → IsTransformBy t a_row a → IsTransformBy t b_row b
        → ((j : ℕ) → j < n → slice_index row j ≡ slice_index a_row j * slice_index b_row j % t.modulus)
        → IsTransformBy t row (ring_product n a b) }
{}
