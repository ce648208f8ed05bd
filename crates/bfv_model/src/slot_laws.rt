//! The laws of the slots.
ghost use Rattle.std.specs.Prelude.{◌≡◌, ◌<◌, ◌+◌, ◌-◌, ◌*◌, ◌/◌, ◌%◌, ◌^◌, ℕ, ℤ, List, length, slice_index};
ghost use Rattle.set_table.specs.declared.SetName.{SetName};
ghost use Rattle.set_table.specs.Sets.{degree_of, plain_of};
ghost use Rattle.ring_law.specs.Polynomials.{ring_sum, ring_product, ring_turn};
ghost use Rattle.ring_law.specs.Rows.{natural_polynomial};
ghost use Rattle.ring_law.specs.Lists.{turned_left, exchanged};
ghost use Rattle.bfv_model.specs.Slots.{slots_of};

/// In each set the slots of a sum and of a product are the sums and the products of the slots, the
/// turn by a power of 3 turns both halves left, and the turn by `2n - 1` exchanges them.
pub fn law_of_slots()
    ensures sum { (set : SetName) (a b : ℕ → ℤ) (i : ℕ) → i < degree_of set
        → slice_index (slots_of set (ring_sum a b)) i
        ≡ (slice_index (slots_of set a) i + slice_index (slots_of set b) i) % plain_of set }
    ensures product { (set : SetName) (a b : ℕ → ℤ) (i : ℕ) → i < degree_of set
        → slice_index (slots_of set (ring_product (degree_of set) a b)) i
        ≡ (slice_index (slots_of set a) i * slice_index (slots_of set b) i) % plain_of set }
    ensures turn { (set : SetName) (step : ℕ) (a : ℕ → ℤ) → step < degree_of set / 2
        → slots_of set (ring_turn (degree_of set) (3 ^ step % (2 * degree_of set)) a)
        ≡ turned_left (degree_of set / 2) step (slots_of set a) }
    ensures swap { (set : SetName) (a : ℕ → ℤ)
        → slots_of set (ring_turn (degree_of set) (2 * degree_of set - 1) a)
        ≡ exchanged (degree_of set / 2) (slots_of set a) }
{}

/// In each set every list of n values below t is the list of the slots of a plaintext, and of one
/// alone.
pub fn law_of_encoding()
    ensures some { (set : SetName) (values : List ℕ) → length values ≡ degree_of set
        → ((i : ℕ) → i < degree_of set → slice_index values i < plain_of set)
        → (m : ℕ → ℕ) × ((k : ℕ) → m k < plain_of set)
        × (slots_of set (natural_polynomial m) ≡ values) }
    ensures one { (set : SetName) (m other : ℕ → ℕ)
        → ((k : ℕ) → k < degree_of set → m k < plain_of set)
        → ((k : ℕ) → k < degree_of set → other k < plain_of set)
        → slots_of set (natural_polynomial m) ≡ slots_of set (natural_polynomial other)
        → (k : ℕ) → k < degree_of set → m k ≡ other k }
{}
