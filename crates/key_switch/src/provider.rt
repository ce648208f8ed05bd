//! Providers of switching keys.

ghost use Rattle.std.specs.Prelude.{◌≡◌, ◌+◌, ◌*◌, ◌<◌, ◌↔◌, length, IsTrue, Contains, OnOk};
ghost use Rattle.set_table.specs.Sets.{data_of, degree_of, key_of};
ghost use Rattle.bfv_params.specs.Rows.{ReducedInTurn};
ghost use Rattle.key_switch.specs.Providers.{KeysState, Digits, Keeps, FaultCause, AreDigitRows, IsThere};

use rns_poly::ViewMut;
use set_table::KeyKind;

/// Why a provider doesn't give a digit: the key isn't there, or can't be read, or has changed since
/// it was first read, or there is no memory.
#[derive(Clone, Copy, Debug, PartialEq, Eq)]
pub enum KeyFault {
    Missing,
    Failed,
    Changed,
    Memory,
}

/// A provider of the switching keys of one parameter set. What a clause says of the digits' words
/// holds of each provider that tells them. Want of memory may come at each `digit`.
pub trait Keys<const N: usize> {
    ghost state: { Self → KeysState };

    ghost Origin: { Type 0 };

    ghost origin: { Self → Origin };

    ghost Tells: { Self → Digits → Type 0 };

    /// Whether the provider has the key of this kind and Galois element.
    fn has(&self, kind: KeyKind, element: u32) -> bool
        ensures { IsTrue result ↔ Contains (state self.now).pairs (record { 0 = kind; 1 = element }) };

    /// Writes digit `i` of a key in transformed form: the rows of its two parts, of which each has a
    /// row for each data modulus of the set and then one for the special modulus. After an error the
    /// rows have no meaning, but reduced ones stay reduced.
    fn digit(
        &mut self,
        kind: KeyKind,
        element: u32,
        i: usize,
        into: ViewMut<'_, N>,
    ) -> Result<(), KeyFault>
        requires degree { N ≡ degree_of (state self.old).set }
        requires has { Contains (state self.old).pairs (record { 0 = kind; 1 = element }) }
        requires index { i < length (data_of (state self.old).set) }
        requires rows { length into.old ≡ 2 * (length (data_of (state self.old).set) + 1) }
        ensures keeps { Keeps (state self.old) (state self.new) }
        ensures origin { origin self.new ≡ origin self.old }
        ensures cause { FaultCause (state self.old) (state self.new) result }
        ensures below { OnOk result (ReducedInTurn N (length (data_of (state self.old).set) + 1) (key_of (state self.old).set) into.new) }
        ensures kept { ReducedInTurn N (length (data_of (state self.old).set) + 1) (key_of (state self.old).set) into.old
            → ReducedInTurn N (length (data_of (state self.old).set) + 1) (key_of (state self.old).set) into.new }
        ensures tells { (digits : Digits) → Tells self.old digits → Tells self.new digits }
        ensures told { (digits : Digits) → Tells self.old digits
            → OnOk result (AreDigitRows N (length (data_of (state self.old).set) + 1) into.new (digits kind element i)) }
        ensures there { (digits : Digits) → Tells self.old digits → IsThere result };
}
