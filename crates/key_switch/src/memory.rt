//! Switching keys in memory.

ghost use Rattle.std.specs.Prelude.{◌≡◌, ◌+◌, ◌*◌, ◌<◌, ◌++◌, ◌∷◌, [], length, IfOk, OnErr, IsOk, MatchOption, OnOk, Some, None, Contains};
ghost use Rattle.std.specs.List.{find};
ghost use Rattle.set_table.specs.Sets.{data_of, degree_of, key_of};
ghost use Rattle.bfv_params.specs.Rows.{ReducedInTurn};
ghost use Rattle.key_switch.specs.Providers.{Digits, Keeps, FaultCause, AreDigitRows, IsThere};
ghost use Rattle.key_switch.specs.Memory.{is_for, key_word, memory_state, digits_of};

use crate::{KeyFault, Keys};
use bfv_params::SwitchKey;
use rns_poly::ViewMut;
use set_table::{KeyKind, SetName};
use std::alloc::{AllocError, Global};
use std::marker::Model;

/// A provider that holds the switching keys of one parameter set in memory. It never fails. Of two
/// keys of one kind and Galois element it gives the one that was added first.
#[derive(Drop)]
pub struct MemKeys<const N: usize> {
    set: SetName,
    keys: Vec<SwitchKey<N>>,
}

impl<const N: usize> Model for MemKeys<N> {
    ghost use Rattle.key_switch.specs.Memory.{MemKeysValue, AreOfSet};

    ghost Value = { MemKeysValue };

    ghost view = { λ held. record { set = held.set; keys = held.keys.items } };

    ghost invariant = { λ held. AreOfSet held.set held.keys.items };
}

impl<const N: usize> MemKeys<N> {
    /// A provider of no keys yet. It takes no memory.
    pub fn new(alloc: Global, set: SetName) -> MemKeys<N>
        ensures { result ≡ record { set = set; keys = [] } }
    {
        MemKeys {
            set,
            keys: Vec::new(alloc),
        }
    }

    /// Adds a key of the provider's set after the others. The error is want of memory: the key is
    /// dropped then, and the others stay.
    pub fn add_key(&mut self, key: SwitchKey<N>) -> Result<(), AllocError>
        requires { key.set ≡ (self.old).set }
        ensures ok { IfOk result (λ _. self.new ≡ record (self.old) { keys = (self.old).keys ++ key.entry ∷ [] }) }
        ensures err { OnErr result (self.new ≡ self.old) }
    {
        self.keys.push(key)?;
        Ok(())
    }
}

impl<const N: usize> Keys<N> for MemKeys<N> {
    ghost state = { memory_state };

    ghost Origin = { Unit {0} };

    ghost origin = { λ _. tt };

    ghost Tells = { λ held digits. digits ≡ digits_of held.set held.keys };

    fn has(&self, kind: KeyKind, element: u32) -> bool {
        find_key(&self.keys, kind, element).is_some()
    }

    fn digit(
        &mut self,
        kind: KeyKind,
        element: u32,
        i: usize,
        into: ViewMut<'_, N>,
    ) -> Result<(), KeyFault>
        requires degree { N ≡ degree_of (self.old).set }
        requires has { Contains (memory_state self.old).pairs (record { 0 = kind; 1 = element }) }
        requires index { i < length (data_of (self.old).set) }
        requires rows { length into.old ≡ 2 * (length (data_of (self.old).set) + 1) }
        ensures keeps { Keeps (memory_state self.old) (memory_state self.new) }
        ensures cause { FaultCause (memory_state self.old) (memory_state self.new) result }
        ensures below { OnOk result (ReducedInTurn N (length (data_of (self.old).set) + 1) (key_of (self.old).set) into.new) }
        ensures kept { ReducedInTurn N (length (data_of (self.old).set) + 1) (key_of (self.old).set) into.old
            → ReducedInTurn N (length (data_of (self.old).set) + 1) (key_of (self.old).set) into.new }
        ensures tells { (digits : Digits) → digits ≡ digits_of (self.old).set (self.old).keys → digits ≡ digits_of (self.new).set (self.new).keys }
        ensures told { (digits : Digits) → digits ≡ digits_of (self.old).set (self.old).keys
            → OnOk result (AreDigitRows N (length (data_of (self.old).set) + 1) into.new (digits kind element i)) }
        ensures there { (digits : Digits) → digits ≡ digits_of (self.old).set (self.old).keys → IsThere result }
        ensures ok { IsOk result }
        ensures unchanged { self.new ≡ self.old }
    {
        let Some(key) = find_key(&self.keys, kind, element) else {
            unreachable!();
        };
        write_digit(key, self.set.data_count() + 1, i, into);
        Ok(())
    }
}

fn is_for<const N: usize>(key: &SwitchKey<N>, kind: KeyKind, element: u32) -> bool
    ensures { result ≡ is_for kind element key.now }
{
    key.kind() == kind && key.element() == element
}

/// The first key of this kind and Galois element.
fn find_key<const N: usize>(
    keys: &[SwitchKey<N>],
    kind: KeyKind,
    element: u32,
) -> Option<&SwitchKey<N>>
    ensures { MatchOption result (find (is_for kind element) keys.now ≡ None) (λ key. find (is_for kind element) keys.now ≡ Some key.now) }
{
    for key in keys {
        if is_for(key, kind, element) {
            return Some(key);
        }
    }
    None
}

/// Writes digit `i` of a key, with `count` rows in each of its two parts.
fn write_digit<const N: usize>(key: &SwitchKey<N>, count: usize, i: usize, into: ViewMut<'_, N>)
    requires count { count ≡ length (data_of (key.now).set) + 1 }
    requires index { i < length (data_of (key.now).set) }
    requires rows { length into.old ≡ 2 * count }
    ensures below { ReducedInTurn N count (key_of (key.now).set) into.new }
    ensures words { AreDigitRows N count into.new (key_word count (key.now).rows i) }
{
    let from = i * 2 * count;
    let digit = key.view().rows_from_to(from, from + 2 * count);
    into.copy_from_slice(digit.slice());
}
