//! Switching keys.

ghost use Rattle.std.specs.Prelude.{◌≡◌, ◌+◌, ◌*◌, ◌%◌, ◌<◌, length, slice_index, slice_set, IfOk, IsSome};
ghost use Rattle.set_table.specs.Sets.{data_of, key_of, special_of};
ghost use Rattle.ring_law.specs.Rows.{IsReduced};
ghost use Rattle.bfv_params.specs.Kept.{IsElement, IsSwitchKey};
ghost use Rattle.bfv_params.specs.Values.{zero_switch_key};

use crate::context::Context;
use crate::rows::new_rows;
use rns_poly::View;
use set_table::{KeyKind, SetName};
use std::alloc::{AllocError, Global};
use std::marker::Model;

/// A switching key: for each data modulus of the set a digit of two parts, each with a row for
/// each data modulus and one for the special modulus, in transformed form.
#[derive(Drop)]
pub struct SwitchKey<const N: usize> {
    set: SetName,
    kind: KeyKind,
    element: u32,
    rows: Vec<[u64; N]>,
}

impl<const N: usize> Model for SwitchKey<N> {
    ghost use Rattle.bfv_params.specs.Values.{SwitchKeyValue};

    ghost Value = { SwitchKeyValue };

    ghost use Rattle.bfv_params.specs.Kept.{IsSwitchKey};

    ghost view = { λ k. record { set = k.set; kind = k.kind; element = k.element; rows = k.rows.items } };

    ghost invariant = { λ k. IsSwitchKey N k.set k.kind k.element k.rows.items };
}

impl<const N: usize> SwitchKey<N> {
    /// The key of zero rows, for a set with a special modulus. Its Galois element is 0 for
    /// relinearisation, else odd. The error is want of memory.
    pub fn new(
        alloc: Global,
        ctx: &Context<N>,
        kind: KeyKind,
        element: u32,
    ) -> Result<SwitchKey<N>, AllocError>
        requires special { IsSome (special_of (ctx.now).set) }
        requires element { IsElement N kind element }
        ensures { IfOk result (λ k. k ≡ zero_switch_key N (ctx.now).set kind element) }
    {
        let set = ctx.set();
        let count = set.data_count();
        Ok(SwitchKey {
            set,
            kind,
            element,
            rows: new_rows(alloc, 2 * count * (count + 1))?,
        })
    }

    pub fn kind(&self) -> KeyKind
        ensures { result ≡ (self.now).kind }
    {
        self.kind
    }

    /// The Galois element.
    pub fn element(&self) -> u32
        ensures { result ≡ (self.now).element }
    {
        self.element
    }

    /// The rows, digit by digit and in each part by part.
    pub fn view(&self) -> View<'_, N>
        ensures value { result.rows.now ≡ (self.now).rows }
        ensures kept { IsSwitchKey N (self.now).set (self.now).kind (self.now).element (self.now).rows }
    {
        View { rows: &self.rows }
    }

    /// Writes row i, which is under key modulus i modulo their number.
    pub fn set_row(&mut self, i: usize, row: &[u64; N])
        requires in_range { i < 2 * length (data_of (self.old).set) * (length (data_of (self.old).set) + 1) }
        requires reduced { IsReduced N (slice_index (key_of (self.old).set) (i % (length (data_of (self.old).set) + 1))) row.now }
        ensures { self.new ≡ record (self.old) { rows = slice_set (self.old).rows i row.now } }
    {
        self.rows[i] = *row;
    }
}
