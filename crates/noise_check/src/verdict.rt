//! The bounds of a script that keeps its noise within the limit, or what is too noisy.
ghost use Rattle.std.specs.Prelude.{◌≡◌, ◌<◌, length, slice_get, Some};
ghost use Rattle.bound_num.specs.Bound.{IsCanonical};
ghost use Rattle.noise_check.specs.Numbers.{AllCanonical};

use bound_num::Bound;
use std::marker::Model;

/// The bounds of all registers of a script, those of the cipher inputs first.
#[derive(Drop)]
pub struct BoundList {
    bounds: Vec<Bound>,
}

impl Model for BoundList {
    ghost use Rattle.std.specs.Prelude.{List};
    ghost use Rattle.bound_num.specs.declared.Bound.{Bound};
    ghost use Rattle.noise_check.specs.Numbers.{AllCanonical};

    ghost Value = { List Bound };

    ghost view = { λ list. list.bounds.items };

    ghost invariant = { λ list. AllCanonical list.bounds.items };
}

impl BoundList {
    pub(crate) fn new(bounds: Vec<Bound>) -> BoundList
        requires { AllCanonical bounds.items }
        ensures { result ≡ bounds.items }
    {
        BoundList { bounds }
    }

    /// The number of registers.
    pub fn len(&self) -> usize
        ensures { result ≡ length self.now }
    {
        self.bounds.len()
    }

    /// The bound of register `i`.
    pub fn get(&self, i: usize) -> Bound
        requires { i < length self.now }
        ensures value { slice_get self.now i ≡ Some result }
        ensures canonical { IsCanonical result.m result.e }
    {
        self.bounds[i]
    }
}

/// What is said of a script's bounds.
#[derive(Drop)]
pub enum Verdict {
    /// No register is above the limit; these are the bounds of all registers.
    Accepted(BoundList),
    /// The line on which the first register above the limit is defined, its bound and the limit.
    TooNoisy(u32, Bound, Bound),
}
