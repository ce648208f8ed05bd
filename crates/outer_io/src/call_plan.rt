//! Which calls of a store or a sink in memory fail.
ghost use Rattle.std.specs.Prelude.{◌≡◌, ◌↔◌, ◌++◌, [], ◌∷◌, Contains, IsTrue, OnOk, OnErr};
ghost use Rattle.outer_io.specs.Memory.{risen};

use std::alloc::{AllocError, Global};

/// The number of the next call, and the numbers of those that fail, all counted from 0. The number
/// stays at its last value.
#[derive(Drop)]
pub struct CallPlan {
    next: u64,
    noted: Vec<u64>,
}

impl CallPlan {
    pub fn new(alloc: Global) -> CallPlan
        ensures next { result.next ≡ 0 }
        ensures noted { result.noted.items ≡ [] }
    {
        CallPlan {
            next: 0,
            noted: Vec::new(alloc),
        }
    }

    /// The call of this number is to fail.
    pub fn note(&mut self, call: u64) -> Result<(), AllocError>
        ensures next { self.new.next ≡ self.old.next }
        ensures ok { OnOk result (self.new.noted.items ≡ self.old.noted.items ++ call ∷ []) }
        ensures err { OnErr result (self.new.noted.items ≡ self.old.noted.items) }
    {
        self.noted.push(call)?;
        Ok(())
    }

    /// Counts a call, and says whether it is to fail.
    pub fn fails_now(&mut self) -> bool
        ensures fails { IsTrue result ↔ Contains self.old.noted.items self.old.next }
        ensures next { self.new.next ≡ risen self.old.next }
        ensures noted { self.new.noted.items ≡ self.old.noted.items }
    {
        let fails = self.noted.contains(&self.next);
        self.next = self.next.saturating_add(1);
        fails
    }
}
