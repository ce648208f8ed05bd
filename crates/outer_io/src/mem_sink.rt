//! A sink in memory. It tells its text, and a put whose number is noted fails.
ghost use Rattle.std.specs.Prelude.{◌≡◌, ◌↔◌, ◌++◌, [], ◌∷◌, Contains, OnOk, OnErr, IsErrOf};
ghost use Rattle.outer_io.specs.Sink.{Puts};
ghost use Rattle.outer_io.specs.Memory.{sink_state, AfterPut};

use crate::call_plan::CallPlan;
use crate::{Sink, SinkFault};
use std::alloc::{AllocError, Global};
use std::marker::Model;

/// A sink in memory, which tells its text. Calls of `put` are counted from 0 over its life; one
/// whose number is noted answers `Failed` and puts nothing, and no other call answers it.
#[derive(Drop)]
pub struct MemSink {
    text: Vec<u8>,
    faults: u64,
    plan: CallPlan,
}

impl Model for MemSink {
    ghost use Rattle.outer_io.specs.Memory.{MemSinkState};

    ghost Value = { MemSinkState };

    ghost view = { λ s. record {
      text = s.text.items;
      faults = s.faults;
      calls = s.plan.next;
      noted = s.plan.noted.items;
    } };
}

impl MemSink {
    /// An empty sink. It keeps the allocator, and takes no memory yet.
    pub fn new(alloc: Global) -> MemSink
        ensures { result ≡ record { text = []; faults = 0; calls = 0; noted = [] } }
    {
        MemSink {
            text: Vec::new(alloc),
            faults: 0,
            plan: CallPlan::new(alloc),
        }
    }

    /// All that was put.
    pub fn text(&self) -> &[u8]
        ensures { result.now ≡ (self.now).text }
    {
        &self.text
    }

    /// Notes that the put of this number fails.
    pub fn fail_at(&mut self, call: u64) -> Result<(), AllocError>
        ensures ok { OnOk result (self.new ≡ record self.old { noted = (self.old).noted ++ call ∷ [] }) }
        ensures err { OnErr result (self.new ≡ self.old) }
    {
        self.plan.note(call)
    }
}

impl Sink for MemSink {
    ghost state = { sink_state };

    fn put(&mut self, piece: &[u8]) -> Result<(), SinkFault>
        ensures puts { Puts (sink_state self.old) (sink_state self.new) piece.now result }
        ensures noted { IsErrOf result SinkFault.Failed ↔ Contains (self.old).noted (self.old).calls }
        ensures after { AfterPut self.old self.new piece.now result }
    {
        if self.plan.fails_now() {
            self.faults = self.faults.saturating_add(1);
            return Err(SinkFault::Failed);
        }
        let Ok(()) = self.text.extend_from_slice(piece) else {
            return Err(SinkFault::Memory);
        };
        Ok(())
    }
}
