//! The sink of the standard output. It tells nothing of what was put.
ghost use Rattle.std.specs.Prelude.{◌≡◌};
ghost use Rattle.outer_io.specs.Real.{untold_sink};

use crate::transfers::put_whole;
use crate::{Sink, SinkFault};
use std::io;
use std::io::ErrorKind;
use std::marker::Model;

/// The standard output.
#[derive(Drop)]
pub struct StdSink<'a, R: Print> {
    rt: &'a R,
    faults: u64,
}

impl<'a, R: Print> Model for StdSink<'a, R> {
    ghost use Rattle.std.specs.Prelude.{None};
    ghost use Rattle.outer_io.specs.Sink.{SinkState};

    ghost Value = { SinkState };

    ghost view = { λ s. record { text = None; faults = s.faults } };
}

impl<'a, R: Print> StdSink<'a, R> {
    /// The standard output that the runtime reaches.
    pub fn new(rt: &'a R) -> StdSink<'a, R>
        ensures { result ≡ untold_sink }
    {
        StdSink { rt, faults: 0 }
    }
}

impl<'a, R: Print> Sink for StdSink<'a, R> {
    ghost state = { λ s. s };

    fn put(&mut self, piece: &[u8]) -> Result<(), SinkFault> {
        match put_whole(&mut io::writer(self.rt), piece) {
            Ok(()) => Ok(()),
            Err(error) => match error.kind() {
                ErrorKind::OutOfMemory => Err(SinkFault::Memory),
                _ => {
                    self.faults = self.faults.saturating_add(1);
                    Err(SinkFault::Failed)
                }
            },
        }
    }
}
