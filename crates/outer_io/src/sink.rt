//! A sink of text, as a command sees it.
ghost use Rattle.outer_io.specs.Sink.{SinkState, Puts};

use crate::SinkFault;

/// A sink of text.
pub trait Sink {
    ghost state: { Self → SinkState };

    /// Puts a piece at the end of the text. After an `Err` a prefix of it stands there.
    fn put(&mut self, piece: &[u8]) -> Result<(), SinkFault>
        ensures { Puts (state self.old) (state self.new) piece.now result };
}
