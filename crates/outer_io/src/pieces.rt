//! Several pieces put one after another.
ghost use Rattle.std.specs.Prelude.{◌++◌};
ghost use Rattle.outer_io.specs.Sink.{Puts};

use crate::{Sink, SinkFault};

/// Puts two pieces in order. After an `Err` a prefix of the two stands at the end of the text, as
/// with the calls below.
pub fn put_two<O: Sink>(out: &mut O, first: &[u8], second: &[u8]) -> Result<(), SinkFault>
    ensures { Puts (O.state out.old) (O.state out.new) (first.now ++ second.now) result }
{
    match out.put(first) {
        Ok(()) => out.put(second),
        Err(fault) => Err(fault),
    }
}

/// Puts three pieces in order.
pub fn put_three<O: Sink>(
    out: &mut O,
    first: &[u8],
    second: &[u8],
    third: &[u8],
) -> Result<(), SinkFault>
    ensures { Puts (O.state out.old) (O.state out.new) (first.now ++ (second.now ++ third.now)) result }
{
    match out.put(first) {
        Ok(()) => put_two(out, second, third),
        Err(fault) => Err(fault),
    }
}

/// Puts four pieces in order.
pub fn put_four<O: Sink>(
    out: &mut O,
    first: &[u8],
    second: &[u8],
    third: &[u8],
    fourth: &[u8],
) -> Result<(), SinkFault>
    ensures { Puts (O.state out.old) (O.state out.new)
        (first.now ++ (second.now ++ (third.now ++ fourth.now))) result }
{
    match out.put(first) {
        Ok(()) => put_three(out, second, third, fourth),
        Err(fault) => Err(fault),
    }
}
