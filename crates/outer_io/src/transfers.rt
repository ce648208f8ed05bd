//! Whole pieces through a reader or a writer, which may give or take fewer bytes than it is asked
//! for. A call that a signal interrupts is made again.
ghost use Rattle.std.specs.Prelude.{◌≡◌, ◌≢◌, ℕ, ◌<◌, ◌≤◌, min, length, take, drop, Some, IfSome, IfOk, IfErr, OnOk, OnErr};
ghost use Rattle.std.specs.IoError.{error_kind};
ghost use Rattle.std.specs.Io.KnownBytes.{Consumes, IsAtEnd, Appends, Keeps};

use std::io;
use std::io::{ErrorKind, Read, Write};

/// Reads until the buffer is full or the reader ends, and answers how many bytes it got.
pub(crate) fn fill<R: Read>(reader: &mut R, buf: &mut [u8]) -> io::Result<usize>
    ensures count { IfOk result (λ n. n ≤ length buf.old) }
    ensures bytes { IfSome (R.remaining reader.old) (λ left. IfOk result (λ n.
        (n ≡ min (length buf.old) (length left)) × (take n buf.new ≡ take n left))) }
    ensures rest { IfSome (R.remaining reader.old) (λ left. IfOk result (λ n.
        R.remaining reader.new ≡ Some (drop n left))) }
    ensures retried { IfErr result (λ e. error_kind e ≢ ErrorKind.Interrupted) }
{
    let mut n = 0;
    'fill: while n < buf.len() {
        let more = read_once(reader, &mut buf[n..])?;
        if more == 0 {
            break;
        }
        n += more;
    }
    Ok(n)
}

/// Writes all of the piece. After an `Err` a prefix of it is written.
pub(crate) fn put_whole<W: Write>(writer: &mut W, piece: &[u8]) -> io::Result<()>
    ensures ok { OnOk result (Appends (W.contents writer.old) (W.contents writer.new) piece.now) }
    ensures err { OnErr result ((n : ℕ) ×
        Appends (W.contents writer.old) (W.contents writer.new) (take n piece.now)) }
    ensures retried { IfErr result (λ e. error_kind e ≢ ErrorKind.Interrupted) }
{
    let mut n = 0;
    'put: while n < piece.len() {
        let more = write_once(writer, &piece[n..])?;
        if more == 0 {
            return Err(io::Error::from(ErrorKind::WriteZero));
        }
        n += more;
    }
    Ok(())
}

/// One read that isn't interrupted.
fn read_once<R: Read>(reader: &mut R, buf: &mut [u8]) -> io::Result<usize>
    ensures count { IfOk result (λ n. n ≤ length buf.old) }
    ensures bytes { IfOk result (λ n.
        Consumes (R.remaining reader.old) (R.remaining reader.new) (take n buf.new)) }
    ensures ends { IfOk result (λ n. n ≡ 0 → 0 < length buf.old → IsAtEnd (R.remaining reader.new)) }
    ensures retried { IfErr result (λ e. error_kind e ≢ ErrorKind.Interrupted) }
{
    'tries: for _ in 0..u64::MAX {
        match reader.read(buf) {
            Ok(n) => return Ok(n),
            Err(error) => {
                if error.kind() != ErrorKind::Interrupted {
                    return Err(error);
                }
            }
        }
    }
    Err(io::Error::from(ErrorKind::TimedOut))
}

/// One write that isn't interrupted.
fn write_once<W: Write>(writer: &mut W, piece: &[u8]) -> io::Result<usize>
    ensures count { IfOk result (λ n. n ≤ length piece.now) }
    ensures ok { IfOk result (λ n.
        Appends (W.contents writer.old) (W.contents writer.new) (take n piece.now)) }
    ensures err { OnErr result (Keeps (W.contents writer.old) (W.contents writer.new)) }
    ensures retried { IfErr result (λ e. error_kind e ≢ ErrorKind.Interrupted) }
{
    'tries: for _ in 0..u64::MAX {
        match writer.write(piece) {
            Ok(n) => return Ok(n),
            Err(error) => {
                if error.kind() != ErrorKind::Interrupted {
                    return Err(error);
                }
            }
        }
    }
    Err(io::Error::from(ErrorKind::TimedOut))
}
