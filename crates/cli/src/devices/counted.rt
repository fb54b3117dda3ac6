ghost use Rattle.std.specs.Prelude.{◌≡◌, ◌≢◌, ◌+◌, ◌<◌, ◌≤◌, length, take, IfErr, IfOk};
ghost use Rattle.std.specs.Prelude.{OnErr, OnOk};
ghost use Rattle.std.specs.IoError.{error_kind};
ghost use Rattle.std.specs.Io.KnownBytes.{Appends, Consumes, IsAtEnd, Keeps};
ghost use Rattle.cli.specs.Device.{most_failures, told};
ghost use Rattle.cli.specs.Counted.{device_of, failures_of};

use crate::devices::device::{Failed, Sink, Source};
use std::io;
use std::io::{ErrorKind, Read, Write};

/// An `io::Read` or an `io::Write` as a device that counts its failures.
///
/// A call that a signal interrupts is made again, and is no failure. The count is exact, so a
/// device that has failed 2^64 - 1 times is no longer called: the source is at its end, the sink
/// drops what it gets, and neither reports its bytes. No program runs long enough to see this.
#[derive(Drop)]
pub struct Counted<T> {
    device: T,
    failures: u64,
}

impl<T> Counted<T> {
    /// Makes a device that hasn't failed yet. It doesn't allocate.
    pub fn new(device: T) -> Self
        ensures device { device_of result ≡ device }
        ensures failures { failures_of result ≡ 0 }
    {
        Counted {
            device,
            failures: 0,
        }
    }

    // Counts a failed call of a device that is still called.
    fn fail(&mut self) -> Failed
        requires { failures_of self.old < most_failures }
        ensures device { device_of self.new ≡ device_of self.old }
        ensures counted { failures_of self.new ≡ failures_of self.old + 1 }
    {
        self.failures += 1;
        Failed
    }
}

impl<R: Read> Source for Counted<R> {
    ghost remaining = { λ source. told (failures_of source) (R.remaining (device_of source)) };

    ghost failures = { failures_of };

    fn take(&mut self, buffer: &mut [u8]) -> Result<usize, Failed> {
        if self.failures == u64::MAX {
            return Ok(0);
        }
        match read_on(&mut self.device, buffer) {
            Ok(count) => Ok(count),
            Err(_) => Err(self.fail()),
        }
    }
}

impl<W: Write> Sink for Counted<W> {
    ghost written = { λ sink. told (failures_of sink) (W.contents (device_of sink)) };

    ghost failures = { failures_of };

    fn put(&mut self, piece: &[u8]) -> Result<(), Failed> {
        if self.failures == u64::MAX {
            return Ok(());
        }
        match write_through(&mut self.device, piece) {
            Ok(()) => Ok(()),
            Err(_) => Err(self.fail()),
        }
    }
}

// Reads once, and again as long as a signal interrupts the call.
fn read_on<R: Read>(reader: &mut R, buffer: &mut [u8]) -> io::Result<usize>
    ensures within { IfOk result (λ count. count ≤ length buffer.new) }
    ensures bytes { IfOk result (λ count.
        Consumes (R.remaining reader.old) (R.remaining reader.new) (take count buffer.new)) }
    ensures end { IfOk result (λ count.
        count ≡ 0 → 0 < length buffer.new → IsAtEnd (R.remaining reader.new)) }
    ensures kept { OnErr result (Keeps (R.remaining reader.old) (R.remaining reader.new)) }
    ensures retried { IfErr result (λ error. error_kind error ≢ ErrorKind.Interrupted) }
{
    for _ in 0..u64::MAX {
        match reader.read(buffer) {
            Err(error) if error.kind() == ErrorKind::Interrupted => {}
            result => return result,
        }
    }
    Err(io::Error::from(ErrorKind::TimedOut))
}

// Writes the whole piece, and flushes the writer's own buffer.
fn write_through<W: Write>(writer: &mut W, piece: &[u8]) -> io::Result<()>
    ensures { OnOk result (Appends (W.contents writer.old) (W.contents writer.new) piece.now) }
{
    writer.write_all(piece)?;
    writer.flush()
}
