//! Input and output that wait for the other end of a non-blocking pipe.

ghost use Rattle.std.specs.Prelude.{◌≡◌};

use std::io::{ErrorKind, Read, Write};
use std::time::{Clock, Duration};
use std::{io, thread};

/// How many milliseconds to wait if nothing can be read or written at the moment.
const PAUSE: u64 = 1;

/// A reader that waits until the one below gives bytes or ends.
///
/// A non-blocking pipe refuses a read when it is empty (`WouldBlock`). This reader then waits a
/// millisecond and tries again, up to 2^64 - 1 times, as a blocking pipe would; any other result is
/// passed on.
#[derive(Drop)]
pub struct WaitingInput<'a, R, C> {
    input: R,
    clock: &'a C,
}

impl<'a, R, C> WaitingInput<'a, R, C> {
    /// Wraps a reader; waits by this clock.
    pub fn new(input: R, clock: &'a C) -> WaitingInput<'a, R, C>
        ensures { result.input ≡ input }
    {
        WaitingInput { input, clock }
    }
}

impl<R: Read, C: Clock> Read for WaitingInput<'_, R, C> {
    ghost remaining = { λ s. R.remaining s.input };

    #[tactic(auto, using(crate::proofs::Refusals::read_after))]
    fn read(&mut self, buf: &mut [u8]) -> io::Result<usize> {
        for _ in 0..u64::MAX {
            match self.input.read(buf) {
                Err(error) if error.kind() == ErrorKind::WouldBlock => {
                    thread::sleep(self.clock, Duration::from_millis(PAUSE));
                }
                answer => return answer,
            }
        }
        Err(io::Error::from(ErrorKind::WouldBlock))
    }
}

/// A writer that waits until the one below takes bytes.
///
/// A non-blocking pipe, as Node makes them, refuses a write when it is full (`WouldBlock`). This
/// writer then waits a millisecond and tries again, up to 2^64 - 1 times, as a blocking pipe would;
/// any other result is passed on.
#[derive(Drop)]
pub struct WaitingOutput<'a, W, C> {
    output: W,
    clock: &'a C,
}

impl<'a, W, C> WaitingOutput<'a, W, C> {
    /// Wraps a writer; waits by this clock.
    pub fn new(output: W, clock: &'a C) -> WaitingOutput<'a, W, C>
        ensures { result.output ≡ output }
    {
        WaitingOutput { output, clock }
    }
}

impl<W: Write, C: Clock> Write for WaitingOutput<'_, W, C> {
    ghost contents = { λ s. W.contents s.output };

    #[tactic(auto, using(crate::proofs::Refusals::written_after))]
    fn write(&mut self, buf: &[u8]) -> io::Result<usize> {
        for _ in 0..u64::MAX {
            match self.output.write(buf) {
                Err(error) if error.kind() == ErrorKind::WouldBlock => {
                    thread::sleep(self.clock, Duration::from_millis(PAUSE));
                }
                answer => return answer,
            }
        }
        Err(io::Error::from(ErrorKind::WouldBlock))
    }

    fn flush(&mut self) -> io::Result<()> {
        self.output.flush()
    }
}
