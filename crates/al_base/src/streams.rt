//! Readers and writers that count what they did and what failed.
ghost use Rattle.std.specs.Prelude.{◌≡◌, length, max, OnOk, OnErr, IsOkUnless};
ghost use Rattle.std.specs.Io.{ReadsAtMost};
ghost use Rattle.std.specs.Io.KnownBytes.{Keeps, ReadConsumes};
ghost use Rattle.al_base.specs.Counted.{count_after, HasRisen};
ghost use Rattle.al_base.specs.Streams.{WritesOrFails, bytes_left, bytes_written, largest_ask};
ghost use Rattle.al_base.specs.Streams.{read_failures, turns_of};
ghost use Rattle.al_base.specs.Streams.{write_failures};

use super::stops::Stop;
use std::io::{Read, Write};

/// A reader that counts its reads and those that failed, and remembers the length of the largest
/// buffer that it was given. Both counts saturate at 2^64 - 1.
#[derive(Drop)]
pub struct Input<R> {
    inner: R,
    turns: u64,
    failures: u64,
    largest_ask: usize,
}

/// A writer that counts the writes that failed: those that returned an error, and those that took
/// none of some bytes. The count saturates at 2^64 - 1.
#[derive(Drop)]
pub struct Output<W> {
    inner: W,
    failures: u64,
}

impl<R: Read> Input<R> {
    /// Wraps a reader, with both counts and the length at 0. Reads nothing.
    pub fn new(inner: R) -> Input<R>
        ensures bytes { bytes_left R.remaining result ≡ R.remaining inner }
        ensures turns { turns_of result ≡ 0 }
        ensures failures { read_failures result ≡ 0 }
        ensures asked { largest_ask result ≡ 0 }
    {
        Input {
            inner,
            turns: 0,
            failures: 0,
            largest_ask: 0,
        }
    }

    /// How many reads were made, failed ones included.
    pub fn turns(&self) -> u64
        ensures { result ≡ turns_of self.now }
    {
        self.turns
    }

    /// How many reads failed.
    pub fn failures(&self) -> u64
        ensures { result ≡ read_failures self.now }
    {
        self.failures
    }

    /// The length in bytes of the largest buffer that was given to a read.
    pub fn largest_ask(&self) -> usize
        ensures { result ≡ largest_ask self.now }
    {
        self.largest_ask
    }

    /// Makes one read of at most the buffer's length, and returns how many bytes it gave: 0 at the
    /// end, or if the buffer is empty.
    ///
    /// # Errors
    ///
    /// [`Stop::ReadFault`] if the inner read returns an error, interruption by a signal included;
    /// this counts as a failure.
    pub fn read(&mut self, buf: &mut [u8]) -> Result<usize, Stop>
        ensures bound { ReadsAtMost result buf.new }
        ensures bytes { ReadConsumes (bytes_left R.remaining self.old)
            (bytes_left R.remaining self.new) result buf.new }
        ensures turns { turns_of self.new ≡ count_after (turns_of self.old) 1 }
        ensures asked { largest_ask self.new ≡ max (largest_ask self.old) (length buf.old) }
        ensures failures { OnOk result (read_failures self.new ≡ read_failures self.old) }
        ensures failed { OnErr result (HasRisen (read_failures self.old) (read_failures self.new)) }
        ensures err { IsOkUnless result Stop.ReadFault }
    {
        self.turns = self.turns.saturating_add(1);
        self.largest_ask = self.largest_ask.max(buf.len());
        let Ok(count) = self.inner.read(buf) else {
            self.failures = self.failures.saturating_add(1);
            return Err(Stop::ReadFault);
        };
        Ok(count)
    }
}

impl<W: Write> Output<W> {
    /// Wraps a writer, with the count at 0. Writes nothing.
    pub fn new(inner: W) -> Output<W>
        ensures bytes { bytes_written W.contents result ≡ W.contents inner }
        ensures failures { write_failures result ≡ 0 }
    {
        Output { inner, failures: 0 }
    }

    /// How many writes failed.
    pub fn failures(&self) -> u64
        ensures { result ≡ write_failures self.now }
    {
        self.failures
    }

    /// Writes all of the bytes, in as many writes as the inner writer needs.
    ///
    /// # Errors
    ///
    /// [`Stop::WriteFault`] if a write failed; a prefix of the bytes has then been written.
    pub fn write_all(&mut self, bytes: &[u8]) -> Result<(), Stop>
        ensures { WritesOrFails W.contents self.old self.new result bytes.now }
    {
        let mut done = 0;
        while done < bytes.len() {
            match self.inner.write(&bytes[done..]) {
                Ok(count) if count > 0 => done += count,
                _ => {
                    self.failures = self.failures.saturating_add(1);
                    return Err(Stop::WriteFault);
                }
            }
        }
        Ok(())
    }

    /// Flushes the inner writer.
    ///
    /// # Errors
    ///
    /// [`Stop::WriteFault`] if that failed, which counts as a failed write.
    pub fn flush(&mut self) -> Result<(), Stop>
        ensures bytes { Keeps (bytes_written W.contents self.old)
            (bytes_written W.contents self.new) }
        ensures failures { OnOk result (write_failures self.new ≡ write_failures self.old) }
        ensures failed { OnErr result
            (HasRisen (write_failures self.old) (write_failures self.new)) }
        ensures err { IsOkUnless result Stop.WriteFault }
    {
        if self.inner.flush().is_err() {
            self.failures = self.failures.saturating_add(1);
            return Err(Stop::WriteFault);
        }
        Ok(())
    }
}
