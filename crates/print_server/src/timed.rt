//! A stream that has so much time.
ghost use Rattle.std.specs.Prelude.{◌≡◌, ◌≤◌, ◌↔◌, IfOk, IsTrue};
ghost use Rattle.std.specs.Duration.{as_nanos};

use std::io;
use std::io::{ErrorKind, Read, Write};
use std::net::TcpStream;
use std::rt::Clock;
use std::time::{Duration, Instant};

/// A stream that has so much time: once it is over each read and each write fails as timed out, whatever the peer does. One that waits then
/// goes on to the stream's own timeout.
///
/// What a clock tells no contract knows, so that the time is looked at is tested.
#[derive(Clone, Copy)]
pub(crate) struct TimedStream<'a, C> {
    stream: &'a TcpStream,
    /// What its time is told by.
    clock: C,
    /// When its time began.
    start: Instant,
    /// How much time it has in all.
    pub(crate) time: Duration,
}

/// Whether a time is over once so much of it is spent.
fn is_over(time: Duration, spent: Duration) -> bool
    ensures { IsTrue result ↔ (as_nanos time ≤ as_nanos spent) }
{
    spent.checked_sub(time).is_some()
}

impl<'a, C: Clock> TimedStream<'a, C> {
    /// The stream, with so much time from now on. It is an error where the clock can't be read.
    pub(crate) fn new(
        stream: &'a TcpStream,
        clock: C,
        time: Duration,
    ) -> io::Result<TimedStream<'a, C>>
    where
        C: Copy,
        ensures { IfOk result (λ s. s.time ≡ time) }
    {
        let start = Instant::now(&clock)?;
        Ok(TimedStream {
            stream,
            clock,
            start,
            time,
        })
    }

    /// It is an error where its time is over, or the clock can't be read.
    fn check_time(&self) -> io::Result<()> {
        if is_over(self.time, self.start.elapsed(&self.clock)?) {
            Err(io::Error::from(ErrorKind::TimedOut))
        } else {
            Ok(())
        }
    }
}

impl<C: Clock> Read for TimedStream<'_, C> {
    fn read(&mut self, buf: &mut [u8]) -> io::Result<usize> {
        self.check_time()?;
        let mut stream = self.stream;
        stream.read(buf)
    }
}

impl<C: Clock> Write for TimedStream<'_, C> {
    fn write(&mut self, buf: &[u8]) -> io::Result<usize> {
        self.check_time()?;
        let mut stream = self.stream;
        stream.write(buf)
    }

    fn flush(&mut self) -> io::Result<()> {
        let mut stream = self.stream;
        stream.flush()
    }
}
