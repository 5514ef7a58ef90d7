//! Clocks of a server, at which something happens as it looks at them.

use crate::desk::messages::PRINT_JOB;
use std::cell::Cell;
use std::io;
use std::io::{Read, Write};
use std::net::{TcpListener, TcpStream};
use std::rt::Clock;
use std::time::Duration;

/// What tells a client to send its body.
const LEAVE: [u8; 25] = *b"HTTP/1.1 100 Continue\r\n\r\n";

/// How long a client that is served waits for what has come.
const CLIENT_MILLISECONDS: u64 = 100;

/// What happens at each look at a clock.
#[derive(Clone, Copy)]
pub(super) enum AtLook<'a> {
    Nothing,
    /// This client sends some bytes more.
    SendsOn(&'a TcpStream),
    /// This client reads what has come, up to the end where that has come too.
    ReadsOn(&'a TcpStream),
    /// This client, which waits for its leave, sends the body of a Print-Job where it has it.
    SendsWhenTold(&'a TcpStream),
    /// The next client goes as the second is looked at.
    TakesAway(&'a TcpListener),
}

/// A clock of a server.
#[derive(Drop)]
pub(super) struct TestClock<'a> {
    rt: &'a HostRuntime,
    /// The second since 1970 that it shows.
    second: u64,
    /// The seconds that pass from each look to the next, if it doesn't go with the machine's.
    leap: Option<u64>,
    at_look: AtLook<'a>,
    looks: Cell<u64>,
    last: Cell<Duration>,
    longest: Cell<Duration>,
    /// A client has read the end, or has sent its body.
    is_done: Cell<bool>,
}

impl<'a> TestClock<'a> {
    /// One at which nobody has looked.
    pub(super) fn new(
        rt: &'a HostRuntime,
        second: u64,
        leap: Option<u64>,
        at_look: AtLook<'a>,
    ) -> TestClock<'a> {
        TestClock {
            rt,
            second,
            leap,
            at_look,
            looks: Cell::new(0),
            last: Cell::new(Duration::MAX),
            longest: Cell::new(Duration::ZERO),
            is_done: Cell::new(false),
        }
    }

    /// How often it was looked at.
    pub(super) fn looks(&self) -> u64 {
        self.looks.get()
    }

    /// The most seconds from one look to the next.
    pub(super) fn longest(&self) -> u64 {
        self.longest.get().as_secs()
    }

    /// A client has read the end, or has sent its body, if one was to.
    pub(super) fn is_done(&self) -> bool {
        match self.at_look {
            AtLook::ReadsOn(_) | AtLook::SendsWhenTold(_) => self.is_done.get(),
            _ => true,
        }
    }

    /// This client reads what has come, and the end behind it.
    fn read_on(&self, mut client: &TcpStream) {
        let mut bytes = [0; 4096];
        let _ = client.set_read_timeout(Some(Duration::from_millis(CLIENT_MILLISECONDS)));
        for _ in 0..2 {
            if matches!(client.read(bytes.as_mut_slice()), Ok(0)) {
                self.is_done.set(true);
            }
        }
    }

    /// This client sends its body where it is told to.
    fn send_when_told(&self, mut client: &TcpStream) -> io::Result<()> {
        let mut bytes = [0; 25];
        let _ = client.set_read_timeout(Some(Duration::from_millis(CLIENT_MILLISECONDS)));
        if matches!(client.read(bytes.as_mut_slice()), Ok(25)) && bytes == LEAVE {
            self.is_done.set(true);
            return client.write_all(PRINT_JOB);
        }
        Ok(())
    }

    /// What happens at a look.
    fn happen(&self) -> io::Result<()> {
        match self.at_look {
            AtLook::SendsOn(mut client) => client.write_all(b"01234567"),
            AtLook::ReadsOn(client) => {
                self.read_on(client);
                Ok(())
            }
            AtLook::SendsWhenTold(client) => self.send_when_told(client),
            AtLook::Nothing | AtLook::TakesAway(_) => Ok(()),
        }
    }
}

impl Clock for TestClock<'_> {
    fn monotonic(&self) -> io::Result<Duration> {
        self.happen()?;
        let looks = self.looks.get();
        self.looks.set(looks.saturating_add(1));
        let now = match self.leap {
            Some(seconds) => Duration::from_secs(looks.saturating_mul(seconds)),
            None => self.rt.monotonic()?,
        };
        let passed = now.saturating_sub(self.last.get());
        self.last.set(now);
        self.longest.set(passed.max(self.longest.get()));
        Ok(now)
    }

    fn since_1970(&self) -> io::Result<Duration> {
        if let AtLook::TakesAway(listener) = self.at_look {
            let _gone = listener.accept()?;
        }
        Ok(Duration::from_secs(self.second))
    }
}
