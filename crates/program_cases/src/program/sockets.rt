//! Clients by sockets: what they send, and what they get.

use crate::desk::compare::{Mismatch, Place, Subject};
use crate::desk::connection::{Wanted, wanted_bytes};
use std::alloc::{AllocError, Global};
use std::io;
use std::io::{Read, Write};
use std::net::{Ipv4Addr, Shutdown, SocketAddr, TcpListener, TcpStream};
use std::time::Duration;

/// The seconds that a client waits for an answer that has been sent before it asks.
const CLIENT_SECONDS: u64 = 10;

/// The tag of the end of an IPP message's attributes (RFC 8010, section 3.5.1).
const END_OF_ATTRIBUTES: u8 = 3;

/// Where comparisons are made.
pub(super) const AT: Place = Place {
    subject: Subject::Server,
    most: usize::MAX,
};

/// How a client comes.
#[derive(Clone, Copy)]
pub(super) enum Comes<'a> {
    /// It sends these parts of a stream, and may send more.
    Sends(&'a [&'a [u8]]),
    /// It sends these and tells that it sends no more.
    SendsLast(&'a [&'a [u8]]),
    /// It sends these and goes away.
    GoesAway(&'a [&'a [u8]]),
}

/// What a client gets before the end of its connection.
#[derive(Clone, Copy)]
pub(super) enum Gets<'a> {
    /// This.
    All(&'a [Wanted<'a>]),
    /// A front of this.
    Front(&'a [Wanted<'a>]),
    /// A reply whose last attribute is an integer, of so much at least and at most.
    Seconds(u32, u32),
}

/// A port that nobody listens on: one that the system has just given and taken back.
pub(super) fn free_port(rt: &HostRuntime) -> io::Result<u16> {
    let listener = TcpListener::bind(rt, SocketAddr::from((Ipv4Addr::LOCALHOST, 0)))?;
    Ok(listener.local_addr()?.port())
}

/// A client that has sent these parts and may send more.
pub(super) fn client_at(
    rt: &HostRuntime,
    address: SocketAddr,
    parts: &[&[u8]],
) -> io::Result<TcpStream> {
    let mut client = TcpStream::connect(rt, address)?;
    client.set_read_timeout(Some(Duration::from_secs(CLIENT_SECONDS)))?;
    for part in parts {
        client.write_all(part)?;
    }
    Ok(client)
}

/// The bytes that a client got are these.
fn compare(alloc: Global, gets: Gets<'_>, came: &[u8]) -> Result<(), Mismatch> {
    match (gets, came) {
        (Gets::All(wanted), _) => AT.same_bytes(wanted_bytes(alloc, wanted)?.as_slice(), came),
        (Gets::Front(wanted), _) => {
            let whole = wanted_bytes(alloc, wanted)?;
            let is_front = whole.as_slice().starts_with(came) && came.len() < whole.len();
            AT.is_so(is_front, "a front of the answer")
        }
        (Gets::Seconds(least, most), [.., a, b, c, d, END_OF_ATTRIBUTES]) => {
            let seconds = u32::from_be_bytes([*a, *b, *c, *d]);
            AT.is_so(
                least <= seconds && seconds <= most,
                "the seconds of an answer",
            )
        }
        (Gets::Seconds(..), _) => Err(AT.not("an integer")),
    }
}

/// The clients of a server that stay, in their order. The first is number 0.
#[derive(Drop)]
pub(super) struct Clients {
    alloc: Global,
    streams: Vec<TcpStream>,
}

impl Clients {
    /// None.
    pub(super) fn new(alloc: Global) -> Clients {
        Clients {
            alloc,
            streams: Vec::new(alloc),
        }
    }

    pub(super) fn is_empty(&self) -> bool {
        self.streams.is_empty()
    }

    /// A client comes, and stays unless it goes away.
    pub(super) fn add(
        &mut self,
        rt: &HostRuntime,
        address: SocketAddr,
        comes: Comes<'_>,
    ) -> Result<(), Mismatch> {
        let (Comes::Sends(parts) | Comes::SendsLast(parts) | Comes::GoesAway(parts)) = comes;
        let client = client_at(rt, address, parts)?;
        if let Comes::SendsLast(_) = comes {
            client.shutdown(Shutdown::Write)?;
        }
        if let Comes::GoesAway(_) = comes {
            return Ok(());
        }
        self.streams.push(client).map_err(AllocError::from)?;
        Ok(())
    }

    /// The stream of the client of this number.
    pub(super) fn stream(&self, client: usize) -> Result<&TcpStream, Mismatch> {
        self.streams
            .get(client)
            .ok_or(AT.not("a client of this number"))
    }

    /// The client of this number gets this, and then the end of its connection.
    pub(super) fn get(&self, client: usize, gets: Gets<'_>) -> Result<(), Mismatch> {
        let mut came = Vec::new(self.alloc);
        let mut stream = self.stream(client)?;
        stream.read_to_end(&mut came)?;
        compare(self.alloc, gets, came.as_slice())
    }
}
