//! A server on a port of the loopback interface with its clients, and what they do in turn.

use crate::desk::compare::{Failed, Mismatch, failed_at};
use crate::desk::messages::PRINT_JOB;
use crate::desk::queue::settings;
use crate::desk::requests::POST_JOB;
use crate::desk::streams::{AT_ONCE, TestWriter, Way};
use crate::program::clocks::{AtLook, TestClock};
use crate::program::sockets::{AT, Clients, Comes, Gets};
use print_server::{ServerFault, Service, Standing, listen};
use queue_core::{BookFault, QueueBook};
use queue_types::settings::Settings;
use std::alloc::Global;
use std::cell::Cell;
use std::io::ErrorKind;
use std::net::{SocketAddr, TcpListener};
use std::num::NonZeroU32;
use std::rt::Clock;
use std::test::Fail;

/// How the clock of a server goes, and what its clients do as it looks at it.
#[derive(Clone, Copy)]
pub(super) enum Pace {
    /// It goes with the machine's.
    OfMachine,
    /// So many seconds pass from each look at it to the next.
    Leaps(u64),
    /// So many pass, and the client of this number sends some bytes at each look.
    SendsOn(u64, usize),
    /// It stands, and the client of this number reads to the end of its connection.
    ReadsOn(usize),
    /// It stands, and the client of this number sends its body once it has its leave.
    SendsWhenTold(usize),
    /// It stands, and the next client goes as its second is looked at.
    TakesAway,
}

/// How a server ends.
#[derive(Clone, Copy)]
pub(super) enum Ends {
    /// It has served all connections.
    Well,
    /// Its book can't be read any more, by this fault.
    Unread(BookFault),
    /// Its line can't be printed.
    Unprinted,
}

/// How a server serves connections.
#[derive(Clone, Copy)]
pub(super) struct Serving<'a> {
    /// How many it is to serve.
    pub(super) connections: u32,
    /// What it prints, and how its writer takes it.
    pub(super) lines: &'a str,
    pub(super) way: Way,
    pub(super) pace: Pace,
    /// The second since 1970 at which its connections come.
    pub(super) second: u64,
    pub(super) ends: Ends,
    /// All of it takes so many seconds at least, and fewer than so many.
    pub(super) seconds: (u64, u64),
    /// So does the longest time from one look at the clock to the next.
    pub(super) wait: (u64, u64),
}

/// Most servers serve so.
pub(super) const USUAL: Serving<'static> = Serving {
    connections: 1,
    lines: "served 1\n",
    way: AT_ONCE,
    pace: Pace::OfMachine,
    second: 41,
    ends: Ends::Well,
    seconds: (0, 60),
    wait: (0, u64::MAX),
};

/// What is done next.
#[derive(Clone, Copy)]
pub(super) enum Step<'a> {
    /// From now on the server waits so many seconds for a client.
    Waits(u32),
    /// A client comes.
    Comes(Comes<'a>),
    /// The server serves so many connections, and prints these lines.
    Serves(u32, &'a str),
    /// It serves so.
    ServesSo(Serving<'a>),
    /// The client of this number, of those that stayed, gets this and then the end of its connection. The first is number 0.
    Gets(usize, Gets<'a>),
}

/// A client prints.
pub(super) const PRINTS: Step<'static> = Step::Comes(Comes::SendsLast(&[POST_JOB, PRINT_JOB]));

/// What is done in turn with a server, by its name.
pub(super) type Row = (&'static str, &'static [Step<'static>]);

/// A server over a book, and the clients that stayed.
#[derive(Drop)]
pub(super) struct Server<B: QueueBook> {
    alloc: Global,
    /// Where its clients wait.
    listener: TcpListener,
    address: SocketAddr,
    settings: Settings,
    book: B,
    clients: Clients,
    /// The seconds that it waits for a client.
    timeout: NonZeroU32,
    /// How often it looked at its clock as it served last.
    pub(super) looks: u64,
}

/// The clock of a server with these clients.
fn clock_of<'a>(
    rt: &'a HostRuntime,
    serving: &Serving<'_>,
    listener: &'a TcpListener,
    clients: &'a Clients,
) -> Result<TestClock<'a>, Mismatch> {
    let (leap, at_look) = match serving.pace {
        Pace::OfMachine => (None, AtLook::Nothing),
        Pace::Leaps(seconds) => (Some(seconds), AtLook::Nothing),
        Pace::SendsOn(seconds, client) => (Some(seconds), AtLook::SendsOn(clients.stream(client)?)),
        Pace::ReadsOn(client) => (Some(0), AtLook::ReadsOn(clients.stream(client)?)),
        Pace::SendsWhenTold(client) => (Some(0), AtLook::SendsWhenTold(clients.stream(client)?)),
        Pace::TakesAway => (Some(0), AtLook::TakesAway(listener)),
    };
    Ok(TestClock::new(rt, serving.second, leap, at_look))
}

/// A server came to this end.
fn is_ended(came: &Result<Standing, ServerFault>, ends: Ends) -> bool {
    match (came, ends) {
        (Ok(_), Ends::Well) => true,
        (Err(ServerFault::Book(fault)), Ends::Unread(wanted)) => *fault == wanted,
        (Err(ServerFault::Io(error)), Ends::Unprinted) => error.kind() == ErrorKind::Other,
        _ => false,
    }
}

/// A number is within such bounds.
fn is_within(number: u64, (least, bound): (u64, u64)) -> bool {
    least <= number && number < bound
}

/// A service serves connections by a clock to a book, and ends as it is to.
fn end_by<B: QueueBook>(
    service: &Service<'_>,
    clock: &TestClock<'_>,
    out: &mut TestWriter<'_>,
    book: &mut B,
    serving: &Serving<'_>,
) -> Result<(), Mismatch> {
    let came = service.serve_connections(clock, out, book, serving.connections);
    AT.is_so(is_ended(&came, serving.ends), "how a server ends")
}

/// It prints what it is to print meanwhile, and its clients get what they are to get.
fn print_by<B: QueueBook>(
    service: &Service<'_>,
    clock: &TestClock<'_>,
    book: &mut B,
    serving: &Serving<'_>,
) -> Result<(), Mismatch> {
    let written = Cell::new(0);
    let mut out = TestWriter::new(service.alloc, serving.way, &written);
    let is_ended = end_by(service, clock, &mut out, book, serving);
    let is_done = AT.is_so(clock.is_done(), "what a client gets while it is served");
    AT.same_bytes(serving.lines.as_bytes(), out.taken.as_slice())
        .and(is_ended)
        .and(is_done)
}

/// It takes the seconds that it is to take.
fn serve_by<B: QueueBook>(
    rt: &HostRuntime,
    service: &Service<'_>,
    clock: &TestClock<'_>,
    book: &mut B,
    serving: &Serving<'_>,
) -> Result<(), Mismatch> {
    let began = rt.monotonic()?;
    print_by(service, clock, book, serving)?;
    let seconds = rt.monotonic()?.saturating_sub(began).as_secs();
    AT.is_so(
        is_within(seconds, serving.seconds) && is_within(clock.longest(), serving.wait),
        "the seconds that a client is waited for",
    )
}

impl<B: QueueBook + Drop> Server<B> {
    /// A server on a port that the system chose, with the queue of a book of a printer with an estimate of 20 pages.
    pub(super) fn over(rt: &HostRuntime, book: B) -> Result<Server<B>, Mismatch> {
        let alloc = rt.alloc();
        let listener = listen(rt, 0)?;
        let address = listener.local_addr()?;
        let settings = settings(alloc)?;
        Ok(Server {
            alloc,
            listener,
            address,
            settings,
            book,
            clients: Clients::new(alloc),
            timeout: NonZeroU32::MIN,
            looks: 0,
        })
    }

    /// Serves connections as it is to.
    fn serve(&mut self, rt: &HostRuntime, serving: &Serving<'_>) -> Result<(), Mismatch> {
        let clock = clock_of(rt, serving, &self.listener, &self.clients)?;
        let service = Service {
            alloc: self.alloc,
            listener: &self.listener,
            settings: &self.settings,
            timeout: self.timeout,
        };
        let came = serve_by(rt, &service, &clock, &mut self.book, serving);
        self.looks = clock.looks();
        came
    }

    /// Takes a step.
    fn take(&mut self, rt: &HostRuntime, step: &Step<'_>) -> Result<(), Mismatch> {
        match step {
            Step::Waits(seconds) => {
                self.timeout = NonZeroU32::new(*seconds).unwrap_or(NonZeroU32::MIN);
                Ok(())
            }
            Step::Comes(comes) => self.clients.add(rt, self.address, *comes),
            Step::Serves(connections, lines) => {
                let serving = Serving {
                    connections: *connections,
                    lines: *lines,
                    ..USUAL
                };
                self.serve(rt, &serving)
            }
            Step::ServesSo(serving) => self.serve(rt, serving),
            Step::Gets(client, gets) => self.get(*client, *gets),
        }
    }

    /// The client of this number gets this, and then the end of its connection.
    pub(super) fn get(&self, client: usize, gets: Gets<'_>) -> Result<(), Mismatch> {
        self.clients.get(client, gets)
    }

    /// Takes the steps of a row, one after another.
    pub(super) fn take_each(
        &mut self,
        rt: &HostRuntime,
        row: &str,
        steps: &[Step<'_>],
    ) -> Result<(), Failed> {
        for (step, it) in steps.iter().enumerate() {
            if let Err(why) = self.take(rt, it) {
                return Err(failed_at(row, step, why));
            }
        }
        Ok(())
    }
}

/// Takes the steps of a row with a server over a book.
pub(super) fn take_row<B: QueueBook + Drop>(
    rt: &HostRuntime,
    book: B,
    row: &str,
    steps: &[Step<'_>],
) -> Result<(), Fail> {
    let mut server = Server::over(rt, book)?;
    server.take_each(rt, row, steps)?;
    Ok(())
}
