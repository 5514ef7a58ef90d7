//! Connections one after another.
ghost use Rattle.std.specs.Prelude.{◌≡◌, ◌≢◌, ◌≤◌, ◌*◌, List, ℕ, Err, IfErr, IfOk, IsErrOf, Ok, OnOk, OnErr, false, length};
ghost use Rattle.std.specs.Duration.{as_nanos};
ghost use Rattle.std.specs.Int.NonZero.{non_zero_u32_get};
ghost use Rattle.std.specs.Io.KnownBytes.{Appends};
ghost use Rattle.queue_core.specs.Limits.{IsMoment};
ghost use Rattle.queue_core.specs.World.{World};
ghost use Rattle.queue_core.specs.declared.book.BookFault.{BookFault};
ghost use Rattle.http_front.specs.Books.{ComesTo};
ghost use Rattle.http_front.specs.Connections.{WorkedOver};
ghost use Rattle.http_front.specs.Turns.{most_requests};
ghost use Rattle.print_server.specs.Connections.{ConnectedOver, IsAtMostOneMore, ServedOver};
ghost use Rattle.print_server.specs.Lines.{served_line, served_lines};

use crate::connection::{acted_of, drain, has_fault, is_ended_here};
use crate::fault::ServerFault;
use crate::lines::tell_served;
use crate::listening::next_stream;
use crate::moment::present_moment;
use crate::timed::TimedStream;
use http_front::serve;
use queue_core::{BookFault, QueueBook, sweep};
use queue_types::job::JobList;
use queue_types::settings::Settings;
use std::alloc::Global;
use std::io;
use std::io::Write;
use std::net::{Shutdown, TcpListener, TcpStream};
use std::num::NonZeroU32;
use std::rt::Clock;
use std::time::Duration;

/// How connections are served, one after another.
#[derive(Clone, Copy)]
pub struct Service<'a> {
    /// What memory is taken from.
    pub alloc: Global,
    /// Where they come in.
    pub listener: &'a TcpListener,
    /// The settings of the book's queue.
    pub settings: &'a Settings,
    /// How many seconds one read or one write may wait. A timeout ends its connection alone, and so does the end of the time that a connection
    /// has in all, 60 timeouts.
    pub timeout: NonZeroU32,
}

/// The time that a connection has in all, in timeouts.
const MOST_TIMEOUTS: u64 = 60;

/// How many seconds one read waits for what a client sends behind its last request.
const LINGER_SECONDS: u64 = 1;

/// How many seconds all these reads may take.
const MOST_LINGER_SECONDS: u64 = 10;

/// The time that a connection has in all, where one read or write may wait so many seconds.
fn connection_time(timeout: NonZeroU32) -> Duration
    ensures { as_nanos result ≡ 60 * (non_zero_u32_get timeout * 1000000000) }
{
    Duration::from_secs(u64::from(timeout.get()) * MOST_TIMEOUTS)
}

/// Readies a stream: no read and no write waits longer than so many seconds, none begins once 60 times as many are over, and small writes go
/// out at once.
fn prepare<'a, C: Clock>(
    stream: &'a TcpStream,
    clock: &'a C,
    timeout: NonZeroU32,
) -> io::Result<TimedStream<'a, &'a C>>
    ensures { IfOk result (λ s. as_nanos s.time ≡ 60 * (non_zero_u32_get timeout * 1000000000)) }
{
    let wait = Duration::from_secs(u64::from(timeout.get()));
    stream.set_read_timeout(Some(wait))?;
    stream.set_write_timeout(Some(wait))?;
    stream.set_nodelay(true)?;
    TimedStream::new(stream, clock, connection_time(timeout))
}

/// Says to a client that no more comes, and readies the stream for what it still sends: no read waits longer than a second, and none begins
/// once ten are over.
fn end_writing<'a, C: Clock>(
    stream: &'a TcpStream,
    clock: &'a C,
) -> io::Result<TimedStream<'a, &'a C>>
    ensures { IfOk result (λ s. as_nanos s.time ≡ 10 * 1000000000) }
{
    stream.shutdown(Shutdown::Write)?;
    stream.set_read_timeout(Some(Duration::from_secs(LINGER_SECONDS)))?;
    TimedStream::new(stream, clock, Duration::from_secs(MOST_LINGER_SECONDS))
}

/// Ends a stream whose client may still be sending: says that no more comes, and reads past what does. A stream that is closed with bytes
/// unread is reset, and its client may then lose the answer that it was sent (RFC 9112, section 9.6).
fn linger<C: Clock>(stream: &TcpStream, clock: &C) -> io::Result<()> {
    let mut timed = end_writing(stream, clock)?;
    drain(&mut timed);
    Ok(())
}

/// What came of a connection.
#[derive(Clone, Copy)]
struct Outcome {
    /// How many of its requests acted.
    acted: u32,
    /// One of them met a fault, or the sweep before them did.
    has_fault: bool,
}

/// What is known of a book.
#[derive(Clone, Copy)]
pub enum Standing {
    /// No error has shut it.
    Live,
    /// A request or a sweep met a fault, and it wasn't seen since then whether the book can still be read.
    Unseen,
}

impl Standing {
    /// After a connection with its sweep, one of which met a fault, or none did.
    fn behind(self, has_fault: bool) -> Standing
        ensures { result ≡ Standing.Live → (has_fault ≡ false) × (self ≡ Standing.Live) }
    {
        if has_fault { Standing::Unseen } else { self }
    }
}

/// What a look at the book tells of it. A book that can't be read, where memory is there, is lost.
fn after_look(look: Result<JobList, BookFault>) -> Result<Standing, BookFault>
    ensures whole { IfOk look (λ jobs. result ≡ Ok Standing.Live) }
    ensures wanting { IsErrOf look BookFault.Memory → result ≡ Ok Standing.Unseen }
    ensures lost { IfErr look (λ e. e ≢ BookFault.Memory → result ≡ Err e) }
{
    match look {
        Ok(_) => Ok(Standing::Live),
        Err(BookFault::Memory) => Ok(Standing::Unseen),
        Err(fault) => Err(fault),
    }
}

/// Looks whether the book can still be read.
fn check_book<B: QueueBook>(book: &mut B) -> Result<Standing, BookFault>
    ensures began { B.is_honest book.new → B.is_honest book.old }
    ensures kept { (w : World) → B.stands book.old w → B.stands book.new w }
    ensures left { B.is_honest book.new → (v w : World) → B.crash_leaves book.old v w → B.crash_leaves book.new v w }
    ensures damaged { B.is_honest book.new → IfErr result (λ e. e ≡ BookFault.Damaged → (w : World) → ¬ B.stands book.old w) }
    ensures live { B.is_honest book.new → result ≡ Ok Standing.Live → B.is_live book.new }
    ensures wanting { result ≢ Err BookFault.Memory }
{
    after_look(book.pending())
}

impl Service<'_> {
    /// Serves a connection at a moment and closes it. One that can't be readied, as its client has gone away or the monotonic clock can't be read, is let go.
    fn serve_stream<C: Clock, B: QueueBook>(
        self,
        clock: &C,
        stream: TcpStream,
        book: &mut B,
        now: u32,
    ) -> Outcome
        requires { IsMoment now }
        ensures began { B.is_honest book.new → B.is_honest book.old }
        ensures worked { ComesTo B.QueueBook book.old book.new self.entry.settings.now (λ w u.
            WorkedOver (B.crash_leaves book.old) (B.crash_leaves book.new) now w u result.acted) }
        ensures few { result.acted ≤ most_requests }
        ensures live { B.is_honest book.new → B.is_live book.old → result.has_fault ≡ false → B.is_live book.new }
    {
        let Ok(timed) = prepare(&stream, clock, self.timeout) else {
            return Outcome {
                acted: 0,
                has_fault: false,
            };
        };
        let mut reader = timed;
        let mut writer = timed;
        let served = serve(
            self.alloc,
            &mut reader,
            &mut writer,
            book,
            self.settings,
            now,
        );
        if is_ended_here(served) {
            // whatever comes of it, the connection ends here
            let _ = linger(&stream, clock);
        }
        Outcome {
            acted: acted_of(served),
            has_fault: has_fault(served),
        }
    }

    /// Ends the jobs that have expired at this moment, then serves a connection and closes it. If the sweep meets a fault, no job ends, and
    /// the connection is served all the same.
    fn sweep_and_serve<C: Clock, B: QueueBook>(
        self,
        clock: &C,
        stream: TcpStream,
        book: &mut B,
        now: u32,
    ) -> Outcome
        requires { IsMoment now }
        ensures began { B.is_honest book.new → B.is_honest book.old }
        ensures worked { ComesTo B.QueueBook book.old book.new self.entry.settings.now (λ w u.
            ConnectedOver (B.crash_leaves book.old) (B.crash_leaves book.new) w u result.acted) }
        ensures few { result.acted ≤ most_requests }
        ensures live { B.is_honest book.new → result.has_fault ≡ false → B.is_live book.new }
    {
        let swept = sweep(book, now);
        let outcome = self.serve_stream(clock, stream, book, now);
        Outcome {
            acted: outcome.acted,
            has_fault: swept.is_err() || outcome.has_fault,
        }
    }

    /// Takes the next connection, ends the jobs that have expired at the moment when it was taken, serves it at that moment, and
    /// prints `served ACTED`.
    fn serve_one<C: Clock, O: Write, B: QueueBook>(
        self,
        clock: &C,
        out: &mut O,
        book: &mut B,
    ) -> io::Result<Outcome>
        ensures began { B.is_honest book.new → B.is_honest book.old }
        ensures ok { B.is_honest book.new → OnOk result ((w : World) → B.stands book.old w → self.entry.settings.now ≡ w.settings
            → (served : ServedOver B.QueueBook book.old book.new w) × (length served.counts ≡ 1)
            × Appends (O.contents out.old) (O.contents out.new) (served_lines served.counts)) }
        ensures err { B.is_honest book.new → OnErr result ((w : World) → B.stands book.old w → self.entry.settings.now ≡ w.settings
            → (served : ServedOver B.QueueBook book.old book.new w) × (length served.counts ≤ 1)) }
        ensures live { B.is_honest book.new → B.is_live book.old → IfOk result (λ outcome. outcome.has_fault ≡ false → B.is_live book.new) }
        // over any book, also one that is not honest
        ensures printed { IfOk result (λ outcome. Appends (O.contents out.old) (O.contents out.new) (served_line outcome.acted)) }
    {
        let stream = next_stream(self.listener)?;
        let now = present_moment(clock, self.settings.epoch())?;
        let outcome = self.sweep_and_serve(clock, stream, book, now);
        tell_served(out, outcome.acted)?;
        Ok(outcome)
    }

    /// Takes the next connection, ends the jobs that have expired at the moment when it was taken, serves it at that moment, and
    /// prints `served ACTED`. Where a request or the sweep
    /// met a fault, or one had met one before and the book wasn't seen since, the book is looked at.
    fn serve_next<C: Clock, O: Write, B: QueueBook>(
        self,
        clock: &C,
        out: &mut O,
        book: &mut B,
        before: Standing,
    ) -> Result<Standing, ServerFault>
        ensures began { B.is_honest book.new → B.is_honest book.old }
        ensures ok { B.is_honest book.new → OnOk result ((w : World) → B.stands book.old w → self.entry.settings.now ≡ w.settings
            → (served : ServedOver B.QueueBook book.old book.new w) × (length served.counts ≡ 1)
            × Appends (O.contents out.old) (O.contents out.new) (served_lines served.counts)) }
        ensures err { B.is_honest book.new → OnErr result ((w : World) → B.stands book.old w → self.entry.settings.now ≡ w.settings
            → (served : ServedOver B.QueueBook book.old book.new w) × (length served.counts ≤ 1)) }
        // where the book ends it, the connection's count was printed
        ensures told { B.is_honest book.new → IfErr result (λ f. (e : BookFault) → f ≡ ServerFault.Book e
            → (w : World) → B.stands book.old w → self.entry.settings.now ≡ w.settings
            → (served : ServedOver B.QueueBook book.old book.new w) × (length served.counts ≡ 1)
            × Appends (O.contents out.old) (O.contents out.new) (served_lines served.counts)) }
        ensures damaged { B.is_honest book.new → IfErr result (λ f. f ≡ ServerFault.Book BookFault.Damaged
            → (w : World) → B.stands book.old w → self.entry.settings.now ≡ w.settings → ⊥) }
        ensures live { B.is_honest book.new → (before ≡ Standing.Live → B.is_live book.old) → result ≡ Ok Standing.Live → B.is_live book.new }
        ensures wanting { result ≢ Err (ServerFault.Book BookFault.Memory) }
        // over any book, also one that is not honest
        ensures printed { OnOk result ((acted : ℕ) × Appends (O.contents out.old) (O.contents out.new) (served_line acted)) }
        ensures stopped { IfErr result (λ f. (e : BookFault) → f ≡ ServerFault.Book e
            → (acted : ℕ) × Appends (O.contents out.old) (O.contents out.new) (served_line acted)) }
    {
        let outcome = self.serve_one(clock, out, book)?;
        match before.behind(outcome.has_fault) {
            Standing::Live => Ok(Standing::Live),
            Standing::Unseen => Ok(check_book(book)?),
        }
    }

    /// Serves so many connections, one after another, over a book whose queue has the settings, each at the moment by the clock when it is taken, and
    /// prints `served ACTED` as it ends. The jobs that have expired at its moment end before it is served.
    ///
    /// It is an error where no connection can be taken, the clock can't be read or the line can't be written, and where after a fault the book can't be
    /// read any more. The connections before it stay served. A book that there is no memory to look at is looked at behind the next connection again.
    pub fn serve_connections<C: Clock, O: Write, B: QueueBook>(
        self,
        clock: &C,
        out: &mut O,
        book: &mut B,
        connections: u32,
    ) -> Result<Standing, ServerFault>
        ensures began { B.is_honest book.new → B.is_honest book.old }
        // every connection was served, and its count printed; a crash leaves what goes with just these connections
        ensures ok { B.is_honest book.new → OnOk result ((w : World) → B.stands book.old w → self.entry.settings.now ≡ w.settings
            → (served : ServedOver B.QueueBook book.old book.new w) × (length served.counts ≡ connections)
            × Appends (O.contents out.old) (O.contents out.new) (served_lines served.counts)) }
        // some were, and so it does
        ensures err { B.is_honest book.new → OnErr result ((w : World) → B.stands book.old w → self.entry.settings.now ≡ w.settings
            → (served : ServedOver B.QueueBook book.old book.new w) × (length served.counts ≤ connections)) }
        // where the book ends it, every connection's count was printed
        ensures told { B.is_honest book.new → IfErr result (λ f. (e : BookFault) → f ≡ ServerFault.Book e
            → (w : World) → B.stands book.old w → self.entry.settings.now ≡ w.settings
            → (served : ServedOver B.QueueBook book.old book.new w) × (length served.counts ≤ connections)
            × Appends (O.contents out.old) (O.contents out.new) (served_lines served.counts)) }
        // whatever it answers: a crash at any moment leaves the queue that the book stands for, or what the event of one of these connections' requests,
        // which was answered by a fault, or one of their sweeps, which met one, makes of it
        ensures crash { B.is_honest book.new → B.is_live book.old → (w : World) → B.stands book.old w → self.entry.settings.now ≡ w.settings
            → (served : ServedOver B.QueueBook book.old book.new w) × (length served.counts ≤ connections)
            × (x : World) × B.crash_leaves book.new served.queue x × IsAtMostOneMore w served.counts served.queue served.are x }
        // an honest book that stands for a queue with the settings is never called damaged
        ensures damaged { B.is_honest book.new → IfErr result (λ f. f ≡ ServerFault.Book BookFault.Damaged
            → (w : World) → B.stands book.old w → self.entry.settings.now ≡ w.settings → ⊥) }
        // a book that was live and has been shut ends the server, or there was no memory to see it
        ensures live { B.is_honest book.new → B.is_live book.old → result ≡ Ok Standing.Live → B.is_live book.new }
        ensures wanting { result ≢ Err (ServerFault.Book BookFault.Memory) }
        // over any book, also one that is not honest
        ensures printed { OnOk result ((counts : List ℕ) × (length counts ≡ connections)
            × Appends (O.contents out.old) (O.contents out.new) (served_lines counts)) }
        ensures stopped { IfErr result (λ f. (e : BookFault) → f ≡ ServerFault.Book e
            → (counts : List ℕ) × (length counts ≤ connections) × Appends (O.contents out.old) (O.contents out.new) (served_lines counts)) }
    {
        let mut standing = Standing::Live;
        for _round in 0..connections {
            standing = self.serve_next(clock, out, book, standing)?;
        }
        Ok(standing)
    }
}
