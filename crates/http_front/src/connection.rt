//! A whole connection: its requests one after another, to its end.
ghost use Rattle.std.specs.Prelude.{◌≡◌, ◌+◌, ◌^◌, ◌<◌, ◌≤◌, IfErr, IfOk, IfSome, false, if◌then◌else◌};
ghost use Rattle.std.specs.Option.{ForSome};
ghost use Rattle.queue_core.specs.Limits.{IsMoment};
ghost use Rattle.queue_core.specs.World.{World};
ghost use Rattle.http_head.specs.Reads.{bytes_left, reads_left};
ghost use Rattle.http_head.specs.Routes.{routes};
ghost use Rattle.http_front.specs.Books.{ComesTo};
ghost use Rattle.http_front.specs.Connections.{IsFaultless, IsServed, IsStopped, MarksFaults, Worked, WorkedOver, acted_of};
ghost use Rattle.http_front.specs.Crash.{CarriesAll, IsAtMostOneMore};
ghost use Rattle.http_front.specs.Framed.{AreFramed};
ghost use Rattle.http_front.specs.Turns.{most_requests};

use crate::context::Context;
use crate::outcome::{ServeFault, Served, Turned};
use crate::turn::turn;
use http_head::end::End;
use http_head::input::Input;
use http_head::routes::{Route, router};
use matchit::Router;
use queue_core::QueueBook;
use queue_types::settings::Settings;
use std::alloc::Global;
use std::io::{Read, Write};

/// Sets bit k where request k was answered by a fault.
fn mark(faults: u32, k: u32, is_fault: bool) -> u32
    requires below { faults < 2 ^ k }
    requires place { k < most_requests }
    ensures exact { result ≡ faults + (if is_fault then 2 ^ k else 0) }
    ensures within { result < 2 ^ (k + 1) }
    ensures none { result ≡ 0 → (faults ≡ 0) × (is_fault ≡ false) }
{
    if is_fault { faults + (1 << k) } else { faults }
}

/// Takes one turn after another, to the end of the connection.
fn run<R: Read, W: Write, B: QueueBook>(
    context: Context<'_>,
    router: Option<&Router<Route>>,
    input: &mut Input<R>,
    writer: &mut W,
    book: &mut B,
) -> Result<Served, ServeFault>
    requires router { ForSome router (λ r. r.now ≡ routes) }
    requires moment { IsMoment context.now }
    ensures began { B.is_honest book.new → B.is_honest book.old }
    ensures served { IfOk result (λ served. ComesTo B.QueueBook book.old book.new context.entry.settings.now (λ w u.
        IfSome (bytes_left R.Read input.old) (IsServed (B.crash_leaves book.old) (B.crash_leaves book.new)
        context.entry.now w u (W.contents writer.old) (W.contents writer.new) served))) }
    ensures broken { IfErr result (λ fault. ComesTo B.QueueBook book.old book.new context.entry.settings.now (λ w u.
        IfSome (bytes_left R.Read input.old) (IsStopped (B.crash_leaves book.old) (B.crash_leaves book.new)
        context.entry.now w u (W.contents writer.old) (W.contents writer.new) fault))) }
    ensures worked { ComesTo B.QueueBook book.old book.new context.entry.settings.now (λ w u.
        (k : Worked most_requests context.entry.now w u (acted_of result))
        × CarriesAll (B.crash_leaves book.old) (B.crash_leaves book.new) context.entry.now k.turns w u × MarksFaults k.turns result) }
    ensures never_more { reads_left input.new ≤ reads_left input.old }
    ensures few { IfOk result (λ served. served.acted ≤ most_requests) }
    ensures few_stopped { IfErr result (λ fault. fault.acted ≤ most_requests) }
    // what shuts a book is answered as a fault, or breaks a document off
    ensures live { B.is_honest book.new → B.is_live book.old → IsFaultless result → B.is_live book.new }
    // over any book, also one that is not honest: each response has as many bytes of content as its head tells, and the last alone ends
    // the connection, as it ended
    ensures framed { IfOk result (λ served. AreFramed (W.contents writer.old) (W.contents writer.new) served.end) }
{
    let mut acted = 0;
    let mut faults = 0;
    let mut k = 0;
    'turns: loop {
        match turn(context, router, input, writer, book, k) {
            Ok(Turned::Answered { tally, closes }) => {
                acted += u32::from(tally.acted);
                faults = mark(faults, k, tally.is_fault);
                if closes {
                    return Ok(Served {
                        acted,
                        faults,
                        end: End::Done,
                    });
                }
                k += 1;
            }
            Ok(Turned::Ended(finish)) => {
                return Ok(Served {
                    acted,
                    faults: mark(faults, k, finish.is_unavailable()),
                    end: finish.end(),
                });
            }
            Err(stopped) => {
                return Err(ServeFault {
                    acted: acted + u32::from(stopped.tally.acted),
                    faults: mark(faults, k, stopped.tally.is_fault),
                    cause: stopped.cause,
                });
            }
        }
    }
}

/// Serves a connection at one moment, from 1 to 2,147,483,647: reads its requests, at most 32, and answers one after another, over a book whose queue has these
/// settings. A request that can't be served is refused (RFC 9110, section 15), which ends the connection.
///
/// It is an error where a read or a write fails, or the book fails inside a document whose head was written. The answers before it were
/// written whole, and of what was begun then a front; a request that acted before its answer's writing failed has acted.
///
/// It flushes nothing: what is written has to reach the client by itself, as through a socket.
///
/// Of a reader that does not tell its bytes, as a socket, this is known: the queue is what at most 32 requests, answered one after
/// another, made of it; so many of them acted, and the bits of the faults tell which of them a fault answered.
pub fn serve<R: Read, W: Write, B: QueueBook>(
    alloc: Global,
    reader: &mut R,
    writer: &mut W,
    book: &mut B,
    settings: &Settings,
    now: u32,
) -> Result<Served, ServeFault>
    requires { IsMoment now }
    ensures began { B.is_honest book.new → B.is_honest book.old }
    // where the reader tells its bytes, the requests in them were answered, and a crash leaves what goes with these
    ensures served { IfOk result (λ served. ComesTo B.QueueBook book.old book.new settings.now (λ w u. IfSome (R.remaining reader.old)
        (IsServed (B.crash_leaves book.old) (B.crash_leaves book.new) now w u (W.contents writer.old) (W.contents writer.new) served))) }
    // or their answers were broken off
    ensures broken { IfErr result (λ fault. ComesTo B.QueueBook book.old book.new settings.now (λ w u. IfSome (R.remaining reader.old)
        (IsStopped (B.crash_leaves book.old) (B.crash_leaves book.new) now w u (W.contents writer.old) (W.contents writer.new) fault))) }
    // whatever its bytes were, some requests made the queue what it is, and the bits of the faults tell which of them a fault answered
    ensures worked { ComesTo B.QueueBook book.old book.new settings.now (λ w u.
        (k : Worked most_requests now w u (acted_of result)) × MarksFaults k.turns result) }
    // a crash at any moment leaves the queue that the book stands for, or what the event of one of the requests makes of it, which was answered by a fault,
    // and before which the queue was that already
    ensures crash { B.is_live book.old → ComesTo B.QueueBook book.old book.new settings.now (λ w u.
        (k : Worked most_requests now w u (acted_of result)) × (x : World) × B.crash_leaves book.new u x × IsAtMostOneMore now w k.turns u x) }
    // also over a book that was shut before, where it is known what a crash left then
    ensures left { ComesTo B.QueueBook book.old book.new settings.now (λ w u.
        WorkedOver (B.crash_leaves book.old) (B.crash_leaves book.new) now w u (acted_of result)) }
    ensures few { IfOk result (λ served. served.acted ≤ most_requests) }
    ensures few_stopped { IfErr result (λ fault. fault.acted ≤ most_requests) }
    // what shuts a book is answered as a fault, or breaks a document off
    ensures live { B.is_honest book.new → B.is_live book.old → IsFaultless result → B.is_live book.new }
    // over any book, also one that is not honest: each response has as many bytes of content as its head tells, and the last alone ends
    // the connection, as it ended
    ensures framed { IfOk result (λ served. AreFramed (W.contents writer.old) (W.contents writer.new) served.end) }
{
    let mut input = Input::new(reader);
    let table = router(alloc).ok();
    let context = Context {
        alloc,
        settings,
        now,
    };
    run(context, table.as_ref(), &mut input, writer, book)
}
