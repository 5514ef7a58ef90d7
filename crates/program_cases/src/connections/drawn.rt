//! Five hundred connections in a row, drawn by a fixed rule, to two queues that are kept by books of two kinds: from both comes the same. Account
//! files and sweeps come between them.
ghost use Rattle.std.specs.Prelude.{◌<◌};
ghost use Rattle.queue_core.specs.Limits.{IsMoment};

use crate::connections::calls::{
    ALL_WEIGHTS, Call, Drawn, KINDS, LOOKS, LOOKS_AT_JOB, Row, client_rows, device_rows,
    operator_rows, stream_of,
};
use crate::desk::books::{DeskBook, MemoryBook, grant_in};
use crate::desk::compare::{Mismatch, Place, Subject};
use crate::desk::queue::{new_book, settings};
use crate::desk::streams::{SPEEDS, TestReader, by};
use http_front::{ServeFault, Served, serve};
use list_book::ListBook;
use queue_core::{QueueBook, sweep};
use queue_types::limits::LAST_MOMENT;
use queue_types::settings::Settings;
use std::alloc::Global;
use std::cell::Cell;

/// How many connections are drawn.
const CALLS: u32 = 500;

/// An account file and a sweep come after this number of calls, again and again.
const UNTIL_GRANT: u32 = 50;

/// The seconds by which a sweep is later than the calls around it: it ends jobs that are held or open since 330 calls, one a second.
const LATER: u32 = 3270;

/// So many concern the same jobs.
const UNTIL_NEXT_JOB: u32 = 40;

/// The last job whose attributes and documents are asked for behind them.
const LAST_JOB: u32 = 60;

/// Numbers by a linear congruence, and the rows that are drawn by them.
#[derive(Drop)]
struct Draws<'a> {
    state: u32,
    rows: &'a [Row],
}

impl Draws<'_> {
    /// A number below a bound.
    fn below(&mut self, bound: u32) -> u32
        requires { 0 < bound }
        ensures { result < bound }
    {
        self.state = self
            .state
            .wrapping_mul(1_664_525)
            .wrapping_add(1_013_904_223);
        (self.state >> 8) % bound
    }

    /// The place of a row.
    fn row(&mut self) -> usize {
        let mut rest = self.below(ALL_WEIGHTS);
        for (place, row) in self.rows.iter().enumerate() {
            if rest < row.0 {
                return place;
            }
            rest -= row.0;
        }
        0
    }

    /// What is drawn of a call at this moment: it is about one of three jobs, and each fourth report has the number 1.
    fn drawn(&mut self, moment: u32) -> Drawn {
        let job = (moment / UNTIL_NEXT_JOB).saturating_add(self.below(3));
        let sequence = if self.below(4) == 0 { 1 } else { moment };
        let in_chunks = self.below(2) == 0;
        let most = SPEEDS[self.below(4) as usize];
        Drawn {
            job,
            sequence,
            in_chunks,
            most,
        }
    }
}

/// What is served of a stream at a moment, where a read gives at most so many bytes. The answers stand alone in the vector then.
fn answer<B: QueueBook>(
    alloc: Global,
    book: &mut B,
    settings: &Settings,
    moment: u32,
    read: (&[u8], usize),
    answers: &mut Vec<u8>,
) -> Result<Served, ServeFault>
    requires { IsMoment moment }
{
    let written = Cell::new(0);
    let mut reader = TestReader::new(by(read.1), read.0, 0, &written);
    answers.clear();
    serve(alloc, &mut reader, answers, book, settings, moment)
}

/// The pages of an account in a book, if it is there and can be read: granted, free, reserved and printed.
fn pages_in<B: QueueBook>(book: &mut B, account: &str) -> Option<(u64, i64, u64, u64)> {
    match book.sheet(account) {
        Ok(Some(sheet)) => Some((sheet.granted, sheet.free, sheet.reserved, sheet.printed)),
        _ => None,
    }
}

/// Two queues of a printer with an estimate of 20 pages, and what was written last from each. They keep what first wasn't the same.
#[derive(Drop)]
struct Pair<A: QueueBook, B: QueueBook> {
    alloc: Global,
    settings: Settings,
    lists: A,
    tables: B,
    from_lists: Vec<u8>,
    from_tables: Vec<u8>,
    found: Result<(), Mismatch>,
}

impl<A: DeskBook, B: DeskBook> Pair<A, B> {
    /// Two empty queues.
    fn new(alloc: Global) -> Result<Pair<A, B>, Mismatch> {
        let lists = new_book(alloc)?;
        let tables = new_book(alloc)?;
        let settings = settings(alloc)?;
        Ok(Pair {
            alloc,
            settings,
            lists,
            tables,
            from_lists: Vec::new(alloc),
            from_tables: Vec::new(alloc),
            found: Ok(()),
        })
    }

    /// Keeps what a comparison came to, if it is the first that failed.
    fn note(&mut self, came: Result<(), Mismatch>) {
        if self.found.is_ok() {
            self.found = came;
        }
    }

    /// At a moment alice gets 12 pages and bob 30, in each.
    fn grant(&mut self, moment: u32) -> Result<(), Mismatch>
        requires { IsMoment moment }
    {
        let file = format!(in self.alloc;
            "batch,account,pages\nf{moment},alice,12\nf{moment},bob,30\n"
        )?;
        grant_in(self.alloc, &mut self.lists, moment, file.as_bytes(), 2)?;
        grant_in(self.alloc, &mut self.tables, moment, file.as_bytes(), 2)
    }

    /// Sweeps both queues some time after a moment, and returns the number of jobs that expire, which has to be the same in both.
    fn expire(&mut self, moment: u32) -> u32 {
        let later = moment.saturating_add(LATER).clamp(1, LAST_MOMENT);
        let one = sweep(&mut self.lists, later);
        let other = sweep(&mut self.tables, later);
        self.note(AT.is_so(
            other.is_ok() && one == other,
            "the same number of jobs expires",
        ));
        other.unwrap_or(0)
    }

    /// A stream is served alike by both at a moment, where a read gives at most so many bytes: the same is written, and the same comes of
    /// it, which is no fault.
    fn take(&mut self, moment: u32, read: (&[u8], usize))
        requires { IsMoment moment }
    {
        let one = answer(
            self.alloc,
            &mut self.lists,
            &self.settings,
            moment,
            read,
            &mut self.from_lists,
        );
        let other = answer(
            self.alloc,
            &mut self.tables,
            &self.settings,
            moment,
            read,
            &mut self.from_tables,
        );
        let place = Place {
            subject: Subject::Tables,
            most: read.1,
        };
        let are_same = place.same_bytes(self.from_lists.as_slice(), self.from_tables.as_slice());
        self.note(are_same);
        self.note(place.same_outcome(one, other));
        let is_served = matches!(other, Ok(Served { faults: 0, .. }));
        self.note(place.is_so(is_served, "no answer is a fault"));
    }

    /// So is what is sent for a call.
    fn send(&mut self, moment: u32, call: Call, drawn: Drawn)
        requires { IsMoment moment }
    {
        match stream_of(self.alloc, call, drawn) {
            Ok(stream) => self.take(moment, (stream.as_slice(), drawn.most)),
            Err(_) => self.note(Err(Mismatch::Memory)),
        }
    }

    /// An account has the same pages in both.
    fn compare_pages(&mut self, account: &str) {
        let one = pages_in(&mut self.lists, account);
        let is_same = one.is_some() && one == pages_in(&mut self.tables, account);
        self.note(AT.is_so(is_same, "an account has the same pages"));
    }

    /// What is asked behind the draws, of a job of this number, is answered alike.
    fn look(&mut self, looks: &[Call], job: u32) {
        let drawn = Drawn {
            job,
            sequence: 1,
            in_chunks: false,
            most: 4096,
        };
        for call in looks {
            self.send(CALLS, *call, drawn);
        }
    }

    /// The queue, the jobs and their documents, and the accounts, are the same behind the draws.
    fn look_at_all(&mut self) {
        self.look(&LOOKS, 0);
        for job in 1..=LAST_JOB {
            self.look(&LOOKS_AT_JOB, job);
        }
        self.compare_pages("alice");
        self.compare_pages("bob");
    }
}

/// Where what isn't of one connection is compared.
const AT: Place = Place {
    subject: Subject::Tables,
    most: usize::MAX,
};

/// This stands in these bytes.
fn has_part(bytes: &[u8], part: &[u8]) -> bool {
    part.is_empty() || bytes.windows(part.len()).any(|front| front == part)
}

/// Draws a call, and counts it where its answer has what is looked for.
fn draw_call<A: DeskBook, B: DeskBook>(
    pair: &mut Pair<A, B>,
    draws: &mut Draws<'_>,
    counts: &mut [u32],
    moment: u32,
)
    requires { IsMoment moment }
{
    let place = draws.row();
    let drawn = draws.drawn(moment);
    if let (Some((_, call, part, _)), Some(count)) = (
        draws.rows.get(place),
        counts.get_mut(place),
    ) {
        pair.send(moment, *call, drawn);
        if has_part(pair.from_tables.as_slice(), part) {
            *count = count.saturating_add(1);
        }
    }
}

/// Takes an account file or a sweep, if one comes before the call of this moment. Returns the number of jobs that expire.
fn come_between<A: DeskBook, B: DeskBook>(pair: &mut Pair<A, B>, moment: u32) -> u32
    requires { IsMoment moment }
{
    match moment % UNTIL_GRANT {
        0 => pair.expire(moment),
        1 => {
            let granted = pair.grant(moment);
            pair.note(granted);
            0
        }
        _ => 0,
    }
}

/// Draws all of the calls, each at a moment of its own, and counts the answers that are looked for. Account files and sweeps come between them.
fn draw_calls<A: DeskBook, B: DeskBook>(pair: &mut Pair<A, B>, rows: &[Row]) -> [u32; KINDS] {
    let mut counts = [0; KINDS];
    let mut draws = Draws { state: 74, rows };
    let mut expired: u32 = 0;
    for moment in 1..=CALLS {
        expired = expired.saturating_add(come_between(pair, moment));
        draw_call(pair, &mut draws, &mut counts, moment);
    }
    pair.note(AT.is_so(expired > 0, "jobs expire"));
    counts
}

/// From two queues that are empty at first comes the same for calls that are drawn, and each answer that is looked for.
fn draw_from<A: DeskBook, B: DeskBook>(alloc: Global, rows: &[Row]) -> Result<(), Mismatch> {
    let mut pair = Pair::<A, B>::new(alloc)?;
    let counts = draw_calls(&mut pair, rows);
    for (row, count) in rows.iter().zip(&counts) {
        pair.note(AT.is_so(*count > 0, row.3));
    }
    pair.look_at_all();
    pair.found
}

#[test]
fn five_hundred_connections_in_a_row(rt: HostRuntime) -> Result<(), Mismatch> {
    let alloc = rt.alloc();
    let rows = [client_rows(), operator_rows(), device_rows()].concat(alloc)?;
    draw_from::<ListBook, MemoryBook>(alloc, rows.as_slice())
}
