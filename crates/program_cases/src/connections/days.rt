//! Connections, lines of the device, account files and sweeps, one after another, over each book.
ghost use Rattle.std.specs.Prelude.{All};
ghost use Rattle.queue_core.specs.Limits.{IsMoment};

use crate::desk::books::{DeskBook, GRANT, MemoryBook};
use crate::desk::compare::{Failed, Mismatch, Place, failed_at};
use crate::desk::connection::Wanted::Success;
use crate::desk::connection::{Wanted, broken_off, faultless, wanted_bytes};
use crate::desk::messages::{DONE, JOB_1, JOB_2, PRINT_JOB, RELEASE_JOB};
use crate::desk::queue::{new_book, settings};
use crate::desk::requests::{GET_QUEUE, IPP, POST_JOB, POST_RELEASE, TEXT};
use crate::desk::streams::{AT_ONCE, TestWriter, Way};
use arrivals::{Arrival, Arrived, Outcome, take_all};
use grants_csv::{ImportCause, ImportFault, Imported};
use http_front::{End, ServeCause};
use list_book::ListBook;
use queue_core::QueueBook;
use queue_types::limits::LAST_MOMENT;
use queue_types::settings::Settings;
use std::alloc::Global;
use std::cell::Cell;
use std::test::Fail;

/// What is wanted of one of them.
#[derive(Clone, Copy)]
enum Comes {
    /// A connection ends so, and so many of its requests act.
    Serves(u32, End),
    /// A connection breaks off as its answers can't be written, and so many of its requests have acted.
    Breaks(u32),
    /// The device is answered this.
    Tells(&'static str),
    /// So many rows are added, and so many are repeats.
    Imports(u32, u32),
    /// The file is refused for this, at this row.
    Refuses(ImportCause, u32),
    /// This number of jobs expire.
    Expires(u32),
}

/// What is wanted of each of a day.
const OF_A_DAY: &[Comes] = &[
    Comes::Imports(1, 0),
    Comes::Serves(2, End::Closed),
    Comes::Serves(0, End::Closed),
    Comes::Tells("ok 1 5 0\n"),
    Comes::Tells("ok 1 5 12\n"),
    Comes::Imports(0, 1),
    Comes::Tells("ok 1 5 12\n"),
    Comes::Refuses(ImportCause::Conflict, 1),
    Comes::Serves(0, End::Cut),
    Comes::Tells("ok 1 9 25\n"),
    Comes::Tells("refused 1 syntax\n"),
];

/// What the clients get: the replies to the Print-Job and its release, and the device's queue.
const ANSWERS: &[Wanted<'static>] = &[
    Success(IPP, JOB_1),
    Success(IPP, DONE),
    Success(TEXT, b"1 1 1 2\n"),
];

/// An account file that grants alice other pages in the batch of the first.
const OTHER_GRANT: &[u8] = b"batch,account,pages\nf24,alice,31\n";

/// This comes at a moment.
fn at(moment: u32, what: Arrived<'_>) -> Arrival<'_>
    requires { IsMoment moment }
    ensures { IsMoment result.moment }
{
    Arrival { moment, what }
}

/// One client prints a job and releases it, the device asks for its queue, and another client breaks off. Moments may fall.
fn arrivals_of_a_day(print: &[u8]) -> [Arrival<'_>; 11]
    ensures { All (λ a. IsMoment a.moment) result }
{
    [
        at(1, Arrived::AccountFile(GRANT)),
        at(2, Arrived::Connection(print)),
        at(2, Arrived::Connection(GET_QUEUE)),
        at(3, Arrived::Line(b"1 1 start 0\n")),
        at(60, Arrived::Line(b"1 2 count 12\n")),
        at(60, Arrived::AccountFile(GRANT)),
        at(59, Arrived::Line(b"1 2 count 12\n")),
        at(61, Arrived::AccountFile(OTHER_GRANT)),
        at(62, Arrived::Connection(POST_JOB)),
        at(LAST_MOMENT, Arrived::Line(b"1 3 done 25\n")),
        at(1, Arrived::Line(b"1 3 done\n")),
    ]
}

/// A job is printed and released, and the device starts it, in a connection and a line.
fn print_and_start(print: &[u8]) -> [Arrival<'_>; 2]
    ensures { All (λ a. IsMoment a.moment) result }
{
    [
        at(1, Arrived::Connection(print)),
        at(2, Arrived::Line(b"1 1 start 0\n")),
    ]
}

/// Two jobs are printed and the first is released. A job that isn't released is kept for an hour.
fn print_and_sweep(print: &[u8]) -> [Arrival<'_>; 7]
    ensures { All (λ a. IsMoment a.moment) result }
{
    [
        at(1, Arrived::AccountFile(GRANT)),
        at(1, Arrived::Connection(print)),
        at(1, Arrived::Connection(print)),
        at(3600, Arrived::Sweep),
        at(3601, Arrived::Sweep),
        at(LAST_MOMENT, Arrived::Sweep),
        at(2, Arrived::Line(b"2 1 start 0\n")),
    ]
}

/// What comes of a day, and what it leaves.
struct Day {
    name: &'static str,
    /// How its answers are taken.
    way: Way,
    wanted: &'static [Comes],
    answers: &'static [Wanted<'static>],
    /// The pages of alice behind it, where they are looked at: granted, free, reserved and printed.
    pages: Option<(u64, i64, u64, u64)>,
}

/// The day of such a queue.
static WHOLE: Day = Day {
    name: "a day of a queue",
    way: AT_ONCE,
    wanted: OF_A_DAY,
    answers: ANSWERS,
    pages: Some((30, 5, 0, 25)),
};

/// Where the answer to the Print-Job can't be written, the job is there and isn't released.
static LOST: Day = Day {
    name: "a day of a lost answer",
    way: Way {
        room: 100,
        ..AT_ONCE
    },
    wanted: &[Comes::Breaks(1), Comes::Tells("refused 3 state\n")],
    answers: &[Success(IPP, JOB_1)],
    pages: None,
};

/// The job that isn't released expires.
static SWEPT: Day = Day {
    name: "a day of sweeps",
    way: AT_ONCE,
    wanted: &[
        Comes::Imports(1, 0),
        Comes::Serves(2, End::Closed),
        Comes::Serves(2, End::Closed),
        Comes::Expires(0),
        Comes::Expires(1),
        Comes::Expires(0),
        Comes::Tells("refused 3 state\n"),
    ],
    answers: &[
        Success(IPP, JOB_1),
        Success(IPP, DONE),
        Success(IPP, JOB_2),
        Success(IPP, DONE),
    ],
    pages: Some((30, 10, 20, 0)),
};

/// One came to what it was to come to.
fn is_wanted(wanted: Comes, came: &Outcome) -> bool {
    match (wanted, came) {
        (Comes::Serves(acted, end), Outcome::Served(served)) => *served == faultless(acted, end),
        (Comes::Breaks(acted), Outcome::Broken(fault)) => {
            *fault == broken_off(acted, ServeCause::Write)
        }
        (Comes::Tells(line), Outcome::Told(answer)) => line.as_bytes() == answer.bytes(),
        (Comes::Imports(added, repeats), Outcome::Imported(imported)) => {
            *imported == Imported { added, repeats }
        }
        (Comes::Refuses(cause, row), Outcome::Refused(fault)) => {
            *fault == ImportFault { cause, row }
        }
        (Comes::Expires(ended), Outcome::Swept(count)) => *count == ended,
        _ => false,
    }
}

/// Where a day over such a book is compared.
fn place_in<B: DeskBook>() -> Place {
    Place {
        subject: B::subject(),
        most: usize::MAX,
    }
}

/// Each did.
fn compare_each(place: &Place, day: &Day, came: &[Outcome]) -> Result<(), Failed> {
    for (step, wanted) in day.wanted.iter().enumerate() {
        let is_so = matches!(came.get(step), Some(one) if is_wanted(*wanted, one));
        if let Err(why) = place.is_so(is_so, "what comes of it") {
            return Err(failed_at(day.name, step, why));
        }
    }
    Ok(())
}

/// Alice has these pages, if they are looked at.
fn has_pages<B: QueueBook>(book: &mut B, pages: Option<(u64, i64, u64, u64)>) -> bool {
    match (book.sheet("alice"), pages) {
        (_, None) => true,
        (Ok(Some(sheet)), Some(wanted)) => {
            (sheet.granted, sheet.free, sheet.reserved, sheet.printed) == wanted
        }
        _ => false,
    }
}

/// All of a day comes to a book, whose answers go to a writer: this comes of it.
fn come<B: DeskBook>(
    alloc: Global,
    book: &mut B,
    settings: &Settings,
    arrivals: &[Arrival<'_>],
    writer: &mut TestWriter<'_>,
    day: &Day,
) -> Result<(), Failed>
    requires { All (λ a. IsMoment a.moment) arrivals.now }
{
    match take_all(alloc, book, settings, arrivals, writer) {
        Ok(came) => compare_each(&place_in::<B>(), day, came.as_slice()),
        Err(_) => Err(failed_at(day.name, 0, Mismatch::Memory)),
    }
}

/// A day passes over a book: this comes of it, these answers are written, and alice has these pages behind it.
fn pass_over<B: DeskBook>(
    alloc: Global,
    book: &mut B,
    settings: &Settings,
    arrivals: &[Arrival<'_>],
    day: &Day,
    answers: &[u8],
) -> Result<(), Failed>
    requires { All (λ a. IsMoment a.moment) arrivals.now }
{
    let written = Cell::new(0);
    let mut writer = TestWriter::new(alloc, day.way, &written);
    come(alloc, book, settings, arrivals, &mut writer, day)?;
    let front = answers.get(..day.way.room).unwrap_or(answers);
    let is_written = place_in::<B>().same_bytes(front, writer.taken.as_slice());
    let has_pages = place_in::<B>().is_so(has_pages(book, day.pages), "the pages of alice");
    is_written
        .and(has_pages)
        .map_err(|why| failed_at(day.name, day.wanted.len(), why))
}

/// It passes over a book of the tests' printer, by the settings of that.
fn pass_with_settings<B: DeskBook>(
    alloc: Global,
    book: &mut B,
    arrivals: &[Arrival<'_>],
    day: &Day,
    answers: &[u8],
) -> Result<(), Fail>
    requires { All (λ a. IsMoment a.moment) arrivals.now }
{
    let settings = settings(alloc)?;
    pass_over(alloc, book, &settings, arrivals, day, answers)?;
    Ok(())
}

/// It passes over a new one.
fn pass<B: DeskBook>(
    alloc: Global,
    arrivals: &[Arrival<'_>],
    day: &Day,
    answers: &[u8],
) -> Result<(), Fail>
    requires { All (λ a. IsMoment a.moment) arrivals.now }
{
    let mut book = new_book::<B>(alloc)?;
    pass_with_settings(alloc, &mut book, arrivals, day, answers)
}

/// It passes over each book.
fn pass_over_both(alloc: Global, arrivals: &[Arrival<'_>], day: &Day) -> Result<(), Fail>
    requires { All (λ a. IsMoment a.moment) arrivals.now }
{
    let answers = wanted_bytes(alloc, day.answers)?;
    pass::<ListBook>(alloc, arrivals, day, answers.as_slice())?;
    pass::<MemoryBook>(alloc, arrivals, day, answers.as_slice())
}

#[test]
fn days_of_a_queue(rt: HostRuntime) -> Result<(), Fail> {
    let print = [POST_JOB, PRINT_JOB, POST_RELEASE, RELEASE_JOB].concat(rt.alloc())?;
    pass_over_both(
        rt.alloc(),
        arrivals_of_a_day(print.as_slice()).as_slice(),
        &WHOLE,
    )?;
    pass_over_both(
        rt.alloc(),
        print_and_start(print.as_slice()).as_slice(),
        &LOST,
    )?;
    pass_over_both(
        rt.alloc(),
        print_and_sweep(print.as_slice()).as_slice(),
        &SWEPT,
    )
}
