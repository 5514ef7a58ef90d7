//! Replays over streams that fail and over a book that can't be read, and examples that are not answered as they are to be.

use crate::desk::books::{DeskBook, MemoryBook};
use crate::desk::compare::{Mismatch, Place, Subject};
use crate::desk::connection::filled;
use crate::desk::faulty::{Failure, FaultyBook, TAKES_NOTHING};
use crate::desk::streams::{AT_ONCE, Behind, NO_FLUSH, TestReader, TestWriter, Way};
use queue_core::{BookFault, QueueBook};
use queue_types::settings::Settings;
use replay::{Fault, replay_over, replay_settings};
use replay_examples::run_cases;
use replay_in_memory::replay;
use std::alloc::Global;
use std::cell::Cell;
use std::test::Fail;

/// Where comparisons are made.
const AT: Place = Place {
    subject: Subject::Replay,
    most: usize::MAX,
};

/// How a replay ends: the way of its streams, what is to come, how often that is read at most, what is written, and what it comes to.
type Ending = (Way, &'static [u8], usize, &'static [u8], Result<u8, Fault>);

static ENDINGS: [Ending; 5] = [
    // the input fails behind a whole line
    (
        Way {
            behind: Behind::Failure,
            ..AT_ONCE
        },
        b"ipp 00\nipp",
        usize::MAX,
        b"ipp short\n",
        Err(Fault::Io),
    ),
    // nothing can be written
    (
        Way { room: 0, ..AT_ONCE },
        b"ipp 00\n",
        usize::MAX,
        b"",
        Err(Fault::Io),
    ),
    // what it has written is flushed before it waits for more: where that can't be, nothing is read
    (NO_FLUSH, b"ipp 00\n", 0, b"", Err(Fault::Io)),
    // so it is before each read: where the second flush can't be, there is no second read, and the line that had come is answered before that
    (
        Way {
            read: 7,
            flushes: 1,
            ..AT_ONCE
        },
        b"ipp 00\nipp 00\n",
        1,
        b"ipp short\n",
        Err(Fault::Io),
    ),
    // a bad line is told before more is read
    (
        Way { read: 6, ..AT_ONCE },
        b"now 0\nipp 00\n",
        1,
        b"bad line 1\n",
        Ok(1),
    ),
];

/// A replay ends so.
fn ends(alloc: Global, (way, lines, reads, answers, wanted): &Ending) -> Result<(), Mismatch> {
    let written = Cell::new(0);
    let mut input = TestReader::new(*way, lines, 0, &written);
    let mut output = TestWriter::new(alloc, *way, &written);
    let came = replay(alloc, &mut input, &mut output);
    AT.same_bytes(answers, output.taken.as_slice())?;
    AT.is_so(
        came == *wanted && input.reads <= *reads,
        "how a replay ends",
    )
}

#[test]
fn streams_that_fail_and_a_bad_line(rt: HostRuntime) -> Result<(), Mismatch> {
    for row in &ENDINGS {
        ends(rt.alloc(), row)?;
    }
    Ok(())
}

const DIGITS: &[u8] = &[b'1'; 1_024];

/// Three lines of which more bytes come than are kept of one, 33,554,436.
const CUT_LINES: &[(&[u8], usize)] = &[
    (b"dev ", 1),
    (DIGITS, 32_768),
    (b"1\ngrant ", 1),
    (DIGITS, 32_768),
    (b"\nipp ", 1),
    (DIGITS, 32_768),
    (b"11\n", 1),
];

#[test]
fn lines_that_are_cut(rt: HostRuntime) -> Result<(), Mismatch> {
    let lines = filled(rt.alloc(), CUT_LINES)?;
    let mut input = lines.as_slice();
    let mut output = Vec::new(rt.alloc());
    let came = replay(rt.alloc(), &mut input, &mut output);
    let answers = b"refused 1 syntax\ngrant refused 3\nbad line 3\n";
    AT.same_bytes(answers, output.as_slice())?;
    AT.is_so(came == Ok(1), "how a replay of lines that are cut ends")
}

/// Why a book can't be read.
static UNREAD: [BookFault; 3] = [BookFault::Disk, BookFault::Memory, BookFault::Damaged];

/// A Print-Job of alice, a line of the device, a row of an account file and a sweep.
const LINES: &[u8] =
    b"ipp 010100020a0b0c0d01470012617474726962757465732d6368617273657400057574662d3848001b617474726962757465732d6e61747572616c2d6c616e67756167650002656e45000b7072696e7465722d75726900196970703a2f2f6c6f63616c686f73742f6970702f7072696e7442001472657175657374696e672d757365722d6e616d650005616c696365036869\ndev 1 1 start 0\ngrant f24,alice,30\nexpire\n";

/// The answers that report a fault: the bare reply of server-error-temporary-error, the codes of a fault, and a refusal.
const FAULTS: &[u8] =
    b"ipp 010105050a0b0c0d01470012617474726962757465732d6368617273657400057574662d3848001b617474726962757465732d6e61747572616c2d6c616e67756167650002656e03\nrefused 6 fault\ngrant refused 6\nexpire refused\n";

/// A replay over such a book tells a fault line by line, and comes to its end.
fn tells_faults<B: QueueBook>(
    alloc: Global,
    book: &mut B,
    settings: &Settings,
) -> Result<(), Mismatch> {
    let mut output = Vec::new(alloc);
    let mut input = LINES;
    let came = replay_over(alloc, &mut input, &mut output, book, settings);
    let is_ended = AT.is_so(came == Ok(0), "a replay that comes to its end");
    AT.same_bytes(FAULTS, output.as_slice()).and(is_ended)
}

/// So does one over a book that can't be read by this fault.
fn replays_on<B: DeskBook>(alloc: Global, fault: BookFault) -> Result<(), Mismatch> {
    let failure = Failure {
        unread: Some(fault),
        ..TAKES_NOTHING
    };
    let settings = replay_settings(alloc)?;
    let mut book = FaultyBook::<B>::new(alloc, failure)?;
    tells_faults(alloc, &mut book, &settings)
}

#[test]
fn a_replay_over_a_book_that_cannot_be_read(rt: HostRuntime) -> Result<(), Mismatch> {
    for fault in &UNREAD {
        replays_on::<MemoryBook>(rt.alloc(), *fault)?;
    }
    Ok(())
}

/// Cases of which one is right, and the others differ in an answer, a status or its being there.
const CASES_THAT_DIFFER: &[u8] = b"# short\nipp 00\n=\nipp short\nstatus 0\n\
    # another answer\nnow 3\nipp 00\n=\nipp 0101\nstatus 0\n\
    # another status\nnow 0\n=\nbad line 1\nstatus 0\n\
    # an answer more\nipp 00\n=\nstatus 0\n\
    # no lines that are wanted\n";

/// What is complained of these.
const COMPLAINTS: &[u8] =
    b"differs over lists: another answer\nwanted: ipp 0101\ncame:   ipp short\n\
    differs over tables: another answer\nwanted: ipp 0101\ncame:   ipp short\n\
    differs over lists: another status\nwanted: status 0\ncame:   status 1\n\
    differs over tables: another status\nwanted: status 0\ncame:   status 1\n\
    differs over lists: an answer more\nwanted: status 0\ncame:   ipp short\n\
    differs over tables: an answer more\nwanted: status 0\ncame:   ipp short\n\
    no case:  no lines that are wanted\n";

#[test]
fn cases_that_differ(rt: HostRuntime) -> Result<(), Fail> {
    let mut output = Vec::new(rt.alloc());
    let mut complaints = Vec::new(rt.alloc());
    let are_well = run_cases(rt.alloc(), CASES_THAT_DIFFER, &mut output, &mut complaints)?;
    AT.is_so(!are_well, "cases that are told to differ")?;
    AT.same_bytes(b"ok short\n", output.as_slice())?;
    AT.same_bytes(COMPLAINTS, complaints.as_slice())?;
    Ok(())
}
