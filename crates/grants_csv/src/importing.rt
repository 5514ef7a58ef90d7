//! An account file enters a book.
ghost use Rattle.std.specs.Prelude.{◌≡◌, ◌≢◌, ◌<◌, ◌⊎◌, List, Err, Ok, IfErr, IfOk, OnErr, OnOk, length};
ghost use Rattle.queue_types.specs.Event.{grant};
ghost use Rattle.queue_core.specs.Crash.{Carries, Leaves};
ghost use Rattle.queue_core.specs.Limits.{IsEvent, IsMoment};
ghost use Rattle.queue_core.specs.Machine.{step};
ghost use Rattle.queue_core.specs.World.{World};
ghost use Rattle.queue_types.specs.declared.event.GrantRow.{GrantRow};
ghost use Rattle.grants_csv.specs.Fault.{IsOfFileUnlessFault, at_row, fault};
ghost use Rattle.grants_csv.specs.File.{rows_of};
ghost use Rattle.grants_csv.specs.declared.fault.ImportCause.TheVariants.{Range};
ghost use Rattle.grants_csv.specs.Import.{Adds, AskedBy, Imports, IsRowRefusal, Refuses};

use crate::fault::{ImportCause, ImportFault};
use crate::reading::read_grants;
use queue_core::{BookFault, QueueBook};
use queue_types::event::{Event, GrantRefusal, GrantRow, Reply};
use std::alloc::Global;

/// What an account file added.
#[derive(Clone, Copy, Debug, PartialEq, Eq)]
pub struct Imported {
    /// How many rows are new.
    pub added: u32,
    /// How many rows equal one accepted before.
    pub repeats: u32,
}

impl From<BookFault> for ImportFault {
    ghost use Rattle.grants_csv.specs.Fault.{fault};

    ghost from_gives = { λ _ f. f ≡ fault };

    fn from(_: BookFault) -> ImportFault {
        ImportFault::FAULT
    }
}

impl From<GrantRefusal> for ImportCause {
    ghost use Rattle.grants_csv.specs.Import.{cause_of};

    ghost from_gives = { λ g c. c ≡ cause_of g };

    fn from(refusal: GrantRefusal) -> ImportCause {
        match refusal {
            GrantRefusal::Conflict => ImportCause::Conflict,
            GrantRefusal::TooMany => ImportCause::TooMany,
        }
    }
}

/// One step of the machine on the rows of an account file: all of them are taken, or none.
fn take_rows<B: QueueBook>(
    book: &mut B,
    now: u32,
    rows: &[GrantRow],
) -> Result<Imported, ImportFault>
    requires moment { IsMoment now }
    requires limits { IsEvent (grant rows.now) }
    ensures began { B.is_honest book.new → B.is_honest book.old }
    ensures added { B.is_honest book.new → IfOk result (λ n. (w : World) → B.stands book.old w → Adds (step w now (grant rows.now)).reply n) }
    ensures world { B.is_honest book.new → IfOk result (λ n. (w : World) → B.stands book.old w → B.stands book.new (step w now (grant rows.now)).world) }
    ensures refused { B.is_honest book.new → IfErr result (λ f. (w : World) → B.stands book.old w → Refuses (step w now (grant rows.now)).reply f) }
    ensures err { OnErr result ((w : World) → B.stands book.old w → B.stands book.new w) }
    ensures live { B.is_honest book.new → OnOk result (B.is_live book.new) }
    ensures still_live { B.is_honest book.new → IfErr result (λ f. f ≢ fault → B.is_live book.new) }
    ensures crash { B.is_honest book.new → OnErr result ((w v : World) → B.stands book.old w → B.crash_leaves book.old w v
        → (x : World) × B.crash_leaves book.new w x × Leaves (λ e. e ≡ grant rows.now) (result ≡ Err fault) now w v w x) }
    // On any book, also on one that is not honest.
    ensures replies { IfErr result (λ f. (f ≡ fault) ⊎ IsRowRefusal f) }
{
    let decision = book.decide(now, &Event::Grants(rows))?;
    match decision.reply {
        Reply::Added { added, repeats } => {
            book.apply(decision)?;
            Ok(Imported { added, repeats })
        }
        Reply::NotAdded { refusal, row } => Err(ImportCause::from(refusal).at(row)),
        _ => unreachable!("no other reply is to an account file"),
    }
}

/// Reads an account file and takes its rows as one event at this moment, from 1 to 2,147,483,647: all of them, or none. A row that
/// equals one accepted before, in this file or earlier, is a repeat. A refusal says why and for which row,
/// and the book stands for the world it stood for. Whatever the book is, a file that can be read is refused for what the
/// machine refuses rows for, or by a fault; the book never sees one that can't be read, and one that is too long is told so.
pub fn import<B: QueueBook>(
    alloc: Global,
    book: &mut B,
    now: u32,
    bytes: &[u8],
) -> Result<Imported, ImportFault>
    requires { IsMoment now }
    ensures began { B.is_honest book.new → B.is_honest book.old }

    // What is told, and what becomes of the queue: a crash at any moment leaves all of the rows, or none; which of the two is open only behind a fault. This
    // is the whole of it: the next three clauses are read off it.
    ensures crash { B.is_honest book.new → (w : World) → B.stands book.old w
        → (after : World) × Imports w now bytes.now after result × B.stands book.new after
        × Carries (B.crash_leaves book.old) (B.crash_leaves book.new) (AskedBy bytes.now) (result ≡ Err fault) now w after }
    ensures imports { B.is_honest book.new → (w : World) → B.stands book.old w
        → (after : World) × Imports w now bytes.now after result × B.stands book.new after }
    ensures added { B.is_honest book.new → IfOk result (λ n. (w : World) → B.stands book.old w
        → (rows : List GrantRow) × (rows_of bytes.now ≡ Ok rows) × Adds (step w now (grant rows)).reply n × B.stands book.new (step w now (grant rows)).world) }
    ensures refused { B.is_honest book.new → IfErr result (λ f. (rows : List GrantRow) (w : World) → rows_of bytes.now ≡ Ok rows → B.stands book.old w
        → Refuses (step w now (grant rows)).reply f) }
    ensures live { B.is_honest book.new → OnOk result (B.is_live book.new) }
    // What shuts a book is told as a fault.
    ensures still_live { B.is_honest book.new → B.is_live book.old → IfErr result (λ f. f ≢ fault → B.is_live book.new) }

    // These hold on any book, also on one that is not honest.
    ensures event { IfOk result (λ n. (rows : List GrantRow) → rows_of bytes.now ≡ Ok rows → IsEvent (grant rows)) }
    ensures size { 16777216 < length bytes.now → result ≡ Err (at_row Range 0) }
    ensures unread { (f : ImportFault) → rows_of bytes.now ≡ Err f → IsOfFileUnlessFault bytes.now result (Err f) }
    ensures unseen { (f : ImportFault) → rows_of bytes.now ≡ Err f → book.new ≡ book.old }
    ensures replies { IfErr result (λ f. (rows : List GrantRow) → rows_of bytes.now ≡ Ok rows → (f ≡ fault) ⊎ IsRowRefusal f) }
    ensures err { OnErr result ((w : World) → B.stands book.old w → B.stands book.new w) }
{
    let rows = read_grants(alloc, bytes)?;
    take_rows(book, now, rows.as_slice())
}
