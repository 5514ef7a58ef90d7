//! A book keeps a queue, whichever way: in lists, or in tables.
//!
//! `stands` ties a book to each world that it may stand for. What is read of a book holds where it is honest as
//! the call ends; a call that ends honest began so. A refused call leaves what the book stands for. No call on an
//! honest book that stands for a queue is told Damaged. A book that an error has shut answers nothing but faults.
//! A crash, at whatever moment of a call on a live book, leaves the queue from before the call or the one after it; of a
//! book that was shut before, what only reads leaves what a crash left, and of `apply` nothing is said.
ghost use Rattle.std.specs.Prelude.{◌≡◌, ◌≤◌, ℕ, List, Some, IfErr, IfOk, IfSome, IsSome, OnOk, OnErr, length, option_map, take};
ghost use Rattle.std.specs.Io.KnownBytes.{Appends};
ghost use Rattle.queue_core.specs.Book.{IsDecisionOn};
ghost use Rattle.queue_types.specs.Event.{event_of, change_of, decision_of};
ghost use Rattle.queue_core.specs.Limits.{IsMoment, IsEvent, IsReplyTo};
ghost use Rattle.queue_core.specs.Machine.{decision};
ghost use Rattle.queue_core.specs.Shown.{document_at, head_of, pending_jobs, sheet_of};
ghost use Rattle.queue_core.specs.Sound.{IsSound};
ghost use Rattle.queue_types.specs.declared.document.Document.{Document};
ghost use Rattle.queue_core.specs.World.{World, cut, made_on};

use queue_types::document::DocumentHead;
use queue_types::event::{Decision, Event};
use queue_types::job::JobList;
use queue_types::sheet::AccountSheet;
use std::alloc::AllocError;
use std::io::Write;
use thiserror::Error;

/// Why a book can't do what it was asked, by its number.
#[derive(Clone, Copy, Debug, PartialEq, Eq, Error)]
pub enum BookFault {
    /// Want of memory.
    #[error("there is no memory")]
    Memory = 1,
    /// The disk refused, or something was too large for it or for a table.
    #[error("the disk refused")]
    Disk = 2,
    /// The rows that were read don't stand for a world.
    #[error("the rows stand for no queue")]
    Damaged = 3,
}

impl From<AllocError> for BookFault {
    ghost use Rattle.queue_core.specs.declared.book.BookFault.TheVariants.{Memory};

    ghost from_gives = { λ _ e. e ≡ Memory };

    fn from(_: AllocError) -> BookFault {
        BookFault::Memory
    }
}

/// Why a document was not sent whole.
#[derive(Clone, Copy, Debug, PartialEq, Eq, Error)]
pub enum SendCause {
    /// The book failed.
    #[error(transparent)]
    Book(BookFault),
    /// The writer failed.
    #[error("a write failed")]
    Write,
}

/// A document that was not sent whole, and how many of its bytes were written.
#[derive(Clone, Copy, Debug, PartialEq, Eq, Error)]
#[error("{cause}, after {written} octets")]
pub struct SendFault {
    pub written: u64,
    pub cause: SendCause,
}

/// A queue as it is kept.
pub trait QueueBook {
    /// As far as can be known, the book holds this world.
    ghost stands: { Self → World → Type 0 };

    /// What is read from the book is what was written to it.
    ghost is_honest: { Self → Type 0 };

    /// No error has shut the book: what it stands for is what it keeps. A shut book is never opened again, and refuses every call.
    ghost is_live: { Self → Type 0 };

    /// Whatever a crash at this moment leaves of the book is found again as one of these two worlds.
    ghost crash_leaves: { Self → World → World → Type 0 };

    /// What the machine decides at this moment on this event, within its limits. It changes nothing.
    fn decide<'a>(&mut self, now: u32, event: &Event<'a>) -> Result<Decision<'a>, BookFault>
        requires moment { IsMoment now }
        requires event { IsEvent (event_of event.now) }
        ensures began { is_honest self.new → is_honest self.old }
        ensures kept { (w : World) → stands self.old w → stands self.new w }
        ensures left { is_honest self.new → (v w : World) → crash_leaves self.old v w → crash_leaves self.new v w }
        ensures decides { is_honest self.new → IfOk result (λ d. (w : World) → stands self.new w
            → decision_of d ≡ decision (cut w now (event_of event.now)) now (event_of event.now)) }
        ensures damaged { is_honest self.new → IfErr result (λ e. e ≡ BookFault.Damaged → (w : World) → ¬ stands self.old w) }
        ensures live { is_honest self.new → OnOk result (is_live self.new) }
        ensures opened { is_honest self.new → is_live self.new → is_live self.old }
        // on any book, also one that is not honest
        ensures limits { IfOk result (λ d. IsReplyTo (event_of event.now) d.reply) };

    /// Makes a decision that `decide` gave on what the book now holds. A refusal leaves it as it was.
    fn apply(&mut self, decision: Decision<'_>) -> Result<(), BookFault>
        requires decided { (w : World) → is_honest self.old → stands self.old w → IsDecisionOn w (decision_of decision) }
        ensures began { is_honest self.new → is_honest self.old }
        ensures ok { OnOk result ((w : World) → stands self.old w → stands self.new (made_on (change_of decision.entry.change) w)) }
        ensures err { OnErr result ((w : World) → stands self.old w → stands self.new w) }
        ensures damaged { is_honest self.new → IfErr result (λ e. e ≡ BookFault.Damaged → (w : World) → ¬ stands self.old w) }
        // of a live book, whatever it answers, also where its error shuts the book
        ensures crash { is_honest self.new → is_live self.old → (w : World) → stands self.old w → crash_leaves self.new w (made_on (change_of decision.entry.change) w) }
        ensures live { is_honest self.new → OnOk result (is_live self.new) }
        ensures opened { is_honest self.new → is_live self.new → is_live self.old };

    /// The jobs that the device may start, those in state 3, by number.
    fn pending(&mut self) -> Result<JobList, BookFault>
        ensures began { is_honest self.new → is_honest self.old }
        ensures kept { (w : World) → stands self.old w → stands self.new w }
        ensures left { is_honest self.new → (v w : World) → crash_leaves self.old v w → crash_leaves self.new v w }
        ensures jobs { is_honest self.new → IfOk result (λ js. (w : World) → stands self.new w → js ≡ pending_jobs w) }
        ensures damaged { is_honest self.new → IfErr result (λ e. e ≡ BookFault.Damaged → (w : World) → ¬ stands self.old w) }
        ensures live { is_honest self.new → OnOk result (is_live self.new) }
        ensures opened { is_honest self.new → is_live self.new → is_live self.old };

    /// The format and the length of document n, counted from 1, of a job in state 3, 5 or 6.
    fn document_head(&mut self, job: u32, n: u32) -> Result<Option<DocumentHead>, BookFault>
        ensures began { is_honest self.new → is_honest self.old }
        ensures kept { (w : World) → stands self.old w → stands self.new w }
        ensures left { is_honest self.new → (v w : World) → crash_leaves self.old v w → crash_leaves self.new v w }
        ensures head { is_honest self.new → IfOk result (λ h. (w : World) → stands self.new w → h ≡ option_map head_of (document_at w job n)) }
        ensures damaged { is_honest self.new → IfErr result (λ e. e ≡ BookFault.Damaged → (w : World) → ¬ stands self.old w) }
        ensures live { is_honest self.new → OnOk result (is_live self.new) }
        ensures opened { is_honest self.new → is_live self.new → is_live self.old };

    /// Writes the bytes of such a document, and says how many they are. After a fault a front of them was
    /// written.
    fn send_document<W: Write>(&mut self, job: u32, n: u32, out: &mut W) -> Result<u64, SendFault>
        requires there { (w : World) → is_honest self.old → stands self.old w → IsSome (document_at w job n) }
        ensures began { is_honest self.new → is_honest self.old }
        ensures kept { (w : World) → stands self.old w → stands self.new w }
        ensures left { is_honest self.new → (v w : World) → crash_leaves self.old v w → crash_leaves self.new v w }
        ensures ok { is_honest self.new → IfOk result (λ sent. (w : World) (d : Document) → stands self.new w → document_at w job n ≡ Some d
            → (sent ≡ length d.bytes) × Appends (W.contents out.old) (W.contents out.new) d.bytes) }
        ensures err { is_honest self.new → IfErr result (λ f. (w : World) (d : Document) → stands self.old w → document_at w job n ≡ Some d
            → (f.written ≤ length d.bytes) × Appends (W.contents out.old) (W.contents out.new) (take f.written d.bytes)) }
        ensures damaged { is_honest self.new → IfErr result (λ f. f.cause ≡ SendCause.Book BookFault.Damaged → (w : World) → ¬ stands self.old w) }
        ensures live { is_honest self.new → OnOk result (is_live self.new) }
        ensures opened { is_honest self.new → is_live self.new → is_live self.old }
        // a writer that fails shuts no book
        ensures writer_failed { is_honest self.new → IfErr result (λ f. f.cause ≡ SendCause.Write → is_live self.new) }
        // on any book, also one that is not honest
        ensures counted { IfOk result (λ sent. (bytes : List ℕ) × (length bytes ≡ sent) × Appends (W.contents out.old) (W.contents out.new) bytes) };

    /// What is told of an account, where it is there.
    fn sheet(&mut self, account: &str) -> Result<Option<AccountSheet>, BookFault>
        ensures began { is_honest self.new → is_honest self.old }
        ensures kept { (w : World) → stands self.old w → stands self.new w }
        ensures left { is_honest self.new → (v w : World) → crash_leaves self.old v w → crash_leaves self.new v w }
        ensures sheet { is_honest self.new → IfOk result (λ s. (w : World) → stands self.new w → s ≡ sheet_of w account.now) }
        ensures damaged { is_honest self.new → IfErr result (λ e. e ≡ BookFault.Damaged → (w : World) → ¬ stands self.old w) }
        ensures live { is_honest self.new → OnOk result (is_live self.new) }
        ensures opened { is_honest self.new → is_live self.new → is_live self.old }
        // on any book, also one that is not honest
        ensures named { IfOk result (λ s. IfSome s (λ it. it.account ≡ account.now)) };

    /// A world that an honest book stands for is sound.
    ghost sound: { (b : Self) (w : World) → is_honest b → stands b w → IsSound w };

    /// Until an error shuts it, a crash leaves the world that an honest book stands for, and so one of this and any other.
    ghost lasts: { (b : Self) (w v : World) → is_honest b → is_live b → stands b w → crash_leaves b w v };
}
