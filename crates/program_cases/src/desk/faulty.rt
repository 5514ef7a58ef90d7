//! A book that can't do what it is asked.

use crate::desk::books::DeskBook;
use crate::desk::compare::Mismatch;
use crate::desk::queue::new_book;
use queue_core::{BookFault, QueueBook, SendFault, put_whole};
use queue_types::document::DocumentHead;
use queue_types::event::{Decision, Event};
use queue_types::job::JobList;
use queue_types::sheet::AccountSheet;
use std::alloc::Global;
use std::io::Write;

/// What a book can't do beside taking changes.
#[derive(Clone, Copy)]
pub(crate) struct Failure {
    /// Why it can't be read, if it can't: neither events, jobs, heads of documents nor sheets. What it sends of a document is told apart.
    pub(crate) unread: Option<BookFault>,
    /// Why no event can be decided, if none can; the rest can be read.
    pub(crate) undecided: Option<BookFault>,
    /// What it tells of a document behind the first byte: that it was the last, or a fault.
    pub(crate) sent: Result<(), SendFault>,
}

/// It can be read, and takes no change.
pub(crate) const TAKES_NOTHING: Failure = Failure {
    unread: None,
    undecided: None,
    sent: Ok(()),
};

/// A book that takes no change, as one whose disk is full or fails, and sends of any document the byte `h` alone, as of one that begins so.
#[derive(Drop)]
pub(crate) struct FaultyBook<B> {
    /// What it reads from, where it can be read.
    pub(crate) inner: B,
    pub(crate) failure: Failure,
}

impl<B: DeskBook> FaultyBook<B> {
    /// A book of an empty queue that fails so.
    pub(crate) fn new(alloc: Global, failure: Failure) -> Result<FaultyBook<B>, Mismatch> {
        let inner = new_book(alloc)?;
        Ok(FaultyBook { inner, failure })
    }
}

impl<B> FaultyBook<B> {
    /// It can be read.
    fn check(&self) -> Result<(), BookFault> {
        match self.failure.unread {
            Some(fault) => Err(fault),
            None => Ok(()),
        }
    }
}

impl<B: QueueBook> QueueBook for FaultyBook<B> {
    ghost stands = { λ b w. ⊥ };

    ghost is_honest = { λ b. ⊥ };

    ghost is_live = { λ b. ⊥ };

    ghost crash_leaves = { λ b v w. ⊥ };

    ghost sound = { λ b w h s. absurd h };

    ghost lasts = { λ b w v h live s. absurd h };

    fn decide<'a>(&mut self, now: u32, e: &Event<'a>) -> Result<Decision<'a>, BookFault> {
        self.check()?;
        match self.failure.undecided {
            Some(fault) => Err(fault),
            None => self.inner.decide(now, e),
        }
    }

    fn apply(&mut self, _d: Decision<'_>) -> Result<(), BookFault> {
        Err(BookFault::Disk)
    }

    fn pending(&mut self) -> Result<JobList, BookFault> {
        self.check()?;
        self.inner.pending()
    }

    fn document_head(&mut self, job: u32, n: u32) -> Result<Option<DocumentHead>, BookFault> {
        self.check()?;
        self.inner.document_head(job, n)
    }

    fn send_document<W: Write>(
        &mut self,
        _job: u32,
        _n: u32,
        out: &mut W,
    ) -> Result<u64, SendFault> {
        put_whole(out, b"h")?;
        self.failure.sent?;
        Ok(1)
    }

    fn sheet(&mut self, account: &str) -> Result<Option<AccountSheet>, BookFault> {
        self.check()?;
        self.inner.sheet(account)
    }
}
