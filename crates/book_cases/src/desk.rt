//! A print queue in any book, as the steps of a test ask it and look at it. What comes of a step is compared with what
//! is wanted of it, and a difference names the book, the row and the step.

mod accounts;
mod asked;
pub(crate) mod book;
mod device;
mod documents;
pub(crate) mod fault;
pub(crate) mod operators;
pub(crate) mod request;
pub(crate) mod shelf;
pub(crate) mod step;
mod sweep;

ghost use Rattle.queue_core.specs.Limits.{IsMoment};

use crate::desk::book::StepBook;
use crate::desk::fault::StepFault;
use crate::desk::operators::operators_of;
use crate::desk::step::Step;
use queue_core::QueueBook;
use queue_types::limits::LAST_MOMENT;
use queue_types::settings::{SettingFault, Settings};
use std::alloc::Global;
use std::fmt::Debug;

/// The settings of a printer with an estimate of 20 pages, which keeps a held job for an hour and whose operator is opal.
pub(crate) fn printer(alloc: Global) -> Result<Settings, SettingFault> {
    let operators = operators_of(alloc, &["opal"])?;
    Settings::new(
        alloc,
        "ipp://localhost/ipp/print",
        "release",
        20,
        0,
        3600,
        operators,
    )
}

/// Where a desk is in its row.
#[derive(Clone, Copy)]
pub(crate) struct Place {
    taken: usize,
    now: u32,
}

impl Place {
    /// How many steps of the row lie between an earlier place and this one.
    pub(crate) fn behind(self, earlier: Place) -> usize {
        self.taken.saturating_sub(earlier.taken)
    }

    /// The place of the step before the one that stands here.
    pub(crate) fn before(self) -> Place {
        Place {
            taken: self.taken.saturating_sub(1),
            now: self.now,
        }
    }

    /// The place behind the step that stands here.
    pub(crate) fn next(self) -> Place {
        Place {
            taken: self.taken.wrapping_add(1),
            now: self.now,
        }
    }
}

/// What stands beside the book of a queue while the steps of a row are taken.
#[derive(Drop)]
pub(crate) struct Desk {
    alloc: Global,
    settings: Settings,
    /// The moment that a step comes at.
    now: u32,
    /// How many steps were well.
    taken: usize,
}

impl Desk {
    /// That of the printer of these tests, at moment 1.
    pub(crate) fn new(alloc: Global) -> Result<Desk, StepFault> {
        Ok(Desk::of(alloc, printer(alloc)?, 1))
    }

    /// That of a printer with these settings, at this moment.
    pub(crate) fn of(alloc: Global, settings: Settings, now: u32) -> Desk {
        Desk {
            alloc,
            settings,
            now,
            taken: 0,
        }
    }

    /// The allocator of the test.
    pub(crate) fn alloc(&self) -> Global {
        self.alloc
    }

    /// The printer's settings, for a book of an empty queue.
    pub(crate) fn settings(&self) -> Result<Settings, StepFault> {
        Ok(self.settings.try_clone()?)
    }

    /// Where the desk is in its row.
    pub(crate) fn place(&self) -> Place {
        Place {
            taken: self.taken,
            now: self.now,
        }
    }

    /// Goes back to a place in the row.
    pub(crate) fn go_to(&mut self, place: Place) {
        self.taken = place.taken;
        self.now = place.now;
    }

    /// The moment that a step comes at, brought into the moments of a printer.
    fn moment(&self) -> u32
        ensures { IsMoment result }
    {
        self.now.clamp(1, LAST_MOMENT)
    }

    /// Takes a step over a book.
    pub(crate) fn take<B: StepBook>(
        &mut self,
        book: &mut B,
        step: Step<'_>,
    ) -> Result<(), StepFault> {
        self.compare_step(book, step)?;
        self.taken = self.taken.wrapping_add(1);
        Ok(())
    }

    /// Takes steps over a book.
    pub(crate) fn take_each<B: StepBook>(
        &mut self,
        book: &mut B,
        steps: &[Step<'_>],
    ) -> Result<(), StepFault> {
        for step in steps {
            self.take(book, *step)?;
        }
        Ok(())
    }

    /// Takes steps over a book, each a second after the one before.
    pub(crate) fn take_by_seconds<B: StepBook>(
        &mut self,
        book: &mut B,
        steps: &[Step<'_>],
    ) -> Result<(), StepFault> {
        for step in steps {
            self.take(book, *step)?;
            self.now = self.now.saturating_add(1);
        }
        Ok(())
    }

    /// Compares what comes of a step with what is wanted.
    fn compare_step<B: StepBook>(&mut self, book: &mut B, step: Step<'_>) -> Result<(), StepFault> {
        match step {
            Step::Now(moment) => {
                self.now = moment;
                Ok(())
            }
            Step::Grant(rows, wanted) => self.compare_grant(book, rows, wanted),
            Step::File(file, wanted) => self.compare_file(book, file, wanted),
            Step::Dev(line, wanted) => self.compare_answer(book, line, wanted),
            Step::Expire(wanted) => self.compare_sweep(book, wanted),
            Step::Operators(names) => self.set_operators(book, names),
            Step::Ask(caller, request, wanted) => self.compare_code(book, caller, request, wanted),
            Step::AskTimes(count, caller, request, wanted) => {
                self.compare_codes(book, count, caller, request, wanted)
            }
            _ => self.compare_look(book, step),
        }
    }

    /// Compares what a look shows with what is wanted. A step that is no look is refused.
    fn compare_look<B: QueueBook>(&self, book: &mut B, step: Step<'_>) -> Result<(), StepFault> {
        match step {
            Step::Reply(caller, request, wanted) => {
                self.compare_reply(book, caller, request, wanted)
            }
            Step::Look(caller, job, state, reasons) => {
                self.compare_state(book, caller, job, state, reasons)
            }
            Step::Jobs(caller, which, numbers) => self.compare_jobs(book, caller, which, numbers),
            Step::Sheet(account, wanted) => self.compare_sheet(book, account, Some(wanted)),
            Step::NoSheet(account) => self.compare_sheet(book, account, None),
            Step::Statement(account, wanted) => self.compare_statement(book, account, wanted),
            Step::Queue(wanted) => self.compare_queue(book, wanted),
            Step::Document(job, number, wanted) => self.compare_document(book, job, number, wanted),
            Step::Fetch(job, number, wanted) => self.compare_bytes(book, job, number, wanted),
            _ => Err(StepFault::NoLook),
        }
    }

    /// Both are the same.
    fn compare<T: PartialEq + Debug>(&self, came: &T, wanted: &T) -> Result<(), StepFault> {
        if came == wanted {
            return Ok(());
        }
        let told = format!(in self.alloc; "{came:?}, wanted: {wanted:?}")?;
        Err(StepFault::Differs(told))
    }
}
