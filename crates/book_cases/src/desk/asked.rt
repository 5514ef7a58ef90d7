//! Requests of callers, and their replies.

use crate::desk::Desk;
use crate::desk::fault::StepFault;
use crate::desk::request::{JobsWanted, Request, fault_reply, jobs_reply, message, state_reply};
use ipp_ops::{Answer, answer};
use queue_core::QueueBook;

/// The most bytes that a request may have.
const MOST: usize = 16_777_216;

impl Desk {
    /// The answer to a caller's request. One that tells a fault of the book is none.
    fn ask<B: QueueBook>(
        &self,
        book: &mut B,
        caller: &str,
        request: Request<'_>,
    ) -> Result<Answer, StepFault> {
        let bytes = message(self.alloc, caller, request)?;
        if bytes.len() > MOST {
            return Err(StepFault::Request);
        }
        let now = self.moment();
        let answer = answer(self.alloc, book, &self.settings, now, bytes.as_slice())?;
        self.find_fault(answer.bytes())?;
        Ok(answer)
    }

    /// A reply that tells a fault answers nothing, and has these bytes alone.
    fn find_fault(&self, reply: &[u8]) -> Result<(), StepFault> {
        if code_of(reply) != Some(0x0505) {
            return Ok(());
        }
        let wanted = fault_reply(self.alloc)?;
        self.compare(&reply, &wanted.as_slice())?;
        Err(StepFault::Told)
    }

    pub(super) fn compare_code<B: QueueBook>(
        &self,
        book: &mut B,
        caller: &str,
        request: Request<'_>,
        wanted: u16,
    ) -> Result<(), StepFault> {
        let answer = self.ask(book, caller, request)?;
        self.compare(&code_of(answer.bytes()), &Some(wanted))
    }

    pub(super) fn compare_codes<B: QueueBook>(
        &self,
        book: &mut B,
        count: u32,
        caller: &str,
        request: Request<'_>,
        wanted: u16,
    ) -> Result<(), StepFault> {
        for _ in 0..count {
            self.compare_code(book, caller, request, wanted)?;
        }
        Ok(())
    }

    /// The answer to a caller's request has these bytes.
    pub(super) fn compare_reply<B: QueueBook>(
        &self,
        book: &mut B,
        caller: &str,
        request: Request<'_>,
        wanted: &[u8],
    ) -> Result<(), StepFault> {
        let answer = self.ask(book, caller, request)?;
        self.compare(&answer.bytes(), &wanted)
    }

    pub(super) fn compare_state<B: QueueBook>(
        &self,
        book: &mut B,
        caller: &str,
        job: u32,
        state: u8,
        reasons: &[&str],
    ) -> Result<(), StepFault> {
        let wanted = state_reply(self.alloc, state, reasons)?;
        self.compare_reply(book, caller, Request::Look(job), wanted.as_slice())
    }

    pub(super) fn compare_jobs<B: QueueBook>(
        &self,
        book: &mut B,
        caller: &str,
        which: JobsWanted,
        numbers: &[u32],
    ) -> Result<(), StepFault> {
        let wanted = jobs_reply(self.alloc, numbers)?;
        self.compare_reply(book, caller, Request::Jobs(which), wanted.as_slice())
    }
}

/// The status code of a reply.
fn code_of(reply: &[u8]) -> Option<u16> {
    match reply {
        [_, _, high, low, ..] => Some(u16::from_be_bytes([*high, *low])),
        _ => None,
    }
}
