//! The rows that a reply is to have.
use crate::job_reply::JobAttribute;
use crate::printer_reply::PrinterAttribute;
use std::alloc::{AllocError, Global};

/// The rows that a reply is to have, in this order.
#[derive(Debug, Drop)]
pub enum Wanted {
    /// Of each job that the reply shows.
    Job(Vec<JobAttribute>),
    Printer(Vec<PrinterAttribute>),
}

impl Wanted {
    ghost use Rattle.std.specs.Prelude.{◌≡◌, IfOk};
    ghost use Rattle.ipp_reply.specs.Wanted as spec;
    ghost use Rattle.ipp_reply.specs.Wanted.{rows_of};

    /// No row. It takes no memory.
    pub fn nothing(alloc: Global) -> Self
        ensures { rows_of result ≡ spec.no_rows }
    {
        Wanted::Job(Vec::new(alloc))
    }

    /// These rows of each job, in this order. The one error is want of memory.
    pub fn of_job(alloc: Global, rows: &[JobAttribute]) -> Result<Self, AllocError>
        ensures { IfOk result (λ w. rows_of w ≡ spec.of_job rows.now) }
    {
        Ok(Wanted::Job(Vec::from_slice(alloc, rows)?))
    }

    /// These rows of the printer, in this order. The one error is want of memory.
    pub fn of_printer(alloc: Global, rows: &[PrinterAttribute]) -> Result<Self, AllocError>
        ensures { IfOk result (λ w. rows_of w ≡ spec.of_printer rows.now) }
    {
        Ok(Wanted::Printer(Vec::from_slice(alloc, rows)?))
    }

    /// The rows of a job.
    pub(crate) fn job_rows(&self) -> &[JobAttribute]
        ensures { result.now ≡ spec.job_rows (rows_of self.now) }
    {
        match self {
            Wanted::Job(rows) => rows.as_slice(),
            Wanted::Printer(_) => &[],
        }
    }

    /// The rows of the printer.
    pub(crate) fn printer_rows(&self) -> &[PrinterAttribute]
        ensures { result.now ≡ spec.printer_rows (rows_of self.now) }
    {
        match self {
            Wanted::Job(_) => &[],
            Wanted::Printer(rows) => rows.as_slice(),
        }
    }
}
