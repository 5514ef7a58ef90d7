//! Sweeps, which end the jobs that have expired.

use crate::desk::Desk;
use crate::desk::fault::StepFault;
use queue_core::{QueueBook, sweep};

impl Desk {
    pub(super) fn compare_sweep<B: QueueBook>(
        &self,
        book: &mut B,
        wanted: u32,
    ) -> Result<(), StepFault> {
        let ended = sweep(book, self.moment())?;
        self.compare(&ended, &wanted)
    }
}
