//! Lines of the device, and its queue.

use crate::desk::Desk;
use crate::desk::fault::StepFault;
use device_lines::{queue_text, report};
use queue_core::QueueBook;

/// The answer to a line of the device that tells a fault.
const DEVICE_FAULT: &[u8] = b"refused 6 fault\n";

impl Desk {
    pub(super) fn compare_answer<B: QueueBook>(
        &self,
        book: &mut B,
        line: &str,
        wanted: &str,
    ) -> Result<(), StepFault> {
        let mut bytes = Vec::from_slice(self.alloc, line.as_bytes())?;
        bytes.push(b'\n')?;
        let now = self.moment();
        let answer = report(book, now, bytes.as_slice());
        if answer.bytes() == DEVICE_FAULT {
            return Err(StepFault::Told);
        }
        let came = answer.bytes().strip_suffix(b"\n".as_slice());
        self.compare(&came, &Some(wanted.as_bytes()))
    }

    pub(super) fn compare_queue<B: QueueBook>(
        &self,
        book: &mut B,
        wanted: &str,
    ) -> Result<(), StepFault> {
        let jobs = book.pending()?;
        let text = queue_text(self.alloc, jobs.as_slice())?;
        self.compare(&text.as_str(), &wanted)
    }
}
