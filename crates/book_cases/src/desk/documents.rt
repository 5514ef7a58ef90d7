//! Documents, as the device fetches them.

use crate::desk::Desk;
use crate::desk::fault::StepFault;
use queue_core::{QueueBook, SendCause, SendFault};

impl Desk {
    /// Sends a document that the device may fetch.
    fn send_document<B: QueueBook>(
        &self,
        book: &mut B,
        job: u32,
        number: u32,
        out: &mut Vec<u8>,
    ) -> Result<Result<u64, SendFault>, StepFault> {
        match book.document_head(job, number)? {
            Some(_) => Ok(book.send_document(job, number, out)),
            None => Err(StepFault::NoDocument),
        }
    }

    pub(super) fn compare_document<B: QueueBook>(
        &self,
        book: &mut B,
        job: u32,
        number: u32,
        wanted: Option<u64>,
    ) -> Result<(), StepFault> {
        let came = book.document_head(job, number)?.map(|head| head.octets);
        self.compare(&came, &wanted)
    }

    pub(super) fn compare_bytes<B: QueueBook>(
        &self,
        book: &mut B,
        job: u32,
        number: u32,
        wanted: &[u8],
    ) -> Result<(), StepFault> {
        let mut bytes = Vec::new(self.alloc);
        let sent = self.send_document(book, job, number, &mut bytes)?;
        if let Err(
            SendFault {
                written,
                cause: SendCause::Book(fault),
            },
        ) = sent
        {
            self.compare_front(bytes.as_slice(), wanted, written)?;
            return Err(StepFault::Book(fault));
        }
        self.compare(&sent, &Ok(wanted.len() as u64))?;
        self.compare(&bytes.as_slice(), &wanted)
    }

    /// What was sent of a document is so long a front of it.
    fn compare_front(&self, sent: &[u8], wanted: &[u8], written: u64) -> Result<(), StepFault> {
        self.compare(&(sent.len() as u64), &written)?;
        self.compare(&Some(sent), &wanted.get(..sent.len()))
    }
}
