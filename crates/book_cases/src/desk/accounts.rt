//! Account files, and what is told of accounts.

use crate::desk::Desk;
use crate::desk::fault::StepFault;
use crate::desk::step::{Outcome, Pages};
use grants_csv::import;
use page_statements::statement;
use queue_core::QueueBook;

/// The first record of an account file.
const HEADER: &[u8] = b"batch,account,pages\n";

impl Desk {
    /// What comes of an account file.
    fn import<B: QueueBook>(&self, book: &mut B, file: &[u8]) -> Outcome {
        let now = self.moment();
        match import(self.alloc, book, now, file) {
            Ok(rows) => Ok((rows.added, rows.repeats)),
            Err(fault) => Err((fault.cause.code(), fault.row)),
        }
    }

    pub(super) fn compare_file<B: QueueBook>(
        &self,
        book: &mut B,
        file: &[u8],
        wanted: Outcome,
    ) -> Result<(), StepFault> {
        let came = self.import(book, file);
        if matches!(came, Err((6, 0))) {
            return Err(StepFault::Told);
        }
        self.compare(&came, &wanted)
    }

    pub(super) fn compare_grant<B: QueueBook>(
        &self,
        book: &mut B,
        rows: &[u8],
        wanted: Outcome,
    ) -> Result<(), StepFault> {
        let file = [HEADER, rows].concat(self.alloc)?;
        self.compare_file(book, file.as_slice(), wanted)
    }

    pub(super) fn compare_sheet<B: QueueBook>(
        &self,
        book: &mut B,
        account: &str,
        wanted: Option<Pages>,
    ) -> Result<(), StepFault> {
        let sheet = book.sheet(account)?;
        let came = sheet
            .as_ref()
            .map(|s| (s.granted, s.free, s.reserved, s.printed));
        self.compare(&came, &wanted)
    }

    fn statement<B: QueueBook>(
        &self,
        book: &mut B,
        account: &str,
    ) -> Result<Option<String>, StepFault> {
        match book.sheet(account)? {
            Some(sheet) => Ok(Some(statement(self.alloc, &sheet)?)),
            None => Ok(None),
        }
    }

    pub(super) fn compare_statement<B: QueueBook>(
        &self,
        book: &mut B,
        account: &str,
        wanted: &str,
    ) -> Result<(), StepFault> {
        let text = self.statement(book, account)?;
        let came = text.as_ref().map(|text| text.as_str());
        self.compare(&came, &Some(wanted))
    }
}
