//! The books that steps are taken over.

use crate::desk::fault::StepFault;
use list_book::ListBook;
use queue_core::QueueBook;
use queue_store::TableBook;
use queue_types::operators::OperatorNames;
use sqlite::Alter;

/// A book that the steps of a test are taken over.
pub(crate) trait StepBook: QueueBook {
    /// Sets the operators of the queue, if its book can do that.
    fn set_operators(&mut self, operators: &OperatorNames) -> Result<(), StepFault>;
}

impl StepBook for ListBook {
    fn set_operators(&mut self, _operators: &OperatorNames) -> Result<(), StepFault> {
        Err(StepFault::NoOperators)
    }
}

impl<S: Alter> StepBook for TableBook<S> {
    fn set_operators(&mut self, operators: &OperatorNames) -> Result<(), StepFault> {
        TableBook::set_operators(self, operators)?;
        Ok(())
    }
}
