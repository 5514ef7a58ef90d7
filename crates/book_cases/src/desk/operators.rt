//! Operators by their names.

use crate::desk::Desk;
use crate::desk::book::StepBook;
use crate::desk::fault::StepFault;
use queue_types::operators::{NameFault, OperatorNames, operator_names};
use queue_types::settings::SettingFault;
use std::alloc::Global;

/// The operators of these names. Names that operators can't have are bad settings.
pub(crate) fn operators_of(alloc: Global, names: &[&str]) -> Result<OperatorNames, SettingFault> {
    match operator_names(alloc, names) {
        Ok(operators) => Ok(operators),
        Err(NameFault::Memory) => Err(SettingFault::Memory),
        Err(_) => Err(SettingFault::Bad),
    }
}

/// The operators have these names, in this order.
pub(crate) fn are_named(operators: &OperatorNames, wanted: &[&str]) -> bool {
    if operators.len() != wanted.len() {
        return false;
    }
    for i in 0..wanted.len() {
        if operators.name(i) != wanted[i] {
            return false;
        }
    }
    true
}

impl Desk {
    /// Sets the operators of a book.
    pub(super) fn set_operators<B: StepBook>(
        &self,
        book: &mut B,
        names: &[&str],
    ) -> Result<(), StepFault> {
        let operators = operators_of(self.alloc, names)?;
        book.set_operators(&operators)
    }
}
