//! Steps that are taken in turn, over books of any kind.

use crate::desk::Desk;
use crate::desk::fault::{Books, RowFault, StepFault};
use crate::desk::step::Step;
use std::alloc::Global;

/// A way to keep a queue.
pub(crate) trait Shelf {
    /// What its books are, where a step is not well.
    fn books(&self) -> Books;

    /// Takes the first steps and then the others, in a new book of an empty queue.
    fn take_steps(
        &self,
        desk: &mut Desk,
        first: &[Step<'_>],
        steps: &[Step<'_>],
    ) -> Result<(), StepFault>;
}

/// Takes the first steps and then those of a row, in an empty queue.
pub(crate) fn take_row<S: Shelf>(
    alloc: Global,
    shelf: &S,
    row: usize,
    first: &[Step<'_>],
    steps: &[Step<'_>],
) -> Result<(), RowFault> {
    let books = shelf.books();
    let mut desk = match Desk::new(alloc) {
        Ok(desk) => desk,
        Err(fault) => {
            return Err(RowFault {
                books,
                row,
                step: 0,
                fault,
            });
        }
    };
    match shelf.take_steps(&mut desk, first, steps) {
        Ok(()) => Ok(()),
        Err(fault) => Err(RowFault {
            books,
            row,
            step: desk.taken,
            fault,
        }),
    }
}
