//! All books of a test.

use crate::desk::fault::RowFault;
use crate::desk::shelf::take_row;
use crate::desk::step::Step;
use crate::shelves::kinds::{Adopted, InFile, InFolder, InLists, InTables};
use std::alloc::Global;
use std::io;
use std::test::Fail;

/// Takes the first steps and then those of a row, over tables in memory.
fn take_in_memory(
    alloc: Global,
    row: usize,
    first: &[Step<'_>],
    steps: &[Step<'_>],
) -> Result<(), RowFault> {
    take_row(alloc, &InTables, row, first, steps)?;
    take_row(alloc, &Adopted, row, first, steps)
}

/// Rows of steps, each of which begins with the same first ones in an empty queue of its own.
#[derive(Clone, Copy)]
pub(crate) struct Case<'a> {
    /// What is told where a step is not well.
    pub(crate) name: &'a str,
    pub(crate) first: &'a [Step<'a>],
    pub(crate) rows: &'a [&'a [Step<'a>]],
}

/// Takes cases over all books, with a folder of that name for their files.
pub(crate) fn take_cases(rt: &HostRuntime, folder: &str, cases: &[Case<'_>]) -> Result<(), Fail> {
    TestBooks::new(rt, folder, true)?.take_cases(cases)
}

/// Takes cases over all books but lists, with a folder of that name for their files.
pub(crate) fn take_cases_in_tables(
    rt: &HostRuntime,
    folder: &str,
    cases: &[Case<'_>],
) -> Result<(), Fail> {
    TestBooks::new(rt, folder, false)?.take_cases(cases)
}

/// All books of a test, with a folder of its own for its files.
#[derive(Drop)]
struct TestBooks<'a> {
    has_lists: bool,
    in_file: InFile<InFolder<'a>>,
}

impl<'a> TestBooks<'a> {
    /// The books of a test, among them one in lists or not, whose folder has this name, beside that of the process.
    fn new(rt: &'a HostRuntime, name: &str, has_lists: bool) -> io::Result<TestBooks<'a>> {
        let files = InFolder::new(rt, name)?;
        Ok(TestBooks {
            has_lists,
            in_file: InFile { files },
        })
    }

    /// The allocator of the test's runtime.
    fn alloc(&self) -> Global {
        self.in_file.files.rt().alloc()
    }

    /// Takes the first steps and then those of a row, over tables in a file.
    fn take_in_file(
        &self,
        row: usize,
        first: &[Step<'_>],
        steps: &[Step<'_>],
    ) -> Result<(), RowFault> {
        let taken = take_row(self.alloc(), &self.in_file, row, first, steps);
        self.in_file.files.remove();
        taken
    }

    /// Takes the first steps and then those of a row, over each book.
    fn take_row(&self, row: usize, first: &[Step<'_>], steps: &[Step<'_>]) -> Result<(), RowFault> {
        let alloc = self.alloc();
        if self.has_lists {
            take_row(alloc, &InLists, row, first, steps)?;
        }
        take_in_memory(alloc, row, first, steps)?;
        self.take_in_file(row, first, steps)
    }

    /// Takes the first steps and then those of each row, over each book.
    fn take_rows(&self, first: &[Step<'_>], rows: &[&[Step<'_>]]) -> Result<(), RowFault> {
        for (row, steps) in rows.iter().enumerate() {
            self.take_row(row, first, steps)?;
        }
        Ok(())
    }

    /// Takes a case over each book.
    fn take_case(&self, case: &Case<'_>) -> Result<(), Fail> {
        match self.take_rows(case.first, case.rows) {
            Ok(()) => Ok(()),
            Err(fault) => Err(Fail::new(format_args!("{}: {fault:?}", case.name))),
        }
    }

    /// Takes cases over each book.
    fn take_cases(&self, cases: &[Case<'_>]) -> Result<(), Fail> {
        for case in cases {
            self.take_case(case)?;
        }
        Ok(())
    }
}
