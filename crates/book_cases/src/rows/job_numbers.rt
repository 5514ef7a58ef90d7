//! The last job number, which no run of a test could reach by printing alone.

use crate::desk::Desk;
use crate::desk::fault::{Books, RowFault, StepFault};
use crate::desk::request::JobsWanted;
use crate::desk::request::Request::{Create, Print};
use crate::desk::shelf::{Shelf, take_row};
use crate::desk::step::Step;
use crate::desk::step::Step::{Ask, Jobs, Look};
use crate::shelves::kinds::take_adopted;
use queue_store::TableBook;
use sqlite::{Alter, Connection};

/// Makes the last number the next one.
fn skip_numbers<S: Alter>(conn: &mut Connection<S>) -> Result<(), StepFault> {
    match conn.execute("UPDATE meta SET next_number = 2147483647", &[]) {
        Ok(_count) => Ok(()),
        Err(_error) => Err(StepFault::SettingUp),
    }
}

/// Books in tables in memory, in which the last number is the next one.
struct AtLastNumber;

impl Shelf for AtLastNumber {
    fn books(&self) -> Books {
        Books::TablesAtTheLastNumber
    }

    fn take_steps(
        &self,
        desk: &mut Desk,
        first: &[Step<'_>],
        steps: &[Step<'_>],
    ) -> Result<(), StepFault> {
        let mut conn = TableBook::in_memory(desk.alloc(), desk.settings()?)?.close();
        skip_numbers(&mut conn)?;
        take_adopted(desk, conn, first, steps)
    }
}

#[test]
fn last_job_number_in_tables(rt: HostRuntime) -> Result<(), RowFault> {
    const STEPS: &[Step<'static>] = &[
        Ask("alice", Print, 0x0000),
        Look("alice", 2_147_483_647, 4, &["job-hold-until-specified"]),
        Ask("alice", Print, 0x0506),
        Ask("bob", Create, 0x0506),
        Jobs("alice", JobsWanted::Live, &[2_147_483_647]),
        Jobs("bob", JobsWanted::Live, &[]),
    ];
    take_row(rt.alloc(), &AtLastNumber, 0, &[], STEPS)
}
