//! The page of a statement, line by line.
ghost use Rattle.std.specs.Prelude.{◌≡◌, ◌++◌, IfOk, OnOk, string_bytes};
ghost use Rattle.queue_types.specs.Job.{owed};
ghost use Rattle.page_statements.specs.Statement.{amounts, job_row, sheet_text, table};

use queue_types::job::Job;
use queue_types::sheet::AccountSheet;
use std::alloc::{AllocError, Global};

fn put_amounts(out: &mut String, sheet: &AccountSheet) -> Result<(), AllocError>
    ensures { OnOk result (string_bytes out.new ≡ string_bytes out.old ++ amounts sheet.now) }
{
    writeln!(out, "account {}", sheet.account.as_str())?;
    writeln!(out, "granted   {:>14}", sheet.granted)?;
    writeln!(out, "free      {:>14}", sheet.free)?;
    writeln!(out, "reserved  {:>14}", sheet.reserved)?;
    writeln!(out, "printed   {:>14}", sheet.printed)
}

fn put_job(out: &mut String, job: &Job) -> Result<(), AllocError>
    ensures { OnOk result (string_bytes out.new ≡ string_bytes out.old ++ job_row job.now) }
{
    let number = job.number;
    let state = job.state().number();
    let reserved = job.owed();
    let printed = job.count;
    writeln!(out, "{number:>10} {state:>5} {reserved:>9} {printed:>9}")
}

fn put_table(out: &mut String, sheet: &AccountSheet) -> Result<(), AllocError>
    ensures { OnOk result (string_bytes out.new ≡ string_bytes out.old ++ table sheet.now) }
{
    out.push_str("       job state  reserved   printed\n")?;
    for job in sheet.jobs.as_slice() {
        put_job(out, job)?;
    }
    writeln!(
        out,
        "     total       {:>9} {:>9}",
        sheet.reserved, sheet.printed
    )
}

/// The statement of an account: its name, its pages, a line for each job of the sheet with the job's
/// number, state, and pages reserved and printed, and their totals. A number that is wider than its
/// column takes the places that it needs. The one error is want of memory.
///
/// ```text
/// account alice
/// granted               30
/// free                  10
/// reserved               8
/// printed               12
///        job state  reserved   printed
///          1     5         8        12
///      total               8        12
/// ```
pub fn statement(alloc: Global, sheet: &AccountSheet) -> Result<String, AllocError>
    ensures { IfOk result (λ text. string_bytes text ≡ sheet_text sheet.now) }
{
    let mut out = String::new(alloc);
    put_amounts(&mut out, sheet)?;
    put_table(&mut out, sheet)?;
    Ok(out)
}
