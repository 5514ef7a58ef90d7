//! How many documents a job has, and how long they are.
ghost use Rattle.std.specs.Prelude.{◌≡◌, ◌≢◌, ◌≤◌, ◌*◌, All, length, sum_by, Some, IfOk, IfErr, OnOk, IsTrue};
ghost use Rattle.sqlite.specs.Held.{state};
ghost use Rattle.sqlite.specs.State.{HasCleanDisk};
ghost use Rattle.queue_core.specs.Sound.{IsSound};
ghost use Rattle.queue_core.specs.World.{World, job_at, rows};
ghost use Rattle.queue_types.specs.declared.job.Job.{Job};
ghost use Rattle.queue_tables.specs.Leaving.{LeavesTables};
ghost use Rattle.queue_tables.specs.Sizes.{IsLengthRow, first_number};
ghost use Rattle.queue_tables.specs.Content.{Holds, content_of};

use crate::fault::Fault;
use crate::read::value;
use crate::select::select;
use queue_types::limits::{MOST_DOCUMENT_OCTETS, MOST_DOCUMENTS};
use sqlite::{Alter, Connection, Row, params};

/// Shows the length in octets of each document of a job.
pub(crate) const OCTETS_OF_JOB: &str = "SELECT octets FROM documents WHERE job = ?1 ORDER BY doc";

/// The number of a job's documents, and the sum of their lengths in bytes.
#[derive(Clone, Copy)]
pub struct Sizes {
    pub documents: u32,
    pub octets: u64,
}

/// The sum of the lengths in rows.
fn octets_in(rows: &[Row]) -> Result<u64, Fault>
    requires { length rows.now ≤ 16 }
    ensures sum { IfOk result (λ n. n ≡ sum_by first_number rows.now) }
    ensures damaged { All IsLengthRow rows.now → IfErr result (λ e. e ≢ Fault.Damaged) }
{
    let mut octets: u64 = 0;
    for row in rows {
        let size: u32 = value(row, 0)?;
        octets += u64::from(size);
    }
    Ok(octets)
}

/// The documents of the job of that number. They are damaged where they are more than 16, or longer together than so
/// many can be.
pub fn sizes_of<S: Alter>(conn: &mut Connection<S>, job: u32) -> Result<Sizes, Fault>
    ensures leaves { LeavesTables (state S.Store conn.old) (state S.Store conn.new) }
    ensures live { HasCleanDisk (state S.Store conn.new) → OnOk result (IsTrue (state S.Store conn.new).is_open) }
    ensures few { IfOk result (λ s. s.documents ≤ 16) }
    ensures short { IfOk result (λ s. s.octets ≤ s.documents * 16777216) }
    ensures damaged { HasCleanDisk (state S.Store conn.new) → IfErr result (λ e. e ≡ Fault.Damaged → (w : World) (k : Job) → IsSound w → Holds (content_of w) (state S.Store conn.old) → job_at job (rows w) ≢ Some k) }
    ensures found { HasCleanDisk (state S.Store conn.new) → IfOk result (λ s. (w : World) (k : Job) → IsSound w → Holds (content_of w) (state S.Store conn.old) → job_at job (rows w) ≡ Some k → (s.documents ≡ k.documents) × (s.octets ≡ k.octets)) }
{
    let found = select(conn, OCTETS_OF_JOB, params![job])?;
    if found.len() > MOST_DOCUMENTS as usize {
        return Err(Fault::Damaged);
    }
    let documents = found.len() as u32;
    let octets = octets_in(found.as_slice())?;
    if octets > u64::from(documents) * u64::from(MOST_DOCUMENT_OCTETS) {
        return Err(Fault::Damaged);
    }
    Ok(Sizes { documents, octets })
}
