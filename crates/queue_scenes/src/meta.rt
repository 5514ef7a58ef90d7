//! The next job number.
ghost use Rattle.std.specs.Prelude.{◌≡◌, ◌≤◌, IfOk, OnOk, IsTrue};
ghost use Rattle.sqlite.specs.Held.{state};
ghost use Rattle.sqlite.specs.State.{HasCleanDisk};
ghost use Rattle.queue_tables.specs.Telling.{ReadsQueue};

use queue_tables::fault::Fault;
use queue_tables::read::value;
use queue_tables::select::select;
use sqlite::{Alter, Connection};

/// The number of the next new job. It is damaged where it is 0, or not there.
pub(crate) fn next_number<S: Alter>(conn: &mut Connection<S>) -> Result<u32, Fault>
    ensures reads { ReadsQueue (state S.Store conn.old) (state S.Store conn.new) result (λ w n. n ≡ w.next) }
    ensures live { HasCleanDisk (state S.Store conn.new) → OnOk result (IsTrue (state S.Store conn.new).is_open) }
    ensures least { IfOk result (λ n. 1 ≤ n) }
{
    let found = select(conn, "SELECT next_number FROM meta WHERE one = 1", &[])?;
    match found.first() {
        None => Err(Fault::Damaged),
        Some(row) => {
            let next: u32 = value(row, 0)?;
            if next == 0 {
                return Err(Fault::Damaged);
            }
            Ok(next)
        }
    }
}
