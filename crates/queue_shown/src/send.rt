//! A document, written a piece at a time while its rows borrow the connection.
ghost use Rattle.std.specs.Prelude.{◌≡◌, ◌+◌, ◌<◌, ◌≤◌, ◌^◌, ℕ, [], ◌∷◌, Some, length, take, IfOk, IfErr, OnOk, OnErr, IsTrue};
ghost use Rattle.std.specs.Io.KnownBytes.{Appends};
ghost use Rattle.sqlite.specs.Held.{state};
ghost use Rattle.sqlite.specs.State.{HasCleanDisk};
ghost use Rattle.queue_core.specs.Shown.{document_at};
ghost use Rattle.queue_core.specs.Sound.{IsSound};
ghost use Rattle.queue_core.specs.World.{World};
ghost use Rattle.queue_types.specs.declared.document.Document.{Document};
ghost use Rattle.queue_shown.specs.Sending.{SendsPieces, SendsRows};
ghost use Rattle.queue_shown.specs.Sent.{HasWritten, ShowsNoBlob, piece_bytes};
ghost use Rattle.queue_shown.specs.Stops.{told_cause};
ghost use Rattle.queue_tables.specs.Content.{HoldNoQueue, Holds, content_of};
ghost use Rattle.queue_tables.specs.Leaving.{LeavesTables};
ghost use Rattle.queue_tables.specs.Values.{number};

use queue_core::{BookFault, SendCause, SendFault, put_whole};
use queue_tables::fault::Fault;
use sqlite::types::ValueRef;
use sqlite::{Alter, Connection, Error, Row, Rows, params};
use std::io::Write;

/// Why the pieces were not written to the last.
#[derive(Clone, Copy)]
enum Stop {
    Tables(Fault),
    /// The writer failed.
    Write,
}

impl From<Error> for Stop {
    ghost use Rattle.std.specs.Prelude.{◌≡◌};
    ghost use Rattle.queue_tables.specs.Faults.{read_fault};
    ghost use Rattle.queue_shown.specs.declared.send.Stop.TheVariants.{Tables};

    ghost from_gives = { λ e stop. stop ≡ Tables (read_fault e) };

    fn from(error: Error) -> Stop {
        Stop::Tables(Fault::from(error))
    }
}

fn cause_of(stop: Stop) -> SendCause
    ensures { result ≡ told_cause stop }
{
    match stop {
        Stop::Tables(fault) => SendCause::Book(BookFault::from(fault)),
        Stop::Write => SendCause::Write,
    }
}

/// Writes all the bytes, by as many writes as it takes. After a fault, which is the writer's, a front of them was written.
fn put<W: Write>(out: &mut W, bytes: &[u8], written: &mut u64) -> Result<(), Stop>
    requires { written.old + length bytes.now < 2 ^ 64 }
    ensures ok { OnOk result (Appends (W.contents out.old) (W.contents out.new) bytes.now × (written.new ≡ written.old + length bytes.now)) }
    ensures writer { IfErr result (λ stop. stop ≡ Stop.Write) }
    ensures err { OnErr result ((n : ℕ) × (n ≤ length bytes.now) × Appends (W.contents out.old) (W.contents out.new) (take n bytes.now) × (written.new ≡ written.old + n)) }
{
    match put_whole(out, bytes) {
        Ok(()) => {
            *written += bytes.len() as u64;
            Ok(())
        }
        Err(front) => {
            *written += front.written as u64;
            Err(Stop::Write)
        }
    }
}

/// Writes the bytes of a row. Damaged is told only where it shows none.
fn put_piece<W: Write>(row: &Row, out: &mut W, written: &mut u64) -> Result<(), Stop>
    ensures ok { OnOk result (Appends (W.contents out.old) (W.contents out.new) (piece_bytes row.now) × (written.new ≡ written.old + length (piece_bytes row.now))) }
    ensures damaged { IfErr result (λ stop. stop ≡ Stop.Tables Fault.Damaged → ShowsNoBlob row.now) }
    ensures err { OnErr result ((n : ℕ) × (n ≤ length (piece_bytes row.now)) × Appends (W.contents out.old) (W.contents out.new) (take n (piece_bytes row.now)) × (written.new ≡ written.old + n)) }
{
    let Ok(ValueRef::Blob(bytes)) = row.get_ref(0) else {
        return Err(Stop::Tables(Fault::Damaged));
    };
    if written.checked_add(bytes.len() as u64).is_none() {
        return Err(Stop::Tables(Fault::Disk));
    }
    put(out, bytes, written)
}

/// Writes the pieces that a query shows, which stands before its first, in order. Damaged is told only where one of
/// its rows shows no bytes.
fn send_rows<S: Alter, W: Write>(
    rows: &mut Rows<S>,
    out: &mut W,
    written: &mut u64,
) -> Result<(), Stop>
    requires { written.old ≡ 0 }
    ensures same_reference { rows.new.conn.ghost_name ≡ rows.old.conn.ghost_name }
    ensures sends { SendsRows S.Store rows.old.conn.now rows.new.conn.now result (W.contents out.old) (W.contents out.new) written.new }
{
    'rows: for _ in 0..u64::MAX {
        let Some(row) = rows.next()? else {
            return Ok(());
        };
        put_piece(row, out, written)?;
    }
    Err(Stop::Tables(Fault::Disk))
}

/// Writes the pieces of a document in order. Damaged is told only where a row of them shows no bytes, on a connection that was open.
fn send_pieces<S: Alter, W: Write>(
    conn: &mut Connection<S>,
    job: u32,
    doc: u32,
    out: &mut W,
    written: &mut u64,
) -> Result<(), Stop>
    requires { written.old ≡ 0 }
    ensures sends { SendsPieces (state S.Store conn.old) (state S.Store conn.new) result (number job ∷ number doc ∷ []) (W.contents out.old) (W.contents out.new) written.new }
{
    let mut rows = conn.query(
        "SELECT bytes FROM pieces WHERE job = ?1 AND doc = ?2 ORDER BY piece",
        params![job, doc],
    )?;
    send_rows(&mut rows, out, written)
}

/// Writes the bytes of document n, counted from 1, of a job, which `document_head` has found, and says how many they are.
/// After a fault a front of them was written. No more than a few pieces of them are held at once. The tables stay as they
/// were, where the connection is still open. Within a transaction it answers Disk. It doesn't look at the job's state: of a
/// document that `document_head` doesn't find, those pieces are written that are there. Damaged is told only where the
/// tables hold no sound queue.
pub fn send_document<S: Alter, W: Write>(
    conn: &mut Connection<S>,
    job: u32,
    n: u32,
    out: &mut W,
) -> Result<u64, SendFault>
    ensures leaves { LeavesTables (state S.Store conn.old) (state S.Store conn.new) }
    ensures live { HasCleanDisk (state S.Store conn.new) → OnOk result (IsTrue (state S.Store conn.new).is_open) }
    // a writer that fails shuts nothing
    ensures writer_failed { HasCleanDisk (state S.Store conn.new) → IfErr result (λ f. f.cause ≡ SendCause.Write → IsTrue (state S.Store conn.new).is_open) }
    ensures damaged { HasCleanDisk (state S.Store conn.new) → IfErr result (λ f. f.cause ≡ SendCause.Book BookFault.Damaged → HoldNoQueue (state S.Store conn.old)) }
    ensures ok { HasCleanDisk (state S.Store conn.new) → IfOk result (λ sent. (w : World) (d : Document) → IsSound w → Holds (content_of w) (state S.Store conn.old) → document_at w job n ≡ Some d → (sent ≡ length d.bytes) × Appends (W.contents out.old) (W.contents out.new) d.bytes) }
    ensures err { HasCleanDisk (state S.Store conn.new) → IfErr result (λ f. (w : World) (d : Document) → IsSound w → Holds (content_of w) (state S.Store conn.old) → document_at w job n ≡ Some d → (f.written ≤ length d.bytes) × Appends (W.contents out.old) (W.contents out.new) (take f.written d.bytes)) }
    // whatever the rows and the disk give
    ensures counted { IfOk result (λ sent. HasWritten (W.contents out.old) (W.contents out.new) sent) }
{
    if !conn.is_autocommit() {
        return Err(SendFault {
            written: 0,
            cause: SendCause::Book(BookFault::Disk),
        });
    }
    let mut written = 0;
    match send_pieces(conn, job, n, out, &mut written) {
        Ok(()) => Ok(written),
        Err(stop) => Err(SendFault {
            written,
            cause: cause_of(stop),
        }),
    }
}
