//! The statements on documents.
ghost use Rattle.std.specs.Prelude.{◌≡◌, ◌≤◌, ◌<◌, ◌+◌, IfOk, Some, length, filter, []};
ghost use Rattle.sqlite.specs.Held.{state};
ghost use Rattle.queue_types.specs.Event.{document_of};
ghost use Rattle.queue_tables.specs.Making.{MakesQueue, MakesRows};
ghost use Rattle.queue_tables.specs.Telling.{ReadsQueueInside};
ghost use Rattle.queue_tables.specs.Steps.{AreDistinct, document_count_at, with_added, with_document_row, CanTake, are_numbered, is_numbered};
ghost use Rattle.queue_tables.specs.Values.{document_values};
ghost use Rattle.queue_tables.specs.Kept.{HasOne};

use crate::document_sizes::OCTETS_OF_JOB;
use crate::fault::Fault;
use crate::piece_rows::insert_pieces;
use crate::run::{insert, select_inside};
use queue_rows::rows::DocumentRow;
use queue_types::document::Format;
use queue_types::event::NewDocument;
use queue_types::limits::{MOST_DOCUMENT_OCTETS, MOST_DOCUMENTS};
use sqlite::{Alter, Transaction, params};

/// Adds the row of a document.
fn insert_document<S: Alter>(
    tx: &mut Transaction<'_, S>,
    document: &DocumentRow,
) -> Result<(), Fault>
    ensures same_reference { tx.new.conn.ghost_name ≡ tx.old.conn.ghost_name }
    ensures made { MakesRows (state S.Store tx.old.conn.now) (state S.Store tx.new.conn.now) result (λ c. HasOne (is_numbered document.now.job) c.jobs × (filter (are_numbered document.now.job document.now.doc) c.documents ≡ [])) (with_document_row (document_values document.now)) }
{
    insert(
        tx,
        "INSERT INTO documents (job, doc, format, octets) VALUES (?1, ?2, ?3, ?4)",
        params![
            document.job,
            document.doc,
            document.format.name(),
            document.octets
        ],
    )
}

/// How many documents the job of that number has, where it may have one more. They are damaged where there are as many as a job
/// may have.
fn count_documents<S: Alter>(tx: &mut Transaction<'_, S>, job: u32) -> Result<u32, Fault>
    ensures same_reference { tx.new.conn.ghost_name ≡ tx.old.conn.ghost_name }
    ensures few { IfOk result (λ n. n < 16) }
    ensures reads { ReadsQueueInside (state S.Store tx.old.conn.now) (state S.Store tx.new.conn.now) result (λ w. AreDistinct w.jobs × (document_count_at job w.jobs < 16)) (λ w n. n ≡ document_count_at job w.jobs) }
{
    // of the lengths only their number is wanted
    let found = select_inside(tx, OCTETS_OF_JOB, params![job])?;
    if found.len() >= MOST_DOCUMENTS as usize {
        return Err(Fault::Damaged);
    }
    Ok(found.len() as u32)
}

/// Adds a document after those that its job has, which is there.
fn add_document<S: Alter>(
    tx: &mut Transaction<'_, S>,
    job: u32,
    format: Format,
    bytes: &[u8],
) -> Result<(), Fault>
    requires { length bytes.now ≤ 16777216 }
    ensures same_reference { tx.new.conn.ghost_name ≡ tx.old.conn.ghost_name }
    ensures made { MakesQueue (state S.Store tx.old.conn.now) (state S.Store tx.new.conn.now) result (CanTake (record { job = job; format = format; bytes = bytes.now })) (with_added (Some (record { job = job; format = format; bytes = bytes.now }))) }
{
    let doc = count_documents(tx, job)? + 1;
    let row = DocumentRow {
        job,
        doc,
        format,
        octets: bytes.len() as u32,
    };
    insert_document(tx, &row)?;
    insert_pieces(tx, job, doc, bytes)
}

/// Adds the document of a change, whose job is there.
pub(crate) fn put_document<S: Alter>(
    tx: &mut Transaction<'_, S>,
    document: &NewDocument<'_>,
) -> Result<(), Fault>
    ensures same_reference { tx.new.conn.ghost_name ≡ tx.old.conn.ghost_name }
    ensures made { MakesQueue (state S.Store tx.old.conn.now) (state S.Store tx.new.conn.now) result (CanTake (document_of document.now)) (with_added (Some (document_of document.now))) }
{
    if document.bytes.len() > MOST_DOCUMENT_OCTETS as usize {
        return Err(Fault::Damaged);
    }
    add_document(tx, document.job, document.format, document.bytes)
}
