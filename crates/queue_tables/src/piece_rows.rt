//! The statements on pieces of documents.
ghost use Rattle.std.specs.Prelude.{◌≡◌, ◌≤◌, length, filter, []};
ghost use Rattle.sqlite.specs.Held.{state};
ghost use Rattle.queue_rows.specs.Pieces.{pieces_in};
ghost use Rattle.queue_tables.specs.Making.{MakesRows};
ghost use Rattle.queue_tables.specs.Steps.{with_piece_row, with_pieces, are_numbered, is_piece};
ghost use Rattle.queue_tables.specs.Values.{piece_values};
ghost use Rattle.queue_tables.specs.Kept.{HasOne};

use crate::fault::Fault;
use crate::run::insert;
use queue_rows::pieces::PIECE_OCTETS;
use sqlite::{Alter, Transaction, params};

/// Adds a piece.
fn insert_piece<S: Alter>(
    tx: &mut Transaction<'_, S>,
    job: u32,
    doc: u32,
    piece: u32,
    bytes: &[u8],
) -> Result<(), Fault>
    ensures same_reference { tx.new.conn.ghost_name ≡ tx.old.conn.ghost_name }
    ensures made { MakesRows (state S.Store tx.old.conn.now) (state S.Store tx.new.conn.now) result (λ c. HasOne (are_numbered job doc) c.documents × (filter (is_piece job doc piece) c.pieces ≡ [])) (with_piece_row (piece_values job doc piece bytes.now)) }
{
    insert(
        tx,
        "INSERT INTO pieces (job, doc, piece, bytes) VALUES (?1, ?2, ?3, ?4)",
        params![job, doc, piece, bytes],
    )
}

/// Adds the pieces of a document.
pub(crate) fn insert_pieces<S: Alter>(
    tx: &mut Transaction<'_, S>,
    job: u32,
    doc: u32,
    bytes: &[u8],
) -> Result<(), Fault>
    requires { length bytes.now ≤ 16777216 }
    ensures same_reference { tx.new.conn.ghost_name ≡ tx.old.conn.ghost_name }
    ensures made { MakesRows (state S.Store tx.old.conn.now) (state S.Store tx.new.conn.now) result (λ c. HasOne (are_numbered job doc) c.documents × (filter (are_numbered job doc) c.pieces ≡ [])) (with_pieces job doc bytes.now (pieces_in (length bytes.now))) }
{
    for (k, piece) in bytes.chunks(PIECE_OCTETS as usize).enumerate() {
        insert_piece(tx, job, doc, k as u32, piece)?;
    }
    Ok(())
}
