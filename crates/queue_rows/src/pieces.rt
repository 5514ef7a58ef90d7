//! The rows of pieces against those of documents.
ghost use Rattle.std.specs.Prelude.{◌≡◌, ◌≢◌, ◌<◌, ◌*◌, ◌++◌, ◌↔◌, List, IsTrue, MatchOption};
ghost use Rattle.std.specs.List.{flat_map};
ghost use Rattle.queue_rows.specs.Pieces.{piece_of, pieces_of};
ghost use Rattle.queue_rows.specs.declared.rows.PieceRow.{PieceRow};

use crate::rows::{DocumentRow, PieceRow};

/// The octets of each piece of a document but the last.
pub const PIECE_OCTETS: u32 = 65_536;

/// It is the piece of that number of the document.
fn is_piece(piece: &PieceRow, document: &DocumentRow, k: u32) -> bool
    requires { k * 65536 < document.now.octets }
    ensures { IsTrue result ↔ (piece.now ≡ piece_of document.now k) }
{
    let length = (document.octets - k * PIECE_OCTETS).min(PIECE_OCTETS);
    piece.job == document.job
        && piece.doc == document.doc
        && piece.piece == k
        && piece.length == length
}

/// What follows the document's pieces, where they stand first.
fn behind_pieces<'a>(pieces: &'a [PieceRow], document: &DocumentRow) -> Option<&'a [PieceRow]>
    ensures { MatchOption result ((rest : List PieceRow) → pieces.now ≢ pieces_of document.now ++ rest) (λ rest. pieces.now ≡ pieces_of document.now ++ rest.now) }
{
    let count = document.octets.div_ceil(PIECE_OCTETS);
    if pieces.len() < count as usize {
        return None;
    }
    for k in 0..count {
        if !is_piece(&pieces[k as usize], document, k) {
            return None;
        }
    }
    Some(&pieces[count as usize..])
}

/// The pieces are those of the documents, each document's after another's.
pub(crate) fn pieces_follow(documents: &[DocumentRow], pieces: &[PieceRow]) -> bool
    ensures { IsTrue result ↔ (pieces.now ≡ flat_map pieces_of documents.now) }
{
    let mut rest = pieces;
    for document in documents {
        let Some(behind) = behind_pieces(rest, document) else {
            return false;
        };
        rest = behind;
    }
    rest.is_empty()
}
