//! The grants of an account file.
ghost use Rattle.std.specs.Prelude.{◌≡◌, ◌≤◌, ◌+◌, ℕ, List, [], All, Ok, Err, IfOk, IfErr, OnOk, bytes_eq, false, length};
ghost use Rattle.std.specs.Option.{option_map_or};
ghost use Rattle.csv.specs.Machine.{next_record as next_of};
ghost use Rattle.csv.specs.Reading.{default_config, records_from, strip_bom};
ghost use Rattle.csv.specs.Records.{field_at, fields_of};
ghost use Rattle.csv.specs.declared.parser.State.{State};
ghost use Rattle.csv.specs.declared.parser.State.TheVariants as st;
ghost use Rattle.queue_core.specs.Limits.{IsGrantRow};
ghost use Rattle.grants_csv.specs.Fault.{IsOfFileUnlessFault, IsUnlessFault, fault};
ghost use Rattle.grants_csv.specs.File.{is_header, rows_from, rows_of, rows_under};
ghost use Rattle.grants_csv.specs.Records.{Gives, IsAt};

use crate::fault::{ImportCause, ImportFault};
use crate::row::read_row;
use csv::{ByteRecord, Reader, ReaderBuilder};
use queue_types::event::{GrantList, GrantRow};
use std::alloc::Global;

/// The most bytes of an account file.
pub const MOST_FILE_BYTES: usize = 16_777_216;

/// U+FEFF in UTF-8.
const BYTE_ORDER_MARK: &[u8] = b"\xEF\xBB\xBF";

/// The first record is not the header.
const NO_HEADER: ImportFault = ImportFault {
    cause: ImportCause::Header,
    row: 0,
};

/// Reads the next record, and says whether there is one.
fn next_record(rdr: &mut Reader<&[u8]>, fields: &mut ByteRecord) -> Result<bool, ImportFault>
    ensures read { IfOk result (λ found. (s : State) (left : List ℕ) → IsAt rdr.old s left
        → Gives rdr.new found (fields_of fields.new) (next_of default_config s [] [] left)) }
    ensures err { IfErr result (λ f. f ≡ fault) }
{
    rdr.read_byte_record(fields).map_err(|_| ImportFault::FAULT)
}

fn has_field(fields: &ByteRecord, i: usize, name: &[u8]) -> bool
    ensures { result ≡ option_map_or (λ f. bytes_eq f name.now) (field_at (fields_of fields.now) i) false }
{
    fields.get(i) == Some(name)
}

#[tactic(auto, using(crate::proofs::Forms::header_is))]
fn is_header(fields: &ByteRecord) -> bool
    ensures { result ≡ is_header (fields_of fields.now) }
{
    fields.len() == 3
        && has_field(fields, 0, b"batch")
        && has_field(fields, 1, b"account")
        && has_field(fields, 2, b"pages")
}

/// Reads the rows under the header, at most so many.
fn read_rows(
    alloc: Global,
    rdr: &mut Reader<&[u8]>,
    fields: &mut ByteRecord,
    rows: &mut Vec<GrantRow>,
    most: u32,
) -> Result<(), ImportFault>
    requires { rows.old.items ≡ [] }
    ensures read { OnOk result ((s : State) (left : List ℕ) → IsAt rdr.old s left
        → rows_from 1 (records_from default_config most s left) ≡ Ok rows.new.items) }
    ensures refused { IfErr result (λ f. (s : State) (left : List ℕ) → IsAt rdr.old s left
        → IsUnlessFault (Err f) (rows_from 1 (records_from default_config most s left))) }
    ensures limits { All IsGrantRow rows.new.items }
    ensures few { length rows.new.items ≤ most }
{
    for n in 0..most {
        if !next_record(rdr, fields)? {
            return Ok(());
        }
        rows.push(read_row(alloc, fields, n + 1)?)?;
    }
    Ok(())
}

/// Reads the header and at most so many rows under it.
fn read_file(
    alloc: Global,
    rdr: &mut Reader<&[u8]>,
    fields: &mut ByteRecord,
    rows: &mut Vec<GrantRow>,
    most: u32,
) -> Result<(), ImportFault>
    requires { rows.old.items ≡ [] }
    ensures read { OnOk result ((left : List ℕ) → IsAt rdr.old st.StartRecord left
        → rows_under (records_from default_config (most + 1) st.StartRecord left) ≡ Ok rows.new.items) }
    ensures refused { IfErr result (λ f. (left : List ℕ) → IsAt rdr.old st.StartRecord left
        → IsUnlessFault (Err f) (rows_under (records_from default_config (most + 1) st.StartRecord left))) }
    ensures limits { OnOk result (All IsGrantRow rows.new.items) }
    ensures few { OnOk result (length rows.new.items ≤ most) }
{
    if !next_record(rdr, fields)? || !is_header(fields) {
        return Err(NO_HEADER);
    }
    read_rows(alloc, rdr, fields, rows, most)
}

/// How many bytes there are behind a byte order mark. No text has more records than bytes.
fn text_len(bytes: &[u8]) -> usize
    ensures len { result ≡ length (strip_bom bytes.now) }
    ensures within { result ≤ length bytes.now }
{
    bytes.strip_prefix(BYTE_ORDER_MARK).unwrap_or(bytes).len()
}

/// The grants of an account file, in their order, or why it is refused: at row 0 for its size, which is
/// looked at first, for its header or for want of memory; else at its first bad row.
pub fn read_grants(alloc: Global, bytes: &[u8]) -> Result<GrantList, ImportFault>
    ensures read { IsOfFileUnlessFault bytes.now result (rows_of bytes.now) }
    ensures limits { IfOk result (All IsGrantRow) }
    ensures few { IfOk result (λ rows. length rows ≤ 16777216) }
{
    if bytes.len() > MOST_FILE_BYTES {
        return Err(ImportCause::Range.at(0));
    }
    let mut rdr = ReaderBuilder::new()
        .has_headers(false)
        .flexible(true)
        .from_reader(alloc, bytes);
    let mut fields = ByteRecord::new(alloc);
    let mut rows = Vec::new(alloc);
    read_file(
        alloc,
        &mut rdr,
        &mut fields,
        &mut rows,
        text_len(bytes) as u32,
    )?;
    Ok(GrantList::from_items(rows))
}
