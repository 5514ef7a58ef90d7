//! One row of an account file.
ghost use Rattle.std.specs.Prelude.{◌≡◌, ◌∷◌, [], true, false, if◌then◌else◌, IfOk, IfSome, IsNone, None, Some};
ghost use Rattle.std.specs.Char.{is_ascii_digit};
ghost use Rattle.std.specs.List.{list_all};
ghost use Rattle.std.specs.Option.{option_copied};
ghost use Rattle.csv.specs.Records.{fields_of};
ghost use Rattle.queue_core.specs.Limits as limits;
ghost use Rattle.grants_csv.specs.Fault.{IsUnlessFault};
ghost use Rattle.grants_csv.specs.File as file;

use crate::fault::{ImportCause, ImportFault};
use csv::ByteRecord;
use queue_core::{are_batch_bytes, has_no_control};
use queue_types::event::GrantRow;
use queue_types::limits::{MOST_BATCH_OCTETS, MOST_NAME_OCTETS, MOST_ROW_PAGES};
use queue_types::text::{Text, utf8_text};
use std::alloc::Global;

fn is_batch(bytes: &[u8]) -> bool
    ensures { result ≡ file.is_batch bytes.now }
{
    1 <= bytes.len() && bytes.len() <= MOST_BATCH_OCTETS && are_batch_bytes(bytes)
}

fn are_digits(bytes: &[u8]) -> bool
    ensures { result ≡ list_all is_ascii_digit bytes.now }
{
    bytes.iter().all(|b| b.is_ascii_digit())
}

fn has_leading_zero(bytes: &[u8]) -> bool
    ensures { result ≡ file.has_leading_zero bytes.now }
{
    match bytes {
        [first, _, ..] => *first == b'0',
        _ => false,
    }
}

fn batch_text(bytes: &[u8]) -> Option<&str>
    ensures { option_copied result ≡ (if file.is_batch bytes.now then Some bytes.now else None) }
{
    if is_batch(bytes) {
        utf8_text(bytes)
    } else {
        None
    }
}

fn account_text(bytes: &[u8]) -> Option<&str>
    ensures { option_copied result ≡ (if file.is_account bytes.now then Some bytes.now else None) }
{
    if 1 <= bytes.len() && bytes.len() <= MOST_NAME_OCTETS && has_no_control(bytes) {
        utf8_text(bytes)
    } else {
        None
    }
}

fn number_text(bytes: &[u8]) -> Option<&str>
    ensures { option_copied result ≡ (if file.is_number bytes.now then Some bytes.now else None) }
{
    if 1 <= bytes.len() && are_digits(bytes) && !has_leading_zero(bytes) {
        utf8_text(bytes)
    } else {
        None
    }
}

/// The fields of a row that is of the form.
#[derive(Clone, Copy)]
struct RowTexts<'a> {
    batch: &'a str,
    account: &'a str,
    pages: &'a str,
}

/// The fields of a record that is of a row's form.
fn texts_of(fields: &ByteRecord) -> Option<RowTexts<'_>>
    ensures texts { IfSome result (λ t. fields_of fields.now ≡ t.batch.now ∷ t.account.now ∷ t.pages.now ∷ []) }
    ensures form { IfSome result (λ t. file.has_form (fields_of fields.now) ≡ true) }
    ensures none { IsNone result → file.has_form (fields_of fields.now) ≡ false }
{
    if fields.len() != 3 {
        return None;
    }
    let batch = batch_text(fields.get(0)?)?;
    let account = account_text(fields.get(1)?)?;
    let pages = number_text(fields.get(2)?)?;
    Some(RowTexts {
        batch,
        account,
        pages,
    })
}

/// The number that digits spell, where it is 1 to 1,000,000.
fn pages_in(digits: &str) -> Option<u32>
    requires { file.is_number digits.now ≡ true }
    ensures { result ≡ file.pages_in digits.now }
{
    match digits.parse::<u32>() {
        Ok(n) if 1 <= n && n <= MOST_ROW_PAGES => Some(n),
        _ => None,
    }
}

/// The grant of a record, which is this row. In a row the form is looked at before the range of pages.
pub(crate) fn read_row(
    alloc: Global,
    fields: &ByteRecord,
    row: u32,
) -> Result<GrantRow, ImportFault>
    ensures read { IsUnlessFault result (file.row_of row (fields_of fields.now)) }
    ensures limits { IfOk result limits.IsGrantRow }
{
    let Some(texts) = texts_of(fields) else {
        return Err(ImportCause::Form.at(row));
    };
    let Some(pages) = pages_in(texts.pages) else {
        return Err(ImportCause::Range.at(row));
    };
    let batch = Text::copy_of(alloc, texts.batch)?;
    let account = Text::copy_of(alloc, texts.account)?;
    Ok(GrantRow {
        batch,
        account,
        pages,
    })
}
