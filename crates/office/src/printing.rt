//! The statement of an account is printed.
ghost use Rattle.std.specs.Prelude.{◌≡◌, ◌⊎◌, OnOk, IfErr, None, Some};
ghost use Rattle.std.specs.Io.KnownBytes.{Appends};
ghost use Rattle.office.specs.declared.fault.OfficeFault.TheVariants.{Damaged, Disk, Memory, NoAccount};
ghost use Rattle.office.specs.Faults.{IsOfFile, IsOfStream};
ghost use Rattle.page_statements.specs.Statement.{sheet_text};
ghost use Rattle.queue_core.specs.Shown.{sheet_of};
ghost use Rattle.queue_core.specs.World.{World};
ghost use Rattle.queue_types.specs.declared.sheet.AccountSheet.{AccountSheet as Sheet};

use crate::fault::OfficeFault;
use page_statements::statement;
use queue_core::QueueBook;
use queue_types::sheet::AccountSheet;
use std::alloc::Global;
use std::io::Write;

/// Writes the statement of a sheet.
fn write_sheet<W: Write>(
    alloc: Global,
    writer: &mut W,
    sheet: &AccountSheet,
) -> Result<(), OfficeFault>
    ensures written { OnOk result (Appends (W.contents writer.old) (W.contents writer.new) (sheet_text sheet.now)) }
    ensures failed { IfErr result IsOfStream }
{
    let text = statement(alloc, sheet)?;
    writer.write_all(text.as_bytes())?;
    Ok(())
}

/// Writes the statement of an account. The account is unknown where nothing was ever granted to it, and told so unless the book had no memory or its
/// disk failed.
pub fn print_statement<W: Write, B: QueueBook>(
    alloc: Global,
    writer: &mut W,
    book: &mut B,
    account: &str,
) -> Result<(), OfficeFault>
    ensures began { B.is_honest book.new → B.is_honest book.old }
    ensures kept { (w : World) → B.stands book.old w → B.stands book.new w }
    ensures left { B.is_honest book.new → (v w : World) → B.crash_leaves book.old v w → B.crash_leaves book.new v w }
    ensures printed { B.is_honest book.new → OnOk result ((w : World) → B.stands book.old w
        → (s : Sheet) × (sheet_of w account.now ≡ Some s) × Appends (W.contents writer.old) (W.contents writer.new) (sheet_text s)) }
    ensures known { B.is_honest book.new → IfErr result (λ f. (w : World) → B.stands book.old w → sheet_of w account.now ≡ None
        → (f ≡ NoAccount) ⊎ (f ≡ Memory) ⊎ (f ≡ Disk)) }
    ensures unknown { B.is_honest book.new → IfErr result (λ f. f ≡ NoAccount → (w : World) → B.stands book.old w → sheet_of w account.now ≡ None) }
    ensures damaged { B.is_honest book.new → IfErr result (λ f. f ≡ Damaged → (w : World) → ¬ B.stands book.old w) }
    ensures live { B.is_honest book.new → OnOk result (B.is_live book.new) }
    ensures still_live { B.is_honest book.new → IfErr result (λ f. f ≡ NoAccount → B.is_live book.new) }
    // over any book, also one that is not honest
    ensures written { OnOk result ((s : Sheet) × (s.account ≡ account.now) × Appends (W.contents writer.old) (W.contents writer.new) (sheet_text s)) }
    ensures told { IfErr result (λ f. ¬ IsOfFile f) }
    // a stream failed or there was no memory, or nothing was written
    ensures quiet { IfErr result (λ f. IsOfStream f ⊎ (writer.new ≡ writer.old)) }
{
    match book.sheet(account)? {
        Some(sheet) => write_sheet(alloc, writer, &sheet),
        None => Err(OfficeFault::NoAccount),
    }
}
