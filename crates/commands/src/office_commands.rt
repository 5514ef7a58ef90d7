//! What the office asks of a store.
ghost use Rattle.std.specs.Prelude.{◌≡◌, ◌≢◌, ◌≤◌, ◌⊎◌, ℕ, Err, IfErr, IfOk, IsTrue, OnOk, None, length};
ghost use Rattle.std.specs.Io.KnownBytes.{Appends};
ghost use Rattle.command_ends.specs.Faults.{IsOfStream};
ghost use Rattle.command_ends.specs.declared.fault.Fault.TheVariants.{Damaged, NoAccount, Import as ByFile};
ghost use Rattle.commands.specs.Books.{LeavesBeside, Makes, MakesSafely};
ghost use Rattle.commands.specs.Refusals.{IsOfExpire, IsOfImport, IsOfNoAccount, IsOfOperators, IsOfStatement};
ghost use Rattle.commands.specs.Printed.{operators_line};
ghost use Rattle.commands.specs.Work.{AreIn, AreSet, HasImport, HasSweep, IsAllOrNone, IsFileOrNone, IsOfFile, IsRefusedAt, IsSweepOrNone, IsTakenAt, PrintsStatement, PrintsSweep, TellsImport};
ghost use Rattle.grants_csv.specs.Fault.{fault};
ghost use Rattle.grants_csv.specs.File.{rows_of};
ghost use Rattle.grants_csv.specs.declared.fault.ImportFault.{ImportFault};
ghost use Rattle.grants_csv.specs.declared.importing.Imported.{Imported as ImportedRows};
ghost use Rattle.office.specs.Told.{IsTaken, expired_line, import_line};
ghost use Rattle.page_statements.specs.Statement.{sheet_text};
ghost use Rattle.queue_core.specs.Limits.{IsMoment};
ghost use Rattle.queue_core.specs.Shown.{sheet_of};
ghost use Rattle.queue_core.specs.World.{World};
ghost use Rattle.queue_types.specs.declared.sheet.AccountSheet.{AccountSheet as Sheet};
ghost use Rattle.queue_store.specs.Kept.{IsHonest, StandsFor, shown_by};
ghost use Rattle.queue_tables.specs.Content.{LeavesOneOf};

use crate::work::NewOperators;
use command_ends::Fault;
use office::{expire_jobs, import_bytes, print_statement};
use print_server::present_moment;
use queue_store::TableBook;
use sqlite::Alter;
use std::alloc::Global;
use std::io;
use std::io::Write;
use std::rt::Clock;

/// The present moment of a book's printer.
fn moment_of<C: Clock, S: Alter>(clock: &C, book: &TableBook<S>) -> Result<u32, Fault>
    ensures moment { IfOk result IsMoment }
    ensures failed { IfErr result IsOfStream }
{
    let settings = book.settings()?;
    let now = present_moment(clock, settings.epoch())?;
    Ok(now)
}

/// Takes the bytes of an account file into a book at this moment, whole or not at all, and prints `new N repeats M`. A file that is refused is told so; a
/// stream is told of only where the rows were taken and the line could not be written.
fn import_bytes_at<S: Alter, W: Write>(
    alloc: Global,
    bytes: &[u8],
    output: &mut W,
    book: &mut TableBook<S>,
    now: u32,
) -> Result<(), Fault>
    requires moment { IsMoment now }
    ensures began { IsHonest S.Store book.new → IsHonest S.Store book.old }
    ensures taken { IsHonest S.Store book.new → OnOk result (Makes S.Store book.old book.new (λ w u. (n : ImportedRows)
        × IsTaken now w u bytes.now n × Appends (W.contents output.old) (W.contents output.new) (import_line n))) }
    // the file is refused, or its rows were taken and the output failed
    ensures why { IsHonest S.Store book.new → IfErr result (λ f. Makes S.Store book.old book.new (λ w u.
        (IsRefusedAt now bytes.now f w × (u ≡ w) × (output.new ≡ output.old))
        ⊎ (IsOfStream f × IsTakenAt now bytes.now w u))) }
    ensures live { IsHonest S.Store book.new → OnOk result (IsTrue (shown_by S.Store book.new).is_open) }
    ensures still_live { IsHonest S.Store book.new → IsTrue (shown_by S.Store book.old).is_open
        → IfErr result (λ f. f ≢ ByFile fault → IsTrue (shown_by S.Store book.new).is_open) }
    // whatever it answers: a crash at any moment leaves all of the rows, or none
    ensures crash { IsHonest S.Store book.new → IsTrue (shown_by S.Store book.old).is_open → Makes S.Store book.old book.new (λ w u.
        LeavesBeside (shown_by S.Store book.new) u (IsAllOrNone (IsTakenAt now bytes.now w) w u)) }
    // over any book, also one that is not honest
    ensures written { OnOk result ((n : ImportedRows) × Appends (W.contents output.old) (W.contents output.new) (import_line n)) }
    ensures unread { (told : ImportFault) → rows_of bytes.now ≡ Err told → (result ≡ Err (ByFile told))
        ⊎ ((result ≡ Err (ByFile fault)) × (length bytes.now ≤ 16777216)) }
    ensures refused { IfErr result (λ f. (told : ImportFault) → f ≡ ByFile told → (w : World) → StandsFor S.Store book.old w → StandsFor S.Store book.new w) }
    ensures told { IfErr result IsOfImport }
    ensures quiet { IfErr result (λ f. (told : ImportFault) → f ≡ ByFile told → output.new ≡ output.old) }
{
    import_bytes(alloc, bytes, output, book, now)?;
    Ok(())
}

/// Takes the bytes that were read of an account file into a book at the present moment, whole or not at all, and prints `new N repeats M`. A file that
/// is refused leaves the book as it was, and nothing is printed. One that could not be read is told of once the moment is known.
pub(crate) fn import_into<C: Clock, S: Alter, W: Write>(
    alloc: Global,
    clock: &C,
    file: io::Result<Vec<u8>>,
    output: &mut W,
    book: &mut TableBook<S>,
) -> Result<(), Fault>
    ensures began { IsHonest S.Store book.new → IsHonest S.Store book.old }
    // these two: whatever it answers, a crash at any moment leaves all of the rows, or none, as `IsFileOrNone` says
    ensures taken { IsHonest S.Store book.new → OnOk result (MakesSafely S.Store book.old book.new
        (λ w u. TellsImport (AreIn file) w u (W.contents output.old) (W.contents output.new)) (IsFileOrNone (AreIn file))) }
    ensures left { IsHonest S.Store book.new → IfErr result (λ f. MakesSafely S.Store book.old book.new
        (λ w u. (u ≡ w) × (output.new ≡ output.old) ⊎ (IsOfStream f × HasImport (AreIn file) w u)) (IsFileOrNone (AreIn file))) }
    ensures refused { IfErr result (λ f. (told : ImportFault) → f ≡ ByFile told → (w : World) → StandsFor S.Store book.old w → StandsFor S.Store book.new w) }
    ensures live { IsHonest S.Store book.new → OnOk result (IsTrue (shown_by S.Store book.new).is_open) }
    // a stream failed or there was no memory, or nothing was written
    ensures quiet { IfErr result (λ f. IsOfStream f ⊎ (output.new ≡ output.old)) }
    // a stream failed, or the file is refused
    ensures why { IsHonest S.Store book.new → IfErr result (λ f. (w : World) → StandsFor S.Store book.old w → IsOfStream f ⊎ IsOfFile (AreIn file) f w) }
    ensures told { IfErr result IsOfImport }
    // over any book, also one that is not honest
    ensures written { OnOk result ((n : ImportedRows) × Appends (W.contents output.old) (W.contents output.new) (import_line n)) }
{
    let now = moment_of(clock, book)?;
    let bytes = file?;
    import_bytes_at(alloc, bytes.as_slice(), output, book, now)
}

/// Prints the statement of an account of a book, and leaves the book as it was.
pub(crate) fn print_from<S: Alter, W: Write>(
    alloc: Global,
    account: &str,
    output: &mut W,
    book: &mut TableBook<S>,
) -> Result<(), Fault>
    ensures began { IsHonest S.Store book.new → IsHonest S.Store book.old }
    ensures kept { (w : World) → StandsFor S.Store book.old w → StandsFor S.Store book.new w }
    // whatever it answers: a crash at any moment leaves the queue as it was
    ensures crash { IsHonest S.Store book.new → IsTrue (shown_by S.Store book.old).is_open → (w : World) → StandsFor S.Store book.old w
        → LeavesOneOf w w (shown_by S.Store book.new) }
    ensures printed { IsHonest S.Store book.new → OnOk result ((w : World) → StandsFor S.Store book.old w
        → PrintsStatement w account.now (W.contents output.old) (W.contents output.new)) }
    ensures known { IsHonest S.Store book.new → IfErr result (λ f. (w : World) → StandsFor S.Store book.old w → sheet_of w account.now ≡ None → IsOfNoAccount f) }
    ensures unknown { IsHonest S.Store book.new → IfErr result (λ f. f ≡ NoAccount → (w : World) → StandsFor S.Store book.old w → sheet_of w account.now ≡ None) }
    ensures damaged { IsHonest S.Store book.new → IfErr result (λ f. f ≡ Damaged → (w : World) → ¬ StandsFor S.Store book.old w) }
    ensures live { IsHonest S.Store book.new → OnOk result (IsTrue (shown_by S.Store book.new).is_open) }
    ensures told { IfErr result IsOfStatement }
    // over any book, also one that is not honest
    ensures written { OnOk result ((s : Sheet) × (s.account ≡ account.now) × Appends (W.contents output.old) (W.contents output.new) (sheet_text s)) }
    // a stream failed or there was no memory, or nothing was written
    ensures quiet { IfErr result (λ f. IsOfStream f ⊎ (output.new ≡ output.old)) }
{
    print_statement(alloc, output, book, account)?;
    Ok(())
}

/// Ends the jobs of a book that have expired at the present moment, all of them or none, and prints `expired N`. An error leaves the queue as it was, and
/// nothing is printed, unless the jobs ended and the line could not be written.
pub(crate) fn expire_in<C: Clock, S: Alter, W: Write>(
    clock: &C,
    output: &mut W,
    book: &mut TableBook<S>,
) -> Result<(), Fault>
    ensures began { IsHonest S.Store book.new → IsHonest S.Store book.old }
    // these two: whatever it answers, a crash at any moment leaves all of the expired jobs ended, or none, as `IsSweepOrNone` says
    ensures expired { IsHonest S.Store book.new → OnOk result (MakesSafely S.Store book.old book.new
        (λ w u. PrintsSweep w u (W.contents output.old) (W.contents output.new)) IsSweepOrNone) }
    ensures left { IsHonest S.Store book.new → IfErr result (λ f. MakesSafely S.Store book.old book.new
        (λ w u. (u ≡ w) × (output.new ≡ output.old) ⊎ (IsOfStream f × HasSweep w u)) IsSweepOrNone) }
    ensures damaged { IsHonest S.Store book.new → IfErr result (λ f. f ≡ Damaged → (w : World) → ¬ StandsFor S.Store book.old w) }
    ensures live { IsHonest S.Store book.new → OnOk result (IsTrue (shown_by S.Store book.new).is_open) }
    ensures told { IfErr result IsOfExpire }
    // over any book, also one that is not honest
    ensures written { OnOk result ((n : ℕ) × Appends (W.contents output.old) (W.contents output.new) (expired_line n)) }
    // a stream failed or there was no memory, or nothing was written
    ensures quiet { IfErr result (λ f. IsOfStream f ⊎ (output.new ≡ output.old)) }
{
    let now = moment_of(clock, book)?;
    expire_jobs(output, book, now)?;
    Ok(())
}

/// Writes `operators N`.
fn tell_operators<W: Write>(output: &mut W, number: usize) -> Result<(), Fault>
    ensures told { OnOk result (Appends (W.contents output.old) (W.contents output.new) (operators_line number)) }
    ensures failed { IfErr result IsOfStream }
{
    writeln!(output, "operators {number}")?;
    Ok(())
}

/// Sets the operators of a book, and prints `operators N`, N how many they are. An error leaves the queue as it was, and nothing is printed, unless the
/// operators were set and the line could not be written.
pub(crate) fn set_operators_in<S: Alter, W: Write>(
    work: NewOperators<'_>,
    output: &mut W,
    book: &mut TableBook<S>,
) -> Result<(), Fault>
    ensures began { IsHonest S.Store book.new → IsHonest S.Store book.old }
    // these two: whatever it answers, a crash at any moment leaves the operators set, or as they were
    ensures set { IsHonest S.Store book.new → OnOk result (MakesSafely S.Store book.old book.new
        (λ w u. AreSet work.entry w u × Appends (W.contents output.old) (W.contents output.new) (operators_line (length work.entry.operators.now)))
        (λ w. IsAllOrNone (AreSet work.entry w) w)) }
    ensures left { IsHonest S.Store book.new → IfErr result (λ f. MakesSafely S.Store book.old book.new
        (λ w u. (u ≡ w) × (output.new ≡ output.old) ⊎ (IsOfStream f × AreSet work.entry w u)) (λ w. IsAllOrNone (AreSet work.entry w) w)) }
    ensures damaged { IsHonest S.Store book.new → IfErr result (λ f. f ≡ Damaged → (w : World) → ¬ StandsFor S.Store book.old w) }
    ensures live { IsHonest S.Store book.new → OnOk result (IsTrue (shown_by S.Store book.new).is_open) }
    ensures told { IfErr result IsOfOperators }
    // over any book, also one that is not honest
    ensures written { OnOk result (Appends (W.contents output.old) (W.contents output.new) (operators_line (length work.entry.operators.now))) }
    // a stream failed or there was no memory, or nothing was written
    ensures quiet { IfErr result (λ f. IsOfStream f ⊎ (output.new ≡ output.old)) }
{
    book.set_operators(work.operators)?;
    tell_operators(output, work.operators.len())
}
