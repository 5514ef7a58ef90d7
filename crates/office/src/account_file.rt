//! An account file enters a book.
ghost use Rattle.std.specs.Prelude.{◌≡◌, ◌≢◌, ◌≤◌, ◌⊎◌, Err, IfErr, IfOk, OnOk, length, take};
ghost use Rattle.office.specs.declared.fault.OfficeFault.TheVariants.{Import};
ghost use Rattle.std.specs.Io.KnownBytes.{Appends};
ghost use Rattle.std.specs.Option.{IfSome};
ghost use Rattle.grants_csv.specs.Fault.{fault};
ghost use Rattle.grants_csv.specs.File.{rows_of};
ghost use Rattle.grants_csv.specs.Import.{AskedBy};
ghost use Rattle.grants_csv.specs.declared.fault.ImportFault.{ImportFault};
ghost use Rattle.grants_csv.specs.declared.importing.Imported.{Imported as ImportedRows};
ghost use Rattle.office.specs.Faults.{IsOfFile, IsOfStream};
ghost use Rattle.office.specs.Told.{AreReadOf, IsRefused, IsTaken, import_line};
ghost use Rattle.queue_core.specs.Crash.{Carries};
ghost use Rattle.queue_core.specs.Limits.{IsMoment};
ghost use Rattle.queue_core.specs.World.{World};

use crate::fault::OfficeFault;
use grants_csv::{Imported, MOST_FILE_BYTES, import};
use queue_core::QueueBook;
use std::alloc::Global;
use std::io;
use std::io::{Read, Write};

/// One byte more than an account file may have, so that a file that is too long is seen to be so.
const MOST_READ_BYTES: u64 = MOST_FILE_BYTES as u64 + 1;

/// The bytes of a file, at most so many.
fn read_file<R: Read + Drop>(alloc: Global, reader: R, most: u64) -> io::Result<Vec<u8>>
    ensures { IfOk result (λ bytes. IfSome (R.remaining reader) (λ file. bytes.items ≡ take most file)) }
{
    let mut bytes = Vec::new(alloc);
    reader.take(most).read_to_end(&mut bytes)?;
    Ok(bytes)
}

/// The bytes of an account file, of which no more than 16,777,217 are read. Want of memory is an error of the kind `OutOfMemory`.
pub fn read_account_file<R: Read + Drop>(alloc: Global, reader: R) -> io::Result<Vec<u8>>
    ensures { IfOk result (λ bytes. AreReadOf (R.remaining reader) bytes.items) }
{
    read_file(alloc, reader, MOST_READ_BYTES)
}

/// Writes `new N repeats M`.
fn tell<W: Write>(writer: &mut W, imported: Imported) -> Result<(), OfficeFault>
    ensures told { OnOk result (Appends (W.contents writer.old) (W.contents writer.new) (import_line imported)) }
    ensures failed { IfErr result IsOfStream }
{
    let Imported { added, repeats } = imported;
    writeln!(writer, "new {added} repeats {repeats}")?;
    Ok(())
}

/// Takes the rows of an account file's bytes at this moment as one event, all of them or none, and writes `new N repeats M`: how many of them are new, and
/// how many equal one accepted before.
///
/// A file that is refused is told so, and leaves the book as it was, and nothing is written. A stream is told of only where the file was taken and the
/// line could not be written.
pub fn import_bytes<W: Write, B: QueueBook>(
    alloc: Global,
    bytes: &[u8],
    writer: &mut W,
    book: &mut B,
    now: u32,
) -> Result<(), OfficeFault>
    requires { IsMoment now }
    ensures began { B.is_honest book.new → B.is_honest book.old }
    ensures taken { B.is_honest book.new → OnOk result ((w : World) → B.stands book.old w
        → (n : ImportedRows) × (u : World) × IsTaken now w u bytes.now n × B.stands book.new u
        × Appends (W.contents writer.old) (W.contents writer.new) (import_line n)) }
    // the file is refused, or its rows were taken and the writer failed
    ensures why { B.is_honest book.new → IfErr result (λ f. (w : World) → B.stands book.old w
        → ((told : ImportFault) × (f ≡ Import told) × IsRefused now w bytes.now told × B.stands book.new w × (writer.new ≡ writer.old))
        ⊎ (IsOfStream f × (n : ImportedRows) × (u : World) × IsTaken now w u bytes.now n × B.stands book.new u)) }
    ensures live { B.is_honest book.new → OnOk result (B.is_live book.new) }
    ensures still_live { B.is_honest book.new → B.is_live book.old → IfErr result (λ f. f ≢ Import fault → B.is_live book.new) }
    // a crash at any moment leaves all of the rows, or none; which of the two is open only behind a fault
    ensures crash { B.is_honest book.new → (w : World) → B.stands book.old w
        → (u : World) × B.stands book.new u × Carries (B.crash_leaves book.old) (B.crash_leaves book.new) (AskedBy bytes.now) (result ≡ Err (Import fault)) now w u }
    // over any book, also one that is not honest
    ensures written { OnOk result ((n : ImportedRows) × Appends (W.contents writer.old) (W.contents writer.new) (import_line n)) }
    ensures unread { (told : ImportFault) → rows_of bytes.now ≡ Err told → (result ≡ Err (Import told))
        ⊎ ((result ≡ Err (Import fault)) × (length bytes.now ≤ 16777216)) }
    ensures unseen { (told : ImportFault) → rows_of bytes.now ≡ Err told → book.new ≡ book.old }
    ensures refused { IfErr result (λ f. (told : ImportFault) → f ≡ Import told → (w : World) → B.stands book.old w → B.stands book.new w) }
    ensures told { IfErr result (λ f. IsOfStream f ⊎ IsOfFile f) }
    ensures quiet { IfErr result (λ f. IsOfFile f → writer.new ≡ writer.old) }
{
    let imported = import(alloc, book, now, bytes)?;
    tell(writer, imported)
}
