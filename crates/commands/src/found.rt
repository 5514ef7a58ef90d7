//! What is at a path, before it is opened as a store.
ghost use Rattle.std.specs.IoError.{error_kind};
ghost use Rattle.std.specs.Prelude.{◌≡◌, ◌≢◌, ◌↔◌, IfErr, IfOk};
ghost use Rattle.std.specs.Option.{IfSome};
ghost use Rattle.std.specs.declared.io.ErrorKind.TheVariants.{OutOfMemory};
ghost use Rattle.command_ends.specs.declared.fault.Fault.TheVariants.{BadSetting, Memory as OfMemory};
ghost use Rattle.commands.specs.Found.{begins_log, found_in};
ghost use Rattle.commands.specs.Store.{IsOfPath};

use command_ends::Fault;
use std::alloc::Global;
use std::io::{ErrorKind, Read};
use std::rt::HostRuntime;
use std::{fs, io};

/// What a database file begins with.
const DATABASE_MARK: &[u8] = b"SQLite format 3\0";

/// What a log begins with: a number whose last bit tells the byte order of its sums (SQLite's file format, section 4.1).
const LOG_MARK: &[u8] = b"7\x7f\x06\x82";

const OTHER_LOG_MARK: &[u8] = b"7\x7f\x06\x83";

/// The most bytes of a log that has no page: its header of 32 bytes and a page's of 24 (sections 4.1 and 4.2).
const LOG_HEADERS: u64 = 56;

/// What a path has, as far as the first bytes tell.
#[derive(Clone, Copy)]
pub(crate) enum Found {
    Nothing,
    EmptyFile,
    /// No file, or an empty one, beside a log that may have pages, as where the file of a store was moved away. To make a database there is to write
    /// over the log.
    LogAlone,
    /// A database whose making was cut short: its first byte is written last, and is 0 until then.
    Unfinished,
    Database,
    /// Other bytes beside a log. A crash that comes as the first page of a database is written leaves it so: its log has that page whole, or the
    /// database is being made.
    Torn,
    OtherFile,
}

/// What a file is by its first bytes.
fn look_at<R: Read + Drop>(alloc: Global, file: R) -> io::Result<Found>
    ensures { IfOk result (λ found. IfSome (R.remaining file) (λ bytes. found ≡ found_in bytes)) }
{
    let mut front = Vec::new(alloc);
    file.take(DATABASE_MARK.len() as u64)
        .read_to_end(&mut front)?;
    if front.as_slice() == DATABASE_MARK {
        return Ok(Found::Database);
    }
    match front.as_slice() {
        [] => Ok(Found::EmptyFile),
        [0, ..] => Ok(Found::Unfinished),
        _ => Ok(Found::OtherFile),
    }
}

/// A file is a log, by its first bytes.
fn is_log<R: Read + Drop>(alloc: Global, file: R) -> io::Result<bool>
    ensures { IfOk result (λ is_one. IfSome (R.remaining file) (λ bytes. is_one ≡ begins_log bytes)) }
{
    let mut front = Vec::new(alloc);
    file.take(LOG_MARK.len() as u64).read_to_end(&mut front)?;
    Ok(front.as_slice() == LOG_MARK || front.as_slice() == OTHER_LOG_MARK)
}

/// The path of the log of a file.
fn log_path(rt: &HostRuntime, path: &str) -> io::Result<String> {
    Ok(format!(in rt.alloc(); "{}-wal", path)?)
}

/// How many bytes a regular file has; none where there is no such file.
fn file_len(rt: &HostRuntime, path: &str) -> io::Result<Option<u64>> {
    match fs::metadata(rt, path) {
        Ok(about) if about.is_file() => Ok(Some(about.len())),
        Ok(_) => Ok(None),
        Err(error) if error.kind() == ErrorKind::NotFound => Ok(None),
        Err(error) => Err(error),
    }
}

/// A log lies beside the file of a path.
fn has_log(rt: &HostRuntime, path: &str) -> io::Result<bool> {
    let log = log_path(rt, path)?;
    match file_len(rt, log.as_str())? {
        Some(_) => is_log(rt.alloc(), fs::open(rt, log.as_str())?),
        None => Ok(false),
    }
}

/// What lies beside a path in place of its log may have pages, by its length.
fn may_have_pages(rt: &HostRuntime, path: &str) -> io::Result<bool> {
    let log = log_path(rt, path)?;
    match file_len(rt, log.as_str())? {
        Some(len) => Ok(len > LOG_HEADERS),
        None => Ok(false),
    }
}

/// What the file of a path is, with the log that may lie beside it. What is no regular file, as a folder or a pipe, is an error.
fn look_at_file(rt: &HostRuntime, path: &str) -> io::Result<Found> {
    if !fs::metadata(rt, path)?.is_file() {
        return Err(ErrorKind::Unsupported.into());
    }
    let found = look_at(rt.alloc(), fs::open(rt, path)?)?;
    match found {
        Found::Unfinished | Found::OtherFile if has_log(rt, path)? => Ok(Found::Torn),
        Found::EmptyFile if may_have_pages(rt, path)? => Ok(Found::LogAlone),
        _ => Ok(found),
    }
}

/// What is at a path without a file, but for the log that may lie beside it.
fn look_at_nothing(rt: &HostRuntime, path: &str) -> io::Result<Found> {
    if may_have_pages(rt, path)? {
        Ok(Found::LogAlone)
    } else {
        Ok(Found::Nothing)
    }
}

/// What is at a path, or where it leads to if it is a link: the log lies beside the file itself. Nothing is made or written.
fn look_at_path(rt: &HostRuntime, path: &str) -> io::Result<Found> {
    match fs::canonicalize(rt, path) {
        Ok(real) => look_at_file(rt, real.as_str()),
        Err(error) if error.kind() == ErrorKind::NotFound => look_at_nothing(rt, path),
        Err(error) => Err(error),
    }
}

/// The fault of a path that can't be looked at or made.
pub(crate) fn fault_of_path(error: io::Error) -> Fault
    ensures told { IsOfPath result }
    ensures memory { (result ≡ OfMemory) ↔ (error_kind error ≡ OutOfMemory) }
    ensures other { result ≢ BadSetting }
{
    match error.kind() {
        ErrorKind::OutOfMemory => Fault::Memory,
        _ => Fault::Disk,
    }
}

/// What is at the path of a store, where an error is one of the disk.
pub(crate) fn found_at(rt: &HostRuntime, path: &str) -> Result<Found, Fault>
    ensures told { IfErr result IsOfPath }
    ensures other { IfErr result (λ f. f ≢ BadSetting) }
{
    look_at_path(rt, path).map_err(fault_of_path)
}
