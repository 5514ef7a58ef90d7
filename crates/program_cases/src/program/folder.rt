//! A folder of a test, and what is done in it in turn: files are written, and commands are run on them.
//!
//! A path, and a command's line of words, is text in which `@` stands for the folder.

use crate::desk::books::GRANT;
use crate::desk::compare::{Failed, Mismatch, Place, Subject, failed_at};
use crate::desk::connection::filled;
use crate::desk::streams::{TestWriter, Way};
use commands::run;
use print_server::listen;
use sqlite::{Alter, Connection, Wary};
use std::alloc::Global;
use std::cell::Cell;
use std::io::{BufWriter, ErrorKind, Write};
use std::os::unix::fs::{PermissionsExt, symlink};
use std::test::Fail;
use std::{env, fs, process};

/// Where comparisons are made.
pub(super) const AT: Place = Place {
    subject: Subject::Files,
    most: usize::MAX,
};

/// The path of the store of a test.
pub(super) const STORE: &str = "@/store";

/// The path of another file of a test.
pub(super) const FILE: &str = "@/file";

/// What a command leaves: its exit status, what it prints, and its line on standard error.
pub(super) type Told = (u8, &'static str, &'static str);

/// A command is done, and prints nothing.
pub(super) const DONE: Told = (0, "", "");

pub(super) const DISK: Told = (1, "", "printd: disk\n");

pub(super) const DAMAGED: Told = (1, "", "printd: damaged\n");

pub(super) const IO: Told = (1, "", "printd: io\n");

pub(super) const BAD_SETTING: Told = (1, "", "printd: bad setting\n");

pub(super) const NO_ACCOUNT: Told = (1, "", "printd: no account\n");

/// The line that makes the store.
pub(super) const INIT: &str =
    "printd init --store @/store --uri ipp://localhost/ipp/print --name release";

/// The line that imports the other file into the store.
pub(super) const IMPORT: &str = "printd import --store @/store @/file";

/// The line that ends the store's jobs which have expired.
pub(super) const EXPIRE: &str = "printd expire --store @/store";

/// The line that makes opal the store's operator.
pub(super) const OPERATORS: &str = "printd operators --store @/store opal";

/// The line that prints alice's statement.
pub(super) const STATEMENT: &str = "printd statement --store @/store alice";

/// What is done next.
#[derive(Clone, Copy)]
pub(super) enum Step {
    /// A file is written: these parts, each so many times.
    Writes(&'static str, &'static [(&'static [u8], usize)]),
    /// The other file is an account file of so many rows of 1,000,000 pages each for dave.
    WritesRows(u32),
    /// The bytes of one file are those of another, as far as so many eighths of it.
    Copies(&'static str, &'static str, usize),
    /// A path is a link to another.
    Links(&'static str, &'static str),
    /// The words of a line leave this.
    Tells(&'static str, Told),
    /// They leave this, and this file as it was, byte for byte.
    Keeps(&'static str, &'static str, Told),
    /// What they print can't be printed by a writer of this way.
    Unprinted(&'static str, Way),
    /// The words of a line that serves, on a port that another listens on, leave this.
    TakenPort(&'static str, Told),
    /// The other file has these bytes, and its import into the store leaves this.
    Imports(&'static [u8], Told),
    /// Statements change the tables of the store, as the shell of SQLite could.
    Runs(&'static str),
    /// No file is there.
    Lacks(&'static str),
    /// The bytes of one file are those of another, with the one place of some bytes turned into others.
    Turns(&'static str, &'static str, &'static [u8], &'static [u8]),
    /// A file has this byte at this place.
    HasByte(&'static str, usize, u8),
    /// A file is its user's alone.
    IsPrivate(&'static str),
    /// There is no file in the folder, which goes. It is the last step.
    IsEmpty,
}

/// What is done in a folder of its own, with a name for it.
pub(super) type Row = (&'static str, &'static [Step]);

/// A store is made.
pub(super) const MADE: Step = Step::Tells(INIT, DONE);

/// The store takes that file.
pub(super) const IMPORTED: Step = Step::Imports(GRANT, (0, "new 1 repeats 0\n", ""));

/// The store has the row of that file.
pub(super) const REPEATED: Step = Step::Tells(IMPORT, (0, "new 0 repeats 1\n", ""));

/// What is told of words whose output can't be printed: the exit status, and the line on standard error.
const UNPRINTED: (u8, &str) = (1, "printd: io\n");

/// The program's words print to a writer, and leave this status and this on standard error.
fn tell_to<O: Write>(
    rt: &HostRuntime,
    words: &[&str],
    out: &mut O,
    wanted: (u8, &str),
) -> Result<(), Mismatch> {
    let mut out = BufWriter::new(rt.alloc(), out)?;
    let mut err = Vec::new(rt.alloc());
    let status = run(rt, words, &mut out, &mut err);
    AT.same_bytes(wanted.1.as_bytes(), err.as_slice())?;
    AT.is_so(status == wanted.0, "the exit status")
}

/// Adds the rows of an account file.
fn put_rows(file: &mut Vec<u8>, rows: u32) -> Result<(), Mismatch> {
    file.extend_from_slice(b"batch,account,pages\n")?;
    for row in 1..=rows {
        writeln!(file, "b{row},dave,1000000")?;
    }
    Ok(())
}

/// What stands before the first place of a part, and what behind it.
fn parted_at<'a>(bytes: &'a [u8], part: &[u8]) -> Option<(&'a [u8], &'a [u8])> {
    let place = bytes.windows(part.len().max(1)).position(|it| it == part)?;
    let (front, rest) = bytes.split_at(place);
    Some((front, rest.strip_prefix(part)?))
}

/// Statements run in a store, which is closed, and none is refused.
fn are_run<S: Alter + Drop>(mut conn: Connection<S>, statements: &str) -> bool {
    conn.execute_batch(statements).is_ok()
}

/// A folder of a test.
#[derive(Drop)]
pub(super) struct Folder<'a> {
    rt: &'a HostRuntime,
    path: String,
}

impl<'a> Folder<'a> {
    /// A new, empty folder.
    pub(super) fn new(rt: &'a HostRuntime, name: &str) -> Result<Folder<'a>, Mismatch> {
        let path = format!(in rt.alloc();
            "{}/printd-{name}-{}",
            env::temp_dir(rt)?.as_str(),
            process::id(rt.process())
        )?;
        // what a failed test of a process with this number has left
        let _ = fs::remove_dir_all(rt, path.as_str());
        fs::create_dir(rt, path.as_str())?;
        Ok(Folder { rt, path })
    }

    /// Removes the folder with its files, as a test has ended well.
    pub(super) fn remove(&self) {
        let _ = fs::remove_dir_all(self.rt, self.path.as_str());
    }

    pub(super) fn rt(&self) -> &HostRuntime {
        self.rt
    }

    pub(super) fn alloc(&self) -> Global {
        self.rt.alloc()
    }

    /// The text with the folder's path for each `@`.
    fn whole(&self, text: &str) -> Result<String, Mismatch> {
        let parts: Vec<&str> = text.split('@').collect(self.alloc())?;
        let whole = parts.as_slice().join(self.alloc(), self.path.as_str())?;
        Ok(whole)
    }

    /// The bytes of a file.
    fn read(&self, path: &str) -> Result<Vec<u8>, Mismatch> {
        Ok(fs::read(self.rt, self.whole(path)?)?)
    }

    /// Writes a file.
    fn write(&self, path: &str, bytes: &[u8]) -> Result<(), Mismatch> {
        fs::write(self.rt, self.whole(path)?, bytes)?;
        Ok(())
    }

    fn fill(&self, path: &str, parts: &[(&[u8], usize)]) -> Result<(), Mismatch> {
        self.write(path, filled(self.alloc(), parts)?.as_slice())
    }

    fn write_rows(&self, rows: u32) -> Result<(), Mismatch> {
        let mut file = Vec::new(self.alloc());
        put_rows(&mut file, rows)?;
        self.write(FILE, file.as_slice())
    }

    fn copy(&self, from: &str, to: &str, eighths: usize) -> Result<(), Mismatch> {
        let bytes = self.read(from)?;
        let length = (bytes.len() / 8).saturating_mul(eighths);
        self.write(
            to,
            bytes.as_slice().get(..length).unwrap_or(bytes.as_slice()),
        )
    }

    fn link(&self, path: &str, to: &str) -> Result<(), Mismatch> {
        symlink(self.rt, self.whole(to)?, self.whole(path)?)?;
        Ok(())
    }

    fn turn(&self, from: &str, to: &str, old: &[u8], new: &[u8]) -> Result<(), Mismatch> {
        let bytes = self.read(from)?;
        let Some((front, behind)) = parted_at(bytes.as_slice(), old) else {
            return Err(AT.not("a place of some bytes"));
        };
        AT.is_so(parted_at(behind, old).is_none(), "one place of some bytes")?;
        let turned = [front, new, behind].concat(self.alloc())?;
        self.write(to, turned.as_slice())
    }

    /// The words of a line print to a writer, and leave this status and this on standard error.
    pub(super) fn tell_to<O: Write>(
        &self,
        line: &str,
        out: &mut O,
        wanted: (u8, &str),
    ) -> Result<(), Mismatch> {
        let line = self.whole(line)?;
        let words: Vec<&str> = line.split(' ').collect(self.alloc())?;
        tell_to(self.rt, words.as_slice(), out, wanted)
    }

    /// The words of a line leave this.
    pub(super) fn tell(&self, line: &str, wanted: Told) -> Result<(), Mismatch> {
        let mut out = Vec::new(self.alloc());
        self.tell_to(line, &mut out, (wanted.0, wanted.2))?;
        AT.same_bytes(wanted.1.as_bytes(), out.as_slice())
    }

    /// The words of a line leave this, and this file as it was.
    fn keep(&self, path: &str, line: &str, wanted: Told) -> Result<(), Mismatch> {
        let before = self.read(path)?;
        self.tell(line, wanted)?;
        AT.same_bytes(before.as_slice(), self.read(path)?.as_slice())
    }

    /// So they do, where their output is a writer of this way.
    fn tell_unprinted(&self, line: &str, way: Way) -> Result<(), Mismatch> {
        let written = Cell::new(0);
        let mut out = TestWriter::new(self.alloc(), way, &written);
        self.tell_to(line, &mut out, UNPRINTED)
    }

    fn import(&self, bytes: &[u8], wanted: Told) -> Result<(), Mismatch> {
        self.write(FILE, bytes)?;
        self.tell(IMPORT, wanted)
    }

    /// Runs statements in the store, none of which is refused.
    fn run(&self, statements: &str) -> Result<(), Mismatch> {
        let path = self.whole(STORE)?;
        match Connection::open_from(self.rt, path.as_str(), false, Wary) {
            Ok(conn) => AT.is_so(are_run(conn, statements), statements),
            Err(_) => Err(AT.not("a store that opens")),
        }
    }

    fn lacks(&self, path: &str) -> Result<(), Mismatch> {
        let came = self.read(path);
        let is_lacking = matches!(&came, Err(Mismatch::Io(ErrorKind::NotFound)));
        AT.is_so(is_lacking, "no file")
    }

    fn has_byte(&self, path: &str, place: usize, byte: u8) -> Result<(), Mismatch> {
        let bytes = self.read(path)?;
        AT.is_so(
            bytes.as_slice().get(place) == Some(&byte),
            "a byte of a file",
        )
    }

    fn is_empty(&self) -> Result<(), Mismatch> {
        AT.is_so(
            fs::remove_dir(self.rt, self.path.as_str()).is_ok(),
            "no file in the folder",
        )
    }

    fn tell_of_taken_port(&self, line: &str, wanted: Told) -> Result<(), Mismatch> {
        let other = listen(self.rt, 0)?;
        let port = other.local_addr()?.port();
        let line = format!(in self.alloc(); "{line} --port {port}")?;
        self.tell(line.as_str(), wanted)
    }

    fn is_private(&self, path: &str) -> Result<(), Mismatch> {
        let file = fs::metadata(self.rt, self.whole(path)?)?;
        AT.is_so(
            file.permissions().mode() & 0o777 == 0o600,
            "a file of its user alone",
        )
    }

    /// Takes a step.
    fn take(&self, step: Step) -> Result<(), Mismatch> {
        match step {
            Step::Writes(path, parts) => self.fill(path, parts),
            Step::WritesRows(rows) => self.write_rows(rows),
            Step::Copies(from, to, eighths) => self.copy(from, to, eighths),
            Step::Links(path, to) => self.link(path, to),
            Step::Tells(line, wanted) => self.tell(line, wanted),
            Step::Keeps(path, line, wanted) => self.keep(path, line, wanted),
            Step::Unprinted(line, way) => self.tell_unprinted(line, way),
            Step::TakenPort(line, wanted) => self.tell_of_taken_port(line, wanted),
            Step::Imports(bytes, wanted) => self.import(bytes, wanted),
            Step::Runs(statements) => self.run(statements),
            Step::Lacks(path) => self.lacks(path),
            Step::Turns(from, to, old, new) => self.turn(from, to, old, new),
            Step::HasByte(path, place, byte) => self.has_byte(path, place, byte),
            Step::IsPrivate(path) => self.is_private(path),
            Step::IsEmpty => self.is_empty(),
        }
    }

    /// Takes steps of a row, one after another.
    pub(super) fn take_each(&self, row: &str, steps: &[Step]) -> Result<(), Failed> {
        for (step, it) in steps.iter().enumerate() {
            if let Err(why) = self.take(*it) {
                return Err(failed_at(row, step, why));
            }
        }
        Ok(())
    }
}

/// Takes a row in a new folder of this name.
fn take_row(rt: &HostRuntime, folder: &str, name: &str, steps: &[Step]) -> Result<(), Fail> {
    let folder = Folder::new(rt, folder)?;
    folder.take_each(name, steps)?;
    folder.remove();
    Ok(())
}

/// Takes rows, each in a new folder of this name, which no other test has.
pub(super) fn take_rows(rt: &HostRuntime, folder: &str, rows: &[Row]) -> Result<(), Fail> {
    for (name, steps) in rows {
        take_row(rt, folder, name, steps)?;
    }
    Ok(())
}
