//! Account files that are imported, and statements.

use crate::desk::books::GRANT;
use crate::desk::streams::{NO_FLUSH, NO_ROOM};
use crate::program::folder::Step::{Imports, Lacks, Tells, Unprinted, Writes, WritesRows};
use crate::program::folder::{
    DISK, FILE, IMPORT, IO, MADE, NO_ACCOUNT, REPEATED, Row, STATEMENT, Step, Told, take_rows,
};
use std::test::Fail;

/// The statement of alice after these files.
const ALICE: &str = "account alice\n\
    granted               31\n\
    free                  31\n\
    reserved               0\n\
    printed                0\n       \
    job state  reserved   printed\n     \
    total               0         0\n";

/// The statement of an account with the most pages.
const MOST: &str = "account dave\n\
    granted       1000000000\n\
    free          1000000000\n\
    reserved               0\n\
    printed                0\n       \
    job state  reserved   printed\n     \
    total               0         0\n";

/// The header of an account file isn't of its form.
const NO_HEADER: Told = (1, "", "printd: import fault 1 at row 0\n");

/// Lines without a field.
const LINES: &[u8] = &[b'\n'; 4096];

/// An account file of 16,777,216 bytes.
const LONGEST: &[(&[u8], usize)] = &[(GRANT, 1), (LINES, 4095), (b"\n", 4063)];

/// A file of 16,777,217 bytes.
const TOO_LONG: &[(&[u8], usize)] = &[(&[0; 4096], 4096), (b"\0", 1)];

/// An import, which takes its file all the same, a statement and a help text, none of which can be printed.
const UNWRITTEN: &[Step] = &[
    MADE,
    Writes(FILE, &[(GRANT, 1)]),
    Unprinted(IMPORT, NO_ROOM),
    REPEATED,
    Unprinted(STATEMENT, NO_ROOM),
    Unprinted("printd --help", NO_ROOM),
];

/// The same, where what was printed can't be flushed.
const UNFLUSHED: &[Step] = &[
    MADE,
    Writes(FILE, &[(GRANT, 1)]),
    Unprinted(IMPORT, NO_FLUSH),
    REPEATED,
    Unprinted(STATEMENT, NO_FLUSH),
    Unprinted("printd --help", NO_FLUSH),
];

static TAKEN: [Row; 3] = [
    // account files, one after another to the same store, and the statements before and after them
    (
        "account files and statements",
        &[
            MADE,
            Tells(STATEMENT, NO_ACCOUNT),
            Imports(
                b"batch,account,pages\nf24,alice,30\nf24,bob,50\nf24,carol,20\n",
                (0, "new 3 repeats 0\n", ""),
            ),
            Imports(
                b"batch,account,pages\nf24,alice,30\nf24,bob,50\nf24,carol,20\n",
                (0, "new 0 repeats 3\n", ""),
            ),
            Imports(
                b"batch,account,pages\nf25,alice,1\nf25,alice,1\n",
                (0, "new 1 repeats 1\n", ""),
            ),
            Imports(
                b"\xef\xbb\xbfbatch,account,pages\n",
                (0, "new 0 repeats 0\n", ""),
            ),
            Imports(b"", NO_HEADER),
            Imports(b"batch,account\n", NO_HEADER),
            Imports(
                b"batch,account,pages\nf26,dave,5\nf26,dave\n",
                (1, "", "printd: import fault 2 at row 2\n"),
            ),
            Imports(
                b"batch,account,pages\nf26,dave,05\n",
                (1, "", "printd: import fault 2 at row 1\n"),
            ),
            Imports(
                b"batch,account,pages\nf26,dave,30\nf26,dave,0\n",
                (1, "", "printd: import fault 3 at row 2\n"),
            ),
            Imports(
                b"batch,account,pages\nf26,dave,1000001\n",
                (1, "", "printd: import fault 3 at row 1\n"),
            ),
            Imports(
                b"batch,account,pages\nf24,alice,30\nf24,bob,60\nf24,dave,5\n",
                (1, "", "printd: import fault 4 at row 2\n"),
            ),
            Tells(STATEMENT, (0, ALICE, "")),
            Tells("printd statement --store @/store erin", NO_ACCOUNT),
            Tells("printd statement --store @/store dave", NO_ACCOUNT),
            Tells("printd statement --store @/store ", NO_ACCOUNT),
            Tells("printd statement --store @/store Alice", NO_ACCOUNT),
        ],
    ),
    // an account may have 1,000,000,000 pages, and not one more
    (
        "more pages than an account may have",
        &[
            MADE,
            WritesRows(1000),
            Tells(IMPORT, (0, "new 1000 repeats 0\n", "")),
            Imports(
                b"batch,account,pages\nf24,erin,1\nf24,dave,1\n",
                (1, "", "printd: import fault 5 at row 2\n"),
            ),
            Tells("printd statement --store @/store erin", NO_ACCOUNT),
            Tells("printd statement --store @/store dave", (0, MOST, "")),
        ],
    ),
    (
        "a file of the most bytes",
        &[
            MADE,
            Writes(FILE, LONGEST),
            Tells(IMPORT, (0, "new 1 repeats 0\n", "")),
        ],
    ),
];

#[test]
fn account_files_and_statements(rt: HostRuntime) -> Result<(), Fail> {
    take_rows(&rt, "accounts", &TAKEN)
}

static UNTAKEN: [Row; 4] = [
    (
        "files that can't be read",
        &[
            MADE,
            Tells(IMPORT, IO),
            Tells("printd import --store @/store @", IO),
            Tells("printd import --store @/file @", DISK),
            Lacks(FILE),
        ],
    ),
    // whatever is in it
    (
        "a file that is too long",
        &[
            MADE,
            Writes(FILE, TOO_LONG),
            Tells(IMPORT, (1, "", "printd: import fault 3 at row 0\n")),
        ],
    ),
    ("output that can't be written", UNWRITTEN),
    ("output that can't be flushed", UNFLUSHED),
];

#[test]
fn files_that_are_not_read_and_output_that_is_not_written(rt: HostRuntime) -> Result<(), Fail> {
    take_rows(&rt, "files", &UNTAKEN)
}
