//! The command `operators`, and stores with operators that no program has set.

use crate::desk::streams::{NO_FLUSH, NO_ROOM};
use crate::program::expiry::{
    HELD, MADE_WITH_KEEP, NONE_EXPIRED, RESERVED, TO_FIRST, TO_SECOND, TWO_EXPIRED,
};
use crate::program::folder::Step::{IsEmpty, Keeps, Runs, Tells, Unprinted};
use crate::program::folder::{
    BAD_SETTING, DAMAGED, DISK, EXPIRE, IMPORTED, MADE, OPERATORS, REPEATED, Row, STATEMENT, STORE,
    Step, take_rows,
};
use std::test::Fail;

/// The operator is opal.
pub(super) const OPAL_SET: Step = Tells(OPERATORS, (0, "operators 1\n", ""));

static SET: [Row; 5] = [
    (
        "operators that are set",
        &[
            MADE,
            OPAL_SET,
            OPAL_SET,
            Tells(
                "printd operators --store @/store pearl opal",
                (0, "operators 2\n", ""),
            ),
            Tells(
                "printd operators --store @/store a b c d e f g h i j k l m n o J\u{fc}rg",
                (0, "operators 16\n", ""),
            ),
            OPAL_SET,
        ],
    ),
    (
        "a number of operators that can't be written",
        &[
            MADE,
            Unprinted(OPERATORS, NO_ROOM),
            Unprinted(OPERATORS, NO_FLUSH),
            OPAL_SET,
        ],
    ),
    (
        "paths of no store",
        &[
            Tells(OPERATORS, DISK),
            Tells("printd operators --store @ opal", DISK),
            Tells("printd operators --store  opal", DISK),
            Tells("printd operators --store /dev/null opal", DISK),
            IsEmpty,
        ],
    ),
    // the names come before the store
    (
        "names of no operators beside no store",
        &[
            Tells("printd operators --store @/store anonymous", BAD_SETTING),
            Tells("printd operators --store @ opal opal", BAD_SETTING),
            IsEmpty,
        ],
    ),
    // its tables are taken to the newest schema
    (
        "operators of stores of earlier releases",
        &[
            MADE_WITH_KEEP,
            IMPORTED,
            HELD,
            TO_SECOND,
            OPAL_SET,
            Tells(STATEMENT, RESERVED),
            TO_FIRST,
            OPAL_SET,
            REPEATED,
            Tells(STATEMENT, RESERVED),
            NONE_EXPIRED,
            Runs("UPDATE policy SET keep = 1"),
            TWO_EXPIRED,
        ],
    ),
];

#[test]
fn operators_that_are_set(rt: HostRuntime) -> Result<(), Fail> {
    take_rows(&rt, "operators", &SET)
}

/// Names that operators don't have: nothing changes.
static REFUSED: [Row; 1] = [(
    "names that are refused",
    &[
        MADE,
        OPAL_SET,
        // seventeen, each by itself good
        Keeps(
            STORE,
            "printd operators --store @/store a b c d e f g h i j k l m n o p q",
            BAD_SETTING,
        ),
        Keeps(
            STORE,
            "printd operators --store @/store opal opal",
            BAD_SETTING,
        ),
        Keeps(
            STORE,
            "printd operators --store @/store opal pearl opal",
            BAD_SETTING,
        ),
        Keeps(
            STORE,
            "printd operators --store @/store anonymous",
            BAD_SETTING,
        ),
        Keeps(
            STORE,
            "printd operators --store @/store opal anonymous",
            BAD_SETTING,
        ),
        // an empty name
        Keeps(STORE, "printd operators --store @/store ", BAD_SETTING),
        Keeps(STORE, "printd operators --store @/store opal ", BAD_SETTING),
        Keeps(
            STORE,
            "printd operators --store @/store o\u{7}pal",
            BAD_SETTING,
        ),
        Keeps(
            STORE,
            "printd operators --store @/store opal\u{7f}",
            BAD_SETTING,
        ),
        Keeps(
            STORE,
            "printd operators --store @/store opal\n",
            BAD_SETTING,
        ),
        // 256 octets
        Keeps(
            STORE,
            "printd operators --store @/store nnnnnnnnnnnnnnnnnnnnnnnnnnnnnnnnnnnnnnnnnnnnnnnnnnnnnnnnnnnnnnnnnnnnnnnnnnnnnnnnnnnnnnnnnnnnnnnnnnnnnnnnnnnnnnnnnnnnnnnnnnnnnnnnnnnnnnnnnnnnnnnnnnnnnnnnnnnnnnnnnnnnnnnnnnnnnnnnnnnnnnnnnnnnnnnnnnnnnnnnnnnnnnnnnnnnnnnnnnnnnnnnnnnnnnnnnnnnnnnnnnnnnnnnnnnnnnnn",
            BAD_SETTING,
        ),
        Tells(
            "printd operators --store @/store nnnnnnnnnnnnnnnnnnnnnnnnnnnnnnnnnnnnnnnnnnnnnnnnnnnnnnnnnnnnnnnnnnnnnnnnnnnnnnnnnnnnnnnnnnnnnnnnnnnnnnnnnnnnnnnnnnnnnnnnnnnnnnnnnnnnnnnnnnnnnnnnnnnnnnnnnnnnnnnnnnnnnnnnnnnnnnnnnnnnnnnnnnnnnnnnnnnnnnnnnnnnnnnnnnnnnnnnnnnnnnnnnnnnnnnnnnnnnnnnnnnnnnnnnnnnnnn",
            (0, "operators 1\n", ""),
        ),
    ],
)];

#[test]
fn names_that_are_refused(rt: HostRuntime) -> Result<(), Fail> {
    take_rows(&rt, "names", &REFUSED)
}

const NO_OPERATORS: Step = Keeps(STORE, OPERATORS, DAMAGED);

static NO_STORES: [Row; 2] = [
    // no command opens them, and they stay as they were
    (
        "operators that no program has set",
        &[
            MADE,
            Runs("INSERT INTO operators VALUES ('anonymous')"),
            NO_OPERATORS,
            Keeps(STORE, STATEMENT, DAMAGED),
            Keeps(STORE, EXPIRE, DAMAGED),
            Runs("UPDATE operators SET name = ''"),
            NO_OPERATORS,
            Runs("UPDATE operators SET name = 'o\u{7}pal'"),
            NO_OPERATORS,
            Runs("UPDATE operators SET name = 'q'"),
            OPAL_SET,
            Runs(
                "INSERT INTO operators VALUES ('a'), ('b'), ('c'), ('d'), ('e'), ('f'), ('g'), ('h'), ('i'), ('j'), ('k'), ('l'), ('m'), ('n'), ('o'), ('p')",
            ),
            NO_OPERATORS,
            Runs("DELETE FROM operators"),
            OPAL_SET,
        ],
    ),
    (
        "jobs that an operator can't have canceled",
        &[
            MADE,
            IMPORTED,
            HELD,
            Runs("UPDATE jobs SET why = 3 WHERE number = 1"),
            NO_OPERATORS,
            Keeps(STORE, STATEMENT, DAMAGED),
            Runs("UPDATE jobs SET why = 0; UPDATE jobs SET stopping = 1 WHERE number = 2"),
            NO_OPERATORS,
            Runs("UPDATE jobs SET stopping = 0"),
            OPAL_SET,
        ],
    ),
];

#[test]
fn stores_that_no_program_has_written(rt: HostRuntime) -> Result<(), Fail> {
    take_rows(&rt, "unwritten", &NO_STORES)
}
