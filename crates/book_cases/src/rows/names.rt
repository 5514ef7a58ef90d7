//! Names that operators may have, and those that they may not.

use crate::desk::operators::are_named;
use queue_types::operators::{NameFault, OperatorNames, operator_names};
use std::alloc::Global;
use std::test::Fail;

/// Names, and those of the operators in their order, or why they can't be those of operators.
type Row = (
    &'static [&'static str],
    Result<&'static [&'static str], NameFault>,
);

/// Names that operators have, in the order of their bytes.
static TAKEN: &[Row] = &[
    (&[], Ok(&[])),
    (&["opal"], Ok(&["opal"])),
    (&["b", "a"], Ok(&["a", "b"])),
    (&["ab", "b", "a", "aa"], Ok(&["a", "aa", "ab", "b"])),
    (
        &["z", "\u{fc}", "a", "Z", " ", "\u{80}"],
        Ok(&[" ", "Z", "a", "z", "\u{80}", "\u{fc}"]),
    ),
    (&["Anonymous", "anonymou"], Ok(&["Anonymous", "anonymou"])),
    (
        &[
            "p", "o", "n", "m", "l", "k", "j", "i", "h", "g", "f", "e", "d", "c", "b", "a",
        ],
        Ok(&[
            "a", "b", "c", "d", "e", "f", "g", "h", "i", "j", "k", "l", "m", "n", "o", "p",
        ]),
    ),
];

/// A name of 255 octets, and ones of 256, of one and of two octets a character.
const LONGEST: &str =
    "nnnnnnnnnnnnnnnnnnnnnnnnnnnnnnnnnnnnnnnnnnnnnnnnnnnnnnnnnnnnnnnnnnnnnnnnnnnnnnnnnnnnnnnnnnnnnnnnnnnnnnnnnnnnnnnnnnnnnnnnnnnnnnnnnnnnnnnnnnnnnnnnnnnnnnnnnnnnnnnnnnnnnnnnnnnnnnnnnnnnnnnnnnnnnnnnnnnnnnnnnnnnnnnnnnnnnnnnnnnnnnnnnnnnnnnnnnnnnnnnnnnnnnnnnnnnnnn";

const TOO_LONG: &str =
    "nnnnnnnnnnnnnnnnnnnnnnnnnnnnnnnnnnnnnnnnnnnnnnnnnnnnnnnnnnnnnnnnnnnnnnnnnnnnnnnnnnnnnnnnnnnnnnnnnnnnnnnnnnnnnnnnnnnnnnnnnnnnnnnnnnnnnnnnnnnnnnnnnnnnnnnnnnnnnnnnnnnnnnnnnnnnnnnnnnnnnnnnnnnnnnnnnnnnnnnnnnnnnnnnnnnnnnnnnnnnnnnnnnnnnnnnnnnnnnnnnnnnnnnnnnnnnnnn";

const TOO_LONG_IN_PAIRS: &str =
    "\u{fc}\u{fc}\u{fc}\u{fc}\u{fc}\u{fc}\u{fc}\u{fc}\u{fc}\u{fc}\u{fc}\u{fc}\u{fc}\u{fc}\u{fc}\u{fc}\u{fc}\u{fc}\u{fc}\u{fc}\u{fc}\u{fc}\u{fc}\u{fc}\u{fc}\u{fc}\u{fc}\u{fc}\u{fc}\u{fc}\u{fc}\u{fc}\u{fc}\u{fc}\u{fc}\u{fc}\u{fc}\u{fc}\u{fc}\u{fc}\u{fc}\u{fc}\u{fc}\u{fc}\u{fc}\u{fc}\u{fc}\u{fc}\u{fc}\u{fc}\u{fc}\u{fc}\u{fc}\u{fc}\u{fc}\u{fc}\u{fc}\u{fc}\u{fc}\u{fc}\u{fc}\u{fc}\u{fc}\u{fc}\u{fc}\u{fc}\u{fc}\u{fc}\u{fc}\u{fc}\u{fc}\u{fc}\u{fc}\u{fc}\u{fc}\u{fc}\u{fc}\u{fc}\u{fc}\u{fc}\u{fc}\u{fc}\u{fc}\u{fc}\u{fc}\u{fc}\u{fc}\u{fc}\u{fc}\u{fc}\u{fc}\u{fc}\u{fc}\u{fc}\u{fc}\u{fc}\u{fc}\u{fc}\u{fc}\u{fc}\u{fc}\u{fc}\u{fc}\u{fc}\u{fc}\u{fc}\u{fc}\u{fc}\u{fc}\u{fc}\u{fc}\u{fc}\u{fc}\u{fc}\u{fc}\u{fc}\u{fc}\u{fc}\u{fc}\u{fc}\u{fc}\u{fc}\u{fc}\u{fc}\u{fc}\u{fc}\u{fc}\u{fc}";

/// Names that operators don't have.
static REFUSED: &[Row] = &[
    (
        &[
            "a", "b", "c", "d", "e", "f", "g", "h", "i", "j", "k", "l", "m", "n", "o", "p", "q",
        ],
        Err(NameFault::TooMany),
    ),
    // the number comes first, then each name, then whether one is there twice
    (
        &[
            "a", "a", "", "d", "e", "f", "g", "h", "i", "j", "k", "l", "m", "n", "o", "p", "q",
        ],
        Err(NameFault::TooMany),
    ),
    (&["a", "a", "anonymous"], Err(NameFault::Bad)),
    (&["anonymous"], Err(NameFault::Bad)),
    (&[""], Err(NameFault::Bad)),
    (&["a", ""], Err(NameFault::Bad)),
    (&["a\u{7}"], Err(NameFault::Bad)),
    (&["\u{0}a"], Err(NameFault::Bad)),
    (&["\u{1f}"], Err(NameFault::Bad)),
    (&["a\u{7f}b"], Err(NameFault::Bad)),
    (&["a\n"], Err(NameFault::Bad)),
    (&[TOO_LONG], Err(NameFault::Bad)),
    (&[TOO_LONG_IN_PAIRS], Err(NameFault::Bad)),
    (&["a", "a"], Err(NameFault::Twice)),
    (&["a", "b", "a"], Err(NameFault::Twice)),
    (&["b", "a", "c", "c"], Err(NameFault::Twice)),
];

/// What is so, or else a failure that tells of whom it isn't.
fn is_so(is_so: bool, names: &[&str]) -> Result<(), Fail> {
    if is_so {
        Ok(())
    } else {
        Err(Fail::new(format_args!("{names:?}")))
    }
}

/// These names come to this.
fn come_to(alloc: Global, (names, wanted): Row) -> Result<(), Fail> {
    match (operator_names(alloc, names), wanted) {
        (Ok(operators), Ok(wanted)) => is_so(are_named(&operators, wanted), names),
        (Err(came), Err(wanted)) => is_so(came == wanted, names),
        _ => is_so(false, names),
    }
}

#[test]
fn names_of_operators(rt: HostRuntime) -> Result<(), Fail> {
    for row in TAKEN {
        come_to(rt.alloc(), *row)?;
    }
    come_to(rt.alloc(), (&[LONGEST], Ok(&[LONGEST])))
}

#[test]
fn names_that_operators_do_not_have(rt: HostRuntime) -> Result<(), Fail> {
    for row in REFUSED {
        come_to(rt.alloc(), *row)?;
    }
    Ok(())
}

/// Callers, and whether they are among the operators opal and pearl.
static CALLERS: &[(&str, bool)] = &[
    ("opal", true),
    ("pearl", true),
    ("opa", false),
    ("opals", false),
    ("Opal", false),
    ("anonymous", false),
    ("", false),
];

#[test]
fn callers_who_are_operators(rt: HostRuntime) -> Result<(), Fail> {
    let operators = operator_names(rt.alloc(), &["pearl", "opal"])?;
    for (caller, wanted) in CALLERS {
        is_so(operators.has(caller) == *wanted, &[caller])?;
    }
    let none = OperatorNames::none(rt.alloc());
    is_so(
        none.is_empty() && !none.has("opal") && !operators.is_empty(),
        &[],
    )
}
