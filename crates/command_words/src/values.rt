//! The values of a subcommand's arguments.

ghost use Rattle.std.specs.Prelude.{◌≡◌, ◌≤◌, IfOk, map};
ghost use Rattle.std.specs.Int.NonZero.{non_zero_u32_get};
ghost use Rattle.clap.specs.Words.{found_of, rows_of};
ghost use Rattle.command_words.specs.Values.{IsNumberAt, IsInit, IsServe, IsImport, IsStatement, IsExpire, IsOperators, text_at, texts_at};

use crate::limits::{CONNECTIONS, ESTIMATE, KEEP, NumberOption, PORT, TIMEOUT};
use crate::outcome::{Expire, Import, Init, Operators, Serve, Statement};
use clap::ArgMatches;
use std::alloc::{AllocError, Global};
use std::num::NonZeroU32;

/// The value of an argument. Words that leave it out are refused before; the empty text stands for it.
fn text_of<'a>(matches: &ArgMatches<'a>, id: &str) -> &'a str
    ensures { result.now ≡ text_at id.now (rows_of (found_of matches.now)) }
{
    matches.get_str(id).unwrap_or("")
}

/// The values of an argument that may have several.
fn texts_of<'a>(
    alloc: Global,
    matches: &ArgMatches<'a>,
    id: &str,
) -> Result<Vec<&'a str>, AllocError>
    ensures { IfOk result (λ v. map (λ t. t.now) v.items ≡ texts_at id.now (rows_of (found_of matches.now))) }
{
    match matches.get_strs(id) {
        Some(texts) => Vec::from_slice(alloc, texts),
        None => Ok(Vec::new(alloc)),
    }
}

/// The value of an option that takes a number, within its limits. Words with another number are refused before; the least stands for it.
fn number_of(matches: &ArgMatches<'_>, option: NumberOption) -> u32
    requires { option.limits.least ≤ option.limits.most }
    ensures least { option.limits.least ≤ result }
    ensures most { result ≤ option.limits.most }
    ensures number { IsNumberAt option.name.now option.limits.least option.limits.most (rows_of (found_of matches.now)) result }
{
    let limits = option.limits;
    match matches.get_one::<u32>(option.name) {
        Some(number) if limits.least <= number && number <= limits.most => number,
        _ => limits.least,
    }
}

/// The same, where the least is 1 or more.
fn non_zero_of(matches: &ArgMatches<'_>, option: NumberOption) -> NonZeroU32
    requires least { 1 ≤ option.limits.least }
    requires most { option.limits.least ≤ option.limits.most }
    ensures most { non_zero_u32_get result ≤ option.limits.most }
    ensures number { IsNumberAt option.name.now option.limits.least option.limits.most (rows_of (found_of matches.now)) (non_zero_u32_get result) }
{
    NonZeroU32::new(number_of(matches, option)).unwrap_or(NonZeroU32::MIN)
}

/// What `init` is asked for.
pub(crate) fn init_of<'a>(matches: &ArgMatches<'a>) -> Init<'a>
    ensures { IsInit (rows_of (found_of matches.now)) result }
{
    Init {
        store: text_of(matches, "store"),
        uri: text_of(matches, "uri"),
        name: text_of(matches, "name"),
        estimate: number_of(matches, ESTIMATE),
        keep: number_of(matches, KEEP),
    }
}

/// What `serve` is asked for.
pub(crate) fn serve_of<'a>(matches: &ArgMatches<'a>) -> Serve<'a>
    ensures { IsServe (rows_of (found_of matches.now)) result }
{
    Serve {
        store: text_of(matches, "store"),
        port: number_of(matches, PORT) as u16,
        connections: number_of(matches, CONNECTIONS),
        timeout: non_zero_of(matches, TIMEOUT),
    }
}

/// What `import` is asked for.
pub(crate) fn import_of<'a>(matches: &ArgMatches<'a>) -> Import<'a>
    ensures { IsImport (rows_of (found_of matches.now)) result }
{
    Import {
        store: text_of(matches, "store"),
        file: text_of(matches, "file"),
    }
}

/// What `statement` is asked for.
pub(crate) fn statement_of<'a>(matches: &ArgMatches<'a>) -> Statement<'a>
    ensures { IsStatement (rows_of (found_of matches.now)) result }
{
    Statement {
        store: text_of(matches, "store"),
        account: text_of(matches, "account"),
    }
}

/// The values of `expire`.
pub(crate) fn expire_of<'a>(matches: &ArgMatches<'a>) -> Expire<'a>
    ensures { IsExpire (rows_of (found_of matches.now)) result }
{
    Expire {
        store: text_of(matches, "store"),
    }
}

/// What `operators` is asked for.
pub(crate) fn operators_of<'a>(
    alloc: Global,
    matches: &ArgMatches<'a>,
) -> Result<Operators<'a>, AllocError>
    ensures { IfOk result (IsOperators (rows_of (found_of matches.now))) }
{
    Ok(Operators {
        store: text_of(matches, "store"),
        names: texts_of(alloc, matches, "operator")?,
    })
}
