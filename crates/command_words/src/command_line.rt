//! The command line: which command the words name.

ghost use Rattle.std.specs.Prelude.{◌≡◌, [], map, IfOk, IfErr, OnOk, IsSomeAnd};
ghost use Rattle.clap.specs.Words.{fault_of, subcommand_of, subcommand_rows_of};
ghost use Rattle.command_words.specs.CommandLine.{IsNameIn, IsWordsFault, definition, subcommands};
ghost use Rattle.command_words.specs.Values.{IsCommand};

use crate::definition::defined;
use crate::outcome::{Command, CommandFault};
use crate::values::{expire_of, import_of, init_of, operators_of, serve_of, statement_of};
use clap::ArgMatches;
use std::alloc::{AllocError, Global};

/// What the subcommand that was met is to do.
fn command_of<'a>(alloc: Global, matches: &ArgMatches<'a>) -> Result<Command<'a>, AllocError>
    requires { IsSomeAnd (subcommand_rows_of matches.now) (λ met. IsNameIn subcommands met.0) }
    ensures { IfOk result (λ c. IsSomeAnd (subcommand_rows_of matches.now) (IsCommand c)) }
{
    let Some((name, values)) = matches.subcommand() else {
        unreachable!("a subcommand is required");
    };
    Ok(match name {
        "init" => Command::Init(init_of(values)),
        "import" => Command::Import(import_of(values)),
        "statement" => Command::Statement(statement_of(values)),
        "expire" => Command::Expire(expire_of(values)),
        "operators" => Command::Operators(operators_of(alloc, values)?),
        "serve" => Command::Serve(serve_of(values)),
        "replay" => Command::Replay,
        _ => unreachable!("the definition has no other"),
    })
}

/// The command that the words name, the first of which is the program's own name, as `clap` reads
/// them.
pub fn command<'a>(alloc: Global, words: &'a [&'a str]) -> Result<Command<'a>, CommandFault>
    ensures named { IfOk result (λ c.
        IsSomeAnd (subcommand_of definition (map (λ w. w.now) words.entry.now)) (IsCommand c)) }
    ensures taken { OnOk result (fault_of definition (map (λ w. w.now) words.entry.now) ≡ []) }
    ensures refused { IfErr result (IsWordsFault (fault_of definition (map (λ w. w.now) words.entry.now))) }
{
    let matches = defined(alloc)?.try_get_matches_from(words)?;
    let command = command_of(alloc, &matches)?;
    Ok(command)
}
