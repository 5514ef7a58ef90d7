//! The command line as `clap` is to read it.

ghost use Rattle.std.specs.Prelude.{◌≡◌, ◌∷◌, [], IfOk, false, codes};
ghost use Rattle.clap.specs.Simple.{App, Shape, with_subcommand};
ghost use Rattle.clap.specs.Words.{rule_of};
ghost use Rattle.command_words.specs.CommandLine.{IsApp, IsPart, definition, expire_words, import_words, init_words, number_rule, office_subcommands, operators_words, optional_rule, place_rule, places_rule, program, program_with, replay_words, serve_words, statement_words, store_rule, text_rule, words};

use crate::limits::{
    CONNECTIONS, ESTIMATE, KEEP, NumberOption, PORT, TIMEOUT, USUAL_ESTIMATE, USUAL_KEEP,
    USUAL_TIMEOUT,
};
use clap::builder::ValueParser;
use clap::{Arg, ArgAction, Command as Definition};
use std::alloc::{AllocError, Global};

/// A word with no name.
fn place<'a>(alloc: Global, name: &'a str, value: &'a str, help: &'a str) -> Arg<'a>
    ensures rule { rule_of result ≡ place_rule name.entry.now }
    ensures own { result.global ≡ false }
{
    Arg::new(alloc, name)
        .value_name(value)
        .action(ArgAction::Set)
        .required(true)
        .help(help)
}

/// Words with no name, at least one.
fn places<'a>(alloc: Global, name: &'a str, value: &'a str, help: &'a str) -> Arg<'a>
    ensures rule { rule_of result ≡ places_rule name.entry.now }
    ensures own { result.global ≡ false }
{
    place(alloc, name, value, help).action(ArgAction::Append)
}

/// An option whose value is a text.
fn text<'a>(alloc: Global, name: &'a str, value: &'a str, help: &'a str) -> Arg<'a>
    ensures rule { rule_of result ≡ text_rule name.entry.now }
    ensures own { result.global ≡ false }
{
    place(alloc, name, value, help).long(name)
}

/// An option whose value is a number within its limits.
fn number<'a>(alloc: Global, option: NumberOption, value: &'a str, help: &'a str) -> Arg<'a>
    ensures rule { rule_of result ≡ number_rule option.name.now option.limits.least option.limits.most }
    ensures own { result.global ≡ false }
{
    let limits = option.limits;
    let parser = ValueParser::unsigned(u64::from(limits.least), u64::from(limits.most));
    text(alloc, option.name, value, help).value_parser(parser)
}

/// The same, where the words may leave the option out.
fn optional<'a>(
    alloc: Global,
    option: NumberOption,
    value: &'a str,
    help: &'a str,
    usual: &'a str,
) -> Arg<'a>
    ensures rule { rule_of result ≡ optional_rule option.name.now option.limits.least option.limits.most usual.entry.now }
    ensures own { result.global ≡ false }
{
    number(alloc, option, value, help)
        .required(false)
        .default_value(usual)
}

/// The option that each command on a store has.
fn store<'a>(alloc: Global) -> Arg<'a>
    ensures rule { rule_of result ≡ text_rule (codes "store") }
    ensures own { result.global ≡ false }
{
    text(alloc, "store", "PATH", "The file that keeps the queue")
}

/// A subcommand on a store.
fn on_store<'a>(alloc: Global, name: &'a str, about: &'a str) -> Result<Definition<'a>, AllocError>
    ensures { IfOk result (IsPart (words name.entry.now (store_rule ∷ []))) }
{
    Definition::new(alloc, name).about(about).arg(store(alloc))
}

/// The option with the printer's URI.
fn printer_uri<'a>(alloc: Global) -> Arg<'a>
    ensures rule { rule_of result ≡ text_rule (codes "uri") }
    ensures own { result.global ≡ false }
{
    text(
        alloc,
        "uri",
        "URI",
        "The printer's URI, with the path /ipp/print",
    )
}

/// The option with the printer's name.
fn printer_name<'a>(alloc: Global) -> Arg<'a>
    ensures rule { rule_of result ≡ text_rule (codes "name") }
    ensures own { result.global ≡ false }
{
    text(alloc, "name", "NAME", "The printer's name")
}

/// The option with the pages that a copy is taken to have.
fn estimate<'a>(alloc: Global) -> Arg<'a>
    ensures rule { rule_of result ≡ optional_rule (codes "estimate") 0 100000 (codes "20") }
    ensures own { result.global ≡ false }
{
    let help = "Pages to take for one copy of a job that doesn't tell them";
    optional(alloc, ESTIMATE, "N", help, USUAL_ESTIMATE)
}

/// The option with the seconds for which a held or open job is kept.
fn keep<'a>(alloc: Global) -> Arg<'a>
    ensures rule { rule_of result ≡ optional_rule (codes "keep") 0 2147483647 (codes "0") }
    ensures own { result.global ≡ false }
{
    let help = "How long a held job is kept before it expires, 0 for ever";
    optional(alloc, KEEP, "SECONDS", help, USUAL_KEEP)
}

fn init<'a>(alloc: Global) -> Result<Definition<'a>, AllocError>
    ensures { IfOk result (IsPart init_words) }
{
    on_store(alloc, "init", "Make a new store")?
        .arg(printer_uri(alloc))?
        .arg(printer_name(alloc))?
        .arg(estimate(alloc))?
        .arg(keep(alloc))
}

fn import<'a>(alloc: Global) -> Result<Definition<'a>, AllocError>
    ensures { IfOk result (IsPart import_words) }
{
    on_store(alloc, "import", "Take an account file")?.arg(place(
        alloc,
        "file",
        "FILE",
        "The account file",
    ))
}

fn statement<'a>(alloc: Global) -> Result<Definition<'a>, AllocError>
    ensures { IfOk result (IsPart statement_words) }
{
    on_store(alloc, "statement", "Print an account's statement")?.arg(place(
        alloc,
        "account",
        "ACCOUNT",
        "The account's name",
    ))
}

fn expire<'a>(alloc: Global) -> Result<Definition<'a>, AllocError>
    ensures { IfOk result (IsPart expire_words) }
{
    on_store(alloc, "expire", "End the held jobs that have expired")
}

fn operators<'a>(alloc: Global) -> Result<Definition<'a>, AllocError>
    ensures { IfOk result (IsPart operators_words) }
{
    on_store(
        alloc,
        "operators",
        "Set the callers who see and cancel any job",
    )?
    .arg(places(alloc, "operator", "NAME", "An operator's name"))
}

/// The option with the port to listen at.
fn port<'a>(alloc: Global) -> Arg<'a>
    ensures rule { rule_of result ≡ number_rule (codes "port") 1 65535 }
    ensures own { result.global ≡ false }
{
    number(alloc, PORT, "P", "The port on 127.0.0.1")
}

/// The option with the number of connections to serve.
fn connections<'a>(alloc: Global) -> Arg<'a>
    ensures rule { rule_of result ≡ number_rule (codes "connections") 1 4294967295 }
    ensures own { result.global ≡ false }
{
    let help = "How many connections to serve, one after another";
    number(alloc, CONNECTIONS, "N", help)
}

/// The option with the time that a read or a write may wait.
fn timeout<'a>(alloc: Global) -> Arg<'a>
    ensures rule { rule_of result ≡ optional_rule (codes "timeout") 1 3600 (codes "5") }
    ensures own { result.global ≡ false }
{
    let help = "How long a read or a write may wait; a connection ends after 60 times as long";
    optional(alloc, TIMEOUT, "SECONDS", help, USUAL_TIMEOUT)
}

fn serve<'a>(alloc: Global) -> Result<Definition<'a>, AllocError>
    ensures { IfOk result (IsPart serve_words) }
{
    on_store(alloc, "serve", "Serve the queue over HTTP")?
        .arg(port(alloc))?
        .arg(connections(alloc))?
        .arg(timeout(alloc))
}

fn replay<'a>(alloc: Global) -> Definition<'a>
    ensures { IsPart replay_words result }
{
    let about = "Answer the lines on standard input over a new queue in memory";
    Definition::new(alloc, "replay").about(about)
}

/// The program by itself.
fn bare<'a>(alloc: Global) -> Definition<'a>
    ensures { IsPart program result }
{
    Definition::new(alloc, "printd")
        .about("A print release server with page quotas")
        .subcommand_required(true)
        .arg_required_else_help(true)
        .disable_help_subcommand(true)
}

/// A command with one more subcommand, once that is there.
fn with<'a>(
    command: Definition<'a>,
    subcommand: Result<Definition<'a>, AllocError>,
) -> Result<Definition<'a>, AllocError>
    ensures { (a : App) (s : Shape) → IsApp a command.entry → IfOk subcommand.entry (IsPart s) → IfOk result (IsApp (with_subcommand a s)) }
{
    command.subcommand(subcommand?)
}

/// The program with the subcommands that make a store, fill its accounts, print their statements, end expired jobs and set the operators.
fn for_office<'a>(alloc: Global) -> Result<Definition<'a>, AllocError>
    ensures { IfOk result (IsApp (program_with office_subcommands)) }
{
    let program = with(bare(alloc), init(alloc))?;
    let program = with(program, import(alloc))?;
    let program = with(program, statement(alloc))?;
    let program = with(program, expire(alloc))?;
    with(program, operators(alloc))
}

/// The program and its subcommands.
pub(crate) fn defined<'a>(alloc: Global) -> Result<Definition<'a>, AllocError>
    ensures { IfOk result (IsApp definition) }
{
    let program = with(for_office(alloc)?, serve(alloc))?;
    program.subcommand(replay(alloc))
}
