//! What the program is to do, and why words may name nothing that it does.

ghost use Rattle.std.specs.Prelude.{◌≡◌};
ghost use Rattle.command_words.specs.CommandLine.{IsFaultOf};
ghost use Rattle.command_words.specs.declared.outcome.CommandFault.TheVariants as faults;

use clap::Error;
use clap::error::ErrorKind;
use std::alloc::AllocError;
use std::num::NonZeroU32;

/// A new store, and the printer's settings in it. Whether they are within their limits is not said yet.
#[derive(Clone, Copy)]
pub struct Init<'a> {
    /// The path of the file that keeps the queue.
    pub store: &'a str,
    /// The printer's URI.
    pub uri: &'a str,
    /// The printer's name.
    pub name: &'a str,
    /// The pages that one copy takes of a job that doesn't tell them, 0 to 100,000.
    pub estimate: u32,
    /// The seconds for which a held or open job is kept, 0 to 2,147,483,647; 0 keeps it without end.
    pub keep: u32,
}

/// Connections that are to be served.
#[derive(Clone, Copy)]
pub struct Serve<'a> {
    /// The path of the store.
    pub store: &'a str,
    /// The port of the loopback interface, 1 to 65,535.
    pub port: u16,
    /// How many connections are served before the program ends, 1 to 4,294,967,295.
    pub connections: u32,
    /// How many seconds a read or a write of a connection may wait, 1 to 3,600.
    pub timeout: NonZeroU32,
}

/// An account file that is to be taken.
#[derive(Clone, Copy)]
pub struct Import<'a> {
    /// The path of the store.
    pub store: &'a str,
    /// The path of the file.
    pub file: &'a str,
}

/// An account whose statement is to be printed.
#[derive(Clone, Copy)]
pub struct Statement<'a> {
    /// The path of the store.
    pub store: &'a str,
    /// The account's name.
    pub account: &'a str,
}

/// The values of `expire`: a store whose expired jobs end.
#[derive(Clone, Copy)]
pub struct Expire<'a> {
    /// The path of the store.
    pub store: &'a str,
}

/// The values of `operators`: a store and the names of its operators, which are not checked yet.
#[derive(Drop)]
pub struct Operators<'a> {
    /// The path of the store.
    pub store: &'a str,
    /// The names, in the order of the words.
    pub names: Vec<&'a str>,
}

/// What the program is to do.
#[derive(Drop)]
pub enum Command<'a> {
    /// Make a new store.
    Init(Init<'a>),
    /// Take an account file.
    Import(Import<'a>),
    /// Print an account's statement.
    Statement(Statement<'a>),
    /// End the held and open jobs that have expired.
    Expire(Expire<'a>),
    /// Set the operators.
    Operators(Operators<'a>),
    /// Serve connections.
    Serve(Serve<'a>),
    /// Answer the lines on standard input over a new queue in memory.
    Replay,
}

/// Why the words name no command.
#[derive(Debug, Drop, thiserror::Error)]
pub enum CommandFault {
    /// They are wrong, or ask for help: the error has the text, where it goes and the exit status.
    #[error(transparent)]
    Words(Error),
    /// There was no memory to read them.
    #[error("there is no memory")]
    Memory,
}

impl From<AllocError> for CommandFault {
    ghost from_gives = { λ _ fault. fault ≡ faults.Memory };

    fn from(_error: AllocError) -> CommandFault {
        CommandFault::Memory
    }
}

impl From<Error> for CommandFault {
    ghost from_gives = { IsFaultOf };

    fn from(error: Error) -> CommandFault {
        match error.kind() {
            ErrorKind::OutOfMemory => CommandFault::Memory,
            _ => CommandFault::Words(error),
        }
    }
}
