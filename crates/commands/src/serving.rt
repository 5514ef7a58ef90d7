//! Connections over a store.
ghost use Rattle.std.specs.IoError.{error_kind};
ghost use Rattle.std.specs.Prelude.{◌≡◌, ◌↔◌, ◌≤◌, ◌⊎◌, ℕ, List, IfErr, IfOk, OnOk, length};
ghost use Rattle.std.specs.Io.KnownBytes.{Appends};
ghost use Rattle.std.specs.declared.io.Error.{Error as StreamError};
ghost use Rattle.std.specs.declared.io.ErrorKind.TheVariants.{OutOfMemory};
ghost use Rattle.command_ends.specs.Faults.{IsOfStream, fault_of_book};
ghost use Rattle.command_ends.specs.declared.fault.Fault.TheVariants.{Damaged, Memory as OfMemory};
ghost use Rattle.commands.specs.Books.{Serves, ServesWith};
ghost use Rattle.commands.specs.Printed.{server_lines};
ghost use Rattle.commands.specs.Refusals.{HasListened, IsOfServe};
ghost use Rattle.print_server.specs.Lines.{listening_line, served_lines};
ghost use Rattle.print_server.specs.declared.fault.ServerFault.TheVariants.{Book as ByBook, Io as ByStream};
ghost use Rattle.queue_core.specs.World.{World};
ghost use Rattle.queue_core.specs.declared.book.BookFault.{BookFault};
ghost use Rattle.queue_store.specs.Kept.{IsHonest, StandsFor};

use command_ends::Fault;
use command_words::Serve;
use print_server::{ServerFault, Service, tell_listening};
use queue_store::TableBook;
use queue_types::settings::Settings;
use sqlite::Alter;
use std::alloc::Global;
use std::io;
use std::io::Write;
use std::net::TcpListener;
use std::rt::Clock;

/// A server that stopped.
fn fault_of_server(stopped: ServerFault) -> Fault
    ensures book { (fault : BookFault) → stopped ≡ ByBook fault → result ≡ fault_of_book fault }
    ensures stream { (error : StreamError) → stopped ≡ ByStream error → IsOfStream result × ((result ≡ OfMemory) ↔ (error_kind error ≡ OutOfMemory)) }
{
    match stopped {
        ServerFault::Io(error) => Fault::from(error),
        ServerFault::Book(fault) => Fault::from(fault),
    }
}

/// How the words want connections to be served.
fn service<'a>(
    alloc: Global,
    words: Serve<'_>,
    listener: &'a TcpListener,
    settings: &'a Settings,
) -> Service<'a>
    ensures timeout { result.timeout ≡ words.entry.timeout }
    ensures settings { result.settings.now ≡ settings.now }
{
    Service {
        alloc,
        listener,
        settings,
        timeout: words.timeout,
    }
}

/// The port that was opened, told of by `listening 127.0.0.1:PORT`.
fn tell_port<W: Write>(
    listener: io::Result<TcpListener>,
    output: &mut W,
    port: u16,
) -> io::Result<TcpListener>
    ensures { OnOk result (Appends (W.contents output.old) (W.contents output.new) (listening_line port)) }
{
    let listener = listener?;
    tell_listening(output, port)?;
    Ok(listener)
}

/// What connections are served by.
#[derive(Drop)]
struct Started {
    /// Those of the book.
    settings: Settings,
    listener: TcpListener,
}

/// Tells of the port that was opened, once the settings of the book are known.
fn start<S: Alter, W: Write>(
    listener: io::Result<TcpListener>,
    port: u16,
    output: &mut W,
    book: &TableBook<S>,
) -> Result<Started, Fault>
    ensures settings { IfOk result (λ started. (w : World) → IsHonest S.Store book.now → StandsFor S.Store book.now w → started.settings ≡ w.settings) }
    ensures told { OnOk result (Appends (W.contents output.old) (W.contents output.new) (listening_line port)) }
    ensures stream { IfErr result IsOfStream }
{
    let settings = book.settings()?;
    let listener = tell_port(listener, output, port)?;
    Ok(Started { settings, listener })
}

/// Serves so many connections over a book with the settings of the service.
fn serve_at<C: Clock, S: Alter, W: Write>(
    service: Service<'_>,
    clock: &C,
    connections: u32,
    output: &mut W,
    book: &mut TableBook<S>,
) -> Result<(), Fault>
    ensures began { IsHonest S.Store book.new → IsHonest S.Store book.old }
    // these two: whatever it answers, a crash at any moment leaves the queue that the book stands for, or the one after one more of these connections'
    // requests or sweeps, as `left` of `StoreServed` says
    ensures served { IsHonest S.Store book.new → OnOk result (ServesWith S.Store book.old book.new service.entry.settings.now
        (λ counts. (length counts ≡ connections) × Appends (W.contents output.old) (W.contents output.new) (served_lines counts))) }
    // no more than so many connections were served, and each was told of, or a stream failed or there was no memory
    ensures err { IsHonest S.Store book.new → IfErr result (λ f. ServesWith S.Store book.old book.new service.entry.settings.now
        (λ counts. (length counts ≤ connections) × (IsOfStream f ⊎ Appends (W.contents output.old) (W.contents output.new) (served_lines counts)))) }
    ensures damaged { IsHonest S.Store book.new → IfErr result (λ f. f ≡ Damaged
        → (w : World) → StandsFor S.Store book.old w → service.entry.settings.now ≡ w.settings → ⊥) }
    ensures told { IfErr result IsOfServe }
    // over any book, also one that is not honest
    ensures stopped { IfErr result (λ f. IsOfStream f
        ⊎ ((counts : List ℕ) × (length counts ≤ connections) × Appends (W.contents output.old) (W.contents output.new) (served_lines counts))) }
    ensures written { OnOk result ((counts : List ℕ) × (length counts ≡ connections)
        × Appends (W.contents output.old) (W.contents output.new) (served_lines counts)) }
{
    match service.serve_connections(clock, output, book, connections) {
        Ok(_) => Ok(()),
        Err(stopped) => Err(fault_of_server(stopped)),
    }
}

/// Tells of the port that is listened on, and serves connections over a book. One that could not be listened on is told of once the settings are known.
pub(crate) fn serve_book<C: Clock, S: Alter, W: Write>(
    alloc: Global,
    clock: &C,
    words: Serve<'_>,
    listener: io::Result<TcpListener>,
    output: &mut W,
    book: &mut TableBook<S>,
) -> Result<(), Fault>
    ensures began { IsHonest S.Store book.new → IsHonest S.Store book.old }
    // these two: whatever it answers, a crash at any moment leaves the queue that the book stands for, or the one after one more of these connections'
    // requests or sweeps, as `left` of `StoreServed` says
    ensures served { IsHonest S.Store book.new → OnOk result (Serves S.Store book.old book.new
        (λ counts. (length counts ≡ words.entry.connections) × Appends (W.contents output.old) (W.contents output.new) (server_lines words.entry counts))) }
    // no more than so many connections were served, and each was told of, or a stream failed or there was no memory
    ensures err { IsHonest S.Store book.new → IfErr result (λ f. Serves S.Store book.old book.new
        (λ counts. (length counts ≤ words.entry.connections) × (IsOfStream f ⊎ Appends (W.contents output.old) (W.contents output.new) (server_lines words.entry counts)))) }
    ensures damaged { IsHonest S.Store book.new → IfErr result (λ f. f ≡ Damaged → (w : World) → ¬ StandsFor S.Store book.old w) }
    ensures told { IfErr result IsOfServe }
    // over any book, also one that is not honest
    ensures stopped { IfErr result (λ f. IsOfStream f ⊎ HasListened words.entry (W.contents output.old) (W.contents output.new)) }
    ensures written { OnOk result ((counts : List ℕ) × (length counts ≡ words.entry.connections)
        × Appends (W.contents output.old) (W.contents output.new) (server_lines words.entry counts)) }
{
    let started = start(listener, words.port, output, book)?;
    let service = service(alloc, words, &started.listener, &started.settings);
    serve_at(service, clock, words.connections, output, book)
}
