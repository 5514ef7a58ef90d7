//! The program: its words, the command that they name and the exit status.
ghost use Rattle.std.specs.Prelude.{◌≡◌, ◌≤◌, ◌⊎◌, [], IfErr, IfOk, OnOk};
ghost use Rattle.std.specs.Io.Buffered.{writer_buffer, writer_contents};
ghost use Rattle.std.specs.Io.KnownBytes.{Keeps};
ghost use Rattle.command_ends.specs.Faults.{IsOfStream};
ghost use Rattle.command_ends.specs.Texts.{Tells};
ghost use Rattle.command_ends.specs.declared.fault.Fault.{Fault as ToldFault};
ghost use Rattle.command_ends.specs.declared.fault.Fault.TheVariants.{Memory as OfMemory};
ghost use Rattle.command_words.specs.declared.outcome.Command.{Command as NamedCommand};
ghost use Rattle.commands.specs.Printed.{HasPrinted, Prints};
ghost use Rattle.commands.specs.Refusals.{IsOfInit, IsOfReplay, IsTold, MayBePrintedBy, MayBePrintedOf, MayBeToldBy, MayBeToldOf};
ghost use Rattle.commands.specs.Store.{CanBeMade, CanBeOperators, IsAllowed, IsOfStore, names_of};
ghost use Rattle.commands.specs.Words.{AreWrong, AskForText, NameCommand, faults_of};

use crate::new_store::make_and_let_go;
use crate::work::{NewOperators, Work, work_and_let_go};
use command_ends::{DONE, Fault, end, tell_words};
use command_words::{Command, CommandFault, Init, Operators, command};
use queue_types::operators::operator_names;
use replay_in_memory::replay;
use sqlite_std_file::Wary;
use std::alloc::Global;
use std::io::{BufWriter, Input, Read, Write};
use std::rt::HostRuntime;

/// Makes the store that the words ask for, closes it and flushes what is printed, and gives the exit status.
fn do_init<O: Write + Drop>(
    rt: &HostRuntime,
    words: Init<'_>,
    out: &mut BufWriter<O>,
) -> Result<u8, Fault>
    ensures status { IfOk result (λ status. status ≡ 0) }
    // whatever its files hold
    ensures made { OnOk result (CanBeMade words.entry) }
    ensures printed { OnOk result (Keeps (writer_contents O.contents out.old) (writer_contents O.contents out.new)) }
    ensures handed { OnOk result (writer_buffer out.new ≡ []) }
    ensures told { IfErr result IsOfInit }
    // a stream failed or there was no memory, or nothing was printed
    ensures quiet { IfErr result (λ f. IsOfStream f ⊎ (writer_contents O.contents out.new ≡ writer_contents O.contents out.old)) }
{
    make_and_let_go(rt, words, Wary)?;
    out.flush()?;
    Ok(DONE)
}

/// Does the work on the store that is at its path, closes the store and flushes what is printed, and gives the exit status.
fn do_work<O: Write + Drop>(
    rt: &HostRuntime,
    work: Work<'_>,
    out: &mut BufWriter<O>,
) -> Result<u8, Fault>
    ensures status { IfOk result (λ status. status ≡ 0) }
    ensures printed { OnOk result (Prints work.entry (writer_contents O.contents out.old) (writer_contents O.contents out.new)) }
    ensures handed { OnOk result (writer_buffer out.new ≡ []) }
    ensures told { IfErr result (λ f. IsOfStore f ⊎ MayBeToldOf work.entry f) }
    // a stream failed or there was no memory, or nothing was printed; a server may have told of its port and of connections
    ensures quiet { IfErr result (λ f. IsOfStream f ⊎ MayBePrintedOf work.entry (writer_contents O.contents out.old) (writer_contents O.contents out.new)) }
{
    work_and_let_go(rt, work, out, Wary)?;
    out.flush()?;
    Ok(DONE)
}

/// Sets the operators of the store that is at the path of the words, as [`do_work`] does. Names that can't be those of operators are refused before the
/// store is looked at.
fn do_operators<O: Write + Drop>(
    rt: &HostRuntime,
    words: &Operators<'_>,
    out: &mut BufWriter<O>,
) -> Result<u8, Fault>
    ensures status { IfOk result (λ status. status ≡ 0) }
    ensures allowed { OnOk result (CanBeOperators (names_of words.now)) }
    ensures printed { OnOk result (HasPrinted (Command.Operators words.now) 0 (writer_contents O.contents out.old) (writer_contents O.contents out.new)) }
    ensures handed { OnOk result (writer_buffer out.new ≡ []) }
    ensures told { IfErr result (MayBeToldBy (Command.Operators words.now)) }
    // a stream failed or there was no memory, or nothing was printed
    ensures quiet { IfErr result (λ f. IsOfStream f ⊎ (writer_contents O.contents out.new ≡ writer_contents O.contents out.old)) }
{
    let operators = operator_names(rt.alloc(), words.names.as_slice())?;
    let work = NewOperators {
        store: words.store,
        operators: &operators,
    };
    do_work(rt, Work::Operators(work), out)
}

/// Answers the lines of an input over a new queue in memory, flushes the answers, and gives the exit status. It has no way to files, nor to
/// streams but these.
fn do_replay<R: Read, O: Write + Drop>(
    alloc: Global,
    input: &mut R,
    out: &mut BufWriter<O>,
) -> Result<u8, Fault>
    ensures status { IfOk result (λ status. status ≤ 1) }
    ensures printed { IfOk result (λ status. HasPrinted Command.Replay status (writer_contents O.contents out.old) (writer_contents O.contents out.new)) }
    ensures handed { OnOk result (writer_buffer out.new ≡ []) }
    ensures told { IfErr result IsOfReplay }
{
    let status = replay(alloc, input, out)?;
    out.flush()?;
    Ok(status)
}

/// Does what a command asks, flushes what is printed, and gives the exit status.
fn do_command<O: Write + Drop>(
    rt: &HostRuntime,
    command: Command<'_>,
    out: &mut BufWriter<O>,
) -> Result<u8, Fault>
    ensures status { IfOk result (λ status. status ≤ 1) }
    ensures replayed { IfOk result (λ status. status ≡ 1 → command.entry ≡ Command.Replay) }
    ensures told { IfErr result (MayBeToldBy command.entry) }
    // a stream failed or there was no memory, or no more was printed than may be
    ensures quiet { IfErr result (λ f. IsOfStream f ⊎ MayBePrintedBy command.entry (writer_contents O.contents out.old) (writer_contents O.contents out.new)) }
    // whatever its files hold
    ensures allowed { OnOk result (IsAllowed command.entry) }
    ensures printed { IfOk result (λ status. HasPrinted command.entry status (writer_contents O.contents out.old) (writer_contents O.contents out.new)) }
    ensures handed { OnOk result (writer_buffer out.new ≡ []) }
{
    match command {
        Command::Init(words) => do_init(rt, words, out),
        Command::Import(words) => do_work(rt, Work::Import(words), out),
        Command::Statement(words) => do_work(rt, Work::Statement(words), out),
        Command::Expire(words) => do_work(rt, Work::Expire(words), out),
        Command::Operators(words) => do_operators(rt, &words, out),
        Command::Serve(words) => do_work(rt, Work::Serve(words), out),
        Command::Replay => do_replay(rt.alloc(), &mut rt.reader(), out),
    }
}

/// Does what the program's words ask, the first of which is its own name, and gives the exit status: 0 where it is done, 1 where it is
/// refused, or what is wrong with its words can't be told, 2 where the words name no command and ask for no help.
///
/// What a command prints goes through `out`, and so does a help text that was asked for. A refusal is one line on `err`, `printd: FAULT`, and
/// words that name no command have `clap`'s text there. A replay that ends at a bad line has status 1 and no line on `err`.
pub fn run<O: Write + Drop, E: Write>(
    rt: &HostRuntime,
    words: &[&str],
    out: &mut BufWriter<O>,
    err: &mut E,
) -> u8
    ensures named { faults_of words.now ≡ [] → result ≤ 1 }
    ensures wrong { AreWrong (faults_of words.now) → 1 ≤ result }
    ensures helped { AskForText (faults_of words.now) → result ≤ 1 }
    ensures status { result ≤ 2 }
    ensures silent { result ≡ 0 → err.new ≡ err.old }
    ensures unprinted { result ≡ 2 → out.new ≡ out.old }
    // a command that was done, whatever its files hold: its words allow it, and it has printed what it is to print
    ensures done { faults_of words.now ≡ [] → result ≡ 0 → (c : NamedCommand) × NameCommand words.now c × IsAllowed c
        × HasPrinted c 0 (writer_contents O.contents out.old) (writer_contents O.contents out.new) }
    // what it has printed was handed on, and lies in the buffer no longer
    ensures handed { faults_of words.now ≡ [] → result ≡ 0 → writer_buffer out.new ≡ [] }
    // one that was refused, or for whose words there was no memory
    ensures told { faults_of words.now ≡ [] → result ≡ 1
        → (Tells OfMemory (E.contents err.old) (E.contents err.new) × (out.new ≡ out.old))
        ⊎ ((c : NamedCommand) × NameCommand words.now c × IsTold c (E.contents err.old) (E.contents err.new)
        (writer_contents O.contents out.old) (writer_contents O.contents out.new) (writer_buffer out.new)) }
    // words that name no command and ask for no text print nothing; where those that ask for a text aren't told it, a stream failed or there was no memory, and one line says so
    ensures misnamed { AreWrong (faults_of words.now) → out.new ≡ out.old }
    ensures unhelped { AskForText (faults_of words.now) → result ≡ 1
        → (f : ToldFault) × IsOfStream f × Tells f (E.contents err.old) (E.contents err.new) }
{
    match command(rt.alloc(), words) {
        Ok(command) => {
            let done = do_command(rt, command, out);
            end(err, done)
        }
        Err(CommandFault::Words(error)) => {
            let told = tell_words(out, err, &error);
            end(err, told)
        }
        Err(CommandFault::Memory) => end(err, Err(Fault::Memory)),
    }
}
