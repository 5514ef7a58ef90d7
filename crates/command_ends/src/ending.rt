//! How a command ends: its exit status, and what is told of a refusal.
ghost use Rattle.std.specs.Prelude.{◌≡◌, ◌≢◌, ◌≤◌, ◌⊎◌, IfErr, IfOk};
ghost use Rattle.clap.specs.Values.{kind_of};
ghost use Rattle.clap.specs.declared.error.kind.ErrorKind.TheVariants.{DisplayHelp, DisplayVersion};
ghost use Rattle.command_ends.specs.Faults.{IsOfStream};
ghost use Rattle.command_ends.specs.Texts as spec;
ghost use Rattle.command_ends.specs.Texts.{Tells};

use crate::fault::Fault;
use arrayvec::ArrayString;
use queue_core::put_whole;
use std::io::Write;

/// The exit status of a command that was done.
pub const DONE: u8 = 0;

/// The exit status of a command that was refused.
const REFUSED: u8 = 1;

/// The exit status of words that name no command.
const WRONG_WORDS: u8 = 2;

/// More bytes than the longest line of a refusal has.
const LINE_BYTES: usize = 64;

/// The one line of a refusal, `printd: FAULT`. It takes no memory.
fn refusal_line(fault: Fault) -> ArrayString<LINE_BYTES>
    ensures { result.bytes ≡ spec.refusal_line fault }
{
    let mut line = ArrayString::new();
    line.push_str("printd: ");
    line.push_str(fault.text().as_str());
    line.push_str("\n");
    line
}

/// Writes the line of a refusal. Where it can't be written, nobody is there to read it.
fn tell<E: Write>(err: &mut E, fault: Fault)
    ensures { Tells fault (E.contents err.old) (E.contents err.new) }
{
    let line = refusal_line(fault);
    if put_whole(err, line.as_str().as_bytes()).is_ok() {
        let _ = err.flush();
    }
}

/// The exit status of a command, whose refusal is told: 1, and one line `printd: FAULT`, or a front of it where it can't be written whole.
pub fn end<E: Write>(err: &mut E, outcome: Result<u8, Fault>) -> u8
    ensures done { IfOk outcome (λ status. (result ≡ status) × (err.new ≡ err.old)) }
    ensures refused { IfErr outcome (λ fault. result ≡ 1) }
    ensures told { IfErr outcome (λ fault. Tells fault (E.contents err.old) (E.contents err.new)) }
{
    match outcome {
        Ok(status) => status,
        Err(fault) => {
            tell(err, fault);
            REFUSED
        }
    }
}

/// Writes what `clap` tells of words that name no command: on standard output where they ask for help, with status 0, else on standard
/// error, with status 2.
pub fn tell_words<O: Write, E: Write>(
    out: &mut O,
    err: &mut E,
    error: &clap::Error,
) -> Result<u8, Fault>
    ensures wrong { IfOk result (λ status. kind_of error.now ≢ DisplayHelp → kind_of error.now ≢ DisplayVersion → status ≡ 2) }
    ensures asked { IfOk result (λ status. (kind_of error.now ≡ DisplayHelp) ⊎ (kind_of error.now ≡ DisplayVersion) → status ≡ 0) }
    ensures status { IfOk result (λ status. status ≤ 2) }
    // what they are told goes to one of the two, and an error is one of that stream
    ensures out { kind_of error.now ≢ DisplayHelp → kind_of error.now ≢ DisplayVersion → out.new ≡ out.old }
    ensures err { (kind_of error.now ≡ DisplayHelp) ⊎ (kind_of error.now ≡ DisplayVersion) → err.new ≡ err.old }
    ensures told { IfErr result IsOfStream }
    ensures apart { IfOk result (λ status. (status ≡ 2 → out.new ≡ out.old) × (status ≡ 0 → err.new ≡ err.old)) }
{
    if error.use_stderr() {
        write!(err, "{error}")?;
        err.flush()?;
        Ok(WRONG_WORDS)
    } else {
        write!(out, "{error}")?;
        out.flush()?;
        Ok(DONE)
    }
}
