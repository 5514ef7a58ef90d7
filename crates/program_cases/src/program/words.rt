//! Words that name no command: what is wrong with them, and the texts that they ask for.

use crate::desk::compare::Mismatch;
use crate::program::folder::AT;
use commands::run;
use std::io::BufWriter;

/// What `init` is, as it tells it.
const INIT_HELP: &str = "\
Make a new store

Usage: printd init [OPTIONS] --store <PATH> --uri <URI> --name <NAME>

Options:
      --store <PATH>    The file that keeps the queue
      --uri <URI>       The printer's URI, with the path /ipp/print
      --name <NAME>     The printer's name
      --estimate <N>    Pages to take for one copy of a job that doesn't tell them [default: 20]
      --keep <SECONDS>  How long a held job is kept before it expires, 0 for ever [default: 0]
  -h, --help            Print help
";

/// What `serve` is, as it tells it.
const SERVE_HELP: &str = "\
Serve the queue over HTTP

Usage: printd serve [OPTIONS] --store <PATH> --port <P> --connections <N>

Options:
      --store <PATH>       The file that keeps the queue
      --port <P>           The port on 127.0.0.1
      --connections <N>    How many connections to serve, one after another
      --timeout <SECONDS>  How long a read or a write may wait; a connection ends after 60 times as long [default: 5]
  -h, --help               Print help
";

/// What is told of a port that is none.
const NO_PORT: &str = "\
error: invalid value '0' for '--port <P>': 0 is not in 1..=65535

For more information, try '--help'.
";

/// Lines of words that name no command, the exit status, and what is told; none where only that something is told is looked at.
static NO_COMMANDS: [(&str, u8, Option<&str>); 25] = [
    ("printd", 2, None),
    ("printd print", 2, None),
    ("printd replay now", 2, None),
    ("printd sweep x", 2, None),
    ("printd import --store", 2, None),
    ("printd import --store a", 2, None),
    ("printd init --store a --uri b", 2, None),
    (
        "printd init --store a --uri b --name c --estimate 100001",
        2,
        None,
    ),
    (
        "printd init --store a --uri b --name c --keep 2147483648",
        2,
        None,
    ),
    ("printd init --store a --uri b --name c --keep -1", 2, None),
    ("printd expire", 2, None),
    ("printd expire --store", 2, None),
    ("printd expire --store a b", 2, None),
    ("printd operators", 2, None),
    ("printd operators opal", 2, None),
    ("printd operators --store a", 2, None),
    (
        "printd serve --store a --port 0 --connections 1",
        2,
        Some(NO_PORT),
    ),
    (
        "printd serve --store a --port 65536 --connections 1",
        2,
        None,
    ),
    ("printd serve --store a --port 1 --connections 0", 2, None),
    (
        "printd serve --store a --port 1 --connections 1 --timeout 0",
        2,
        None,
    ),
    (
        "printd serve --store a --port 1 --connections 1 --timeout 3601",
        2,
        None,
    ),
    ("printd --help", 0, None),
    ("printd operators --help", 0, None),
    ("printd init --help", 0, Some(INIT_HELP)),
    ("printd serve --help", 0, Some(SERVE_HELP)),
];

/// The words of a line are told this: on standard output where the exit status is 0, and else on standard error. The other stays empty.
fn are_told(rt: &HostRuntime, line: &str, status: u8, text: Option<&str>) -> Result<(), Mismatch> {
    let words: Vec<&str> = line.split(' ').collect(rt.alloc())?;
    let mut out = BufWriter::new(rt.alloc(), Vec::new(rt.alloc()))?;
    let mut err = Vec::new(rt.alloc());
    let came = run(rt, words.as_slice(), &mut out, &mut err);
    let (told, other) = if status == 0 {
        (out.get_ref().as_slice(), err.as_slice())
    } else {
        (err.as_slice(), out.get_ref().as_slice())
    };
    let is_alone = !told.is_empty() && other.is_empty();
    let is_text = match text {
        Some(text) => text.as_bytes() == told,
        None => true,
    };
    AT.is_so(came == status && is_alone && is_text, line)
}

/// Words that name no command are told what is wrong with them, or the text that they ask for.
#[test]
fn words_of_no_command(rt: HostRuntime) -> Result<(), Mismatch> {
    for (line, status, text) in &NO_COMMANDS {
        are_told(&rt, line, *status, *text)?;
    }
    Ok(())
}
