//! A print release server: `printd init` makes a store, `printd import` takes an account file, `printd serve` serves print clients and the
//! device by HTTP, `printd statement` prints an account's statement, `printd expire` ends the held jobs that have expired, and `printd replay`
//! answers lines of text over a queue in memory.
#![tactic(auto)]

use commands::{Fault, end, run};
use std::env;
use std::io::BufWriter;
use std::process::ExitCode;

fn main(rt: HostRuntime) -> ExitCode {
    let outcome = do_words(&rt);
    ExitCode::from(end(&mut rt.stderr(), outcome))
}

/// Does what the program's words ask, and gives the exit status.
fn do_words(rt: &HostRuntime) -> Result<u8, Fault> {
    let alloc = rt.alloc();
    let words: Vec<String> = env::args(rt)?.collect(alloc)?;
    let texts: Vec<&str> = words.iter().map(|word| word.as_str()).collect(alloc)?;
    let mut output = BufWriter::new(alloc, rt.stdout())?;
    Ok(run(rt, texts.as_slice(), &mut output, &mut rt.stderr()))
}
