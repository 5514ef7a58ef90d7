//! Runs the worked examples of replays on its standard input over queues in lists and in tables. A line `ok NAME` is printed of
//! each that is answered as it is to be; how another differs goes to standard error, and the program ends with status 1.
#![tactic(auto)]

use replay::Fault;
use replay_examples::run_cases;
use std::io;
use std::io::{BufWriter, Read, Write};
use std::process::ExitCode;

fn main(rt: HostRuntime) -> Result<ExitCode, Fault> {
    let alloc = rt.alloc();
    let mut text = Vec::new(alloc);
    rt.reader().read_to_end(&mut text)?;
    let mut output = BufWriter::new(alloc, io::writer(&rt))?;
    let are_well = run_cases(alloc, text.as_slice(), &mut output, &mut rt.stderr())?;
    output.flush()?;
    Ok(ExitCode::from(u8::from(!are_well)))
}
