//! The line that tells the port that a server listens on.

use crate::desk::streams::{AT_ONCE, NO_FLUSH, NO_ROOM, TestWriter, Way};
use crate::program::sockets::AT;
use print_server::tell_listening;
use std::cell::Cell;
use std::io::ErrorKind;
use std::test::Fail;

/// Writers, whether port 8631 can be told to them, and what they take of that line.
static TELLS: [(Way, bool, &[u8]); 3] = [
    (AT_ONCE, true, b"listening 127.0.0.1:8631\n"),
    (NO_ROOM, false, b"liste"),
    // what can't be flushed was written before
    (NO_FLUSH, false, b"listening 127.0.0.1:8631\n"),
];

#[test]
fn lines_that_tell_of_a_port(rt: HostRuntime) -> Result<(), Fail> {
    for (way, is_told, taken) in &TELLS {
        let written = Cell::new(0);
        let mut out = TestWriter::new(rt.alloc(), *way, &written);
        let is_wanted = match tell_listening(&mut out, 8631) {
            Ok(()) => *is_told,
            Err(error) => !*is_told && error.kind() == ErrorKind::Other,
        };
        AT.is_so(is_wanted, "whether a port can be told")?;
        AT.same_bytes(taken, out.taken.as_slice())?;
    }
    Ok(())
}
