//! The lines that tell what the server does.
ghost use Rattle.std.specs.Prelude.{OnOk};
ghost use Rattle.std.specs.Io.KnownBytes.{Appends};
ghost use Rattle.print_server.specs.Lines.{listening_line, served_line};

use std::io;
use std::io::Write;

/// Prints `listening 127.0.0.1:PORT`, by which connections can be made from now on.
pub fn tell_listening<W: Write>(out: &mut W, port: u16) -> io::Result<()>
    ensures { OnOk result (Appends (W.contents out.old) (W.contents out.new) (listening_line port)) }
{
    writeln!(out, "listening 127.0.0.1:{port}")?;
    out.flush()
}

/// Prints `served ACTED`: a connection has ended, and so many of its requests acted.
pub(crate) fn tell_served<W: Write>(out: &mut W, acted: u32) -> io::Result<()>
    ensures { OnOk result (Appends (W.contents out.old) (W.contents out.new) (served_line acted)) }
{
    writeln!(out, "served {acted}")?;
    out.flush()
}
