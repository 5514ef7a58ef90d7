//! A body whose length is told.
ghost use Rattle.std.specs.Prelude.{◌≡◌, ◌<◌, ◌≤◌, [], length, true, false, IfErr, IfOk, IfSome, OnOk};
ghost use Rattle.std.specs.Io.KnownBytes.{Consumes, Keeps, IsAtEnd};
ghost use Rattle.http_head.specs.Reads.{MakesNoRead, bytes_left, come, reader_of, reads_left};
ghost use Rattle.http_wire.specs.Bodies.{EndsInLength, TakesMore};
ghost use Rattle.http_wire.specs.Fault.{IfEnded};

use crate::fault::BodyFault;
use http_head::end::Finish;
use http_head::fault::ReadFault;
use http_head::input::Input;
use std::alloc::Global;
use std::io::Read;

/// Reads where nothing has come, and says whether something has come now: nothing only at the input's end.
pub(crate) fn await_bytes<R: Read>(input: &mut Input<R>) -> Result<bool, ReadFault>
    ensures kept { Keeps (bytes_left R.Read input.old) (bytes_left R.Read input.new) }
    ensures there { IfOk result (λ some. some ≡ true → 0 < length (come input.new)) }
    ensures none { IfOk result (λ some. some ≡ false → (come input.new ≡ []) × IsAtEnd (R.remaining (reader_of input.new))) }
    ensures never_more { reads_left input.new ≤ reads_left input.old }
    ensures unread { 0 < length (come input.old) → input.new ≡ input.old }
{
    if !input.bytes().is_empty() {
        return Ok(true);
    }
    Ok(input.fill()? > 0)
}

/// Takes the next n bytes and adds them to the content. Where fewer are left, the input was cut.
pub(crate) fn take_more<R: Read>(
    input: &mut Input<R>,
    content: &mut Vec<u8>,
    n: usize,
) -> Result<(), BodyFault>
    ensures whole { OnOk result (TakesMore n (bytes_left R.Read input.old) (bytes_left R.Read input.new) content.old.items content.new.items) }
    ensures cut { IfErr result (λ f. IfEnded f (λ end. IfSome (bytes_left R.Read input.old) (λ bytes. EndsInLength n bytes end))) }
    ensures never_more { reads_left input.new ≤ reads_left input.old }
    // where they have come, no read is made
    ensures unread { n ≤ length (come input.old) → MakesNoRead input.old input.new }
{
    let mut taken: usize = 0;
    'take: while taken < n {
        if !await_bytes(input)? {
            return Err(BodyFault::Ended(Finish::Cut));
        }
        let size = input.bytes().len().min(n - taken);
        content.extend_from_slice(&input.bytes()[..size])?;
        input.take(size);
        taken += size;
    }
    Ok(())
}

/// Takes the next n bytes, in memory that is taken for all of them before the first is read. Where fewer are left, the input was cut.
pub(crate) fn take_body<R: Read>(
    alloc: Global,
    input: &mut Input<R>,
    n: usize,
) -> Result<Vec<u8>, BodyFault>
    ensures whole { IfOk result (λ body. (length body.items ≡ n)
        × Consumes (bytes_left R.Read input.old) (bytes_left R.Read input.new) body.items) }
    ensures cut { IfErr result (λ f. IfEnded f (λ end. IfSome (bytes_left R.Read input.old) (λ bytes. EndsInLength n bytes end))) }
    ensures never_more { reads_left input.new ≤ reads_left input.old }
    // where they have come, no read is made
    ensures unread { n ≤ length (come input.old) → MakesNoRead input.old input.new }
{
    let mut content = Vec::with_capacity(alloc, n)?;
    take_more(input, &mut content, n)?;
    Ok(content)
}
