//! The head of a request, taken and checked.
ghost use Rattle.std.specs.Prelude.{◌≡◌, ◌≤◌, ℕ, List, IfErr, IfOk, OnErr};
ghost use Rattle.std.specs.Io.KnownBytes.{Keeps};
ghost use Rattle.httparse.specs.Grammar.{RequestHead, ReadsRequest};
ghost use Rattle.http_head.specs.Fault.{IsHeadFault};
ghost use Rattle.http_head.specs.Framing.{size_of};
ghost use Rattle.http_head.specs.Limits.{content_limit};
ghost use Rattle.http_head.specs.Reads.{MakesNoRead, bytes_left, come, reads_left};
ghost use Rattle.http_head.specs.Received.{TakesPlan};
ghost use Rattle.http_head.specs.Routes.{routes};

use crate::fault::HeadFault;
use crate::head::find_head;
use crate::input::Input;
use crate::limits::MOST_FIELDS;
use crate::plan::{Plan, plan_at};
use crate::routes::Route;
use httparse::spans::EMPTY_HEADER_SPAN;
use matchit::Router;
use std::io::Read;

/// Takes the next head, and answers what it asks for. A head that a check refuses is not taken.
pub fn take_head<R: Read>(router: &Router<Route>, input: &mut Input<R>) -> Result<Plan, HeadFault>
    requires { router.now ≡ routes }
    ensures taken { IfOk result (TakesPlan (bytes_left R.Read input.old) (bytes_left R.Read input.new)) }
    ensures fits { IfOk result (λ plan. size_of plan.framing ≤ content_limit) }
    ensures kept { OnErr result (Keeps (bytes_left R.Read input.old) (bytes_left R.Read input.new)) }
    ensures failed { IfErr result (IsHeadFault (bytes_left R.Read input.old)) }
    ensures never_more { reads_left input.new ≤ reads_left input.old }
    // where a head has come, no read is made
    ensures unread { (h : RequestHead) (rest : List ℕ) → ReadsRequest (come input.old) h rest → MakesNoRead input.old input.new }
{
    let mut headers = [EMPTY_HEADER_SPAN; MOST_FIELDS];
    let spans = find_head(input, &mut headers)?;
    let plan = plan_at(router, input.bytes(), &headers, spans)?;
    input.take(spans.len);
    Ok(plan)
}
