//! What a request's head asks for.
ghost use Rattle.std.specs.Prelude.{◌≡◌, ◌≤◌, length, take, IfOk};
ghost use Rattle.http_head.specs.Framing.{size_of};
ghost use Rattle.http_head.specs.Limits.{content_limit};
ghost use Rattle.http_head.specs.Planned.{IsPlanned, IsPlanOf, said};
ghost use Rattle.http_head.specs.Routes.{routes};

use crate::checks::{asks_for, is_typed, routed_refusal, unrouted_refusal};
use crate::end::Refusal;
use crate::fields::{text_at, values};
use crate::framing::{Framing, framing_told, is_misframed};
use crate::limits::MOST_FIELDS;
use crate::routes::Route;
use crate::target::{Target, path_of, routed};
use httparse::spans::{HeaderSpan, RequestSpans};
use matchit::Router;
use std::marker::Model;

/// What a head that passes the checks asks for. Only [`crate::receive::take_head`] makes one, and nothing changes it.
#[derive(Clone, Copy)]
pub struct Plan {
    target: Target,
    framing: Framing,
    expects: bool,
    closes: bool,
}

impl Model for Plan {
    ghost use Rattle.http_head.specs.Plan.{PlanValues};

    ghost Value = { PlanValues };

    ghost view = { λ p. record { target = p.target; framing = p.framing; expects = p.expects; closes = p.closes } };

    ghost inverse = { λ p. record { target = p.target; framing = p.framing; expects = p.expects; closes = p.closes } };
}

impl Plan {
    /// What the request is about.
    pub fn target(self) -> Target
        ensures { result ≡ self.target }
    {
        self.target
    }

    /// How its body is framed.
    pub fn framing(self) -> Framing
        ensures { result ≡ self.framing }
    {
        self.framing
    }

    /// `100 Continue` is expected (RFC 9110, section 10.1.1).
    pub fn expects(self) -> bool
        ensures { result ≡ self.expects }
    {
        self.expects
    }

    /// The connection ends after it (RFC 9112, section 9.6).
    pub fn closes(self) -> bool
        ensures { result ≡ self.closes }
    {
        self.closes
    }
}

fn first_of(headers: &[HeaderSpan; MOST_FIELDS], n: usize) -> &[HeaderSpan]
    ensures value { result.now ≡ take n headers.now }
    ensures few { length result.now ≤ 64 }
{
    &headers[..n.min(MOST_FIELDS)]
}

/// The plan of what the spans cover, or the first check that applies to it.
fn plan_said(
    router: &Router<Route>,
    come: &[u8],
    headers: &[HeaderSpan; MOST_FIELDS],
    spans: RequestSpans,
) -> Result<Plan, Refusal>
    requires { router.now ≡ routes }
    ensures { IsPlanOf (said come.now headers.now spans) result }
{
    let fields = first_of(headers, spans.headers);
    let codings = values(come, fields, b"transfer-encoding");
    let lengths = values(come, fields, b"content-length");
    let misframed = is_misframed(come, codings.as_slice(), lengths.as_slice());
    let Some(target) = routed(router, path_of(text_at(come, spans.path))) else {
        return Err(unrouted_refusal(misframed));
    };
    let framing = framing_told(come, codings.as_slice(), lengths.as_slice());
    let typed = is_typed(target.media_type(), come, fields);
    if let Some(refusal) = routed_refusal(
        target,
        misframed,
        framing,
        text_at(come, spans.method),
        typed,
    ) {
        return Err(refusal);
    }
    // As in `is_misframed`, no branches.
    let expects = (spans.version == 1) & asks_for(come, fields, b"expect", b"100-continue");
    let closes = (spans.version == 0) | asks_for(come, fields, b"connection", b"close");
    Ok(Plan {
        target,
        framing,
        expects,
        closes,
    })
}

/// The plan of the head at the front of what has come, or the first check that applies to it.
// plan_said with what follows from its one clause, so that this is not proved at each of its ways out
pub(crate) fn plan_at(
    router: &Router<Route>,
    come: &[u8],
    headers: &[HeaderSpan; MOST_FIELDS],
    spans: RequestSpans,
) -> Result<Plan, Refusal>
    requires { router.now ≡ routes }
    ensures planned { IsPlanned come.now headers.now spans result }
    ensures fits { IfOk result (λ plan. size_of plan.framing ≤ content_limit) }
{
    plan_said(router, come, headers, spans)
}
