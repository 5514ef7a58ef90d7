//! What a connection is to the machine, and what it leaves: laws over the definitions, in functions that do nothing.
ghost use Rattle.std.specs.Prelude.{◌≡◌, ◌≢◌, ◌≤◌, ◌⊎◌, ◌++◌, ℕ, List, Some, length};
ghost use Rattle.std.specs.List.{AllByRecursion, flat_map};
ghost use Rattle.queue_types.specs.Event.{Event};
ghost use Rattle.queue_core.specs.Limits.{IsEvent, IsMoment};
ghost use Rattle.queue_core.specs.Runs.{IsPlace, Place, run};
ghost use Rattle.queue_core.specs.World.{World};
ghost use Rattle.http_head.specs.declared.end.End.{End};
ghost use Rattle.http_head.specs.declared.end.End.TheVariants.{Refused};
ghost use Rattle.http_head.specs.declared.end.Finish.{Finish};
ghost use Rattle.http_front.specs.Connections.{Answers, AreTurns, Breaks, Worked};
ghost use Rattle.http_front.specs.Conversations.{AreSameRequests, MayEndAs};
ghost use Rattle.http_front.specs.Crash.{AsksIn, IsAskedIn, IsAtMostOneMore};
ghost use Rattle.http_front.specs.Places.{IsRunOf};
ghost use Rattle.http_front.specs.Turns.{IsTurn, Turn, request_bytes};

use device_lines::{lines_are_events, one_line_reading};
use http_wire::one_reading;
use ipp_ops::{calls_are_events, one_verdict};
use ipp_wire::one_spelling;

/// What a connection makes of a queue is a run of the machine: each of its requests is a place of the run, at the connection's moment, with the event that
/// the request asks for; or with nothing, where a check refuses it, where it is a GET, or where a fault answers it.
pub fn connections_are_runs()
    ensures served { (now : ℕ) (w u : World) (stream written : List ℕ) (acted faults : ℕ) (end : End) → IsMoment now
        → (a : Answers now w stream written u acted faults end) → IsRunOf now w a.turns u }
    ensures broken { (now : ℕ) (w u : World) (stream written : List ℕ) (acted faults : ℕ) → IsMoment now
        → (b : Breaks now w stream written u acted faults) → IsRunOf now w (b.turns ++ b.broken) u }
    // whatever the bytes were
    ensures worked { (most now : ℕ) (w u : World) (acted : ℕ) → IsMoment now → (k : Worked most now w u acted)
        → IsRunOf now w k.turns u }
    // what a request asks for is an event within the limits
    ensures asked { (now : ℕ) (w : World) (t : Turn) (e : Event) → IsTurn now w t → AsksIn t e → IsEvent e }
    // and so is what a crash may leave done of one of them
    ensures events { (now : ℕ) (w u : World) (turns : List Turn) (e : Event) → AreTurns now w turns → IsAskedIn w turns u e → IsEvent e }
    // what a crash leaves beside the queue u: that queue, or what one place more makes of it
    ensures crash { (now : ℕ) (w u x : World) (turns : List Turn) → IsMoment now → AreTurns now w turns → IsAtMostOneMore now w turns u x
        → (ps : List Place) × AllByRecursion IsPlace ps × (length ps ≤ 1) × (x ≡ run u ps) }
{
    calls_are_events();
    lines_are_events();
}

/// A connection grants no pages, whatever its requests ask for.
pub fn connections_grant_nothing()
    ensures served { (now : ℕ) (w u : World) (stream written : List ℕ) (acted faults : ℕ) (end : End)
        → Answers now w stream written u acted faults end → u.grants ≡ w.grants }
    ensures broken { (now : ℕ) (w u : World) (stream written : List ℕ) (acted faults : ℕ)
        → Breaks now w stream written u acted faults → u.grants ≡ w.grants }
    // whatever the bytes were
    ensures worked { (most now : ℕ) (w u : World) (acted : ℕ) → Worked most now w u acted → u.grants ≡ w.grants }
    // and what a crash leaves
    ensures crash { (now : ℕ) (w : World) (turns : List Turn) (u x : World) → IsAtMostOneMore now w turns u x → x.grants ≡ u.grants }
{}

/// The bytes of a connection are read in one way, and over one queue at one moment answered in one way, but for faults. Only an end where no head or no
/// whole body stands may be told in more than one way.
pub fn one_conversation()
    // whatever the queues, the moments and the faults: the same requests, as far as both were answered
    ensures requests { (now later : ℕ) (w v : World) (ss ts : List Turn) (r q : List ℕ) → AreTurns now w ss → AreTurns later v ts
        → flat_map request_bytes ss ++ r ≡ flat_map request_bytes ts ++ q → AreSameRequests ss ts }
    // over one queue at one moment, with the same faults and the same end: the same answers, but for a 100 Continue before a 503
    ensures served { (now : ℕ) (w u v : World) (stream written other : List ℕ) (acted n faults : ℕ) (end : End)
        → (a : Answers now w stream written u acted faults end) → (b : Answers now w stream other v n faults end)
        → (a.turns ≡ b.turns) × (a.rest ≡ b.rest) × (u ≡ v) × (acted ≡ n) × (end ≢ Refused 503 → written ≡ other) }
    // without a fault the end is the same too, unless no head or no whole body stands there
    ensures faultless { (now : ℕ) (w u v : World) (stream written other : List ℕ) (acted n : ℕ) (end last : End)
        → (a : Answers now w stream written u acted 0 end) → (b : Answers now w stream other v n 0 last)
        → (a.turns ≡ b.turns) × (a.rest ≡ b.rest) × (u ≡ v) × (acted ≡ n) × (end ≡ last → written ≡ other)
        × ((end ≡ last) ⊎ MayEndAs a.rest a.finish b.finish) }
    // where answers without a fault were broken off, their turns are the first of these, and what was written is a front, unless such an end was begun
    ensures broken { (now : ℕ) (w u v : World) (stream written other : List ℕ) (acted n : ℕ) (end : End)
        → (a : Answers now w stream written u acted 0 end) → (b : Breaks now w stream other v n 0)
        → (more : List Turn) × (a.turns ≡ (b.turns ++ b.broken) ++ more)
        × (((unwritten : List ℕ) × (written ≡ other ++ unwritten)) ⊎ ((f : Finish) × MayEndAs b.rest (Some f) a.finish)) }
{
    one_line_reading();
    one_reading();
    one_spelling();
    one_verdict();
}
