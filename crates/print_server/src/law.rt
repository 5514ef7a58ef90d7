//! What a server's connections are to the machine, and what they leave: laws over the definitions, in functions that do nothing.
ghost use Rattle.std.specs.Prelude.{◌≡◌, ℕ, List};
ghost use Rattle.queue_core.specs.World.{World};
ghost use Rattle.print_server.specs.Connections.{AreConnections, IsAtMostOneMore, IsRun};

use http_front::{connections_are_runs, connections_grant_nothing};
use queue_core::run_keeps;

/// Whatever clients send, what their connections, with the sweeps before them, make of a queue is a run of the machine; and so is what a crash
/// leaves of it, at whatever moment.
pub fn served_queues_are_runs()
    ensures served { (w u : World) (counts : List ℕ) → AreConnections w counts u → IsRun w u }
    ensures crash { (w u x : World) (counts : List ℕ) (are : AreConnections w counts u) → IsAtMostOneMore w counts u are x → IsRun w x }
{
    connections_are_runs();
    run_keeps();
}

/// Whatever clients send, their connections, with the sweeps before them, grant no pages and change no settings; nor does a crash, at whatever moment.
pub fn servers_grant_nothing()
    ensures grants { (w u : World) (counts : List ℕ) → AreConnections w counts u → u.grants ≡ w.grants }
    ensures settings { (w u : World) (counts : List ℕ) → AreConnections w counts u → u.settings ≡ w.settings }
    ensures crash { (w u x : World) (counts : List ℕ) (are : AreConnections w counts u) → IsAtMostOneMore w counts u are x
        → (x.grants ≡ w.grants) × (x.settings ≡ w.settings) }
{
    connections_grant_nothing();
}
