//! The book in tables as a book that keeps a queue.
ghost use Rattle.std.specs.Prelude.{◌≡◌, IfErr, IfOk, IsTrue};
ghost use Rattle.queue_core.specs.Limits.{IsEvent, IsFair, IsMoment, IsReplyTo};
ghost use Rattle.queue_core.specs.Machine.{decision};
ghost use Rattle.queue_store.specs.Kept.{IsHonest, StandsFor, connection_of, shown_by};
ghost use Rattle.queue_store.specs.Laws.{open_lasts};
ghost use Rattle.queue_tables.specs.Content.{LeavesOneOf};
ghost use Rattle.queue_types.specs.Event.{decision_of, event_of};

use crate::book::TableBook;
use queue_core::{BookFault, QueueBook, SendFault, decisions_are_sound, empty_is_sound};
use queue_types::document::DocumentHead;
use queue_types::event::{Decision, Event, Scene};
use queue_types::job::JobList;
use queue_types::sheet::AccountSheet;
use sqlite::Alter;
use std::alloc::Global;
use std::io::Write;

/// What the machine decides on a scene, which is let go.
fn decide_on<'a>(
    alloc: Global,
    scene: Scene,
    now: u32,
    event: &Event<'a>,
) -> Result<Decision<'a>, BookFault>
    requires fair { IsFair scene }
    requires moment { IsMoment now }
    requires event { IsEvent (event_of event.now) }
    ensures decides { IfOk result (λ d. decision_of d ≡ decision scene now (event_of event.now)) }
    ensures limits { IfOk result (λ d. IsReplyTo (event_of event.now) d.reply) }
    ensures fault { IfErr result (λ e. e ≡ BookFault.Memory) }
{
    Ok(queue_core::decide(alloc, &scene, now, event)?)
}

/// A `TableBook` stands for a world that its tables hold, as long as the connection is open, which is then outside of any
/// transaction and has no step limit. It is honest where the disk has returned what was written to it. A crash leaves one of two worlds of it where each database that the
/// next open may find holds one of them.
impl<S: Alter> QueueBook for TableBook<S> {
    ghost stands = { λ b w. StandsFor S.Store b w };

    ghost is_honest = { λ b. IsHonest S.Store b };

    ghost is_live = { λ b. IsTrue (shown_by S.Store b).is_open };

    ghost crash_leaves = { λ b v w. LeavesOneOf v w (shown_by S.Store b) };

    fn decide<'a>(&mut self, now: u32, event: &Event<'a>) -> Result<Decision<'a>, BookFault> {
        let scene = queue_scenes::scene(self.alloc, &mut self.conn, &self.settings, now, event)?;
        decide_on(self.alloc, scene, now, event)
    }

    fn apply(&mut self, decision: Decision<'_>) -> Result<(), BookFault> {
        decisions_are_sound();
        queue_tables::make(self.alloc, &mut self.conn, &decision)?;
        Ok(())
    }

    fn pending(&mut self) -> Result<JobList, BookFault> {
        Ok(queue_scenes::pending(self.alloc, &mut self.conn)?)
    }

    fn document_head(&mut self, job: u32, n: u32) -> Result<Option<DocumentHead>, BookFault> {
        Ok(queue_shown::document_head(&mut self.conn, job, n)?)
    }

    fn send_document<W: Write>(&mut self, job: u32, n: u32, out: &mut W) -> Result<u64, SendFault> {
        empty_is_sound();
        // its contract says that the settings are within their limits
        let _estimate = self.settings.estimate();
        queue_shown::send_document(&mut self.conn, job, n, out)
    }

    fn sheet(&mut self, account: &str) -> Result<Option<AccountSheet>, BookFault> {
        Ok(queue_scenes::sheet(self.alloc, &mut self.conn, account)?)
    }

    ghost sound = { λ b w honest h. (h honest).sound };

    ghost lasts = { λ b w v honest live stands. open_lasts v stands (S.Store.settled (connection_of b).store) honest live };
}
