//! The book in lists, which keeps a queue in memory.
ghost use Rattle.std.specs.Prelude.{◌≡◌, ◌≤◌, ⊤, ℕ, List, IfOk, IfErr, IfSome, IsOk, IsSome, OnOk, OnErr, Some, length, option_map, take};
ghost use Rattle.std.specs.Io.KnownBytes.{Appends};
ghost use Rattle.queue_core.specs.Book.{IsDecisionOn};
ghost use Rattle.queue_types.specs.Event.{event_of, change_of, decision_of};
ghost use Rattle.queue_core.specs.Limits.{IsMoment, IsEvent, IsReplyTo};
ghost use Rattle.queue_core.specs.Machine.{decision};
ghost use Rattle.list_book.specs.Lists.{AreTotals, IsContent, world_of};
ghost use Rattle.queue_core.specs.Sound.{IsSound};
ghost use Rattle.queue_core.specs.Shown.{document_at, head_of, pending_jobs, sheet_of};
ghost use Rattle.queue_core.specs.World.{World, cut, made_on};
ghost use Rattle.queue_core.specs.declared.book.SendCause.TheVariants.{Book as ByBook, Write as ByWriter};
ghost use Rattle.queue_types.specs.declared.document.Document.{Document};

use crate::lists::{Lists, prepare, write};
use crate::scene::scene;
use crate::send::send;
use crate::{seen, sheet};
use queue_core::{
    BookFault, QueueBook, SendFault, cut_is_fair, decisions_are_sound, empty_is_sound,
    new_grants_add_up,
};
use queue_types::document::DocumentHead;
use queue_types::event::{Decision, Event};
use queue_types::job::JobList;
use queue_types::limits::FIRST_JOB_NUMBER;
use queue_types::settings::Settings;
use queue_types::sheet::AccountSheet;
use std::alloc::{AllocError, Global};
use std::collections::HashMap;
use std::io::Write;
use std::marker::Model;

/// A book that keeps its queue in lists and hash tables, in memory. Its content is a sound world.
#[derive(Drop)]
pub struct ListBook {
    alloc: Global,
    lists: Lists,
}

impl Model for ListBook {
    ghost use Rattle.queue_core.specs.World.{World, grants_code, free_code, reports_code};
    ghost use Rattle.queue_types.specs.declared.event.KeptReport.{KeptReport};
    ghost use Rattle.std.specs.Coded.{Coded, codes};

    ghost Value = { World };

    ghost coded = { Prim.hlevel (codes, grants_code, free_code, reports_code (let kept : Coded KeptReport = Prim.hlevel codes in kept)) };

    ghost use Rattle.list_book.specs.Lists.{AreTotals, IsTidy, world_of};
    ghost use Rattle.queue_core.specs.Sound.{IsSound};

    ghost view = { λ b. world_of b.lists };

    ghost invariant = { λ b. IsTidy b.lists.jobs.items b.lists.documents.items × IsSound (world_of b.lists) × AreTotals b.lists };
}

impl ListBook {
    ghost use Rattle.queue_core.specs.Sound.{IsSound};
    ghost use Rattle.queue_core.specs.World.{empty_queue};

    /// A book without jobs, grants and reports. The first job gets number 1. It takes no memory.
    pub fn new(alloc: Global, settings: Settings) -> ListBook
        ensures world { result ≡ empty_queue settings }
        ensures sound { IsSound result }
    {
        empty_is_sound();
        // its contract says that the settings are within their limits
        let _estimate = settings.estimate();
        ListBook {
            alloc,
            lists: Lists {
                settings,
                jobs: Vec::new(alloc),
                documents: Vec::new(alloc),
                next: FIRST_JOB_NUMBER,
                accounts: HashMap::new(alloc),
                grants: HashMap::new(alloc),
                reports: HashMap::new(alloc),
            },
        }
    }
}

/// What the machine decides on what the lists hold. The one error is want of memory.
fn decided<'a>(
    alloc: Global,
    lists: &Lists,
    now: u32,
    event: &Event<'a>,
) -> Result<Decision<'a>, AllocError>
    requires moment { IsMoment now }
    requires event { IsEvent (event_of event.now) }
    requires totals { AreTotals lists.now }
    requires sound { IsSound (world_of lists.now) }
    ensures decides { IfOk result (λ d. decision_of d ≡ decision (cut (world_of lists.now) now (event_of event.now)) now (event_of event.now)) }
    ensures limits { IfOk result (λ d. IsReplyTo (event_of event.now) d.reply) }
{
    cut_is_fair();
    let scene = scene(alloc, lists, now, event)?;
    queue_core::decide(alloc, &scene, now, event)
}

/// A `ListBook` stands for its content, and is always honest. Its faults are want of memory and, of `send_document`,
/// the writer's alone.
impl QueueBook for ListBook {
    ghost stands = { λ b w. IsContent b w };

    ghost is_honest = { λ b. ⊤ };

    ghost is_live = { λ b. ⊤ };

    // of lists a crash leaves nothing
    ghost crash_leaves = { λ b v w. ⊤ };

    fn decide<'a>(&mut self, now: u32, event: &Event<'a>) -> Result<Decision<'a>, BookFault>
        requires moment { IsMoment now }
        requires event { IsEvent (event_of event.now) }
        ensures began { ⊤ → ⊤ }
        ensures kept { (w : World) → IsContent self.old w → IsContent self.new w }
        ensures left { ⊤ → (v w : World) → ⊤ → ⊤ }
        ensures decides { ⊤ → IfOk result (λ d. (w : World) → IsContent self.new w
            → decision_of d ≡ decision (cut w now (event_of event.now)) now (event_of event.now)) }
        ensures limits { IfOk result (λ d. IsReplyTo (event_of event.now) d.reply) }
        ensures damaged { ⊤ → IfErr result (λ e. e ≡ BookFault.Damaged → (w : World) → ¬ IsContent self.old w) }
        ensures live { ⊤ → OnOk result ⊤ }
        ensures opened { ⊤ → ⊤ → ⊤ }
        ensures fault { IfErr result (λ f. f ≡ BookFault.Memory) }
    {
        let decision = decided(self.alloc, &self.lists, now, event)?;
        Ok(decision)
    }

    fn apply(&mut self, decision: Decision<'_>) -> Result<(), BookFault>
        requires decided { (w : World) → ⊤ → IsContent self.old w → IsDecisionOn w (decision_of decision) }
        ensures began { ⊤ → ⊤ }
        ensures ok { OnOk result ((w : World) → IsContent self.old w → IsContent self.new (made_on (change_of decision.entry.change) w)) }
        ensures err { OnErr result ((w : World) → IsContent self.old w → IsContent self.new w) }
        ensures damaged { ⊤ → IfErr result (λ e. e ≡ BookFault.Damaged → (w : World) → ¬ IsContent self.old w) }
        ensures crash { ⊤ → ⊤ → (w : World) → IsContent self.old w → ⊤ }
        ensures live { ⊤ → OnOk result ⊤ }
        ensures opened { ⊤ → ⊤ → ⊤ }
        ensures fault { IfErr result (λ f. f ≡ BookFault.Memory) }
    {
        decisions_are_sound();
        new_grants_add_up();
        let Decision { reply: _, change } = decision;
        let document = prepare(self.alloc, &mut self.lists, &change)?;
        write(&mut self.lists, change, document);
        Ok(())
    }

    fn pending(&mut self) -> Result<JobList, BookFault>
        ensures began { ⊤ → ⊤ }
        ensures kept { (w : World) → IsContent self.old w → IsContent self.new w }
        ensures left { ⊤ → (v w : World) → ⊤ → ⊤ }
        ensures jobs { ⊤ → IfOk result (λ js. (w : World) → IsContent self.new w → js ≡ pending_jobs w) }
        ensures damaged { ⊤ → IfErr result (λ e. e ≡ BookFault.Damaged → (w : World) → ¬ IsContent self.old w) }
        ensures live { ⊤ → OnOk result ⊤ }
        ensures opened { ⊤ → ⊤ → ⊤ }
        ensures fault { IfErr result (λ f. f ≡ BookFault.Memory) }
    {
        let jobs = seen::pending(self.alloc, self.lists.jobs.as_slice())?;
        Ok(JobList::from_items(jobs))
    }

    fn document_head(&mut self, job: u32, n: u32) -> Result<Option<DocumentHead>, BookFault>
        ensures began { ⊤ → ⊤ }
        ensures kept { (w : World) → IsContent self.old w → IsContent self.new w }
        ensures left { ⊤ → (v w : World) → ⊤ → ⊤ }
        ensures head { ⊤ → IfOk result (λ h. (w : World) → IsContent self.new w → h ≡ option_map head_of (document_at w job n)) }
        ensures damaged { ⊤ → IfErr result (λ e. e ≡ BookFault.Damaged → (w : World) → ¬ IsContent self.old w) }
        ensures live { ⊤ → OnOk result ⊤ }
        ensures opened { ⊤ → ⊤ → ⊤ }
        // it takes no memory
        ensures found { IsOk result }
    {
        Ok(seen::document_head(&self.lists, job, n))
    }

    fn send_document<W: Write>(&mut self, job: u32, n: u32, out: &mut W) -> Result<u64, SendFault>
        requires there { (w : World) → ⊤ → IsContent self.old w → IsSome (document_at w job n) }
        ensures began { ⊤ → ⊤ }
        ensures kept { (w : World) → IsContent self.old w → IsContent self.new w }
        ensures left { ⊤ → (v w : World) → ⊤ → ⊤ }
        ensures ok { ⊤ → IfOk result (λ sent. (w : World) (d : Document) → IsContent self.new w → document_at w job n ≡ Some d
            → (sent ≡ length d.bytes) × Appends (W.contents out.old) (W.contents out.new) d.bytes) }
        ensures err { ⊤ → IfErr result (λ f. (w : World) (d : Document) → IsContent self.old w → document_at w job n ≡ Some d
            → (f.written ≤ length d.bytes) × Appends (W.contents out.old) (W.contents out.new) (take f.written d.bytes)) }
        ensures damaged { ⊤ → IfErr result (λ f. f.cause ≡ ByBook BookFault.Damaged → (w : World) → ¬ IsContent self.old w) }
        ensures live { ⊤ → OnOk result ⊤ }
        ensures opened { ⊤ → ⊤ → ⊤ }
        ensures writer_failed { ⊤ → IfErr result (λ f. f.cause ≡ ByWriter → ⊤) }
        ensures counted { IfOk result (λ sent. (bytes : List ℕ) × (length bytes ≡ sent) × Appends (W.contents out.old) (W.contents out.new) bytes) }
        ensures fault { IfErr result (λ f. f.cause ≡ ByWriter) }
    {
        let Some(d) = seen::document(&self.lists, job, n) else {
            unreachable!("the caller knows that the document is there");
        };
        send(out, d.bytes.as_slice())
    }

    fn sheet(&mut self, account: &str) -> Result<Option<AccountSheet>, BookFault>
        ensures began { ⊤ → ⊤ }
        ensures kept { (w : World) → IsContent self.old w → IsContent self.new w }
        ensures left { ⊤ → (v w : World) → ⊤ → ⊤ }
        ensures sheet { ⊤ → IfOk result (λ s. (w : World) → IsContent self.new w → s ≡ sheet_of w account.now) }
        ensures damaged { ⊤ → IfErr result (λ e. e ≡ BookFault.Damaged → (w : World) → ¬ IsContent self.old w) }
        ensures live { ⊤ → OnOk result ⊤ }
        ensures opened { ⊤ → ⊤ → ⊤ }
        ensures named { IfOk result (λ s. IfSome s (λ it. it.account ≡ account.now)) }
        ensures fault { IfErr result (λ f. f ≡ BookFault.Memory) }
    {
        let sheet = sheet::sheet(self.alloc, &self.lists, account)?;
        Ok(sheet)
    }

    ghost sound = { λ b w honest h. h.1 };

    ghost lasts = { λ b w v honest live h. live };
}
