//! What the lines of a replay are answered with.
ghost use Rattle.std.specs.Prelude.{◌≡◌};
ghost use Rattle.queue_core.specs.Limits.{IsMoment};

use queue_types::settings::Settings;
use std::alloc::Global;

/// What a line of a replay is answered with, over any book.
#[derive(Clone, Copy)]
pub(crate) struct Context<'a> {
    /// Where memory is taken.
    pub alloc: Global,
    /// Those of the book's queue.
    pub settings: &'a Settings,
    /// The moment at which the line comes, from 1 to 2,147,483,647.
    pub now: u32,
    ghost moment: { IsMoment now },
}

impl<'a> Context<'a> {
    /// The same at this moment.
    pub fn at(self, now: u32) -> Context<'a>
        requires { IsMoment now }
        ensures settings { result.settings.now ≡ self.entry.settings.now }
        ensures moment { result.now ≡ now }
    {
        Context {
            alloc: self.alloc,
            settings: self.settings,
            now,
        }
    }
}
