//! An account's or a batch's name as a key of the book's hash tables.
ghost use Rattle.std.specs.Prelude.{◌≡◌, IfOk, bytes_eq};
ghost use Rattle.std.proofs.Common.{rules};
ghost use Rattle.std.specs.Cmp.{partial_equiv_from_equiv};
ghost use Rattle.std.specs.Cmp.Lexicographic.{nat_list_eq_equiv};
ghost use Rattle.std.specs.Cmp.Rules.{hashing};
ghost use Rattle.std.specs.Hash as fed;

use queue_types::text::Text;
use std::alloc::{AllocError, Global};
use std::hash::{Hash, Hasher};
use std::marker::Model;

/// A name, by which a table finds what it has. Contracts see it as its bytes.
#[derive(Drop)]
pub(crate) struct Name {
    text: Text,
}

impl Model for Name {
    ghost use Rattle.std.specs.Prelude.{List, ℕ};

    ghost Value = { List ℕ };

    ghost view = { λ n. n.text };
}

impl Name {
    pub(crate) fn from_text(text: Text) -> Self
        ensures { result ≡ text }
    {
        Name { text }
    }

    /// A copy of a name. The one error is want of memory.
    pub(crate) fn copy_of(alloc: Global, name: &str) -> Result<Self, AllocError>
        ensures { IfOk result (λ n. n ≡ name.now) }
    {
        let text = Text::copy_of(alloc, name)?;
        Ok(Name { text })
    }

    pub(crate) fn into_text(self) -> Text
        ensures { result ≡ self }
    {
        self.text
    }
}

impl PartialEq for Name {
    ghost eq = { bytes_eq };

    ghost laws = { partial_equiv_from_equiv nat_list_eq_equiv };

    fn eq(&self, other: &Name) -> bool {
        self.text.as_str() == other.text.as_str()
    }
}

impl Eq for Name {
    ghost laws = { nat_list_eq_equiv };
}

impl Hash for Name {
    ghost hash_input = { fed.str };

    ghost respects_eq = { Prim.search (hashing, rules) };

    fn hash<H: Hasher>(&self, state: &mut H) {
        self.text.as_str().hash(state);
    }
}
