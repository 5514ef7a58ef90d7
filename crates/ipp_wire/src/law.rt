//! What the grammar itself promises: laws over the definitions, in functions that do nothing.

ghost use Rattle.std.specs.Prelude.{◌≡◌, ◌++◌, List, ℕ, []};
ghost use Rattle.ipp_wire.specs.Message.{Attribute, Message, Spells, IsAttribute, IsPlainAttribute};

/// No message has two spellings, no bytes spell two messages, and of two messages without payload neither
/// spelling is a proper beginning of the other's.
pub fn one_spelling()
    ensures one_text { (m : Message) (a b : List ℕ) → Spells m a → Spells m b → a ≡ b }
    ensures one_message { (m n : Message) (b : List ℕ) → Spells m b → Spells n b → m ≡ n }
    ensures no_prefix { (m n : Message) (b more : List ℕ) → m.payload ≡ [] → n.payload ≡ []
        → Spells m b → Spells n (b ++ more) → more ≡ [] }
{}

/// An attribute with a name of 1 to 32,767 bytes and at least one value, each of which opens no
/// collection and closes none, may stand in a message: [`crate::Message::attribute`] takes it.
pub fn plain_attribute()
    ensures { (a : Attribute) → IsPlainAttribute a → IsAttribute a }
{}
