//! What the definitions of requests promise: laws over them, in functions that do nothing.
ghost use Rattle.std.specs.Prelude.{◌≡◌, ◌<◌, ◌^◌, ◌++◌, ℕ, List, Some, get_or, length};
ghost use Rattle.ipp_wire.specs.Message.{text_bytes};
ghost use Rattle.ipp_request.specs.Values.{behind_language};

/// The name of a nameWithLanguage is read from its spelling, the language and the name each behind its length
/// (RFC 8010, section 3.9), and from nothing else.
pub fn names_with_languages()
    ensures read { (language name : List ℕ) → length language < 2 ^ 16 → length name < 2 ^ 16 → behind_language (text_bytes language ++ text_bytes name) ≡ Some name }
    ensures spelled { (bytes name : List ℕ) → ((i : ℕ) → get_or bytes i 0 < 256) → behind_language bytes ≡ Some name → (language : List ℕ) × (length language < 2 ^ 16) × (length name < 2 ^ 16) × (bytes ≡ text_bytes language ++ text_bytes name) }
{}
