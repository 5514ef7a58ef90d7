//! That a request is read in one way: laws over the definitions, in a function that does nothing.
ghost use Rattle.std.specs.Prelude.{◌≡◌, ◌++◌, ℕ, List};
ghost use Rattle.httparse.specs.Grammar.{RequestHead};
ghost use Rattle.http_head.specs.Head.{BeginsHead, EndsWithoutHead};
ghost use Rattle.http_head.specs.declared.end.Finish.{Finish};
ghost use Rattle.http_head.specs.declared.framing.Framing.{Framing};
ghost use Rattle.http_wire.specs.Bodies.{EndsInBody, IsBody};

/// Bytes begin with at most one head, and with at most one body of a framing, which a head tells: a stream has no second reading by these
/// definitions (request smuggling: RFC 9112, section 11.2).
pub fn one_reading()
    ensures heads { (bytes : List ℕ) (h k : RequestHead) (r q : List ℕ) → BeginsHead bytes h r → BeginsHead bytes k q → (h ≡ k) × (r ≡ q) }
    ensures bodies { (f : Framing) (a b c d r q : List ℕ) → IsBody f a c → IsBody f b d → a ++ r ≡ b ++ q → (a ≡ b) × (c ≡ d) × (r ≡ q) }
    // where a whole one stands, no connection ends for want of it
    ensures whole_heads { (bytes : List ℕ) (h : RequestHead) (rest : List ℕ) (end : Finish) → BeginsHead bytes h rest → ¬ EndsWithoutHead bytes end }
    ensures whole_bodies { (f : Framing) (raw content rest : List ℕ) (end : Finish) → IsBody f raw content → ¬ EndsInBody f (raw ++ rest) end }
{}
