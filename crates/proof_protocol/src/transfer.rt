//! The rules of a transfer, over every schedule of them.

ghost use Rattle.std.specs.Prelude.{Bool, List, ℕ, ◌++◌};
ghost use Rattle.proof_protocol.specs.Claims.{Claims, Grows};
ghost use Rattle.proof_protocol.specs.Invariant.{Invariant};
ghost use Rattle.proof_protocol.specs.Rules.{IsAllowed, TransferEvent, Happens, after, run};
ghost use Rattle.proof_protocol.specs.State.{Message, Transfer, start};
ghost use Rattle.proof_protocol.specs.Written.{AreTheirOwn};

/// Whatever is lost, repeated, delayed or reordered in one direction of an association, with DATA or with I-DATA: what
/// became ready is accepted messages, each at most once and byte for byte, in order on each stream (`Fits`); an ordered
/// message that later ones of its stream passed was given up (`Skipped`); a message reported as delivered is ready
/// (`TrueReports`); and once nothing waits and nothing is kept, each accepted message is ready or was given up (`RestClaim`).
/// What became ready only grows at its back.
///
/// It does not claim that anything ever arrives, that a message is given up for a good reason, or anything of a peer
/// that breaks the rules.
pub fn always()
    ensures claims { (message : ℕ → Message) (is_interleaved : Bool) (events : List TransferEvent) →
        Happens message is_interleaved start events → Claims message (run message is_interleaved start events) }
    ensures grows { (message : ℕ → Message) (is_interleaved : Bool) (early late : List TransferEvent) →
        Grows (run message is_interleaved start early) (run message is_interleaved start (early ++ late)) }
{}

/// The invariant holds at the start, each rule keeps it, and it gives the claims. So a crate above needs no list of
/// events: it shows that each of its steps is a few rules.
pub fn keeps()
    ensures first { (message : ℕ → Message) (is_interleaved : Bool) → Invariant message is_interleaved start }
    ensures step { (message : ℕ → Message) (is_interleaved : Bool) (x : Transfer) (e : TransferEvent) →
        Invariant message is_interleaved x → IsAllowed message is_interleaved x e → Invariant message is_interleaved (after message is_interleaved x e) }
    ensures claims { (message : ℕ → Message) (is_interleaved : Bool) (x : Transfer) → Invariant message is_interleaved x → Claims message x }
    ensures grows { (message : ℕ → Message) (is_interleaved : Bool) (x : Transfer) (e : TransferEvent) → Grows x (after message is_interleaved x e) }
{}

/// As long as no stream is reset, the numbers on the wire are those of the rules: of messages, the next ones, and those that forward
/// points name.
pub fn numbers_are_written()
    ensures along { (message : ℕ → Message) (is_interleaved : Bool) (events : List TransferEvent) → Happens message is_interleaved start events →
        AreTheirOwn (run message is_interleaved start events).sender (run message is_interleaved start events).forward_points }
{}
