//! One run of each machine, so that no law is empty. The expected values were worked out by hand.

ghost use Rattle.std.specs.Prelude.{◌≡◌, [], ◌∷◌, false, true};
ghost use Rattle.proof_protocol.specs.Resets.{MayAll, first_epoch, go_all};
ghost use Rattle.proof_protocol.specs.Rules.{Happens, after, forward_comes, run};
ghost use Rattle.proof_protocol.specs.Runs.{alike, loose, loose_run, plain_run, reset_run, three, upto_three, woven, woven_run};
ghost use Rattle.proof_protocol.specs.State.{count, start};

/// DATA: a fragment is lost, two messages overtake its message, which is given up, and a forward point passes it. All of
/// it may happen; messages 2 and 1 become ready, they are reported as their fragments leave, and nothing is kept at last.
pub fn data()
    ensures may { Happens three false start plain_run }
    ensures ready { (run three false start plain_run).receiver.ready
        ≡ record { stream = 1; protocol_id = 52; payload = 4 ∷ [] } ∷ record { stream = 0; protocol_id = 51; payload = 3 ∷ [] } ∷ [] }
    ensures reports { (run three false start plain_run).reports ≡ 1 ∷ 2 ∷ [] }
    ensures kept { (run three false start plain_run).acknowledged ≡ count (run three false start plain_run).sender }
{}

/// I-DATA: a message is given up while it is partly sent. A forward point stops within it, its second fragment comes late
/// and is not held, and the next message of its stream becomes ready.
pub fn interleaved_data()
    ensures may { Happens woven true start woven_run }
    ensures ready { (run woven true start woven_run).receiver.ready
        ≡ record { stream = 1; protocol_id = 52; payload = 5 ∷ [] } ∷ record { stream = 2; protocol_id = 51; payload = 3 ∷ [] } ∷ [] }
    ensures reports { (run woven true start woven_run).reports ≡ 1 ∷ 2 ∷ [] }
    ensures kept { (run woven true start woven_run).acknowledged ≡ count (run woven true start woven_run).sender }
{}

/// A stream is reset between two messages; a third one waited, and is dropped.
pub fn reset_stream()
    ensures may { MayAll alike false first_epoch reset_run }
    ensures places { (go_all alike false first_epoch reset_run).transfer.receiver.places ≡ 0 ∷ 2 ∷ [] }
    ensures epoch { (go_all alike false first_epoch reset_run).epoch 2 ≡ 1 }
    ensures performed { (go_all alike false first_epoch reset_run).performed 0 ≡ 1 }
{}

/// A forward point above the last TSN of a reset that waits may drop what is held of the reset's stream, though it names nothing of it:
/// an unordered fragment, without interleaving, of a message that was given up.
pub fn point_drops_while_a_reset_waits()
    ensures may { MayAll loose false first_epoch loose_run }
    ensures waits { (go_all loose false first_epoch loose_run).performed 1 ≡ 0 }
    ensures held { (go_all loose false first_epoch loose_run).transfer.receiver.held 1 ≡ true }
    ensures dropped { (after loose false (go_all loose false first_epoch loose_run).transfer (forward_comes upto_three)).receiver.held 1 ≡ false }
{}
