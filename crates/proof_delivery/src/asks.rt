//! Requests to reset streams along the rules of a transfer with epochs, what each step leaves of them, and the epochs of messages.

ghost use Rattle.std.specs.Prelude.{◌≡◌, ◌+◌, ◌++◌, ◌<◌, ◌≤◌, ◌^◌, ◌⊎◌, All, Bool, List, Option, Some, [], ◌∷◌, false, length, map, slice_get, suc, true, ℕ};
ghost use Rattle.sctp_wire.specs.Parameter.{ParameterTree};
ghost use Rattle.proof_protocol.specs.Invariant.{Invariant};
ghost use Rattle.proof_protocol.specs.Resets.{Epochs, commit, go_all, goes, perform, reset_stream, send_request, transfers};
ghost use Rattle.proof_protocol.specs.Rules.{TransferEvent, IsAllowed};
ghost use Rattle.proof_protocol.specs.State.{Message, count, has};
ghost use Rattle.proof_refines.specs.Resets.{AreNextTo, named_by};
ghost use Rattle.sctp_rx.specs.ReassemblyQueue.{Deferred};
ghost use Rattle.sctp_tx_queue.specs.SendQueue.{Queue};
ghost use Rattle.spec_endpoint.specs.ResetRequests.{Done, Requests, Unsettled, ids, in_progress, is_final, is_last_request, is_next_request, outcome, performed};
ghost use Rattle.proof_pair.specs.Trace.{Pair, EndAction, run};
ghost use Rattle.proof_delivery.specs.Accepted.{accepted};
ghost use Rattle.proof_delivery.specs.StreamEpochs.{all_open, epochs_along, message_epochs};
ghost use Rattle.proof_delivery.specs.Windows.{KeepsStreams};
ghost use Rattle.proof_delivery.specs.Asks.{AreRequested, ResetRequest, IsAnswering, IsResetRequest, IsAsking, SaysDone, SaysIncoming, SaysOutgoing, number_of, request_for};

/// Whatever the transfer does (`transfers`), and a stream that waits for a reset from now on (`resets`), leave the asks of a direction as
/// they are. Where each was answered, one more may be sent (`sent`): its streams wait, and it ends at what was numbered so far. It is
/// performed (`performed`), and then answered (`answered`), one stream after the other.
pub fn asks_are_kept()
    ensures transfers { (message : ℕ → Message) (is_interleaved : Bool) (x : Epochs) (asks : List ResetRequest) (done answered : ℕ) (e : TransferEvent) → AreRequested x asks done answered →
        Invariant message is_interleaved x.transfer → IsAllowed message is_interleaved x.transfer e → AreRequested (goes message is_interleaved x (transfers e)) asks done answered }
    ensures resets { (message : ℕ → Message) (is_interleaved : Bool) (x : Epochs) (asks : List ResetRequest) (done answered : ℕ) (s : ℕ) → AreRequested x asks done answered →
        AreRequested (goes message is_interleaved x (reset_stream s)) asks done answered }
    ensures sent { (message : ℕ → Message) (is_interleaved : Bool) (x : Epochs) (asks : List ResetRequest) (done answered : ℕ) (a : ResetRequest) → AreRequested x asks done answered →
        length asks ≡ answered → IsResetRequest x a → a.upto ≡ count x.transfer.sender → ((s : ℕ) → has s a.streams ≡ true → x.raised s ≡ suc (x.opened s)) →
        AreRequested (go_all message is_interleaved x (map send_request a.streams)) (asks ++ a ∷ []) done answered }
    ensures performed { (message : ℕ → Message) (is_interleaved : Bool) (x : Epochs) (asks : List ResetRequest) (done answered : ℕ) (a : ResetRequest) → AreRequested x asks done answered →
        slice_get asks done ≡ Some a → AreRequested (go_all message is_interleaved x (map (λ s. perform (request_for s done a.upto asks)) a.streams)) asks (suc done) answered }
    ensures answered { (message : ℕ → Message) (is_interleaved : Bool) (x : Epochs) (asks : List ResetRequest) (done answered : ℕ) (a : ResetRequest) → AreRequested x asks done answered →
        slice_get asks answered ≡ Some a → answered < done → ((s : ℕ) → has s a.streams ≡ true → x.raised s ≡ suc (x.opened s)) →
        AreRequested (go_all message is_interleaved x (map commit a.streams)) asks done (suc answered) }
{}

/// To the receiver the ask that follows those performed is a request for each of its streams, with one last TSN, of which each is the next
/// of its stream: so it may be deferred, or once all was seen performed.
pub fn next_ask_may_be_performed()
    ensures next { (x : Epochs) (asks : List ResetRequest) (done answered : ℕ) (a : ResetRequest) → AreRequested x asks done answered → slice_get asks done ≡ Some a →
        AreNextTo x a.upto (map (λ s. request_for s done a.upto asks) a.streams) }
    ensures names { (asks : List ResetRequest) (done : ℕ) (a : ResetRequest) → named_by (map (λ s. request_for s done a.upto asks) a.streams) ≡ ids a.streams }
{}

/// What a RE-CONFIG said of requests (`asks`) and of their answers (`answers`) stays true as more are asked and performed.
pub fn what_was_said_stays()
    ensures asks { (first : ℕ) (asks more : List ResetRequest) (p : ParameterTree) → SaysOutgoing first asks p → SaysOutgoing first (asks ++ more) p }
    ensures answers { (first done asked more further : ℕ) (p : ParameterTree) → SaysIncoming first done asked p → SaysIncoming first (done + more) (asked + further) p }
{}

/// An answer that was said settles nothing, or it is to the last request, which was performed; none is refused (`settles`). Fewer than 2^32
/// were performed.
///
/// To the end that answers, a request with the next number is the next ask (`next`), one with the number of the last is the last that was
/// performed or the one that is deferred (`last`), and any other was performed, and another one was sent since (`older`). Fewer than
/// 2^32 are asked.
pub fn requests_are_told_apart()
    ensures settles { (first answered done : ℕ) (asks : List ResetRequest) (q : Queue) (r : Requests) (number result : ℕ) → IsAsking first answered asks q r → answered ≤ done → done < 2 ^ 32 →
        (is_final result ≡ true → SaysDone first done (length asks) number result) →
        (outcome number result r.current ≡ Unsettled)
        ⊎ ((a : ResetRequest) × (slice_get asks answered ≡ Some a) × (answered < done) × (outcome number result r.current ≡ Done a.streams)) }
    ensures next { (first done : ℕ) (asks : List ResetRequest) (r : Requests) (deferred : Option Deferred) (at : ℕ) → IsAnswering first done asks r deferred → done ≤ length asks → length asks ≤ suc done → length asks < 2 ^ 32 →
        at < length asks → is_next_request (number_of first at) r ≡ true → at ≡ done }
    ensures last { (first done : ℕ) (asks : List ResetRequest) (r : Requests) (deferred : Option Deferred) (at : ℕ) → IsAnswering first done asks r deferred → done ≤ length asks → length asks ≤ suc done → length asks < 2 ^ 32 →
        at < length asks → is_last_request (number_of first at) r ≡ true →
        ((suc at ≡ done) × (is_final r.result ≡ true → r.result ≡ performed)) ⊎ ((at ≡ done) × (r.result ≡ in_progress)) }
    ensures older { (first done : ℕ) (asks : List ResetRequest) (r : Requests) (deferred : Option Deferred) (at : ℕ) → IsAnswering first done asks r deferred → done ≤ length asks → length asks ≤ suc done → length asks < 2 ^ 32 →
        at < length asks → is_last_request (number_of first at) r ≡ false → is_next_request (number_of first at) r ≡ false → (at < done) × (suc at < length asks) }
{}

/// Along each trace there is an epoch for each message that an end accepted (`many`), in their order (`goes_on`); and where no stream is
/// reset, each is 0 (`first`).
pub fn epochs_are_of_messages()
    ensures many { (x : Bool) (trace : List (Bool × EndAction)) (w : Pair) → length (message_epochs x trace w all_open) ≡ length (accepted x trace w) }
    ensures goes_on { (x : Bool) (trace more : List (Bool × EndAction)) (w : Pair) →
        message_epochs x (trace ++ more) w all_open ≡ message_epochs x trace w all_open ++ message_epochs x more (run trace w) (epochs_along x trace w all_open) }
    ensures first { (x : Bool) (trace : List (Bool × EndAction)) (w : Pair) → KeepsStreams trace → All (λ (n : ℕ). n ≡ 0) (message_epochs x trace w all_open) }
{}
