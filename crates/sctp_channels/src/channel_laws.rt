//! What holds of a channel, whatever happens to it in whichever order.

ghost use Rattle.std.specs.Prelude.{◌≡◌, ℕ, ◌≤◌, Bool, true, false, List, [], map, All};
ghost use Rattle.sctp_channels.specs.Channel.{Channel};
ghost use Rattle.sctp_channels.specs.Lifecycle.{is_connecting, is_over, is_resetting, is_stopped, may_send};
ghost use Rattle.sctp_channels.specs.Runs.{Act, Content, IsShort, act, has, hands_out, is_answer, is_confirmation, is_finish, is_stop, resets_asked, run, sent_as};
ghost use Rattle.sctp_channels.specs.declared.lifecycle.Lifecycle.{Lifecycle};

/// A reset of a channel's stream is asked for at most once.
pub fn a_reset_is_asked_for_once()
    ensures { (acts : List Act) (l : Lifecycle) → resets_asked acts l ≤ 1 }
{}

/// None is asked for while the reset of the channel before is unanswered.
pub fn a_reset_waits_for_the_answer_to_the_former()
    ensures { (acts : List Act) (l : Lifecycle) → l.awaits_answer ≡ true → has is_answer acts ≡ false → resets_asked acts l ≡ 0 }
{}

/// A channel that has begun to send, and is over: the peer has reset its stream since, this end has asked for a reset of its own, once nothing waited
/// in the socket that the peer would have taken, and the peer has performed it.
pub fn both_resets_free_a_stream()
    ensures { (acts : List Act) (l : Lifecycle) → may_send l ≡ true → l.is_incoming_reset ≡ false → is_over (run acts l) ≡ true
        → (has is_stop acts ≡ true) × (has is_finish acts ≡ true) × (resets_asked acts l ≡ 1) }
{}

/// Who has closed a channel sends nothing more on it.
pub fn who_closes_sends_no_more()
    ensures { (acts : List Act) (l : Lifecycle) → may_send l ≡ false → may_send (run acts l) ≡ false }
{}

/// Messages go ordered until an answer or a message came, and not longer.
pub fn ordered_until_it_is_confirmed()
    ensures until { (acts : List Act) (l : Lifecycle) → has is_confirmation acts ≡ false → is_connecting (run acts l) ≡ is_connecting l }
    ensures not_longer { (acts : List Act) (l : Lifecycle) → has is_confirmation acts ≡ true → is_connecting (run acts l) ≡ false }
{}

/// A channel hands out the messages that were accepted at the other end, of the same kind and in their order, where its stream hands out all that was
/// sent and in order; none is longer than it may be.
pub fn data_is_handed_out_as_it_was_accepted()
    ensures { (limit : ℕ) (contents : List Content) (c : Channel) → c.parts ≡ [] → c.is_too_long ≡ false → All (IsShort limit) contents
        → hands_out limit (map sent_as contents) c ≡ contents }
{}
