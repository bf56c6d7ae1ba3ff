//! What holds of the channels of two ends.

ghost use Rattle.std.specs.Prelude.{◌≡◌, ℕ, Bool, List, [], ◌++◌, All};
ghost use Rattle.std.specs.List.{flat_map};
ghost use Rattle.sctp_channels.specs.Steps.{DataChannels, Follows};
ghost use Rattle.sctp_channels.specs.TwoEnds.{AreAccepted, AreWhole, IsShort, Offer, WhatIsToldWasAccepted, chosen, contents_at, got_by, to_tell, told_in};

/// Whatever happens to the channels of an end, and in whichever order: where its socket hands out messages that the other end accepted at some places,
/// as the law of delivery has it of two sockets, the owner is told some of the contents at these places, in their order, byte for byte and of the
/// same kind.
///
/// So it is with what a `collect` or a `close` leaves for `next_event`, of the messages that it got.
pub fn what_is_told_was_accepted()
    ensures steps { WhatIsToldWasAccepted }
    ensures calls { (d e : DataChannels) (f : Follows d e) → e.channels.outputs ≡ [] → AreWhole d.channels → (offers : List Offer) (places : List ℕ) → All (IsShort d.channels.limit) offers → AreAccepted offers places (flat_map got_by f.steps) → (choice : List Bool) × (flat_map told_in e.events ≡ to_tell d ++ chosen choice (contents_at offers places)) }
{}
