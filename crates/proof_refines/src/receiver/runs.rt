//! One run with each kind of chunk, so that no premise is empty. The expected values were worked out by hand.

ghost use Rattle.std.specs.Prelude.{◌≡◌, ◌+◌, [], ◌∷◌, false, true};
ghost use Rattle.sctp_serial.specs.Unwrapped.{origin, wire, u32_space};
ghost use Rattle.proof_protocol.specs.Runs.{over_two, three, woven};
ghost use Rattle.proof_protocol.specs.Windows.{Windows};
ghost use Rattle.proof_refines.specs.Near.{AreEntries, AreFew, IsWritten};
ghost use Rattle.proof_refines.specs.Read.{Carries, IsRead, StandForAll, is_behind};
ghost use Rattle.proof_protocol.specs.Points.{AreApart};
ghost use Rattle.proof_refines.specs.Runs.{after_first, after_point, after_second, after_third, empty, first_part, numbered_transfer, point_sent, second_message, skipped, third_message, tracked, woven_empty, woven_numbered, woven_part};

/// DATA: fragment 2 comes first, so the queue counts from it; fragments 3 and 0 come, and a forward point passes 0 and 1.
/// Each is what the sender numbered and is read so. Messages 2 and 1 become ready, and the front is fragment 3.
pub fn data()
    ensures second { Carries three false numbered_transfer.sender 2 second_message }
    ensures second_read { IsRead three false 2 numbered_transfer.sender empty 2 1 second_message }
    ensures third { Carries three false numbered_transfer.sender 3 third_message }
    ensures third_read { IsRead three false 2 numbered_transfer.sender after_second 3 2 third_message }
    ensures first { Carries three false numbered_transfer.sender 0 first_part }
    ensures first_read { IsRead three false 2 numbered_transfer.sender after_third 0 4294967295 first_part }
    ensures current { is_behind three false numbered_transfer.sender numbered_transfer.receiver 2 ≡ false }
    ensures point { StandForAll false after_first.streams skipped over_two.entries }
    ensures apart { AreApart over_two.entries }
    ensures was_sent { point_sent.forward_points ≡ over_two ∷ [] }
    ensures ready { after_point.ready ≡ record { stream = 1; ppid = 52; payload = 4 ∷ [] } ∷ record { stream = 0; ppid = 51; payload = 3 ∷ [] } ∷ [] }
    ensures front { tracked.seen ≡ record { front = origin + 3; runs = [] } }
{}

/// The same fragments and entries are written so on the wire, and the windows hold when they are sent.
pub fn written_data()
    ensures windows { Windows three numbered_transfer }
    ensures few { AreFew numbered_transfer.sender }
    ensures second { IsWritten three false numbered_transfer.sender 2 second_message }
    ensures second_tsn { 1 ≡ wire u32_space 4294967295 (origin + 2) }
    ensures third { IsWritten three false numbered_transfer.sender 3 third_message }
    ensures first { IsWritten three false numbered_transfer.sender 0 first_part }
    ensures first_tsn { 4294967295 ≡ wire u32_space 4294967295 (origin + 0) }
    ensures entries { AreEntries false skipped over_two.entries }
    ensures interleaved { IsWritten woven true woven_numbered.sender 2 woven_part }
{}

/// I-DATA: the second fragment of message 0 comes first, and names no protocol id.
pub fn interleaved_data()
    ensures carries { Carries woven true woven_numbered.sender 2 woven_part }
    ensures read { IsRead woven true 2 woven_numbered.sender woven_empty 2 1 woven_part }
    ensures current { is_behind woven true woven_numbered.sender woven_numbered.receiver 2 ≡ false }
{}
