//! What holds of the definitions: bytes say one thing, what is read is not refused, and what was built is read back.

ghost use Rattle.std.specs.Prelude.{◌≡◌, ◌⊎◌, ℕ, ◌<◌, ◌≤◌, ◌^◌, Bool, true, if◌then◌else◌, List, ◌∷◌, length, map, All, Result, IfOk, IfErr, MatchResult, ◌↔◌};
ghost use Rattle.sctp_wire.specs.Item.{Item};
ghost use Rattle.sctp_wire.specs.declared.checksum.Policy.{Policy};
ghost use Rattle.sctp_packet.specs.declared.packet.PacketParseError.{PacketParseError};
ghost use Rattle.sctp_packet.specs.declared.packet.SctpPacket.{SctpPacket};
ghost use Rattle.sctp_chunk.specs.Chunk.{ChunkTree};
ghost use Rattle.sctp_wire.specs.declared.error.ChunkParseError.{ChunkParseError};
ghost use Rattle.sctp_chunk.specs.Grammar.{IsChunk, RefusesChunk, carried};
ghost use Rattle.sctp_packet.specs.ReadBack.{ChunkReadsBack};
ghost use Rattle.sctp_packet.specs.Packet.{HeaderTree, PacketTree, IsPacket, FitsHeader, Accepts, Refuses, IsFault, lets_through, packet_bytes, canonical};
ghost use Rattle.sctp_chunk.specs.Written.{chunks_bytes};
ghost use Rattle.sctp_packet.specs.Builder.{BuilderTree, Holds, build};
ghost use Rattle.sctp_packet.specs.PacketView.{packet_tree};
ghost use Rattle.sctp_packet.specs.View.{ViewTree, Views, AreLeft, viewed_packet};

use crate::packet::PacketParseError;
use sctp_wire::ChunkParseError;

/// An item stands for at most one chunk.
pub fn one_chunk()
    ensures { (i : Item) (t u : ChunkTree) → IsChunk i t → IsChunk i u → t ≡ u }
{}

/// An item that stands for a chunk is refused for want of memory alone.
pub fn chunk_is_not_refused()
    ensures { (i : Item) (t : ChunkTree) (fault : ChunkParseError) → IsChunk i t → RefusesChunk i fault → fault ≡ ChunkParseError.Memory }
{}

/// Bytes are at most one packet.
pub fn one_packet()
    ensures { (bytes : List ℕ) (p q : PacketTree) → IsPacket bytes p → IsPacket bytes q → p ≡ q }
{}

/// What is refused, but for want of memory, is no packet that is accepted; and it is refused for one reason.
pub fn refused_or_accepted()
    ensures never_both { (policy : Policy) (word : ℕ) (bytes : List ℕ) (fault : PacketParseError) (p : PacketTree)
        → IsFault fault → Refuses policy word bytes fault → Accepts policy word bytes p → ⊥ }
    ensures one_reason { (policy : Policy) (word : ℕ) (bytes : List ℕ) (fault other : PacketParseError)
        → IsFault fault → IsFault other → Refuses policy word bytes fault → Refuses policy word bytes other → fault ≡ other }
{}

/// What `from_bytes` answers is fixed by the bytes, the word and the policy, but for want of memory: the packet that the bytes are
/// where they are accepted as one, and their fault where they have one.
pub fn one_answer()
    ensures accepted { (policy : Policy) (word : ℕ) (bytes : List ℕ) (p : PacketTree) (answer : Result SctpPacket PacketParseError)
        → IfOk answer (λ q. Accepts policy word bytes (packet_tree q)) → IfErr answer (Refuses policy word bytes)
        → Accepts policy word bytes p
        → MatchResult answer (λ q. packet_tree q ≡ p) (λ fault. fault ≡ PacketParseError.Memory) }
    ensures refused { (policy : Policy) (word : ℕ) (bytes : List ℕ) (reason : PacketParseError) (answer : Result SctpPacket PacketParseError)
        → IfOk answer (λ q. Accepts policy word bytes (packet_tree q)) → IfErr answer (Refuses policy word bytes)
        → IsFault reason → Refuses policy word bytes reason
        → MatchResult answer (λ q. ⊥) (λ fault. (fault ≡ reason) ⊎ (fault ≡ PacketParseError.Memory)) }
{}

/// A view has the answer of `from_bytes`: the same packet, all of whose chunks are left, or the same fault. Only `from_bytes` can want
/// memory.
pub fn same_answer()
    ensures { (policy : Policy) (word : ℕ) (bytes : List ℕ) (viewed : Result ViewTree PacketParseError) (answer : Result SctpPacket PacketParseError)
        → IfOk viewed (Views policy word bytes) → IfErr viewed (Refuses policy word bytes) → IfErr viewed IsFault
        → IfOk answer (λ q. Accepts policy word bytes (packet_tree q)) → IfErr answer (Refuses policy word bytes)
        → MatchResult viewed
        (λ v. MatchResult answer (λ q. (chunks : List ChunkTree) × AreLeft v chunks × (packet_tree q ≡ viewed_packet v chunks))
        (λ fault. fault ≡ PacketParseError.Memory))
        (λ reason. MatchResult answer (λ q. ⊥) (λ fault. (fault ≡ reason) ⊎ (fault ≡ PacketParseError.Memory))) }
{}

/// What `build` gives for a list of chunks is read back as this list, with the fields that their kinds do not write at
/// zero: by every reader whose policy lets the number in the checksum's field through, where there is memory.
pub fn read_back()
    ensures { (policy : Policy) (word field : ℕ) (header : HeaderTree) (chunks : List ChunkTree) (answer : Result SctpPacket PacketParseError)
        → FitsHeader header → field < 2 ^ 32 → All ChunkReadsBack chunks → length (packet_bytes header field chunks) ≤ 65535
        → lets_through policy word field ≡ true
        → IfOk answer (λ p. Accepts policy word (packet_bytes header field chunks) (packet_tree p))
        → IfErr answer (Refuses policy word (packet_bytes header field chunks))
        → MatchResult answer (λ p. packet_tree p ≡ record { header = header; checksum = field; chunks = map carried chunks })
        (λ fault. fault ≡ PacketParseError.Memory) }
{}

/// Accepted inputs, whose packets as they would be written fit, have the same ports, tag and chunks exactly where these
/// packets are equal bytes.
pub fn same_packets()
    ensures { (policy other_policy : Policy) (word other_word : ℕ) (bytes others : List ℕ) (p q : PacketTree)
        → Accepts policy word bytes p → Accepts other_policy other_word others q
        → length (canonical p) ≤ 65535 → length (canonical q) ≤ 65535
        → (canonical p ≡ canonical q) ↔ ((p.header ≡ q.header) × (p.chunks ≡ q.chunks)) }
{}

/// What `build` hands out is the packet of the chunks that the builder holds.
pub fn built_packet()
    ensures { (summed : Bool) (header : HeaderTree) (word : ℕ) (first : ChunkTree) (others : List ChunkTree)
        → build summed header word (chunks_bytes (first ∷ others)) ≡ packet_bytes header (if summed then word else 0) (first ∷ others) }
{}

/// So what a builder hands out for the chunks that it holds is read back as these.
pub fn built_reads_back()
    ensures { (policy : Policy) (word sum : ℕ) (builder : BuilderTree) (first : ChunkTree) (others : List ChunkTree) (bytes : List ℕ)
        (answer : Result SctpPacket PacketParseError)
        → Holds builder (first ∷ others) → bytes ≡ build builder.writes_checksum builder.header sum builder.body
        → FitsHeader builder.header → sum < 2 ^ 32 → All ChunkReadsBack (first ∷ others) → length bytes ≤ 65535
        → lets_through policy word (if builder.writes_checksum then sum else 0) ≡ true
        → IfOk answer (λ p. Accepts policy word bytes (packet_tree p)) → IfErr answer (Refuses policy word bytes)
        → MatchResult answer (λ p. packet_tree p ≡ record {
          header = builder.header;
          checksum = if builder.writes_checksum then sum else 0;
          chunks = map carried (first ∷ others);
        }) (λ fault. fault ≡ PacketParseError.Memory) }
{}
