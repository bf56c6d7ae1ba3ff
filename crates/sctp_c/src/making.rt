//! A socket is made, and let go.

ghost use Rattle.std.specs.Prelude.{◌≡◌, ◌<◌, ◌≤◌, [], ◌∷◌, length, None, is_some, true, false, IfOk};
ghost use Rattle.rand_chacha.specs.ChaCha.{of_seed};
ghost use Rattle.sctp_c.specs.Making.{IsFresh, Made, NamesKnown};
ghost use Rattle.sctp_c_records.specs.Answers.{IsAmong, OnAnswer, OnOthers};
ghost use Rattle.sctp_c_records.specs.OptionsStruct.{default_record, invalid_place, options_bytes, options_in, webrtc_options, webrtc_record};
ghost use Rattle.sctp_c_records.specs.Records.{given_checksum, given_options};
ghost use Rattle.sctp_c_records.specs.declared.checksum.PacketChecksum.TheVariants.{Crc32c};
ghost use Rattle.sctp_state.specs.Options.{IsValid, defaults, options_of};

use crate::endpoint::Endpoint;
use crate::handle::Handle;
use sctp_association::{Options, Socket};
use sctp_c_records::answers::{
    IN_USE, INVALID_ARGUMENT, INVALID_OPTIONS, INVALID_SIZE, NO_ROOM, OK,
};
use sctp_c_records::{OPTIONS_SIZE, OptionsRecord, PacketChecksum, SeededWords};
use std::alloc::{AllocError, Global};

/// A closed socket in a box.
fn boxed(
    alloc: Global,
    options: &Options,
    checksum: PacketChecksum,
    rng: SeededWords,
) -> Result<Box<Endpoint>, AllocError>
    requires { IsValid (options_of options.now) }
    ensures { IfOk result (λ b. IsFresh (options_of options.now) checksum rng b.value) }
{
    match Socket::new(alloc, "socket", options, rng, checksum) {
        Err(_error) => Err(AllocError),
        Ok(socket) => match Box::new(
            alloc,
            Endpoint {
                socket,
                event: None,
                handed_over: None,
                lent: Vec::new(alloc),
                channels: None,
            },
        ) {
            Ok(end) => Ok(end),
            Err(failed) => {
                drop(failed);
                Err(AllocError)
            }
        },
    }
}

/// Puts a closed socket into a handle that holds none, where there is memory.
fn put_new(
    alloc: Global,
    socket: &mut Handle,
    options: &Options,
    checksum: PacketChecksum,
    rng: SeededWords,
) -> u32
    requires valid { IsValid (options_of options.now) }
    requires empty { socket.old.held ≡ None }
    ensures answers { IsAmong (0 ∷ 17 ∷ []) result }
    ensures made { OnAnswer 0 result (Made (options_of options.now) checksum rng socket.new.held) }
    ensures failed { OnOthers 0 result (socket.new.held ≡ None) }
{
    match boxed(alloc, options, checksum, rng) {
        Ok(end) => {
            socket.put(end);
            OK
        }
        Err(_error) => NO_ROOM,
    }
}

/// Writes the options that a socket has where nothing else is said.
#[unsafe(no_mangle)]
pub extern "C" fn pigeon_default_options_sized(options: &mut [u8]) -> u32
    ensures size { 176 < length options.old → (result ≡ 21) × (options.new ≡ options.old) }
    ensures written { length options.old ≤ 176 → (result ≡ 0) × (options.new ≡ options_bytes default_record options.old) }
    ensures defaults { given_options default_record ≡ defaults }
{
    if OPTIONS_SIZE < options.len() {
        return INVALID_SIZE;
    }
    OptionsRecord::defaults().write(options);
    OK
}

/// Writes the options of data channels over DTLS.
#[unsafe(no_mangle)]
pub extern "C" fn pigeon_options_for_webrtc_sized(options: &mut [u8]) -> u32
    ensures size { 176 < length options.old → (result ≡ 21) × (options.new ≡ options.old) }
    ensures written { length options.old ≤ 176 → (result ≡ 0) × (options.new ≡ options_bytes webrtc_record options.old) }
    ensures options { given_options webrtc_record ≡ webrtc_options }
    ensures checksum { given_checksum webrtc_record ≡ Crc32c }
{
    if OPTIONS_SIZE < options.len() {
        return INVALID_SIZE;
    }
    OptionsRecord::for_webrtc().write(options);
    OK
}

/// Whether a socket can be made with the options; and the place of the first field that is out of its bounds, 0 where none is.
#[unsafe(no_mangle)]
pub extern "C" fn pigeon_check_options_sized(options: &[u8], place: &mut u32) -> u32
    ensures size { 176 < length options.now → result ≡ 21 }
    ensures place { length options.now ≤ 176 → place.new ≡ invalid_place (options_in options.now) }
    ensures valid { result ≡ 0 → IsValid (given_options (options_in options.now)) × NamesKnown (options_in options.now) }
    ensures invalid { result ≡ 5 → IsValid (given_options (options_in options.now)) × NamesKnown (options_in options.now) → ⊥ }
{
    if OPTIONS_SIZE < options.len() {
        return INVALID_SIZE;
    }
    *place = OptionsRecord::in_bytes(options).invalid_place();
    if *place == 0 { OK } else { INVALID_OPTIONS }
}

/// Makes a closed socket at moment zero, whose words are those of ChaCha20 with this seed of 32 bytes.
#[unsafe(no_mangle)]
pub extern "C" fn pigeon_new_sized(
    alloc: Global,
    socket: &mut Handle,
    options: &[u8],
    seed: &[u8],
) -> u32
    ensures answers { IsAmong (0 ∷ 4 ∷ 5 ∷ 7 ∷ 17 ∷ 21 ∷ []) result }
    ensures in_use { OnAnswer 4 result (is_some socket.old.held ≡ true) }
    ensures size { OnAnswer 21 result (176 < length options.now) }
    ensures unknown { OnAnswer 7 result (length seed.now ≡ 32 → NamesKnown (options_in options.now) → ⊥) }
    ensures invalid { OnAnswer 5 result (IsValid (given_options (options_in options.now)) → ⊥) }
    ensures used { is_some socket.old.held ≡ true → (result ≡ 4) × (socket.new.held ≡ socket.old.held) }
    ensures failed { is_some socket.old.held ≡ false → OnOthers 0 result (socket.new.held ≡ None) }
    ensures made { OnAnswer 0 result (Made (given_options (options_in options.now)) (given_checksum (options_in options.now)) (of_seed seed.now) socket.new.held) }
    ensures fits { OnAnswer 0 result ((length options.now ≤ 176) × (length seed.now ≡ 32)) }
    ensures known { OnAnswer 0 result (NamesKnown (options_in options.now)) }
    ensures valid { OnAnswer 0 result (IsValid (given_options (options_in options.now))) }
{
    if let Some(_end) = socket.as_mut() {
        return IN_USE;
    }
    if OPTIONS_SIZE < options.len() {
        return INVALID_SIZE;
    }
    let record = OptionsRecord::in_bytes(options);
    if seed.len() != 32 || !record.names_known_ones() {
        return INVALID_ARGUMENT;
    }
    let given = record.options();
    if !given.is_valid() {
        return INVALID_OPTIONS;
    }
    let checksum = record.packet_checksum();
    put_new(alloc, socket, &given, checksum, SeededWords::of(seed))
}

/// Lets the socket go. Afterwards the handle holds none.
#[unsafe(no_mangle)]
pub extern "C" fn pigeon_free(alloc: Global, socket: &mut Handle)
    ensures { socket.new.held ≡ None }
{
    drop(socket.take(alloc));
}
