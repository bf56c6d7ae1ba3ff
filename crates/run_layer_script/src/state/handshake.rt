//! `capabilities` and `cookie`: what two ends announce and negotiate, and what an end keeps of an INIT by sending it to the peer.

use crate::answer::{Answer, Subject};
use crate::output::Output;
use crate::state::options::set_option;
use crate::state::{show, show_bytes};
use crate::words::{Line, bytes_of};
use sctp_capabilities::{Capabilities, StateCookie, announced_parameters};
use sctp_parameter::parameters_from_bytes;
use sctp_serial::{Tsn, ZeroChecksumAlternateErrorDetectionMethod};
use sctp_state::Options;
use sctp_wire::{ChunkParseError, all_encodable, parameters_serialize_to};

/// What an end has been set to, and a cookie, with what was announced to the end last.
#[derive(Clone, Copy)]
pub struct Handshake {
    options: Options,
    cookie: StateCookie,
}

impl Handshake {
    pub fn new() -> Handshake {
        Handshake {
            options: Options::default(),
            cookie: StateCookie {
                peer_tag: 0,
                my_tag: 0,
                peer_initial_tsn: Tsn(0),
                my_initial_tsn: Tsn(0),
                a_rwnd: 0,
                tie_tag: 0,
                peer_capabilities: Capabilities::default(),
            },
        }
    }
}

impl Subject for Handshake {
    /// `announce METHOD`: the parameters. `peer OUTGOING INCOMING HEX`: by an INIT with these stream counts and parameters; `nothing`:
    /// without parameters. `negotiate`. `default`. `end`: the other end, with the options of a new socket. Or of the cookie.
    fn obey(&mut self, line: &Line<'_>, output: &mut Output) -> Answer {
        let peer = &mut self.cookie.peer_capabilities;
        match line.name {
            "announce" => announce(&self.options, line.first.word, output),
            "peer" => read_peer(peer, line, output),
            "nothing" => show_peer(&Capabilities::from_parameters(0, 0, &[]), output),
            "negotiate" => show_peer(&peer.negotiate(&self.options), output),
            "default" => show_peer(&Capabilities::default(), output),
            "end" => {
                self.options = Options::default();
                Answer::Done
            }
            _ => answer_cookie(self, line, output),
        }
    }
}

/// `write`: its bytes. `read HEX`: takes the cookie of these bytes, or says why they are none. `show`: what it has; `capabilities`: of the
/// peer. And what can be set.
fn answer_cookie(handshake: &mut Handshake, line: &Line<'_>, output: &mut Output) -> Answer {
    let cookie = &mut handshake.cookie;
    match line.name {
        "write" => {
            let bytes = output.made(cookie.serialize(output.alloc));
            show_bytes(&bytes, output)
        }
        "read" => read_cookie(cookie, line.last, output),
        "show" => show_cookie(cookie, output),
        "capabilities" => {
            let peer = &cookie.peer_capabilities;
            show_all(peer, "method", peer.zero_checksum_method.0 as u128, output)
        }
        _ => set(handshake, line),
    }
}

fn announce(options: &Options, method: u32, output: &mut Output) -> Answer {
    let method = ZeroChecksumAlternateErrorDetectionMethod(method);
    let parameters = output.made(announced_parameters(output.alloc, options, method));
    let is_written = all_encodable(&parameters);
    let mut bytes = Vec::new(output.alloc);
    if is_written {
        output.note(parameters_serialize_to(&parameters, &mut bytes));
    }
    drop(parameters);
    if is_written {
        show_bytes(&bytes, output)
    } else {
        Answer::Refused
    }
}

/// What is no list of parameters announces nothing.
fn read_peer(peer: &mut Capabilities, line: &Line<'_>, output: &mut Output) -> Answer {
    if let Some(bytes) = bytes_of(line.last, output) {
        match parameters_from_bytes(output.alloc, &bytes) {
            Ok(parameters) => {
                *peer = Capabilities::from_parameters(
                    line.first.half,
                    line.second.half,
                    &parameters,
                );
                drop(parameters);
            }
            Err(ChunkParseError::Memory) => return Answer::NoMemory,
            Err(_) => {}
        }
    }
    show_peer(peer, output)
}

fn show_peer(peer: &Capabilities, output: &mut Output) -> Answer {
    show_all(
        peer,
        "zero-checksum",
        peer.zero_checksum_enabled() as u128,
        output,
    )
}

/// What the peer can do, with a value of this name.
fn show_all(peer: &Capabilities, name: &str, value: u128, output: &mut Output) -> Answer {
    output.fill(
        ": partial-reliability # interleaving # reconfig # ",
        &[
            peer.partial_reliability as u128,
            peer.message_interleaving as u128,
            peer.reconfig as u128,
        ],
    );
    output.push_str(name);
    output.text(
        " # incoming # outgoing #",
        &[
            value,
            peer.negotiated_maximum_incoming_streams as u128,
            peer.negotiated_maximum_outgoing_streams as u128,
        ],
    )
}

fn read_cookie(cookie: &mut StateCookie, digits: &str, output: &mut Output) -> Answer {
    let Some(bytes) = bytes_of(digits, output) else {
        return Answer::Unknown;
    };
    match StateCookie::from_bytes(&bytes) {
        Ok(read) => {
            *cookie = read;
            Answer::Done
        }
        Err(fault) => show(&fault, output),
    }
}

fn show_cookie(cookie: &StateCookie, output: &mut Output) -> Answer {
    output.text(
        ": peer-tag # my-tag # peer-tsn # my-tsn # window # tie #",
        &[
            cookie.peer_tag as u128,
            cookie.my_tag as u128,
            cookie.peer_initial_tsn.0 as u128,
            cookie.my_initial_tsn.0 as u128,
            cookie.a_rwnd as u128,
            cookie.tie_tag as u128,
        ],
    )
}

/// `tags PEER MINE`, `tsns PEER MINE`, `window BYTES`, `tie TAG`, of the cookie.
fn set(handshake: &mut Handshake, line: &Line<'_>) -> Answer {
    let cookie = &mut handshake.cookie;
    match line.name {
        "tags" => {
            cookie.peer_tag = line.first.word;
            cookie.my_tag = line.second.word;
        }
        "tsns" => {
            cookie.peer_initial_tsn = Tsn(line.first.word);
            cookie.my_initial_tsn = Tsn(line.second.word);
        }
        "window" => cookie.a_rwnd = line.first.word,
        "tie" => cookie.tie_tag = line.first.long,
        _ => return set_capability(handshake, line),
    }
    Answer::Done
}

/// `can PARTIAL-RELIABILITY INTERLEAVING RECONFIG METHOD`, `streams INCOMING OUTGOING`, of the peer; or an option of the end.
fn set_capability(handshake: &mut Handshake, line: &Line<'_>) -> Answer {
    let peer = &mut handshake.cookie.peer_capabilities;
    match line.name {
        "can" => {
            peer.partial_reliability = line.first.long == 1;
            peer.message_interleaving = line.second.long == 1;
            peer.reconfig = line.third.long == 1;
            peer.zero_checksum_method = ZeroChecksumAlternateErrorDetectionMethod(line.fourth.word);
        }
        "streams" => {
            peer.negotiated_maximum_incoming_streams = line.first.half;
            peer.negotiated_maximum_outgoing_streams = line.second.half;
        }
        _ => return set_option(&mut handshake.options, line),
    }
    Answer::Done
}
