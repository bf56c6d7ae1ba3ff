//! The cookie of an INIT ACK, which a COOKIE ECHO brings back (RFC 9260 section 5.1.3).

ghost use Rattle.std.specs.Prelude.{◌≡◌, ◌+◌, ◌≤◌, true, Some, Ok, Err, ◌++◌, length, IfOk, IfErr, IsOkAnd, OnOk};
ghost use Rattle.sctp_wire.specs.Field.{be32};
ghost use Rattle.sctp_capabilities.specs.Capabilities.{capabilities_of};
ghost use Rattle.sctp_capabilities.specs.StateCookie.{Cookie, CapabilitiesFit, CookieFits, cookie_of, cookie_bytes, cookie_from, capability_bytes, has_tags, read_cookie, refusal_text, u16_in, u32_in, u64_in};

use crate::Capabilities;
use sctp_serial::{Tsn, ZeroChecksumAlternateErrorDetectionMethod};
use sctp_wire::{push_u16, push_u32, push_u64};
use std::alloc::{AllocError, Global};
use std::error::Error;
use std::fmt;

/// The length of a cookie, in bytes.
pub const STATE_COOKIE_SIZE: usize = 48;

/// The first bytes of a cookie, by which other ends also tell who made it.
const MAGIC: [u8; 8] = *b"dcSCTPr0";

/// What an end that answers an INIT keeps of it, without keeping it itself: the peer brings it back.
#[derive(Clone, Copy, Debug)]
pub struct StateCookie {
    /// The verification tag of the end that sent the INIT.
    pub peer_tag: u32,
    /// The verification tag of the end that made the cookie.
    pub my_tag: u32,
    /// The first TSN of the end that sent the INIT.
    pub peer_initial_tsn: Tsn,
    /// The first TSN of the end that made the cookie.
    pub my_initial_tsn: Tsn,
    /// How much the end that sent the INIT takes unread, in bytes.
    pub a_rwnd: u32,
    /// The number of the association that the end was in when it made the cookie; 0 where it was in none.
    pub tie_tag: u64,
    /// What the end that sent the INIT says that it can do.
    pub peer_capabilities: Capabilities,
}

/// Why bytes are no cookie of this implementation. The tests are made in this order.
#[derive(Clone, Copy, Debug, PartialEq, Eq)]
pub enum StateCookieError {
    /// There aren't 48 bytes.
    InvalidSize,
    /// The first eight bytes aren't those of a cookie.
    InvalidMagic,
    /// One of the verification tags is 0.
    InvalidVerificationTag,
}

impl fmt::Display for StateCookieError {
    ghost output = { λ e. Some (refusal_text e) };

    fn fmt<W: fmt::Write>(&self, f: &mut fmt::Formatter<W>) -> fmt::Result {
        match self {
            StateCookieError::InvalidSize => write!(f, "Invalid state cookie size"),
            StateCookieError::InvalidMagic => write!(f, "Invalid state cookie magic"),
            StateCookieError::InvalidVerificationTag => write!(
                f,
                "Invalid verification tag in state cookie"
            ),
        }
    }
}

impl Error for StateCookieError {}

impl StateCookie {
    /// The cookie that the bytes are. Refused are, in this order, another size than 48 bytes, another magic and a
    /// verification tag of 0.
    pub fn from_bytes(bytes: &[u8]) -> Result<StateCookie, StateCookieError>
        ensures ok { IfOk result (λ c. read_cookie bytes.now ≡ Ok (cookie_of c)) }
        ensures refused { IfErr result (λ e. read_cookie bytes.now ≡ Err e) }
        ensures written { (c : Cookie) → CookieFits c → has_tags c ≡ true → bytes.now ≡ cookie_bytes c
            → IsOkAnd result (λ d. cookie_of d ≡ c) }
    {
        if bytes.len() != STATE_COOKIE_SIZE {
            return Err(StateCookieError::InvalidSize);
        }
        if !bytes.starts_with(&MAGIC) {
            return Err(StateCookieError::InvalidMagic);
        }
        let cookie = cookie_in(bytes);
        if cookie.peer_tag == 0 || cookie.my_tag == 0 {
            return Err(StateCookieError::InvalidVerificationTag);
        }
        Ok(cookie)
    }

    /// The cookie's 48 bytes.
    pub fn serialize(&self, alloc: Global) -> Result<Vec<u8>, AllocError>
        ensures bytes { IfOk result (λ output. output.items ≡ cookie_bytes (cookie_of self.now)) }
        ensures fits { OnOk result (CookieFits (cookie_of self.now)) }
    {
        let mut output = Vec::with_capacity(alloc, STATE_COOKIE_SIZE)?;
        push_cookie(&mut output, self)?;
        Ok(output)
    }
}

/// Appends the cookie's bytes.
#[tactic(auto, unfolding(crate::specs::StateCookie::cookie_bytes))]
fn push_cookie(output: &mut Vec<u8>, cookie: &StateCookie) -> Result<(), AllocError>
    ensures bytes { OnOk result (output.new.items ≡ output.old.items ++ cookie_bytes (cookie_of cookie.now)) }
    ensures fits { OnOk result (CookieFits (cookie_of cookie.now)) }
{
    output.extend_from_slice(&MAGIC)?;
    push_pair(output, cookie.peer_tag, cookie.my_tag)?;
    push_pair(output, cookie.peer_initial_tsn.0, cookie.my_initial_tsn.0)?;
    push_u32(output, cookie.a_rwnd)?;
    push_u64(output, cookie.tie_tag)?;
    push_capabilities(output, cookie.peer_capabilities)
}

/// Appends a number of the peer and the one of this end.
fn push_pair(output: &mut Vec<u8>, peer: u32, own: u32) -> Result<(), AllocError>
    ensures { OnOk result (output.new.items ≡ output.old.items ++ (be32 peer ++ be32 own)) }
{
    push_u32(output, peer)?;
    push_u32(output, own)
}

/// Appends the twelve bytes of capabilities.
#[tactic(auto, unfolding(crate::specs::StateCookie::capability_bytes))]
fn push_capabilities(output: &mut Vec<u8>, capabilities: Capabilities) -> Result<(), AllocError>
    ensures bytes { OnOk result (output.new.items
        ≡ output.old.items ++ capability_bytes (capabilities_of capabilities)) }
    ensures fits { CapabilitiesFit (capabilities_of capabilities) }
{
    let flags = [
        u8::from(capabilities.partial_reliability),
        u8::from(capabilities.message_interleaving),
        u8::from(capabilities.reconfig),
        0,
    ];
    output.extend_from_slice(&flags)?;
    push_u32(output, capabilities.zero_checksum_method.0)?;
    push_u16(output, capabilities.negotiated_maximum_incoming_streams)?;
    push_u16(output, capabilities.negotiated_maximum_outgoing_streams)
}

/// The cookie in 48 bytes, each field at its place.
#[tactic(auto, unfolding(crate::specs::StateCookie::cookie_from))]
fn cookie_in(bytes: &[u8]) -> StateCookie
    requires { length bytes.now ≡ 48 }
    ensures { cookie_of result ≡ cookie_from bytes.now }
{
    StateCookie {
        peer_tag: u32_in(bytes, 8),
        my_tag: u32_in(bytes, 12),
        peer_initial_tsn: Tsn(u32_in(bytes, 16)),
        my_initial_tsn: Tsn(u32_in(bytes, 20)),
        a_rwnd: u32_in(bytes, 24),
        tie_tag: u64_in(bytes, 28),
        peer_capabilities: capabilities_in(bytes),
    }
}

/// The capabilities in a cookie's last twelve bytes. A flag is set where its byte isn't 0, and the fourth byte isn't
/// looked at.
#[tactic(auto, unfolding(crate::specs::StateCookie::cookie_from))]
fn capabilities_in(bytes: &[u8]) -> Capabilities
    requires { length bytes.now ≡ 48 }
    ensures { capabilities_of result ≡ (cookie_from bytes.now).peer_capabilities }
{
    Capabilities {
        partial_reliability: bytes[36] != 0,
        message_interleaving: bytes[37] != 0,
        reconfig: bytes[38] != 0,
        zero_checksum_method: ZeroChecksumAlternateErrorDetectionMethod(u32_in(bytes, 40)),
        negotiated_maximum_incoming_streams: u16_in(bytes, 44),
        negotiated_maximum_outgoing_streams: u16_in(bytes, 46),
    }
}

/// The number whose two bytes begin at the place.
fn u16_in(bytes: &[u8], place: usize) -> u16
    requires { place + 2 ≤ length bytes.now }
    ensures { result ≡ u16_in place bytes.now }
{
    let Some((number, _)) = bytes[place..].split_first_chunk::<2>() else {
        unreachable!();
    };
    u16::from_be_bytes(*number)
}

/// The one of four bytes.
fn u32_in(bytes: &[u8], place: usize) -> u32
    requires { place + 4 ≤ length bytes.now }
    ensures { result ≡ u32_in place bytes.now }
{
    let Some((number, _)) = bytes[place..].split_first_chunk::<4>() else {
        unreachable!();
    };
    u32::from_be_bytes(*number)
}

/// The one of eight bytes.
fn u64_in(bytes: &[u8], place: usize) -> u64
    requires { place + 8 ≤ length bytes.now }
    ensures { result ≡ u64_in place bytes.now }
{
    let Some((number, _)) = bytes[place..].split_first_chunk::<8>() else {
        unreachable!();
    };
    u64::from_be_bytes(*number)
}
