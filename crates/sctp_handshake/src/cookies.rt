//! What becomes of an echoed cookie, and the control block that it stands for.

ghost use Rattle.std.specs.Prelude.{◌≡◌, ◌==◌};
ghost use Rattle.sctp_capabilities.specs.Capabilities.{capabilities_of, negotiate};
ghost use Rattle.sctp_capabilities.specs.StateCookie.{cookie_of};
ghost use Rattle.sctp_endpoint.specs.Views.{identity_of, state_of, tcb_of};
ghost use Rattle.sctp_handshake.specs.ResolutionView.{resolution_of};
ghost use Rattle.spec_endpoint.specs.Opening as table;

use sctp_capabilities::{Capabilities, StateCookie};
use sctp_endpoint::{Context, Identity, Phase, State, TransmissionControlBlock};
use sctp_wire::Checksum;

/// What becomes of an echoed cookie (RFC 9260 section 5.2.4).
#[derive(Clone, Copy, Debug)]
pub enum CookieResolution {
    /// Establish.
    EstablishNew,
    /// Establish anew, and say so.
    RestartDetected,
    /// Establish anew.
    SimultaneousInit,
    /// The association that there is.
    MaintainExisting,
    /// Nothing.
    Discard,
    /// An event says that its tag is wrong.
    InvalidTag,
}

/// What becomes of a cookie where there is a control block, by four comparisons: both ends' tags, the tie, and whether it is 0 tell a
/// restart (A), INITs that crossed (B), a cookie that comes late (C) and one that comes again (D; RFC 9260 section 5.2.4).
fn resolve_by_tags(tag: u32, identity: Identity, cookie: &StateCookie) -> CookieResolution
    ensures { resolution_of result ≡ table.resolve_by_tags tag (identity_of identity) (cookie_of cookie.now) }
{
    let is_other_tag = tag != identity.my_verification_tag;
    let is_other_peer = cookie.peer_tag != identity.peer_verification_tag;
    match (is_other_tag, is_other_peer) {
        (true, true) => {
            if cookie.tie_tag == identity.tie_tag {
                CookieResolution::RestartDetected
            } else {
                CookieResolution::InvalidTag
            }
        }
        (false, true) => CookieResolution::SimultaneousInit,
        (true, false) => {
            if cookie.tie_tag == 0 {
                CookieResolution::Discard
            } else {
                CookieResolution::InvalidTag
            }
        }
        (false, false) => CookieResolution::MaintainExisting,
    }
}

/// With stalls avoided, INITs that crossed are a restart where the association stood already: what waits was meant for that one.
fn as_restart(is_late: bool, resolution: CookieResolution) -> CookieResolution
    ensures { resolution_of result ≡ table.as_restart is_late (resolution_of resolution) }
{
    match (is_late, resolution) {
        (true, CookieResolution::SimultaneousInit) => CookieResolution::RestartDetected,
        _ => resolution,
    }
}

/// What becomes of it where there is none: whether the packet's tag is the cookie's.
fn new_if_own(tag: u32, cookie: &StateCookie) -> CookieResolution
    ensures { resolution_of result ≡ table.new_if (tag == (cookie_of cookie.now).my_tag) }
{
    if tag == cookie.my_tag {
        CookieResolution::EstablishNew
    } else {
        CookieResolution::InvalidTag
    }
}

/// What becomes of a cookie in a packet under this tag. With stalls avoided an end that connects discards the cookie of another connect.
pub fn resolve_cookie(
    avoids_stalls: bool,
    tag: u32,
    cookie: &StateCookie,
    state: &State,
) -> CookieResolution
    ensures { resolution_of result ≡ table.resolve_cookie avoids_stalls tag (cookie_of cookie.now) (state_of state.now) }
{
    match state {
        State::Closed => new_if_own(tag, cookie),
        State::CookieWait(wait) => {
            if avoids_stalls && cookie.my_tag != wait.verification_tag {
                return CookieResolution::Discard;
            }
            new_if_own(tag, cookie)
        }
        State::Open(phase, tcb) => {
            let is_late = avoids_stalls && !phase.is_before_cookie_ack();
            as_restart(is_late, resolve_by_tags(tag, tcb.identity, cookie))
        }
    }
}

/// Whether it is of the last association of a closed end. With stalls avoided such a one is refused (RFC 9260 section 8.4).
pub fn is_spent(avoids_stalls: bool, last_tag: u32, cookie: &StateCookie, state: &State) -> bool
    ensures { result ≡ table.is_spent avoids_stalls last_tag (cookie_of cookie.now) (state_of state.now) }
{
    match state {
        State::Closed => avoids_stalls && cookie.my_tag == last_tag,
        State::CookieWait(_) | State::Open(_, _) => false,
    }
}

/// Whether a restart isn't too late: no SHUTDOWN ACK went out (RFC 9260 section 5.2.4 A).
fn may_restart(state: &State) -> bool
    ensures { result ≡ table.may_restart (state_of state.now) }
{
    match state {
        State::Open(Phase::ShutdownAckSent(_), _) => false,
        _ => true,
    }
}

/// Whether the cookie is taken of which this becomes.
fn is_taken(resolution: CookieResolution, state: &State) -> bool
    ensures { result ≡ table.is_taken (resolution_of resolution) (state_of state.now) }
{
    match resolution {
        CookieResolution::EstablishNew
        | CookieResolution::SimultaneousInit
        | CookieResolution::MaintainExisting => true,
        CookieResolution::RestartDetected => may_restart(state),
        CookieResolution::Discard | CookieResolution::InvalidTag => false,
    }
}

/// Whether what lies behind a COOKIE ECHO in its packet is looked at: with stalls avoided not where the cookie isn't taken (RFC 9260
/// section 5.1.5).
pub fn goes_on_behind(
    avoids_stalls: bool,
    last_tag: u32,
    tag: u32,
    cookie: &[u8],
    state: &State,
) -> bool
    ensures { result ≡ table.goes_on_behind avoids_stalls last_tag tag cookie.now (state_of state.now) }
{
    if !avoids_stalls {
        return true;
    }
    match StateCookie::from_bytes(cookie) {
        Ok(cookie) => {
            !is_spent(true, last_tag, &cookie, state)
                && is_taken(resolve_cookie(true, tag, &cookie, state), state)
        }
        Err(_) => false,
    }
}

/// The control block that a cookie stands for. The peer's window counts at most as much as may be queued.
pub fn tcb_by<C: Checksum>(
    context: &Context<C>,
    cookie: &StateCookie,
    tie_tag: u64,
) -> TransmissionControlBlock
    ensures { tcb_of result ≡ table.tcb_by context.now.options (cookie_of cookie.now) tie_tag }
{
    let identity = Identity {
        my_verification_tag: cookie.my_tag,
        my_initial_tsn: cookie.my_initial_tsn,
        peer_verification_tag: cookie.peer_tag,
        peer_initial_tsn: cookie.peer_initial_tsn,
        tie_tag,
    };
    let a_rwnd = (cookie.a_rwnd as usize).min(context.options.max_send_buffer_size) as u32;
    TransmissionControlBlock::new(
        context.alloc,
        &context.options,
        identity,
        a_rwnd,
        agreed(context, cookie),
    )
}

/// What both ends do, by the own options and the cookie.
pub fn agreed<C: Checksum>(context: &Context<C>, cookie: &StateCookie) -> Capabilities
    ensures { capabilities_of result ≡ negotiate context.now.options (cookie_of cookie.now).peer_capabilities }
{
    cookie.peer_capabilities.negotiate(&context.options)
}
