//! What equality, order and hashes of moments and identifiers mean, each the contract of a function that takes them by value.

ghost use Rattle.std.specs.Prelude.{◌≡◌, ◌<◌, ◌↔◌, IsTrue};
ghost use Rattle.std.specs.List.{fold};
ghost use Rattle.std.specs.Hash.{u16 as fed_u16, u32 as fed_u32, u64 as fed_u64};

use crate::{LifecycleId, PpId, SocketTime, StreamId, ZeroChecksumAlternateErrorDetectionMethod};
use std::hash::{Hash, Hasher};

/// `<` of moments.
pub fn is_earlier(a: SocketTime, b: SocketTime) -> bool
    ensures { IsTrue result ↔ (a < b) }
{
    a < b
}

/// `==` of moments.
pub fn is_same_moment(a: SocketTime, b: SocketTime) -> bool
    ensures { IsTrue result ↔ (a ≡ b) }
{
    a == b
}

/// `<` of lifecycle identifiers.
pub fn is_lower_lifecycle_id(a: LifecycleId, b: LifecycleId) -> bool
    ensures { IsTrue result ↔ (a < b) }
{
    a < b
}

/// `==` of lifecycle identifiers.
pub fn is_same_lifecycle_id(a: LifecycleId, b: LifecycleId) -> bool
    ensures { IsTrue result ↔ (a ≡ b) }
{
    a == b
}

/// `<` of stream identifiers.
pub fn is_lower_stream(a: StreamId, b: StreamId) -> bool
    ensures { IsTrue result ↔ (a.0 < b.0) }
{
    a < b
}

/// `==` of stream identifiers.
pub fn is_same_stream(a: StreamId, b: StreamId) -> bool
    ensures { IsTrue result ↔ (a ≡ b) }
{
    a == b
}

/// `==` of payload protocol identifiers.
pub fn is_same_ppid(a: PpId, b: PpId) -> bool
    ensures { IsTrue result ↔ (a ≡ b) }
{
    a == b
}

/// `==` of methods.
pub fn is_same_method(
    a: ZeroChecksumAlternateErrorDetectionMethod,
    b: ZeroChecksumAlternateErrorDetectionMethod,
) -> bool
    ensures { IsTrue result ↔ (a ≡ b) }
{
    a == b
}

/// A hasher is fed the number.
pub fn feeds_lifecycle_id<H: Hasher>(id: LifecycleId, hasher: &mut H)
    ensures { hasher.new ≡ fold H.write hasher.old (fed_u64 id) }
{
    id.hash(hasher);
}

/// `hash` of a stream identifier.
pub fn feeds_stream<H: Hasher>(id: StreamId, hasher: &mut H)
    ensures { hasher.new ≡ fold H.write hasher.old (fed_u16 id.0) }
{
    id.hash(hasher);
}

/// `hash` of a payload protocol identifier.
pub fn feeds_ppid<H: Hasher>(id: PpId, hasher: &mut H)
    ensures { hasher.new ≡ fold H.write hasher.old (fed_u32 id.0) }
{
    id.hash(hasher);
}
