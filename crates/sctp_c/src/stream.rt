//! The numbers of streams.

ghost use Rattle.std.specs.Prelude.{◌≡◌, ◌<◌, ◌≤◌, IfNone, IfSome};

/// The stream with this number, where there is one.
pub(crate) fn stream_of(number: u32) -> Option<u16>
    ensures some { IfSome result (λ id. id ≡ number) }
    ensures small { IfSome result (λ id. number ≤ 65535) }
    ensures none { IfNone result (65535 < number) }
{
    if 65_535 < number {
        None
    } else {
        Some(number as u16)
    }
}
