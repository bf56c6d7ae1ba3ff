//! What a cookie's bytes say, field by field.

ghost use Rattle.std.specs.Prelude.{◌≡◌, ◌++◌, List, ℕ, Ok, true};
ghost use Rattle.sctp_capabilities.specs.StateCookie.{Cookie, SpellsCookie, has_tags, magic, read_cookie};

/// Bytes that spell a cookie behind the magic are read as this cookie, whatever their spare byte and flags other than 0 are.
pub fn spelled_cookie_is_read()
    ensures { (bytes rest : List ℕ) (c : Cookie) → bytes ≡ magic ++ rest → SpellsCookie rest c → has_tags c ≡ true
        → read_cookie bytes ≡ Ok c }
{}
