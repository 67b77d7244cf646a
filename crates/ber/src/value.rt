// One BER value: a tag octet, a length octet from 0 to 127, and as many octets of contents.
ghost use Rattle.std.specs.Prelude.{◌≡◌, true, false, MatchOption};
ghost use Rattle.ber.specs.Value.{begins_with_value, is_constructed, front, behind};

use crate::tags::{HEAD, MOST_CONTENTS};

// The low bits of a tag; all set, they say that more octets of the tag follow.
const TAG_NUMBER: u8 = 0x1f;

// The bit of a tag whose contents are values again.
const CONSTRUCTED: u8 = 0x20;

// The value at the front, and the octets after it; none where the octets do not begin with a value that they hold whole.
pub fn read_value(octets: &[u8]) -> Option<(&[u8], &[u8])>
    ensures { MatchOption result (begins_with_value octets.now ≡ false) (λ p. (begins_with_value octets.now ≡ true) × (p.0.now ≡ front octets.now) × (p.1.now ≡ behind octets.now)) }
{
    let [tag, length, ..] = octets else {
        return None;
    };
    if *tag & TAG_NUMBER == TAG_NUMBER || *length > MOST_CONTENTS {
        return None;
    }
    octets.split_at_checked(HEAD + usize::from(*length))
}

// The contents are values again.
pub(crate) fn is_constructed(tag: u8) -> bool
    ensures { result ≡ is_constructed tag }
{
    tag & CONSTRUCTED != 0
}
