// INTEGER: one or two octets, two's complement, the fewest that hold the number.
ghost use Rattle.std.specs.Prelude.{◌≡◌, length};
ghost use Rattle.ber.specs.Integer.{is_short, as_integer, integer_octets};

use crate::tags::{HEAD, INTEGER};

// The numbers that one octet holds.
const LEAST_SHORT: i16 = -128;

const MOST_SHORT: i16 = 127;

// One octet holds the number.
pub fn is_short(n: i16) -> bool
    ensures { result ≡ is_short n }
{
    (LEAST_SHORT..=MOST_SHORT).contains(&n)
}

// The number that a value holds, if the value is an INTEGER.
pub fn read_integer(value: &[u8]) -> Option<i16>
    ensures { result ≡ as_integer value.now }
{
    match value {
        [INTEGER, 1, low] => Some(i16::from(low.cast_signed())),
        [INTEGER, 2, high, low] => {
            let n = i16::from_be_bytes([*high, *low]);
            if is_short(n) { None } else { Some(n) }
        }
        _ => None,
    }
}

// How many octets the INTEGER takes, tag and length included.
pub fn integer_size(n: i16) -> usize
    ensures { result ≡ length (integer_octets n) }
{
    if is_short(n) { HEAD + 1 } else { HEAD + 2 }
}
