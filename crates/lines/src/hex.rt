// A line of hex pairs, read as octets.
ghost use Rattle.std.specs.Prelude.{◌≡◌};
ghost use Rattle.lines.specs.Spelling.{is_white, hex_value, pair_value, spelled, Reads};
ghost use Rattle.lines.specs.declared.hex.HexError.TheVariants.{OutOfMemory};

use std::alloc::AllocFailed;

// Why a line is not read.
#[derive(Clone, Copy, Debug)]
pub enum HexError {
    NotOctets,
    OutOfMemory,
}

impl<T: Drop> From<AllocFailed<T>> for HexError {
    ghost from_gives = { λ _ e. e ≡ OutOfMemory };

    fn from(_error: AllocFailed<T>) -> HexError {
        HexError::OutOfMemory
    }
}

pub fn is_white(byte: u8) -> bool
    ensures { result ≡ is_white byte }
{
    matches!(byte, b' ' | b'\t' | b'\r')
}

// For each byte its value as a hex digit, in either case; 255 for what is none.
const VALUES: [u8; 256] = [
    255, 255, 255, 255, 255, 255, 255, 255, 255, 255, 255, 255, 255, 255, 255, 255, 255, 255, 255,
    255, 255, 255, 255, 255, 255, 255, 255, 255, 255, 255, 255, 255, 255, 255, 255, 255, 255, 255,
    255, 255, 255, 255, 255, 255, 255, 255, 255, 255, 0, 1, 2, 3, 4, 5, 6, 7, 8, 9, 255, 255, 255,
    255, 255, 255, 255, 10, 11, 12, 13, 14, 15, 255, 255, 255, 255, 255, 255, 255, 255, 255, 255,
    255, 255, 255, 255, 255, 255, 255, 255, 255, 255, 255, 255, 255, 255, 255, 255, 10, 11, 12, 13,
    14, 15, 255, 255, 255, 255, 255, 255, 255, 255, 255, 255, 255, 255, 255, 255, 255, 255, 255,
    255, 255, 255, 255, 255, 255, 255, 255, 255, 255, 255, 255, 255, 255, 255, 255, 255, 255, 255,
    255, 255, 255, 255, 255, 255, 255, 255, 255, 255, 255, 255, 255, 255, 255, 255, 255, 255, 255,
    255, 255, 255, 255, 255, 255, 255, 255, 255, 255, 255, 255, 255, 255, 255, 255, 255, 255, 255,
    255, 255, 255, 255, 255, 255, 255, 255, 255, 255, 255, 255, 255, 255, 255, 255, 255, 255, 255,
    255, 255, 255, 255, 255, 255, 255, 255, 255, 255, 255, 255, 255, 255, 255, 255, 255, 255, 255,
    255, 255, 255, 255, 255, 255, 255, 255, 255, 255, 255, 255, 255, 255, 255, 255, 255, 255, 255,
    255, 255, 255, 255, 255, 255, 255, 255, 255, 255, 255, 255, 255, 255, 255, 255, 255, 255, 255,
    255, 255, 255,
];

// The value of a hex digit, in either case.
#[tactic(auto, using(crate::proofs::Digits::digit_there, crate::proofs::Digits::no_digit))]
fn digit(byte: u8) -> Option<u8>
    ensures { result ≡ hex_value byte }
{
    let value = VALUES[usize::from(byte)];
    if value < 16 { Some(value) } else { None }
}

// The octet that two hex digits spell.
fn pair(high: u8, low: u8) -> Option<u8>
    ensures { result ≡ pair_value high low }
{
    let high = digit(high)?;
    let low = digit(low)?;
    Some(16 * high + low)
}

// Reads the line's octets into lent memory, in place of what it held. White space may stand around a pair, not inside it.
pub fn read_octets(line: &[u8], octets: &mut Vec<u8>) -> Result<(), HexError>
    ensures { Reads (spelled line.now) result octets.new.items }
{
    octets.clear();
    let mut bytes = line.iter();
    while let Some(first) = bytes.next() {
        if is_white(*first) {
            continue;
        }
        let second = bytes.next().ok_or(HexError::NotOctets)?;
        octets.push(pair(*first, *second).ok_or(HexError::NotOctets)?)?;
    }
    Ok(())
}
