// The numbers of legs, the connections to the remote users.
ghost use Rattle.std.specs.Prelude.{◌≡◌, ◌↔◌, IsTrue, MatchResult};
ghost use Rattle.line.specs.declared.meaning.Refusal.TheVariants.{NoSuchLeg};
ghost use Rattle.line.specs.Meaning.{Leg};

use crate::meaning::Refusal;

// The legs that there are.
const FIRST_LEG: u8 = 1;

const LAST_LEG: u8 = 64;

// Whether there is such a leg.
pub fn is_leg(leg: u8) -> bool
    ensures { IsTrue result ↔ Leg leg }
{
    (FIRST_LEG..=LAST_LEG).contains(&leg)
}

// A number that is a leg's.
#[derive(Clone, Copy)]
pub(crate) struct LegNumber {
    pub(crate) number: u8,
    ghost in_range: { Leg number },
}

impl TryFrom<u8> for LegNumber {
    type Error = Refusal;

    ghost try_from_gives = { λ number r. MatchResult r (λ leg. leg.number ≡ number) (λ refusal. (refusal ≡ NoSuchLeg) × ¬ Leg number) };

    fn try_from(number: u8) -> Result<LegNumber, Refusal> {
        if is_leg(number) {
            Ok(LegNumber { number })
        } else {
            Err(Refusal::NoSuchLeg)
        }
    }
}
