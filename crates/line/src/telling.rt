// One notice for a list of legs, on any line.
ghost use Rattle.std.specs.Prelude.{◌≡◌, ◌↔◌, All, IsTrue, MatchResult};
ghost use Rattle.line.specs.Meaning.{Leg};
ghost use Rattle.line.specs.Order.{TellsInOrder, to_each};
ghost use Rattle.line.specs.Telling.{TellsEach, OnceEach};

use crate::leg::is_leg;
use crate::meaning::{Line, Refusal};
use crate::notice::Notice;

// Whether there is a leg of each number.
fn are_legs(numbers: &[u8]) -> bool
    ensures { IsTrue result ↔ All Leg numbers.now }
{
    numbers.iter().all(|number| is_leg(*number))
}

// Tells a notice to each leg of a list, in its order. A number that is no leg is refused first, then a room of less than
// the list's length; so either all are told, or nothing changes.
pub fn tell_each<L: Line>(line: &mut L, legs: &[u8], notice: Notice) -> Result<(), Refusal>
    ensures each { TellsEach legs.now notice (L.standing line.old) (L.standing line.new) (L.room line.old) (L.room line.new) result }
    ensures order { MatchResult result (λ _. TellsInOrder L.tells (to_each notice legs.now) line.old line.new) (λ _. line.new ≡ line.old) }
    ensures once { OnceEach legs.now notice (L.standing line.old) (L.standing line.new) result }
{
    if !are_legs(legs) {
        return Err(Refusal::NoSuchLeg);
    }
    if line.room() < legs.len() {
        return Err(Refusal::NoRoom);
    }
    for leg in legs {
        line.tell(*leg, notice)?;
    }
    Ok(())
}
