// What is done: first it is told, by the tables before, and then it is carried out.
ghost use Rattle.std.specs.Prelude.{◌≡◌};
ghost use Rattle.controller.specs.Changes.{change_accepted};
ghost use Rattle.controller.specs.Deeds.{HasRoom, deed_effect};
ghost use Rattle.controller.specs.Outcomes.{Done};
ghost use Rattle.controller.specs.Telling.{Tellable};
ghost use Rattle.line.specs.Order.{TellsInOrder};

use crate::change::Change;
use crate::deed::Deed;
use line::Line;
use tables::Tables;

// Does a change; the answer is how many legs are gone.
pub(crate) fn do_change<L: Line>(tables: &mut Tables, line: &mut L, change: Change) -> usize
    requires { Tellable (change_accepted tables.old change).effect.told (L.room line.old) }
    ensures done { Done (change_accepted tables.old change).effect tables.new (L.standing line.old) (L.standing line.new) (L.room line.old) (L.room line.new) }
    ensures order { TellsInOrder L.tells (change_accepted tables.old change).effect.told line.old line.new }
    ensures gone { result ≡ (change_accepted tables.old change).effect.gone }
{
    let gone = change.gone(tables);
    change.told(tables).tell(line);
    change.carry_out(tables);
    gone
}

// Does a deed; the answer is how many legs are gone.
pub(crate) fn do_deed<L: Line>(tables: &mut Tables, line: &mut L, deed: Deed) -> usize
    requires room { HasRoom tables.old deed }
    requires tellable { Tellable (deed_effect tables.old deed).told (L.room line.old) }
    ensures done { Done (deed_effect tables.old deed) tables.new (L.standing line.old) (L.standing line.new) (L.room line.old) (L.room line.new) }
    ensures order { TellsInOrder L.tells (deed_effect tables.old deed).told line.old line.new }
    ensures gone { result ≡ (deed_effect tables.old deed).gone }
{
    deed.told(tables).tell(line);
    deed.carry_out(tables);
    deed.gone()
}
