// What the exchange reports to the controller.
ghost use Rattle.std.specs.Prelude.{◌≡◌};
ghost use Rattle.controller.specs.Outcomes.{Reports};
ghost use Rattle.controller.specs.Reports.{reported, told_in};
ghost use Rattle.line.specs.Order.{TellsInOrder};
ghost use Rattle.tables.specs.Table.{empty};

use super::Controller;
use crate::change::Change;
use crate::doing::do_change;
use crate::report::{Acceptance, Report};
use line::Line;
use tables::{Level, Refusal, Tables};

impl Controller {
    // A controller at a level: calls absent, legs down, no conference.
    #[tactic(auto, using(crate::proofs::Staying::apart_empty))]
    pub fn new(level: Level) -> Controller
        ensures level { result.level ≡ level }
        ensures tables { result.tables ≡ empty }
    {
        Controller {
            level,
            tables: Tables::new(),
        }
    }

    // The level, for as long as the controller lives.
    pub fn level(&self) -> Level
        ensures { result ≡ self.now.level }
    {
        self.level
    }

    // The tables, to be looked at.
    pub fn tables(&self) -> &Tables
        ensures { result.now ≡ self.now.tables }
    {
        &self.tables
    }

    // The exchange reports: accepted, and done, or refused, and then nothing changes.
    #[tactic(auto, using(crate::proofs::Tellable::reported_tellable, crate::proofs::Reported::accepted_apart))]
    pub fn report<L: Line>(&mut self, line: &mut L, report: Report) -> Result<Acceptance, Refusal>
        ensures answered { Reports (reported (L.room line.old) report self.old.tables) result self.old.tables self.new.tables (L.standing line.old) (L.standing line.new) (L.room line.old) (L.room line.new) }
        ensures order { TellsInOrder L.tells (told_in (reported (L.room line.old) report self.old.tables)) line.old line.new }
        ensures level { self.new.level ≡ self.old.level }
    {
        let change = Change::by_report(line.room(), report, &self.tables)?;
        let disc = change.disc();
        let gone = do_change(&mut self.tables, line, change);
        Ok(Acceptance { gone, disc })
    }
}
