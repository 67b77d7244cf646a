// A step of a run.
ghost use Rattle.operator.specs.Answers.{in_octets};
ghost use Rattle.operator.specs.Run.{GoesOn, Taken};
ghost use Rattle.operator.specs.Turns.{away_answer, DoesOnLine, turn};
ghost use Rattle.line.specs.Order.{TellsInOrder};
ghost use Rattle.std.specs.Prelude.{◌≡◌};

use crate::answer::Answer;
use crate::steps::Step;
use controller::{Acceptance, Carrier, Controller, PendingReply, Reply, Report};
use facility::RequestInvoke;
use line::Line;
use tables::Refusal;

// The exchange reports.
fn reported<L: Line>(controller: &mut Controller, line: &mut L, report: Report) -> Answer
    ensures taken { Taken controller.old.level (Step.Reported report) (in_octets result) controller.old.tables controller.new.tables (L.standing line.old) (L.standing line.new) (L.room line.old) (L.room line.new) }
    ensures order { TellsInOrder L.tells (turn controller.old.level (L.room line.old) (Step.Reported report) controller.old.tables).effect.told line.old line.new }
    ensures level { controller.new.level ≡ controller.old.level }
{
    match controller.report(line, report) {
        Ok(Acceptance { gone, disc }) => Answer::Done { gone, disc },
        Err(why) => Answer::Refused(why),
    }
}

// A request is settled.
fn settled<L: Line>(
    controller: &mut Controller,
    line: &mut L,
    carrier: Carrier,
    asked: RequestInvoke,
) -> Answer
    ensures taken { Taken controller.old.level (Step.Settled carrier asked) (in_octets result) controller.old.tables controller.new.tables (L.standing line.old) (L.standing line.new) (L.room line.old) (L.room line.new) }
    ensures order { TellsInOrder L.tells (turn controller.old.level (L.room line.old) (Step.Settled carrier asked) controller.old.tables).effect.told line.old line.new }
    ensures level { controller.new.level ≡ controller.old.level }
{
    match PendingReply::new(carrier, asked) {
        Ok(pending) => {
            let Reply { message, gone } = pending.settle(controller, line);
            Answer::Replied { message, gone }
        }
        Err(why) => Answer::Refused(why),
    }
}

// A request is turned away: neither tables nor line are looked at.
fn turned_away(carrier: Carrier, asked: RequestInvoke) -> Answer
    ensures { in_octets result ≡ away_answer carrier asked }
{
    match PendingReply::new(carrier, asked) {
        Ok(pending) => Answer::Replied {
            message: pending.turn_away(),
            gone: 0,
        },
        Err(why) => Answer::Refused(why),
    }
}

// Takes one step.
fn take<L: Line>(controller: &mut Controller, line: &mut L, step: Step) -> Answer
    ensures taken { Taken controller.old.level step (in_octets result) controller.old.tables controller.new.tables (L.standing line.old) (L.standing line.new) (L.room line.old) (L.room line.new) }
    ensures level { controller.new.level ≡ controller.old.level }
    ensures order { DoesOnLine L.tells L.collects step (turn controller.old.level (L.room line.old) step controller.old.tables).effect line.old line.new }
{
    match step {
        Step::Reported(report) => reported(controller, line, report),
        Step::Settled { carrier, asked } => settled(controller, line, carrier, asked),
        Step::TurnedAway { carrier, asked } => turned_away(carrier, asked),
        Step::Collected => {
            line.collect();
            Answer::Done {
                gone: 0,
                disc: None,
            }
        }
    }
}

// Takes one step on the controller and the line. Whatever steps led here, with whatever answers, this one and its answer
// carry them on, and the company law holds then.
#[tactic(auto, using(crate::proofs::Running::taken_goes_on))]
pub fn step<L: Line>(controller: &mut Controller, line: &mut L, step: Step) -> Answer
    ensures taken { Taken controller.old.level step (in_octets result) controller.old.tables controller.new.tables (L.standing line.old) (L.standing line.new) (L.room line.old) (L.room line.new) }
    ensures level { controller.new.level ≡ controller.old.level }
    ensures law { GoesOn controller.old.level step (in_octets result) controller.old.tables controller.new.tables (L.standing line.old) (L.standing line.new) (L.room line.old) (L.room line.new) }
    ensures order { DoesOnLine L.tells L.collects step (turn controller.old.level (L.room line.old) step controller.old.tables).effect line.old line.new }
{
    take(controller, line, step)
}
