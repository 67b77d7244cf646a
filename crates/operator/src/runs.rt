// A run: its start, and steps taken in one call.
ghost use Rattle.line.specs.Meaning.{Same};
ghost use Rattle.operator.specs.Answers.{in_octets};
ghost use Rattle.operator.specs.Company.{Company};
ghost use Rattle.operator.specs.OnLine.{TakesAll};
ghost use Rattle.operator.specs.Roster.{empty};
ghost use Rattle.operator.specs.Run.{Run, Taken};
ghost use Rattle.operator.specs.Turns.{DoesOnLine, new_table, turn};
ghost use Rattle.std.specs.Prelude.{◌≡◌, ◌↔◌, ◌+◌, ◌<◌, ◌≤◌, [], ◌∷◌, ◌++◌, IfOk, IsOk, length, map, OnErr, vec_len};
ghost use Rattle.std.specs.Vec.{vec_capacity};

use crate::answer::Answer;
use crate::operating::step;
use crate::steps::Step;
use controller::Controller;
use line::Line;
use std::alloc::AllocError;
use tables::Level;

// Makes the controller at a level and collects the line: the start of a run, and the company law holds there.
#[tactic(auto, using(crate::proofs::Running::starts))]
pub fn start<L: Line>(level: Level, line: &mut L) -> Controller
    ensures level { result.level ≡ level }
    ensures tables { result.tables ≡ new_table }
    ensures kept { Same (L.standing line.old) (L.standing line.new) }
    ensures run { Run level [] result.tables (L.standing line.new) (L.room line.new) }
    ensures law { Company empty result.tables (L.standing line.new) }
    ensures collects { L.collects line.old line.new }
{
    line.collect();
    Controller::new(level)
}

// Takes one step, and puts its answer behind those before, for which there is room.
#[tactic(auto, using(crate::proofs::Running::put_behind))]
fn take_into<L: Line>(
    controller: &mut Controller,
    line: &mut L,
    next: Step,
    answers: &mut Vec<Answer>,
)
    requires { vec_len answers.old < vec_capacity answers.old }
    ensures answered { map in_octets answers.new.items ≡ map in_octets answers.old.items ++ ((turn controller.old.level (L.room line.old) next controller.old.tables).answer ∷ []) }
    ensures taken { Taken controller.old.level next (turn controller.old.level (L.room line.old) next controller.old.tables).answer controller.old.tables controller.new.tables (L.standing line.old) (L.standing line.new) (L.room line.old) (L.room line.new) }
    ensures order { DoesOnLine L.tells L.collects next (turn controller.old.level (L.room line.old) next controller.old.tables).effect line.old line.new }
    ensures level { controller.new.level ≡ controller.old.level }
    ensures len { vec_len answers.new ≡ vec_len answers.old + 1 }
    ensures capacity { vec_capacity answers.new ≡ vec_capacity answers.old }
{
    answers.push_reserved(step(controller, line, next));
}

// Takes all steps of a list on a new controller at a level, and on a line that is collected first. The turn of each is taken at the
// room that the line has then, and nothing is told beyond what the turns tell; the company law holds at the start and after each.
// The answers are handed out in their order, in place of what their memory held; memory for fewer than there are steps is refused, and
// nothing is done then.
pub fn run<L: Line>(
    level: Level,
    line: &mut L,
    steps: &[Step],
    answers: &mut Vec<Answer>,
) -> Result<Controller, AllocError>
    ensures room { IsOk result ↔ (length steps.now ≤ vec_capacity answers.old) }
    ensures level { IfOk result (λ controller. controller.level ≡ level) }
    ensures run { IfOk result (λ controller. TakesAll L.standing L.room L.tells L.collects level steps.now (map in_octets answers.new.items) line.old controller.tables line.new) }
    ensures none { OnErr result ((line.new ≡ line.old) × (answers.new ≡ answers.old)) }
{
    if answers.capacity() < steps.len() {
        return Err(AllocError);
    }
    answers.clear();
    let mut controller = start(level, line);
    for next in steps {
        take_into(&mut controller, line, *next, answers);
    }
    Ok(controller)
}
