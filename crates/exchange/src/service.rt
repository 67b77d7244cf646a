// One exchange of a script: a controller and its outbox, and how many steps they were given.
ghost use Rattle.std.specs.Prelude.{◌≡◌, cond, Some};
ghost use Rattle.operator.specs.Answers.{in_octets};
ghost use Rattle.exchange.specs.Answers.{reply_text};
ghost use Rattle.exchange.specs.Services.{account, answer_in, New, one_more, Passed, request_text, Requested, Stepped};

use crate::answer::Reply;
use controller::{Carrier, Controller};
use facility::read_request;
use line::Outbox;
use listing::Listing;
use operator::{Answer, Step};
use std::fmt;
use tables::{Level, Refusal};

#[derive(Drop)]
pub struct Service {
    controller: Controller,
    outbox: Outbox,
    steps: u64,
    // how many of the steps were refused with a number
    refused: u64,
}

impl Service {
    // A new exchange at a level.
    pub fn new(level: Level) -> Service
        ensures { New level result }
    {
        let mut outbox = Outbox::new();
        let controller = operator::start(level, &mut outbox);
        Service {
            controller,
            outbox,
            steps: 0,
            refused: 0,
        }
    }

    // What waits, to be collected.
    pub fn outbox(&self) -> &Outbox
        ensures { result.now ≡ self.now.outbox }
    {
        &self.outbox
    }

    // Counts a step.
    fn count(&mut self, is_refused: bool)
        ensures { Passed (λ n. cond is_refused (one_more n) n) self.old self.new }
    {
        self.steps = self.steps.saturating_add(1);
        if is_refused {
            self.refused = self.refused.saturating_add(1);
        }
    }

    // Takes a step.
    #[tactic(auto, using(operator::proofs::Waiting::waits_on))]
    pub fn take(&mut self, step: Step) -> Answer
        ensures answer { in_octets result ≡ answer_in self.old step }
        ensures taken { Stepped step self.old self.new }
    {
        let answer = operator::step(&mut self.controller, &mut self.outbox, step);
        self.count(matches!(answer, Answer::Refused(_)));
        answer
    }

    // Takes a request that octets may make, settled or turned away. A reference out of range is refused before these are read.
    pub fn request(&mut self, away: bool, carrier: Carrier, octets: &[u8]) -> Reply
        ensures reply { reply_text result ≡ request_text self.old away carrier octets.now }
        ensures taken { Requested away carrier octets.now self.old self.new }
    {
        if !carrier.in_range() {
            self.count(true);
            return Reply::Answered(Answer::Refused(Refusal::OutOfRange));
        }
        match read_request(octets) {
            Ok(asked) if away => Reply::Answered(self.take(Step::TurnedAway { carrier, asked })),
            Ok(asked) => Reply::Answered(self.take(Step::Settled { carrier, asked })),
            Err(fault) => {
                self.count(false);
                Reply::Faulty(fault)
            }
        }
    }
}

// The account: the conferences, and how many steps there were.
impl fmt::Display for Service {
    ghost output = { λ service. Some (account service) };

    fn fmt<W: fmt::Write>(&self, f: &mut fmt::Formatter<W>) -> fmt::Result {
        let Service { steps, refused, .. } = self;
        let listing = Listing {
            tables: self.controller.tables(),
            line: &self.outbox,
        };
        write!(f, "{listing}steps {steps} refused {refused}")
    }
}
