// Answers each line of a script.
ghost use Rattle.std.specs.Prelude.{◌≡◌, None, OnOk};
ghost use Rattle.lines.specs.Answering.{Says, SaysNothing};
ghost use Rattle.lines.specs.Spelling.{spelled};
ghost use Rattle.exchange.specs.Answers.{reply_text};
ghost use Rattle.exchange.specs.Course.{answered, Does, last_account, line};
ghost use Rattle.script.specs.Script.{asked, collect, level, parsed, reported};

use crate::answer::{Collected, Reply};
use crate::service::Service;
use controller::{Carrier, Report};
use lines::{Answers, HexError, LineHandler, read_octets};
use operator::Step;
use script::Line;
use std::alloc::{AllocError, Global};
use tables::Level;

// The exchange that goes on, if one has begun; and memory for a request's octets.
#[derive(Drop)]
pub struct Exchange {
    service: Option<Service>,
    octets: Vec<u8>,
}

// Appends an answer.
fn say(reply: Reply, answers: &mut Answers) -> Result<(), AllocError>
    ensures said { Says result answers.old answers.new (line (reply_text reply)) }
    ensures kept { SaysNothing result answers.old answers.new }
{
    answers.append_line(reply)
}

impl Exchange {
    // No exchange has begun.
    pub fn new(heap: Global) -> Exchange
        ensures { result.service ≡ None }
    {
        Exchange {
            service: None,
            octets: Vec::new(heap),
        }
    }

    // Appends the account of the exchange that goes on.
    fn account(&self, answers: &mut Answers) -> Result<(), AllocError>
        ensures said { Says result answers.old answers.new (last_account self.now.service) }
        ensures kept { SaysNothing result answers.old answers.new }
    {
        match &self.service {
            Some(service) => answers.append_line(service),
            None => Ok(()),
        }
    }

    // Begins a new exchange, if there is such a level.
    fn begin(
        &mut self,
        size: u8,
        conferences: u8,
        subscribed: bool,
        active: bool,
        answers: &mut Answers,
    ) -> Result<(), AllocError>
        ensures said { Says result answers.old answers.new
            (answered (level size conferences subscribed active) self.old.service) }
        ensures kept { SaysNothing result answers.old answers.new }
        ensures done { OnOk result (Does (level size conferences subscribed active) self.old.service self.new.service) }
    {
        match Level::new(size, conferences, subscribed, active) {
            Ok(level) => {
                self.account(answers)?;
                self.service = Some(Service::new(level));
                Ok(())
            }
            Err(refusal) => say(Reply::LevelRefused(refusal), answers),
        }
    }

    // Takes a report.
    fn report(&mut self, report: Report, answers: &mut Answers) -> Result<(), AllocError>
        ensures said { Says result answers.old answers.new (answered (reported report) self.old.service) }
        ensures kept { SaysNothing result answers.old answers.new }
        ensures done { OnOk result (Does (reported report) self.old.service self.new.service) }
    {
        let reply = match &mut self.service {
            Some(service) => Reply::Answered(service.take(Step::Reported(report))),
            None => Reply::NoLevel,
        };
        say(reply, answers)
    }

    // Takes a request, with its octets as they are spelled.
    fn request(
        &mut self,
        away: bool,
        carrier: Carrier,
        hex: &[u8],
        answers: &mut Answers,
    ) -> Result<(), AllocError>
        ensures said { Says result answers.old answers.new
            (answered (asked away carrier (spelled hex.now)) self.old.service) }
        ensures kept { SaysNothing result answers.old answers.new }
        ensures done { OnOk result (Does (asked away carrier (spelled hex.now)) self.old.service self.new.service) }
    {
        let reply = match (read_octets(hex, &mut self.octets), &mut self.service) {
            (Err(HexError::OutOfMemory), _) => return Err(AllocError),
            (Err(HexError::NotOctets), _) => Reply::NotUnderstood,
            (Ok(()), None) => Reply::NoLevel,
            (Ok(()), Some(service)) => service.request(away, carrier, self.octets.as_slice()),
        };
        say(reply, answers)
    }

    // Hands over what waits.
    fn collect(&mut self, answers: &mut Answers) -> Result<(), AllocError>
        ensures said { Says result answers.old answers.new (answered collect self.old.service) }
        ensures kept { SaysNothing result answers.old answers.new }
        ensures done { OnOk result (Does collect self.old.service self.new.service) }
    {
        match &mut self.service {
            Some(service) => {
                answers.append_line(Collected(service.outbox()))?;
                let _ = service.take(Step::Collected);
                Ok(())
            }
            None => say(Reply::NoLevel, answers),
        }
    }

    // Takes a line.
    fn take_line(&mut self, text: &[u8], answers: &mut Answers) -> Result<(), AllocError>
        ensures said { Says result answers.old answers.new (answered (parsed text.now) self.old.service) }
        ensures kept { SaysNothing result answers.old answers.new }
        ensures done { OnOk result (Does (parsed text.now) self.old.service self.new.service) }
    {
        match Line::of(text) {
            Line::Blank => Ok(()),
            Line::NotUnderstood => say(Reply::NotUnderstood, answers),
            Line::Level {
                size,
                conferences,
                subscribed,
                active,
            } => self.begin(size, conferences, subscribed, active, answers),
            Line::Reported(report) => self.report(report, answers),
            Line::Request { away, carrier, hex } => self.request(away, carrier, hex, answers),
            Line::Collect => self.collect(answers),
        }
    }
}

// The end of a script is answered by the account of the last exchange.
impl LineHandler for Exchange {
    ghost takes = { λ e text told e'.
        (told ≡ answered (parsed text) e.service) × Does (parsed text) e.service e'.service };

    ghost ends = { λ e told _. told ≡ last_account e.service };

    fn line(&mut self, line: &[u8], answers: &mut Answers) -> Result<(), AllocError> {
        self.take_line(line, answers)
    }

    fn end(&mut self, answers: &mut Answers) -> Result<(), AllocError> {
        self.account(answers)
    }
}
