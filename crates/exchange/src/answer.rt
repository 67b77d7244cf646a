// What the lines of a script are answered, as it is printed.
ghost use Rattle.std.specs.Prelude.{Some};
ghost use Rattle.std.specs.Fmt.{WritesOnOk};
ghost use Rattle.std.specs.List.{flat_map};
ghost use Rattle.line.specs.Outboxes.{waiting};
ghost use Rattle.operator.specs.Answers.{in_octets};
ghost use Rattle.operator.specs.Turns.{done};
ghost use Rattle.exchange.specs.Answers.{answer_text, collected_text, notify_text, reply_text};

use controller::Disc;
use facility::{Fault, Pairs, Replied};
use line::Outbox;
use operator::Answer;
use std::fmt;
use tables::LevelRefusal;

// The answer to a line that has one line of answer.
#[derive(Clone, Copy)]
pub enum Reply {
    Answered(Answer),
    // octets that are no request
    Faulty(Fault),
    LevelRefused(LevelRefusal),
    // a step where no exchange has begun
    NoLevel,
    NotUnderstood,
}

// The PartyDISC that a step sends, behind the legs gone.
fn write_done<W: fmt::Write>(
    f: &mut fmt::Formatter<W>,
    gone: usize,
    disc: Option<Disc>,
) -> fmt::Result
    ensures { WritesOnOk W.write_str_gives f.old result (answer_text (done gone disc)) f.new }
{
    match disc {
        Some(disc) => write!(
            f,
            "gone {gone} to {}{}",
            disc.link,
            Pairs(disc.message().octets())
        ),
        None => write!(f, "gone {gone}"),
    }
}

// The answer to a step.
fn write_answer<W: fmt::Write>(f: &mut fmt::Formatter<W>, answer: Answer) -> fmt::Result
    ensures { WritesOnOk W.write_str_gives f.old result (answer_text (in_octets answer)) f.new }
{
    match answer {
        Answer::Refused(refusal) => write!(f, "refused {}", refusal.number()),
        Answer::Done { gone, disc } => write_done(f, gone, disc),
        Answer::Replied { message, gone } => {
            write!(f, "gone {gone} reply{}", Pairs(message.octets()))
        }
    }
}

impl fmt::Display for Reply {
    ghost output = { λ r. Some (reply_text r) };

    fn fmt<W: fmt::Write>(&self, f: &mut fmt::Formatter<W>) -> fmt::Result {
        match *self {
            Reply::Answered(answer) => write_answer(f, answer),
            Reply::Faulty(fault) => write!(f, "{}", Replied(fault)),
            Reply::LevelRefused(refusal) => write!(f, "level refused {}", refusal.number()),
            Reply::NoLevel => write!(f, "no level"),
            Reply::NotUnderstood => write!(f, "not understood"),
        }
    }
}

// A message that waited.
fn write_notice<W: fmt::Write>(f: &mut fmt::Formatter<W>, message: &[u8; 5]) -> fmt::Result
    ensures { WritesOnOk W.write_str_gives f.old result (notify_text message.now) f.new }
{
    writeln!(f, "notify {}{}", message[0], Pairs(&message[1..]))
}

// The messages that waited, the oldest first.
fn write_notices<W: fmt::Write>(f: &mut fmt::Formatter<W>, outbox: &Outbox) -> fmt::Result
    ensures { WritesOnOk W.write_str_gives f.old result (flat_map notify_text (waiting outbox.now)) f.new }
{
    for place in 0..outbox.waiting() {
        let Some(message) = outbox.message(place) else {
            unreachable!()
        };
        write_notice(f, message.octets)?;
    }
    Ok(())
}

// An outbox that is collected: it prints as the messages that waited, the oldest first, and how many.
#[derive(Clone, Copy)]
pub struct Collected<'a>(pub &'a Outbox);

impl fmt::Display for Collected<'_> {
    ghost output = { λ c. Some (collected_text (waiting c.0.now)) };

    fn fmt<W: fmt::Write>(&self, f: &mut fmt::Formatter<W>) -> fmt::Result {
        write_notices(f, self.0)?;
        write!(f, "collected {}", self.0.waiting())
    }
}
