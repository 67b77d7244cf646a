// The lines of a script.
ghost use Rattle.std.specs.Prelude.{◌≡◌};
ghost use Rattle.std.specs.Option.{option_map};
ghost use Rattle.script.specs.Script.{a_level, an_answer, by_facility, by_keyword, by_setup, by_word, only_number, parsed, requested, said};
ghost use Rattle.script.specs.Words.{behind_word, first_word};

use crate::keyword::Keyword;
use crate::words::Words;
use controller::{Carrier, Report};

// A line, by what it asks for.
#[derive(Clone, Copy)]
pub enum Line<'a> {
    Blank,
    NotUnderstood,
    // a new exchange, at a level
    Level {
        size: u8,
        conferences: u8,
        subscribed: bool,
        active: bool,
    },
    Reported(Report),
    // a request, settled or turned away; its octets as they are spelled
    Request {
        away: bool,
        carrier: Carrier,
        hex: &'a [u8],
    },
    Collect,
}

// A level: its size, its conferences, whether they are subscribed, and whether they begin on a call in progress.
fn level<'a>(mut words: Words<'_>) -> Option<Line<'a>>
    ensures { option_map said result ≡ a_level words.entry.rest.now }
{
    let size = words.number()?;
    let conferences = words.number()?;
    let subscribed = words.either(b"subscribed", b"unsubscribed")?;
    let active = words.either(b"active", b"idle")?;
    words.is_over().then_some(Line::Level {
        size,
        conferences,
        subscribed,
        active,
    })
}

// A remote user answered.
fn answer(mut words: Words<'_>) -> Option<Report>
    ensures { result ≡ an_answer words.entry.rest.now }
{
    let reference = words.number()?;
    let leg = words.number()?;
    let speech = words.either(b"speech", b"other")?;
    words.is_over().then_some(Report::Answer {
        reference,
        leg,
        speech,
    })
}

// A number, and nothing behind it.
fn only_number(mut words: Words<'_>) -> Option<u8>
    ensures { result ≡ only_number words.entry.rest.now }
{
    let number = words.number()?;
    words.is_over().then_some(number)
}

// A request in a FACILITY.
fn facility(away: bool, mut words: Words<'_>) -> Option<Line<'_>>
    ensures { option_map said result ≡ by_facility away words.entry.rest.now }
{
    let reference = words.number()?;
    Some(Line::Request {
        away,
        carrier: Carrier::Facility { reference },
        hex: words.rest,
    })
}

// A request in a SETUP.
fn setup(away: bool, mut words: Words<'_>) -> Option<Line<'_>>
    ensures { option_map said result ≡ by_setup away words.entry.rest.now }
{
    let reference = words.number()?;
    let speech = words.either(b"speech", b"other")?;
    Some(Line::Request {
        away,
        carrier: Carrier::Setup { reference, speech },
        hex: words.rest,
    })
}

// A request that is turned away.
fn turned_away(mut words: Words<'_>) -> Option<Line<'_>>
    ensures { option_map said result ≡ requested words.entry.rest.now }
{
    match Keyword::of(words.word())? {
        Keyword::Facility => facility(true, words),
        Keyword::Setup => setup(true, words),
        _ => None,
    }
}

// A line of a kind, by the words behind its first.
fn by_keyword(keyword: Keyword, words: Words<'_>) -> Option<Line<'_>>
    ensures { option_map said result ≡ by_keyword keyword words.entry.rest.now }
{
    let report = match keyword {
        Keyword::Level => return level(words),
        Keyword::Facility => return facility(false, words),
        Keyword::Setup => return setup(false, words),
        Keyword::Away => return turned_away(words),
        Keyword::Collect => return words.is_over().then_some(Line::Collect),
        Keyword::Answer => answer(words)?,
        Keyword::Calling => Report::Calling {
            reference: only_number(words)?,
        },
        Keyword::Hold => Report::Hold {
            reference: only_number(words)?,
        },
        Keyword::Retrieve => Report::Retrieve {
            reference: only_number(words)?,
        },
        Keyword::Clearing => Report::RemoteClearing {
            leg: only_number(words)?,
        },
        Keyword::Disconnect => Report::Disconnect {
            reference: only_number(words)?,
        },
        Keyword::Released => Report::Released {
            reference: only_number(words)?,
        },
    };
    Some(Line::Reported(report))
}

// A line by its first word and those behind it.
fn by_word<'a>(word: &[u8], words: Words<'a>) -> Option<Line<'a>>
    ensures { option_map said result ≡ by_word word.now words.entry.rest.now }
{
    by_keyword(Keyword::of(word)?, words)
}

impl<'a> Line<'a> {
    // What a text asks for.
    pub fn of(text: &'a [u8]) -> Line<'a>
        ensures { said result ≡ parsed text.now }
    {
        let mut words = Words { rest: text };
        let first = words.word();
        if first.is_empty() {
            return Line::Blank;
        }
        by_word(first, words).unwrap_or(Line::NotUnderstood)
    }
}
