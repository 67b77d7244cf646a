// What a served user has subscribed to.
ghost use Rattle.std.specs.Prelude.{◌≡◌, true, false, MatchResult};
ghost use Rattle.tables.specs.Levels.{Lawful, WhyNoLevel};

use crate::refusal::LevelRefusal;

// The largest size of a conference and how many there may be, whether conferences are subscribed at all, and whether one may
// be begun on a call in progress.
#[derive(Clone, Copy, PartialEq, Eq, Debug)]
pub struct Level {
    pub(crate) size: u8,
    pub(crate) conferences: u8,
    pub(crate) subscribed: bool,
    pub(crate) active: bool,
    ghost lawful: { Lawful size conferences },
}

impl Level {
    ghost use Rattle.tables.specs.LevelWords.{Offers};

    // A level, if there is such a one: the size is looked at first.
    pub fn new(
        size: u8,
        conferences: u8,
        subscribed: bool,
        active: bool,
    ) -> Result<Level, LevelRefusal>
        ensures { MatchResult result (Offers size conferences subscribed active) (WhyNoLevel size conferences) }
    {
        if !(1..=30).contains(&size) {
            return Err(LevelRefusal::Size);
        }
        if !(1..=8).contains(&conferences) {
            return Err(LevelRefusal::Conferences);
        }
        Ok(Level {
            size,
            conferences,
            subscribed,
            active,
        })
    }

    // Three parties in one conference, begun from idle only.
    pub fn trio(subscribed: bool) -> Level
        ensures { Offers 3 1 subscribed false result }
    {
        Level {
            size: 3,
            conferences: 1,
            subscribed,
            active: false,
        }
    }

    // Ten parties in each of four conferences.
    pub fn round(subscribed: bool) -> Level
        ensures { Offers 10 4 subscribed true result }
    {
        Level {
            size: 10,
            conferences: 4,
            subscribed,
            active: true,
        }
    }

    // Thirty parties in each of eight conferences.
    pub fn assembly(subscribed: bool) -> Level
        ensures { Offers 30 8 subscribed true result }
    {
        Level {
            size: 30,
            conferences: 8,
            subscribed,
            active: true,
        }
    }

    // The most parties that a conference may have.
    pub fn size(&self) -> u8
        ensures { result ≡ self.now.size }
    {
        self.size
    }

    // How many conferences there may be.
    pub fn conferences(&self) -> u8
        ensures { result ≡ self.now.conferences }
    {
        self.conferences
    }

    // Whether conferences are subscribed at all.
    pub fn subscribed(&self) -> bool
        ensures { result ≡ self.now.subscribed }
    {
        self.subscribed
    }

    // Whether a conference may be begun on a call in progress.
    pub fn active(&self) -> bool
        ensures { result ≡ self.now.active }
    {
        self.active
    }
}
