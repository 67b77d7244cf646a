// The listing: which conferences there are, who is in them, and what each party has heard.
//
// It is told of any line by what its contract says. The text is in `specs/`.
#![tactic(auto)]

ghost use Rattle.std.specs.Prelude.{◌≡◌, Some};
ghost use Rattle.std.specs.Fmt.{WritesOnOk};
ghost use Rattle.std.specs.List.{flat_map};
ghost use Rattle.listing.specs.Listing.{phase_word, mark_word, heard_on, party_line, conference_lines, lines_at, listing};

use line::Line;
use std::fmt;
use tables::{Conference, Mark, Party, Phase, Tables};

// As in `open`.
fn phase_word(phase: Phase) -> &'static str
    ensures { result.now ≡ phase_word phase }
{
    match phase {
        Phase::Open => "open",
        Phase::Ending => "ending",
    }
}

// As in `joined`.
fn mark_word(mark: Mark) -> &'static str
    ensures { result.now ≡ mark_word mark }
{
    match mark {
        Mark::Joined => "joined",
        Mark::Isolated => "isolated",
    }
}

// The tables, and the line on which their parties hear; they print as the listing.
#[derive(Clone, Copy)]
pub struct Listing<'a, L: Line> {
    pub tables: &'a Tables,
    pub line: &'a L,
}

impl<L: Line> Listing<'_, L> {
    // The sum heard on a leg.
    fn heard_on(&self, leg: u8) -> i8
        ensures { result ≡ heard_on (L.standing self.now.line.now) leg }
    {
        self.line.standing(leg).map_or(0, |standing| standing.heard)
    }

    // As in `party 0 leg 1 joined heard 1`.
    fn write_party<W: fmt::Write>(&self, f: &mut fmt::Formatter<W>, party: Party) -> fmt::Result
        ensures { WritesOnOk W.write_str_gives f.old result (party_line (L.standing self.now.line.now) party) f.new }
    {
        let Party { id, leg, .. } = party;
        let mark = mark_word(party.mark);
        let heard = self.heard_on(leg);
        writeln!(f, "party {id} leg {leg} {mark} heard {heard}")
    }

    // A line for each of the parties.
    fn write_parties<W: fmt::Write>(
        &self,
        f: &mut fmt::Formatter<W>,
        parties: &[Party],
    ) -> fmt::Result
        ensures { WritesOnOk W.write_str_gives f.old result (flat_map (party_line (L.standing self.now.line.now)) parties.now) f.new }
    {
        for party in parties {
            self.write_party(f, *party)?;
        }
        Ok(())
    }

    // As in `conference 0 size 3 open`, and its parties below.
    fn write_conference<W: fmt::Write>(
        &self,
        f: &mut fmt::Formatter<W>,
        conference: Conference,
    ) -> fmt::Result
        ensures { WritesOnOk W.write_str_gives f.old result (conference_lines self.now.tables.now (L.standing self.now.line.now) conference) f.new }
    {
        let Conference { id, size, .. } = conference;
        let phase = phase_word(conference.phase);
        writeln!(f, "conference {id} size {size} {phase}")?;
        self.write_parties(f, &self.tables.parties_of(id))
    }

    // The conference with an id, if there is one.
    fn write_at<W: fmt::Write>(&self, f: &mut fmt::Formatter<W>, id: u8) -> fmt::Result
        ensures { WritesOnOk W.write_str_gives f.old result (lines_at self.now.tables.now (L.standing self.now.line.now) id) f.new }
    {
        match self.tables.conference(id) {
            Some(conference) => self.write_conference(f, conference),
            None => Ok(()),
        }
    }
}

impl<L: Line> fmt::Display for Listing<'_, L> {
    ghost output = { λ l. Some (listing l.tables.now (L.standing l.line.now)) };

    #[tactic(auto, using(std::proofs::lemmas::Grind::put_two, crate::proofs::Ascending::lines_none, crate::proofs::Ascending::lines_more))]
    fn fmt<W: fmt::Write>(&self, f: &mut fmt::Formatter<W>) -> fmt::Result {
        for id in 0..=u8::MAX {
            self.write_at(f, id)?;
        }
        Ok(())
    }
}
