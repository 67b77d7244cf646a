// What is told, and to whom.
ghost use Rattle.std.specs.Option.{option_to_list};
ghost use Rattle.std.specs.Prelude.{◌≡◌, ◌≤◌, [], All, length};
ghost use Rattle.line.specs.Meaning.{Leg};
ghost use Rattle.controller.specs.Deeds.{deed_effect, told_list};
ghost use Rattle.controller.specs.Steps.{each, others};
ghost use Rattle.controller.specs.Telling.{Delivered, Tellable};
ghost use Rattle.line.specs.Order.{TellsInOrder};
ghost use Rattle.tables.specs.Table.{legs_of};

use crate::deed::Deed;
use arrayvec::ArrayVec;
use line::{Line, Notice, tell_each};
use tables::{Mark, Party, Tables};

// First a notice to a leg of its own, if there is one, and then another to each of the hearers.
#[derive(Drop)]
pub(crate) struct Told {
    own: Option<(u8, Notice)>,
    other: Notice,
    hearers: ArrayVec<Party, 64>,
}

// The parties of a conference but one, in order of joining.
fn others(tables: &Tables, conference: u8, but: u8) -> ArrayVec<Party, 64>
    ensures { result.items ≡ others tables.now conference but }
{
    let mut parties = tables.parties_of(conference);
    parties.retain(|p| p.id != but);
    parties
}

// What is told of a party that comes to be marked: nothing, if it is marked so already.
fn told_of_mark(tables: &Tables, conference: u8, party: Party, mark: Mark) -> Told
    ensures { told_list result ≡ (deed_effect tables.now (Deed.Remark conference party mark)).told }
{
    if party.mark == mark {
        return Told::nothing();
    }
    let (own, other) = match mark {
        Mark::Isolated => (Notice::Isolated, Notice::OtherIsolated),
        Mark::Joined => (Notice::Reattached, Notice::OtherReattached),
    };
    Told {
        own: Some((party.leg, own)),
        other,
        hearers: others(tables, conference, party.id),
    }
}

// The legs of some parties, in their order.
fn legs_of(parties: &ArrayVec<Party, 64>) -> ArrayVec<u8, 64>
    ensures { result.items ≡ legs_of parties.now.items }
{
    let mut legs = ArrayVec::new();
    let all = parties.as_slice();
    for party in all {
        legs.push(party.leg);
    }
    legs
}

// Tells a notice to a leg, if there is one to tell.
fn tell_own<L: Line>(own: Option<(u8, Notice)>, line: &mut L)
    requires { Tellable (option_to_list own) (L.room line.old) }
    ensures delivered { Delivered (option_to_list own) (L.standing line.old) (L.standing line.new) (L.room line.old) (L.room line.new) }
    ensures order { TellsInOrder L.tells (option_to_list own) line.old line.new }
{
    if let Some((leg, notice)) = own {
        line.tell(leg, notice).unwrap();
    }
}

// Tells a notice to each of some parties.
fn tell_parties<L: Line>(parties: &ArrayVec<Party, 64>, notice: Notice, line: &mut L)
    requires roomy { length parties.now.items ≤ L.room line.old }
    requires legs { All (λ party. Leg party.leg) parties.now.items }
    ensures delivered { Delivered (each notice parties.now.items) (L.standing line.old) (L.standing line.new) (L.room line.old) (L.room line.new) }
    ensures order { TellsInOrder L.tells (each notice parties.now.items) line.old line.new }
{
    tell_each(line, &legs_of(parties), notice).unwrap();
}

impl Told {
    // Nothing is told; the other notice has no hearers, so it does not matter which it is.
    pub(crate) fn nothing() -> Told
        ensures { told_list result ≡ [] }
    {
        Told {
            own: None,
            other: Notice::OtherAdded,
            hearers: ArrayVec::new(),
        }
    }

    // A party left: the others hear of it.
    pub(crate) fn of_leaving(tables: &Tables, conference: u8, party: u8) -> Told
        ensures { told_list result ≡ each Notice.OtherDisconnected (others tables.now conference party) }
    {
        Told {
            own: None,
            other: Notice::OtherDisconnected,
            hearers: others(tables, conference, party),
        }
    }

    // Tells it all on a line that has room for it.
    #[tactic(auto, using(line::proofs::Orders::order_append))]
    pub(crate) fn tell<L: Line>(&self, line: &mut L)
        requires { Tellable (told_list self.now) (L.room line.old) }
        ensures delivered { Delivered (told_list self.now) (L.standing line.old) (L.standing line.new) (L.room line.old) (L.room line.new) }
        ensures order { TellsInOrder L.tells (told_list self.now) line.old line.new }
    {
        tell_own(self.own, line);
        tell_parties(&self.hearers, self.other, line);
    }

    // How many notices are told.
    pub(crate) fn count(&self) -> usize
        ensures { result ≡ length (told_list self.now) }
    {
        match self.own {
            Some(_) => self.hearers.len() + 1,
            None => self.hearers.len(),
        }
    }
}

impl Deed {
    // What the deed tells, by the tables before it.
    pub(crate) fn told(self, tables: &Tables) -> Told
        ensures { told_list result ≡ (deed_effect tables.now self).told }
    {
        match self {
            Deed::BeginBySetup { .. } => Told::nothing(),
            Deed::BeginOnCall { leg, .. } => Told {
                own: Some((leg, Notice::Established)),
                other: Notice::OtherAdded,
                hearers: ArrayVec::new(),
            },
            Deed::Add {
                conference,
                leg,
                ..
            } => Told {
                own: Some((leg, Notice::Established)),
                other: Notice::OtherAdded,
                hearers: tables.parties_of(conference),
            },
            Deed::Split {
                conference,
                party,
                ..
            } => Told {
                own: Some((party.leg, Notice::Disconnected)),
                other: Notice::OtherSplit,
                hearers: others(tables, conference, party.id),
            },
            Deed::Drop { conference, party } => Told::of_leaving(tables, conference, party.id),
            Deed::Remark {
                conference,
                party,
                mark,
            } => told_of_mark(tables, conference, party, mark),
        }
    }
}
