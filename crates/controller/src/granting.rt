// What each granted operation does to the tables.
ghost use Rattle.std.specs.Prelude.{◌≡◌, ◌<◌, length};
ghost use Rattle.controller.specs.Deeds.{HasRoom, deed_effect};
ghost use Rattle.controller.specs.Granting.{added, begun_by_setup, begun_on_call, led_to, split};

use crate::deed::{Deed, FIRST_PARTY};
use tables::{Call, Conference, End, Party, State, Tables};

// The call leads to a conference now, idle or held as it was.
fn led_to(id: u8, state: State) -> State
    ensures { result ≡ led_to id state }
{
    match state {
        State::Held(_) => State::Held(End::Conference(id)),
        _ => State::Idle(End::Conference(id)),
    }
}

// Begun by SETUP: the call is idle, and the link of a conference without parties.
fn begin_by_setup(tables: &mut Tables, id: u8, size: u8, reference: u8)
    requires { length tables.old.conferences < 8 }
    ensures { tables.new ≡ (begun_by_setup id size reference tables.old).table }
{
    let call = Call {
        state: State::Idle(End::Conference(id)),
        speech: true,
    };
    tables.set_call(reference, call);
    tables.begin(Conference::new(id, size, reference)).unwrap();
}

// Begun on a call in progress: its leg becomes the first party, and the call the link.
fn begin_on_call(tables: &mut Tables, id: u8, size: u8, reference: u8, leg: u8)
    requires conferences { length tables.old.conferences < 8 }
    requires parties { length tables.old.parties < 64 }
    ensures { tables.new ≡ (begun_on_call id size reference leg tables.old).table }
{
    let call = tables.call(reference);
    let state = led_to(id, call.state);
    tables.set_call(reference, Call { state, ..call });
    tables.begin(Conference::new(id, size, reference)).unwrap();
    tables.join(id, FIRST_PARTY, leg).unwrap();
}

// Added: the call's leg becomes a party, and the call is cleared.
fn add(tables: &mut Tables, conference: u8, party: u8, reference: u8, leg: u8)
    requires { length tables.old.parties < 64 }
    ensures { tables.new ≡ (added conference party reference leg tables.old).table }
{
    let call = Call {
        state: State::Clearing,
        ..tables.call(reference)
    };
    tables.set_call(reference, call);
    tables.join(conference, party, leg).unwrap();
}

// Split off: the party is on a call of two parties again.
fn split_off(tables: &mut Tables, conference: u8, party: Party, reference: u8)
    ensures { tables.new ≡ (split conference party reference tables.old).table }
{
    let call = Call {
        state: State::Idle(End::Leg(party.leg)),
        speech: true,
    };
    tables.set_call(reference, call);
    tables.leave(conference, party.id);
}

impl Deed {
    // Does to the tables what the deed does to them.
    pub(crate) fn carry_out(self, tables: &mut Tables)
        requires { HasRoom tables.old self }
        ensures { tables.new ≡ (deed_effect tables.old self).table }
    {
        match self {
            Deed::BeginBySetup {
                id,
                size,
                reference,
            } => begin_by_setup(tables, id, size, reference),
            Deed::BeginOnCall {
                id,
                size,
                reference,
                leg,
            } => begin_on_call(tables, id, size, reference, leg),
            Deed::Add {
                conference,
                party,
                reference,
                leg,
            } => add(tables, conference, party, reference, leg),
            Deed::Split {
                conference,
                party,
                reference,
            } => split_off(tables, conference, party, reference),
            Deed::Drop { conference, party } => tables.leave(conference, party.id),
            Deed::Remark {
                conference,
                party,
                mark,
            } => if party.mark != mark {
                tables.mark(conference, party.id, mark);
            }
        }
    }
}
