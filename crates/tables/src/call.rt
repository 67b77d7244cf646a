// A call: the connection between the exchange and a telephone of the served user.
ghost use Rattle.std.specs.Prelude.{◌≡◌};
ghost use Rattle.tables.specs.Calls.{absent, next_call, own_leg, leads_to_conference, leads_to_leg};

// What an idle or held call leads to.
#[derive(Clone, Copy, PartialEq, Eq, Debug)]
pub enum End {
    // the connection to a remote user, by its number
    Leg(u8),
    // a conference, by its ConferenceId; the call is its link
    Conference(u8),
}

#[derive(Clone, Copy, PartialEq, Eq, Debug)]
pub enum State {
    Absent,
    Calling,
    Idle(End),
    Held(End),
    Clearing,
}

// Its state, and whether it carries speech.
#[derive(Clone, Copy, PartialEq, Eq, Debug)]
pub struct Call {
    pub state: State,
    pub speech: bool,
}

// What the exchange reports of a call.
#[derive(Clone, Copy, PartialEq, Eq, Debug)]
pub enum Event {
    Calling,
    // a remote user answered, on this leg
    Answer { leg: u8, speech: bool },
    Hold,
    Retrieve,
    // the remote user of the call's leg cleared
    RemoteClearing,
    Disconnect,
    Released,
}

impl Call {
    // No call.
    pub fn absent() -> Call
        ensures { result ≡ absent }
    {
        Call {
            state: State::Absent,
            speech: false,
        }
    }

    // The call after an event; none where the event does not belong to its state.
    pub fn after(self, event: Event) -> Option<Call>
        ensures { result ≡ next_call event self }
    {
        let state = match (self.state, event) {
            (State::Absent, Event::Calling) => State::Calling,
            (State::Calling, Event::Answer { leg, speech }) => {
                return Some(Call {
                    state: State::Idle(End::Leg(leg)),
                    speech,
                });
            }
            (State::Idle(end), Event::Hold) => State::Held(end),
            (State::Held(end), Event::Retrieve) => State::Idle(end),
            (State::Idle(End::Leg(_)) | State::Held(End::Leg(_)), Event::RemoteClearing) => {
                State::Clearing
            }
            (State::Calling | State::Idle(_) | State::Held(_), Event::Disconnect) =>
                State::Clearing,
            (State::Clearing, Event::Released) => return Some(Call::absent()),
            _ => return None,
        };
        Some(Call { state, ..self })
    }

    // The leg that the call leads to, if it is in progress to a remote user.
    pub fn own_leg(self) -> Option<u8>
        ensures { result ≡ own_leg self.state }
    {
        match self.state {
            State::Idle(End::Leg(leg)) | State::Held(End::Leg(leg)) => Some(leg),
            _ => None,
        }
    }

    // The conference that the call is the link of.
    pub fn conference(self) -> Option<u8>
        ensures { result ≡ leads_to_conference self.state }
    {
        match self.state {
            State::Idle(End::Conference(id)) | State::Held(End::Conference(id)) => Some(id),
            _ => None,
        }
    }

    // Whether the call leads to a leg.
    pub fn leads_to(self, leg: u8) -> bool
        ensures { result ≡ leads_to_leg leg self.state }
    {
        self.own_leg() == Some(leg)
    }
}
