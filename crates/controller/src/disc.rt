// A PartyDISC that is to be sent: to the link of a conference, of a party, with an invoke id.
ghost use Rattle.std.specs.Prelude.{◌≡◌, pos};
ghost use Rattle.ber.specs.Integer.{integer_octets};
ghost use Rattle.components.specs.Message.{message_octets};
ghost use Rattle.controller.specs.Discs.{disc_octets};

use crate::composing::{FACILITY, compose};
use ber::INTEGER;
use components::{Component, Message, Parameter};
use facility::Operation;

// The greatest PartyId that one octet holds.
const MOST_SHORT: u8 = 127;

#[derive(Clone, Copy, PartialEq, Eq, Debug)]
pub struct Disc {
    pub link: u8,
    pub party: u8,
    pub id: u8,
}

impl Disc {
    // The message with the PartyId in these octets.
    fn with_party(&self, octets: &[u8]) -> Message
        requires { octets.now ≡ integer_octets (pos self.now.party) }
        ensures { message_octets result ≡ disc_octets self.now }
    {
        let component = Component::Invoke {
            id: i16::from(self.id),
            operation: Operation::PartyDisc.number(),
            argument: Some(Parameter { octets, place: 0 }),
        };
        compose(FACILITY, &component)
    }

    // The message body: FACILITY with an invoke, and the PartyId as an INTEGER in the fewest octets, two if it is above 127.
    pub fn message(&self) -> Message
        ensures { message_octets result ≡ disc_octets self.now }
    {
        match self.party {
            party @ 0..=MOST_SHORT => self.with_party(&[INTEGER, 1, party]),
            party => self.with_party(&[INTEGER, 2, 0, party]),
        }
    }
}
