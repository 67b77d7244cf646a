// What a step is answered.

use components::Message;
use controller::Disc;
use tables::Refusal;

#[derive(Clone, Copy)]
pub enum Answer {
    // nothing was done
    Refused(Refusal),
    // a report was accepted, or the line collected: how many legs are gone, and the PartyDISC that is to be sent, if any
    Done { gone: usize, disc: Option<Disc> },
    // a request is answered by a message body: and how many legs are gone
    Replied { message: Message, gone: usize },
}
