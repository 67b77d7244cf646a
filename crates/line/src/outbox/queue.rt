// The messages that wait, in the order in which they were told.
ghost use Rattle.std.specs.Prelude.{◌≡◌, ℕ, [], length};
ghost use Rattle.line.specs.Notices.{fresh};
ghost use Rattle.line.specs.Outboxes.{notify, waiting, OutboxCollects, outbox_room, outbox_standing, OutboxTells, HandsOut};

use super::Outbox;
use crate::board::Board;
use crate::leg::LegNumber;
use crate::meaning::{Line, Refusal};
use crate::notice::Notice;
use crate::standing::Standing;
use arrayvec::ArrayVec;

// A message that waits, as a part of the outbox, and its place in the queue: the oldest is at 0.
#[derive(Clone, Copy, PartialEq, Eq, Debug)]
pub struct Waiting<'a> {
    pub place: usize,
    pub octets: &'a [u8; 5],
}

// The message type NOTIFY.
const NOTIFY: u8 = 0x6e;

// The identifier of the Notification indicator.
const NOTIFICATION_INDICATOR: u8 = 0x27;

// The message by which a remote user hears a notice: its leg, NOTIFY, and the Notification indicator with one octet.
fn notify_message(leg: LegNumber, notice: Notice) -> [u8; 5]
    ensures { result ≡ notify leg.number notice }
{
    [leg.number, NOTIFY, NOTIFICATION_INDICATOR, 1, notice.code()]
}

impl Outbox {
    // Nobody has heard anything, and nothing waits.
    pub fn new() -> Outbox
        ensures standings { (k : ℕ) → outbox_standing result k ≡ fresh }
        ensures empty { waiting result ≡ [] }
    {
        Outbox {
            board: Board::new(),
            messages: ArrayVec::new(),
        }
    }

    // How many messages wait.
    pub fn waiting(&self) -> usize
        ensures { result ≡ length (waiting self.now) }
    {
        self.messages.len()
    }

    // The message at a place in the queue; none past the last.
    pub fn message(&self, place: usize) -> Option<Waiting<'_>>
        ensures { HandsOut self.now place result }
    {
        let octets = self.messages.get(place)?;
        Some(Waiting { place, octets })
    }
}

impl Line for Outbox {
    ghost standing = { outbox_standing };

    ghost room = { outbox_room };

    ghost tells = { OutboxTells };

    ghost collects = { OutboxCollects };

    fn tell(&mut self, leg: u8, notice: Notice) -> Result<(), Refusal> {
        let leg = LegNumber::try_from(leg)?;
        if self.messages.is_full() {
            return Err(Refusal::NoRoom);
        }
        self.board.hear(leg, notice);
        self.messages.push(notify_message(leg, notice));
        Ok(())
    }

    fn room(&self) -> usize {
        self.messages.remaining_capacity()
    }

    fn standing(&self, leg: u8) -> Result<Standing, Refusal> {
        self.board.standing(leg)
    }

    fn collect(&mut self) {
        self.messages.clear();
    }
}
