// A request that waits for its answer.
ghost use Rattle.std.specs.Prelude.{◌≡◌, MatchResult, true, false};
ghost use Rattle.components.specs.Message.{message_octets};
ghost use Rattle.controller.specs.Judging.{reference_of};
ghost use Rattle.controller.specs.Outcomes.{Settles, request_of};
ghost use Rattle.controller.specs.Replies.{settled, turned_away};
ghost use Rattle.controller.specs.Steps.{is_reference};
ghost use Rattle.line.specs.Order.{TellsInOrder};
ghost use Rattle.tables.specs.declared.refusal.Refusal.TheVariants.{OutOfRange};

use crate::carrier::Carrier;
use crate::controller::Controller;
use crate::doing::do_deed;
use crate::judging::verdict;
use crate::replying::{reply, turned_away};
use components::Message;
use facility::{Request, RequestInvoke};
use line::Line;
use tables::Refusal;

// A request with its invoke id, and what carried it. It must be settled or turned away, and either spends it: it can be neither dropped nor copied.
pub struct PendingReply {
    carrier: Carrier,
    request: Request,
    id: i16,
}

// What answers a request: the message body, and how many legs are gone.
#[derive(Clone, Copy)]
pub struct Reply {
    pub message: Message,
    pub gone: usize,
}

impl PendingReply {
    // A request with its carrier; a reference that is not 1 to 127 is refused, and then there is nothing to answer.
    pub fn new(carrier: Carrier, asked: RequestInvoke) -> Result<PendingReply, Refusal>
        ensures { MatchResult result (λ p. (is_reference (reference_of carrier) ≡ true) × (p.carrier ≡ carrier) × (request_of p ≡ asked)) (λ why. (is_reference (reference_of carrier) ≡ false) × (why ≡ OutOfRange)) }
    {
        if !carrier.in_range() {
            return Err(Refusal::OutOfRange);
        }
        let RequestInvoke { id, request } = asked;
        Ok(PendingReply {
            carrier,
            request,
            id,
        })
    }

    // Settles the request: granted, and done; or an error or a reject, and then nothing changes.
    #[tactic(auto, using(crate::proofs::Tellable::granted_tellable, crate::proofs::Granted::granted_apart, crate::proofs::Room::granted_room))]
    pub fn settle<L: Line>(self, controller: &mut Controller, line: &mut L) -> Reply
        ensures answered { Settles (settled controller.old.level (L.room line.old) self.carrier (request_of self) controller.old.tables) result controller.new.tables (L.standing line.old) (L.standing line.new) (L.room line.old) (L.room line.new) }
        ensures order { TellsInOrder L.tells (settled controller.old.level (L.room line.old) self.carrier (request_of self) controller.old.tables).effect.told line.old line.new }
        ensures level { controller.new.level ≡ controller.old.level }
    {
        let PendingReply {
            carrier,
            request,
            id,
        } = self;
        let tables = &controller.tables;
        let verdict = verdict(controller.level, tables, line.room(), carrier, request);
        let message = reply(carrier, id, tables, verdict);
        let gone = match verdict {
            Ok(deed) => do_deed(&mut controller.tables, line, deed),
            Err(_) => 0,
        };
        Reply { message, gone }
    }

    // Turns the request away, with nothing looked at: resources are short.
    pub fn turn_away(self) -> Message
        ensures { message_octets result ≡ turned_away (request_of self) }
    {
        let PendingReply {
            carrier: _,
            request,
            id,
        } = self;
        turned_away(RequestInvoke { id, request })
    }
}
