// What want of room stops.
ghost use Rattle.std.specs.Prelude.{◌≡◌};
ghost use Rattle.controller.specs.Replies.{lacks_room};

use super::Controller;
use crate::carrier::Carrier;
use crate::judging::{judged, needed};
use facility::Request;

impl Controller {
    // Whether want of room would stop a request, where so many notices can be told: it needs more, and would be granted but for that.
    pub fn lacks_room(&self, room: usize, carrier: Carrier, request: Request) -> bool
        ensures { result ≡ lacks_room self.now.level room carrier request self.now.tables }
    {
        match judged(self.level, &self.tables, carrier, request) {
            Ok(deed) => room < needed(&self.tables, deed),
            Err(_) => false,
        }
    }
}
