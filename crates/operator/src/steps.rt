// What the operator does with a controller and its line.

use controller::{Carrier, Report};
use facility::RequestInvoke;

#[derive(Clone, Copy, PartialEq, Eq, Debug)]
pub enum Step {
    // the exchange reports
    Reported(Report),
    // a request of a served user is answered
    Settled {
        carrier: Carrier,
        asked: RequestInvoke,
    },
    // a request is turned away, with nothing looked at
    TurnedAway {
        carrier: Carrier,
        asked: RequestInvoke,
    },
    // what waits on the line is handed over
    Collected,
}
