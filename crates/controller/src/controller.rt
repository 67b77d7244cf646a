// The controller: the level that the served user has subscribed to, and the tables.
ghost use Rattle.controller.specs.Apart.{Apart};

use tables::{Level, Tables};

mod calls;
mod room;

// All memory is in the value. Each leg is up once at most, on a call or as a party, and only legs are up.
#[derive(Debug, Drop)]
pub struct Controller {
    pub(crate) level: Level,
    pub(crate) tables: Tables,
    ghost apart: { Apart tables },
}
