// The operations of the conference service, each with its number.
ghost use Rattle.std.specs.Prelude.{◌≡◌, pos};
ghost use Rattle.facility.specs.Operations.{operation_number};

#[derive(Clone, Copy, PartialEq, Eq, Debug)]
pub enum Operation {
    Begin = 40,
    Add = 41,
    Split = 42,
    Drop = 43,
    Isolate = 44,
    Reattach = 45,
    // no request: the exchange tells a served user that a party has left
    PartyDisc = 46,
}

impl Operation {
    // The number that an invoke, or a result, carries.
    pub fn number(self) -> i16
        ensures { result ≡ pos (operation_number self) }
    {
        self as i16
    }
}
