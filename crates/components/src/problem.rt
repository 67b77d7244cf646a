// The problems that a reject of the exchange names, each with its number.
ghost use Rattle.std.specs.Prelude.{◌≡◌};
ghost use Rattle.components.specs.Problems.{general_number, invoke_number};

// Of a component as such.
#[derive(Clone, Copy, PartialEq, Eq, Debug)]
pub enum GeneralProblem {
    UnrecognizedComponent = 0,
    MistypedComponent = 1,
    BadlyStructuredComponent = 2,
}

impl GeneralProblem {
    // The number that a reject carries.
    pub fn number(self) -> u8
        ensures { result ≡ general_number self }
    {
        self as u8
    }
}

// Of an invoke.
#[derive(Clone, Copy, PartialEq, Eq, Debug)]
pub enum InvokeProblem {
    UnrecognizedOperation = 1,
    MistypedArgument = 2,
    ResourceLimitation = 3,
}

impl InvokeProblem {
    // The number that a reject carries.
    pub fn number(self) -> u8
        ensures { result ≡ invoke_number self }
    {
        self as u8
    }
}
