// The worked examples.
ghost use Rattle.cases.specs.Examples.{ExamplesHold};

// In each worked example the rules give what stands beside it. It does nothing: its contract is the tables.
pub fn examples_hold()
    ensures { ExamplesHold }
{}
