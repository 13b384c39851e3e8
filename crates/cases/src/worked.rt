ghost use Rattle.cases.specs.Cases.{WorkedCases};

// Carries the worked cases in its contract: figures that the definitions of the contracts give.
pub fn worked_cases()
    ensures { WorkedCases }
{}
