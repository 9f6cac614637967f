// Worked cases of the rules, as a theorem about the definitions that the contracts of the calls cite.
ghost use Rattle.cases.specs.Worked.{WorkedCases};

pub fn worked_cases()
    ensures { WorkedCases }
{}
