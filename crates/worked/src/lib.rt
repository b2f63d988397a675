// The worked cases, computed.
#![tactic(auto)]

ghost use Rattle.worked.specs.Worked.{WorkedCases};

// Each of the worked cases comes out as it should.
pub fn worked_cases()
    ensures { WorkedCases }
{}
