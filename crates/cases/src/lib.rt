#![tactic(auto)]

ghost use Rattle.cases.specs.Cases.{WorkedCases};

// The worked cases hold, over the definitions that the contracts of the tables use.
pub fn worked_cases() -> bool
    ensures { WorkedCases }
{
    true
}
