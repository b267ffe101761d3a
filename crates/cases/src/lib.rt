// Worked cases: what two entities over bench suites write, call by call, and what stands on service sheets, byte for byte.
#![tactic(auto)]

ghost use Rattle.cases.specs.Cases.{Cases};
ghost use Rattle.cases.specs.SheetCases.{SheetCases};

/// Does nothing. Its contract says that the worked cases follow from the definitions.
pub fn cases_stand()
    ensures { Cases }
{}

/// Does nothing. Its contract says that the worked service sheets follow from the definitions.
pub fn sheet_cases_stand()
    ensures { SheetCases }
{}
