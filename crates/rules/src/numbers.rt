ghost use Rattle.std.specs.Prelude.{◌≡◌};
ghost use Rattle.lattice.specs.Faults.{numbered};
ghost use Rattle.rules.specs.Faults.{rule_number, refusal};

use crate::faults::{DesignFault, Rule};

impl Rule {
    // The number of a refusal by the rule. A method, since a conversion into a number would not say which.
    pub fn number(&self) -> u32
        ensures { result ≡ rule_number self.now }
    {
        match self {
            Rule::Sizes => 3,
            Rule::Links => 4,
            Rule::Levels => 5,
            Rule::Places => 6,
            Rule::Ends => 7,
            Rule::Depth => 8,
        }
    }
}

impl DesignFault {
    // The number of the refusal; want of memory has none. A method, since a conversion into a number would not say which.
    pub fn number(&self) -> Option<u32>
        ensures { result ≡ numbered (refusal self.now) }
    {
        match self {
            DesignFault::Line(fault) => Some(fault.number()),
            DesignFault::Lattice(fault) => Some(fault.number()),
            DesignFault::ShortTable { .. } => Some(2),
            DesignFault::Broken(breach) => Some(breach.rule.number()),
            DesignFault::WrongLength { .. } => Some(12),
            DesignFault::Memory => None,
        }
    }
}
