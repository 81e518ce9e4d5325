ghost use Rattle.std.specs.Prelude.{◌≡◌, Some};
ghost use Rattle.lattice.specs.Faults.{refusal, numbered};

use crate::LatticeFault;

impl LatticeFault {
    // The number of the refusal. A method, since a conversion into a number would not say which.
    pub fn number(&self) -> u32
        ensures { numbered (refusal self.now) ≡ Some result }
    {
        match self {
            LatticeFault::ShortRows => 2,
            LatticeFault::CountOutOfRange { .. } => 3,
            LatticeFault::OrderBroken { .. } => 9,
            LatticeFault::NoBound { .. } => 10,
            LatticeFault::TooWide { .. } => 11,
        }
    }
}
