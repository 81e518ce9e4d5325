ghost use Rattle.std.specs.Prelude.{◌≡◌, Some};
ghost use Rattle.lattice.specs.Faults.{numbered};
ghost use Rattle.records.specs.Faults.{refusal};

use crate::LineFault;

impl LineFault {
    // The number of the refusal. A method, since a conversion into a number would not say which.
    pub fn number(&self) -> u32
        ensures { numbered (refusal self.now) ≡ Some result }
    {
        match self {
            LineFault::NotDue { .. } => 1,
            LineFault::TooLong => 2,
        }
    }
}
