ghost use Rattle.std.specs.Prelude.{◌≡◌};
ghost use Rattle.lattice.specs.Faults.{numbered};
ghost use Rattle.session.specs.Faults.{refusal};

use crate::faults::SessionFault;

impl SessionFault {
    // The number of the refusal; want of memory has none. A method, since a conversion into a number would not say which.
    pub fn number(&self) -> Option<u32>
        ensures { result ≡ numbered (refusal self.now) }
    {
        match self {
            SessionFault::Design(fault) => fault.number(),
            SessionFault::Memory => None,
        }
    }
}
