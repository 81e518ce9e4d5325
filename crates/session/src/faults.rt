ghost use Rattle.std.specs.Prelude.{◌≡◌};
ghost use Rattle.rules.specs.declared.faults.DesignFault.TheVariants.{Line as LineOf, Lattice as LatticeOf};
ghost use Rattle.session.specs.declared.faults.SessionFault.TheVariants.{Design as DesignOf, Memory};

use lattice::LatticeFault;
use records::LineFault;
use rules::DesignFault;
use std::alloc::AllocError;
use std::fmt;

// Why a run did not go on. The fault of a design, which carries that of a line or a lattice, is carried whole.
#[derive(Clone, Copy, PartialEq, Eq, Debug)]
pub enum SessionFault {
    Design(DesignFault),
    // No memory was to be had to write a report out.
    Memory,
}

impl From<DesignFault> for SessionFault {
    ghost from_gives = { λ e r. r ≡ DesignOf e };

    fn from(e: DesignFault) -> SessionFault {
        SessionFault::Design(e)
    }
}

impl From<LineFault> for SessionFault {
    ghost from_gives = { λ e r. r ≡ DesignOf (LineOf e) };

    fn from(e: LineFault) -> SessionFault {
        SessionFault::Design(e.into())
    }
}

impl From<LatticeFault> for SessionFault {
    ghost from_gives = { λ e r. r ≡ DesignOf (LatticeOf e) };

    fn from(e: LatticeFault) -> SessionFault {
        SessionFault::Design(e.into())
    }
}

impl From<AllocError> for SessionFault {
    ghost from_gives = { λ _ r. r ≡ Memory };

    fn from(_e: AllocError) -> SessionFault {
        SessionFault::Memory
    }
}

impl fmt::Display for SessionFault {
    fn fmt<W: fmt::Write>(&self, f: &mut fmt::Formatter<W>) -> fmt::Result {
        match self {
            SessionFault::Design(fault) => write!(f, "{fault}"),
            SessionFault::Memory => write!(f, "out of memory"),
        }
    }
}
