ghost use Rattle.std.specs.Prelude.{◌≡◌};
ghost use Rattle.rules.specs.declared.faults.DesignFault.TheVariants.{Line as LineOf, Lattice as LatticeOf, Broken, Memory};

use lattice::LatticeFault;
use records::LineFault;
use std::alloc::{AllocError, AllocFailed};
use std::fmt;

// What a place is in: a record of this kind, a cell of the memory, or an input.
#[derive(Clone, Copy, PartialEq, Eq, Debug)]
pub enum Kind {
    Port,
    Register,
    State,
    Expression,
    Command,
    Cell,
    Input,
}

// The rules of an accepted design, in the order in which they are tested.
#[derive(Clone, Copy, PartialEq, Eq, Debug)]
pub enum Rule {
    Sizes,
    Links,
    Levels,
    Places,
    Ends,
    Depth,
}

// The first rule that is broken, and the lowest record that breaks it; for a count out of range, the count.
#[derive(Clone, Copy, PartialEq, Eq, Debug)]
pub struct Breach {
    pub rule: Rule,
    pub kind: Kind,
    pub record: u32,
}

// Why a design was refused. The fault of a line or a lattice is carried whole.
#[derive(Clone, Copy, PartialEq, Eq, Debug)]
pub enum DesignFault {
    Line(LineFault),
    Lattice(LatticeFault),
    // Fewer records were lent than the head says.
    ShortTable { kind: Kind },
    Broken(Breach),
    // Memory of another length was lent, or fewer reports than there are commands.
    WrongLength { needed: u32 },
    // No memory was to be had.
    Memory,
}

impl From<LineFault> for DesignFault {
    ghost from_gives = { λ e r. r ≡ LineOf e };

    fn from(e: LineFault) -> DesignFault {
        DesignFault::Line(e)
    }
}

impl From<LatticeFault> for DesignFault {
    ghost from_gives = { λ e r. r ≡ LatticeOf e };

    fn from(e: LatticeFault) -> DesignFault {
        DesignFault::Lattice(e)
    }
}

impl From<Breach> for DesignFault {
    ghost from_gives = { λ e r. r ≡ Broken e };

    fn from(e: Breach) -> DesignFault {
        DesignFault::Broken(e)
    }
}

impl From<AllocError> for DesignFault {
    ghost from_gives = { λ _ r. r ≡ Memory };

    fn from(_e: AllocError) -> DesignFault {
        DesignFault::Memory
    }
}

impl<T: Drop> From<AllocFailed<T>> for DesignFault {
    ghost from_gives = { λ _ r. r ≡ Memory };

    fn from(_e: AllocFailed<T>) -> DesignFault {
        DesignFault::Memory
    }
}

impl fmt::Display for Kind {
    fn fmt<W: fmt::Write>(&self, f: &mut fmt::Formatter<W>) -> fmt::Result {
        match self {
            Kind::Port => write!(f, "port"),
            Kind::Register => write!(f, "register"),
            Kind::State => write!(f, "state"),
            Kind::Expression => write!(f, "expression"),
            Kind::Command => write!(f, "command"),
            Kind::Cell => write!(f, "cell"),
            Kind::Input => write!(f, "input"),
        }
    }
}

impl fmt::Display for Rule {
    fn fmt<W: fmt::Write>(&self, f: &mut fmt::Formatter<W>) -> fmt::Result {
        match self {
            Rule::Sizes => write!(f, "sizes"),
            Rule::Links => write!(f, "links"),
            Rule::Levels => write!(f, "levels"),
            Rule::Places => write!(f, "places"),
            Rule::Ends => write!(f, "ends"),
            Rule::Depth => write!(f, "depth"),
        }
    }
}

impl fmt::Display for DesignFault {
    fn fmt<W: fmt::Write>(&self, f: &mut fmt::Formatter<W>) -> fmt::Result {
        match self {
            DesignFault::Line(fault) => write!(f, "{fault}"),
            DesignFault::Lattice(fault) => write!(f, "{fault}"),
            DesignFault::ShortTable { kind } => write!(
                f,
                "{kind}: fewer records than the head says"
            ),
            DesignFault::Broken(Breach { rule, kind, record }) => {
                write!(f, "{kind} {record} breaks the rule of {rule}")
            }
            DesignFault::WrongLength { needed } => write!(
                f,
                "a lent table has not the length {needed}"
            ),
            DesignFault::Memory => write!(f, "out of memory"),
        }
    }
}
