use std::fmt;

// Why a lattice was refused.
#[derive(Clone, Copy, PartialEq, Eq, Debug)]
pub enum LatticeFault {
    // Fewer rows were lent than the count says.
    ShortRows,
    // Levels or owners outside their range.
    CountOutOfRange { count: u32 },
    // The lowest row that is no row of a partial order.
    OrderBroken { row: u32 },
    // The lowest two levels that lack a join or a meet.
    NoBound { low: u32, high: u32 },
    // The widths of a pair's parts come to more than 32.
    TooWide { sum: u32 },
}

impl fmt::Display for LatticeFault {
    fn fmt<W: fmt::Write>(&self, f: &mut fmt::Formatter<W>) -> fmt::Result {
        match self {
            LatticeFault::ShortRows => write!(f, "lattice: fewer rows than levels"),
            LatticeFault::CountOutOfRange { count } => write!(
                f,
                "lattice: a count of {count} is out of range"
            ),
            LatticeFault::OrderBroken { row } => write!(
                f,
                "lattice: row {row} is no row of a partial order"
            ),
            LatticeFault::NoBound { low, high } => {
                write!(f, "lattice: levels {low} and {high} lack a join or a meet")
            }
            LatticeFault::TooWide { sum } => write!(
                f,
                "lattice: a pair of {sum} bits is wider than 32"
            ),
        }
    }
}
