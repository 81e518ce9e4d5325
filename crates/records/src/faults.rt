use std::fmt;

// Why a text was refused.
#[derive(Clone, Copy, PartialEq, Eq, Debug)]
pub enum LineFault {
    // The line, from 1, and the byte in it, from 1, at which no line that is due goes on.
    NotDue { line: u32, byte: u32 },
    // The text has more than 60,000 bytes.
    TooLong,
}

impl fmt::Display for LineFault {
    fn fmt<W: fmt::Write>(&self, f: &mut fmt::Formatter<W>) -> fmt::Result {
        match self {
            LineFault::NotDue { line, byte } => write!(
                f,
                "line {line}, byte {byte}: no line that is due goes on here"
            ),
            LineFault::TooLong => write!(f, "the text has more than 60000 bytes"),
        }
    }
}
