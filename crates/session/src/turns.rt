use crate::faults::SessionFault;

// The right to run the next cycle. It may be let go, since a run may stop.
#[derive(Drop)]
pub struct Turn {
    pub(crate) given: (),
}

// The reports of a cycle, which are written out or waived before the next. It is not `Drop`: a program that lets it go
// is refused by the compiler.
pub struct Owed {
    pub(crate) count: u32,
}

// A step that was refused is no cycle: it owes nothing, and hands the turn back.
#[derive(Drop)]
pub struct NotTaken {
    pub turn: Turn,
    pub fault: SessionFault,
}

// For want of memory the reports are still owed.
pub struct Unwritten {
    pub owed: Owed,
    pub fault: SessionFault,
}
