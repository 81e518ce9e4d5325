// Records in short, and what refusals tell.
use records::{Action, Command, Expression, Head, Mode, Operator, Register, State};
use rules::{Breach, DesignFault, Kind};

pub(crate) const fn register(width: u32, cells: u32, mode: Mode, floor: Option<u32>) -> Register {
    Register {
        width,
        cells,
        mode,
        floor,
    }
}

pub(crate) const fn state(
    parent: Option<u32>,
    mode: Mode,
    level: Option<u32>,
    first: u32,
) -> State {
    State {
        parent,
        mode,
        level,
        first,
    }
}

pub(crate) const fn expression(op: Operator, a: u32, b: Option<u32>) -> Expression {
    Expression { op, a, b }
}

pub(crate) const fn set(
    x: u32,
    i: Option<u32>,
    e: u32,
    next: Option<u32>,
    alt: Option<u32>,
) -> Command {
    Command {
        action: Action::Set,
        x: Some(x),
        i,
        e: Some(e),
        next,
        alt,
    }
}

pub(crate) const fn tag(
    x: u32,
    i: Option<u32>,
    level: u32,
    next: Option<u32>,
    alt: Option<u32>,
) -> Command {
    Command {
        action: Action::Tag,
        x: Some(x),
        i,
        e: Some(level),
        next,
        alt,
    }
}

pub(crate) const fn branch(x: Option<u32>, i: Option<u32>, e: u32, next: Option<u32>) -> Command {
    Command {
        action: Action::If,
        x,
        i,
        e: Some(e),
        next,
        alt: None,
    }
}

pub(crate) const fn goto(x: u32, next: Option<u32>, alt: Option<u32>) -> Command {
    Command {
        action: Action::Goto,
        x: Some(x),
        i: None,
        e: None,
        next,
        alt,
    }
}

pub(crate) const fn fall(next: Option<u32>, alt: Option<u32>) -> Command {
    Command {
        action: Action::Fall,
        x: None,
        i: None,
        e: None,
        next,
        alt,
    }
}

pub(crate) const fn head(
    ports: u32,
    registers: u32,
    states: u32,
    expressions: u32,
    commands: u32,
) -> Head {
    Head {
        ports,
        registers,
        states,
        expressions,
        commands,
        cycles: 0,
    }
}

pub(crate) fn put<T: Copy>(table: &mut [T], at: usize, record: T) {
    if let Some(slot) = table.get_mut(at) {
        *slot = record;
    }
}

// What a refusal tells: its number, and the kind and the record of its place; a needed length stands without a kind.
#[derive(Clone, Copy, PartialEq, Debug)]
pub(crate) struct Refusal {
    pub(crate) number: u32,
    pub(crate) kind: Option<Kind>,
    pub(crate) record: u32,
}

pub(crate) const fn at(number: u32, kind: Kind, record: u32) -> Option<Refusal> {
    Some(Refusal {
        number,
        kind: Some(kind),
        record,
    })
}

pub(crate) const fn needs(number: u32, record: u32) -> Option<Refusal> {
    Some(Refusal {
        number,
        kind: None,
        record,
    })
}

// A record of nine for a fault that no case expects.
pub(crate) fn refused(fault: DesignFault) -> Refusal {
    let number = fault.number().unwrap_or(9);
    let (kind, record) = match fault {
        DesignFault::ShortTable { kind } => (Some(kind), 0),
        DesignFault::Broken(Breach { kind, record, .. }) => (Some(kind), record),
        DesignFault::WrongLength { needed } => (None, needed),
        _ => (None, 9),
    };
    Refusal {
        number,
        kind,
        record,
    }
}
