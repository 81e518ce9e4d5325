// The records of a design as a text gives them, good or bad, and the fault of a line.
// Records of each kind are numbered from 0; `None` stands where the text has `-`. What only some modes, operators or actions
// have stands beside them as an option, and not within them: a record must hold what acceptance is to refuse.
#![tactic(auto)]

mod faults;
mod numbers;

pub use faults::LineFault;

// How many records of each kind there are, and how many cycles are to run.
#[derive(Clone, Copy, PartialEq, Eq, Debug, Default)]
pub struct Head {
    pub ports: u32,
    pub registers: u32,
    pub states: u32,
    pub expressions: u32,
    pub commands: u32,
    pub cycles: u32,
}

#[derive(Clone, Copy, PartialEq, Eq, Debug, Default)]
pub struct Port {
    pub width: u32,
}

// An enforced register or state keeps its level; that of a dynamic one follows what is written to it.
#[derive(Clone, Copy, PartialEq, Eq, Debug, Default)]
pub enum Mode {
    #[default]
    Enforced,
    Dynamic,
}

#[derive(Clone, Copy, PartialEq, Eq, Debug, Default)]
pub struct Register {
    pub width: u32,
    pub cells: u32,
    pub mode: Mode,
    // The floor is the level below which no tag takes a cell of an enforced register.
    pub floor: Option<u32>,
}

#[derive(Clone, Copy, PartialEq, Eq, Debug, Default)]
pub struct State {
    pub parent: Option<u32>,
    pub mode: Mode,
    pub level: Option<u32>,
    // The first command of the state's chain.
    pub first: u32,
}

#[derive(Clone, Copy, PartialEq, Eq, Debug, Default)]
pub enum Operator {
    #[default]
    Constant,
    Input,
    Read,
    Add,
    Subtract,
    And,
    Or,
    Xor,
    ShiftLeft,
    ShiftRight,
    Equal,
    Less,
}

// The number, port or register `a` for the first three operators, with `b` the index of a register's cell;
// the operands `a` and `b` for the others.
#[derive(Clone, Copy, PartialEq, Eq, Debug, Default)]
pub struct Expression {
    pub op: Operator,
    pub a: u32,
    pub b: Option<u32>,
}

#[derive(Clone, Copy, PartialEq, Eq, Debug, Default)]
pub enum Action {
    #[default]
    Set,
    Tag,
    If,
    Goto,
    Fall,
}

// Set: register x, index i, expression e. Tag: register x, index i, level e. If: x and i the first commands of the
// branches, condition e. Goto: state x. `next` follows the command, `alt` runs instead where its check fails.
#[derive(Clone, Copy, PartialEq, Eq, Debug, Default)]
pub struct Command {
    pub action: Action,
    pub x: Option<u32>,
    pub i: Option<u32>,
    pub e: Option<u32>,
    pub next: Option<u32>,
    pub alt: Option<u32>,
}

// What something holds, and the level of what it holds.
#[derive(Clone, Copy, PartialEq, Eq, Debug, Default)]
pub struct Labeled<T> {
    pub value: T,
    pub level: u32,
}

pub type Cell = Labeled<u32>;

pub type Input = Labeled<u32>;

// The current child of a state, none for a leaf.
pub type Pointer = Labeled<Option<u32>>;

// A check that failed in a cycle: the command, and the level of what the report tells.
#[derive(Clone, Copy, PartialEq, Eq, Debug, Default)]
pub struct Report {
    pub command: u32,
    pub level: u32,
}
