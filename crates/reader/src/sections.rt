// The sections of a text, the lines that are due in them, and which section follows.
ghost use Rattle.std.specs.Prelude.{◌≡◌, ◌-◌};
ghost use Rattle.reader.specs.Texts.{ends, due_key};
ghost use Rattle.reader.specs.Format.{rows as rows_due, ports as ports_due, registers as registers_due, states as states_due, expressions as expressions_due, commands as commands_due, cells as cells_due, inputs as inputs_due};

use records::{Cell, Command, Expression, Head, Input, Port, Register, State};

#[derive(Clone, Copy, PartialEq, Eq, Debug)]
pub enum Line {
    Levels(u32),
    Row(u32),
    Head(Head),
    Port(Port),
    Register(Register),
    State(State),
    Expression(Expression),
    Command(Command),
    Cell(Cell),
    Input(Input),
    // The end of the text.
    End,
}

impl Line {
    pub fn is_end(self) -> bool
        ensures { result ≡ ends self }
    {
        matches!(self, Line::End)
    }
}

// What the head says is to come, and how many cells the registers so far have.
#[derive(Clone, Copy)]
pub struct Plan {
    pub head: Head,
    pub cells: u64,
}

// How many lines are still due in a section, and what is planned.
#[derive(Clone, Copy)]
pub struct Ahead {
    pub left: u32,
    pub plan: Plan,
}

impl Ahead {
    // One line less is due.
    pub(crate) fn after_one(self) -> Ahead
        ensures { result ≡ record self { left = self.left - 1 } }
    {
        self.with_left(self.left.saturating_sub(1))
    }

    // So many lines are due.
    fn with_left(self, left: u32) -> Ahead
        ensures { result ≡ record self { left = left } }
    {
        Ahead { left, ..self }
    }
}

// Where a text has come to, with how many lines are due there and what is to come after.
#[derive(Clone, Copy)]
pub enum Section {
    Levels,
    Rows(u32),
    Head,
    Ports(Ahead),
    Registers(Ahead),
    States(Ahead),
    Expressions(Ahead),
    Commands(Ahead),
    Cells(u64, Head),
    Inputs(u64),
    End,
}

impl Section {
    // The key at the head of each line of the section.
    pub(crate) fn key(self) -> &'static [u8]
        ensures { result.now ≡ due_key self }
    {
        match self {
            Section::Levels => b"levels=",
            Section::Rows(_) => b"row=",
            Section::Head => b"ports=",
            Section::Ports(_) | Section::Registers(_) => b"width=",
            Section::States(_) => b"parent=",
            Section::Expressions(_) => b"op=",
            Section::Commands(_) => b"do=",
            Section::Cells(..) => b"value=",
            Section::Inputs(_) => b"in=",
            Section::End => b"",
        }
    }
}

// A line, and the section that follows it.
#[derive(Clone, Copy)]
pub struct Step {
    pub line: Line,
    pub next: Section,
}

// What is due where so many lines are left of a section: that section, or the one after it. Each is followed by another, so
// that one function for all would only choose among them once more.
pub(crate) fn rows(left: u32) -> Section
    ensures { result ≡ rows_due left }
{
    if left > 0 {
        Section::Rows(left)
    } else {
        Section::Head
    }
}

pub(crate) fn ports(ahead: Ahead) -> Section
    ensures { result ≡ ports_due ahead.plan ahead.left }
{
    if ahead.left > 0 {
        Section::Ports(ahead)
    } else {
        registers(ahead.with_left(ahead.plan.head.registers))
    }
}

pub(crate) fn registers(ahead: Ahead) -> Section
    ensures { result ≡ registers_due ahead.plan ahead.left }
{
    if ahead.left > 0 {
        Section::Registers(ahead)
    } else {
        states(ahead.with_left(ahead.plan.head.states))
    }
}

pub(crate) fn states(ahead: Ahead) -> Section
    ensures { result ≡ states_due ahead.plan ahead.left }
{
    if ahead.left > 0 {
        Section::States(ahead)
    } else {
        expressions(ahead.with_left(ahead.plan.head.expressions))
    }
}

pub(crate) fn expressions(ahead: Ahead) -> Section
    ensures { result ≡ expressions_due ahead.plan ahead.left }
{
    if ahead.left > 0 {
        Section::Expressions(ahead)
    } else {
        commands(ahead.with_left(ahead.plan.head.commands))
    }
}

pub(crate) fn commands(ahead: Ahead) -> Section
    ensures { result ≡ commands_due ahead.plan ahead.left }
{
    if ahead.left > 0 {
        Section::Commands(ahead)
    } else {
        cells(ahead.plan.head, ahead.plan.cells)
    }
}

pub(crate) fn cells(head: Head, left: u64) -> Section
    ensures { result ≡ cells_due head left }
{
    if left > 0 {
        Section::Cells(left, head)
    } else {
        inputs(u64::from(head.ports) * u64::from(head.cycles))
    }
}

pub(crate) fn inputs(left: u64) -> Section
    ensures { result ≡ inputs_due left }
{
    if left > 0 {
        Section::Inputs(left)
    } else {
        Section::End
    }
}
