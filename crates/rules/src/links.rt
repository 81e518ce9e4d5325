// Rule 4: what the records name.
ghost use Rattle.std.specs.Prelude.{◌≡◌, not, if◌then◌else◌, Some, ◌==◌};
ghost use Rattle.rules.specs.Faults.{broke};
ghost use Rattle.shape.specs.Shape.{given, register_at, state_at, command_at};
ghost use Rattle.rules.specs.Rules.{names, later, indexes, floor_placed, state_linked, expression_linked, cell_named, fields_linked, once, command_names, times_named, command_linked, linked};
ghost use Rattle.shape.specs.View.{view};

use crate::faults::{Breach, Kind, Rule};
use crate::sweeps::sweep;
use records::{Action, Command, Expression, Operator, Register};
use search::{Amount, Test, sum_below};
use shape::{Tables, is_enforced, is_if, is_number};

// A field that must name a record below n.
fn is_named(n: u32, field: Option<u32>) -> bool
    ensures { result ≡ names n field }
{
    field.is_some_and(|m| m < n)
}

// A field that may name a command after k.
fn is_later(k: u32, n: u32, field: Option<u32>) -> bool
    ensures { result ≡ later k n field }
{
    field.is_none_or(|m| (k < m) & (m < n))
}

// Given exactly where it must be.
fn is_placed(due: bool, field: Option<u32>) -> bool
    ensures { result ≡ (if due then given field else not (given field)) }
{
    field.is_some() == due
}

fn is_floor_placed(register: Register) -> bool
    ensures { result ≡ floor_placed register }
{
    is_placed(is_enforced(register.mode), register.floor)
}

// An index into register x, by an expression below n: absent exactly where there is one cell.
fn is_indexed(tables: &Tables<'_>, n: u32, x: u32, index: Option<u32>) -> bool
    ensures { result ≡ indexes (view tables.now) n x index }
{
    if tables.register(x).cells == 1 {
        index.is_none()
    } else {
        is_named(n, index)
    }
}

fn is_state_linked(tables: &Tables<'_>, s: u32) -> bool
    ensures { result ≡ state_linked (view tables.now) s }
{
    let state = tables.state(s);
    let parent = if s == 0 {
        state.parent.is_none()
    } else {
        is_named(s, state.parent)
    };
    parent & is_placed(is_enforced(state.mode), state.level) & (state.first < tables.head.commands)
}

fn is_expression_linked(tables: &Tables<'_>, k: u32) -> bool
    ensures { result ≡ expression_linked (view tables.now) k }
{
    let x = tables.expression(k);
    match x.op {
        Operator::Constant => x.b.is_none(),
        Operator::Input => (x.a < tables.head.ports) & x.b.is_none(),
        Operator::Read => (x.a < tables.head.registers) & is_indexed(tables, k, x.a, x.b),
        _ => (x.a < k) & is_named(k, x.b),
    }
}

// Register x and its index, as a set and a tag name them.
fn is_cell_named(tables: &Tables<'_>, command: Command) -> bool
    ensures { result ≡ cell_named (view tables.now) command }
{
    // A `let`, since of a closure it is not found what it answers.
    let Some(x) = command.x else {
        return false;
    };
    (x < tables.head.registers) & is_indexed(tables, tables.head.expressions, x, command.i)
}

fn are_fields_linked(tables: &Tables<'_>, k: u32) -> bool
    ensures { result ≡ fields_linked (view tables.now) k }
{
    let command = tables.command(k);
    let Command {
        action,
        x,
        i,
        e,
        ..
    } = command;
    match action {
        Action::Set => is_cell_named(tables, command) & is_named(tables.head.expressions, e),
        Action::Tag => is_cell_named(tables, command) & e.is_some(),
        Action::If => {
            is_later(k, tables.head.commands, x)
                & is_later(k, tables.head.commands, i)
                & is_named(tables.head.expressions, e)
        }
        Action::Goto => is_named(tables.head.states, x) & (i.is_none() & e.is_none()),
        Action::Fall => x.is_none() & (i.is_none() & e.is_none()),
    }
}

// How often a field names command k.
fn times(field: Option<u32>, k: u32) -> u32
    ensures { result ≡ once field k }
{
    u32::from(is_number(field, k))
}

fn times_in(command: Command, k: u32) -> u32
    ensures { result ≡ command_names command k }
{
    let branches = if is_if(command.action) {
        times(command.x, k) + times(command.i, k)
    } else {
        0
    };
    times(command.next, k) + times(command.alt, k) + branches
}

// The names that states give to command k.
#[derive(Drop)]
struct StateNames<'a> {
    tables: Tables<'a>,
    k: u32,
}

impl Amount for StateNames<'_> {
    ghost amounts = { λ x s. once (Some (state_at (view x.tables) s).first) x.k };

    fn amount(&self, s: u32) -> u32 {
        times(Some(self.tables.state(s).first), self.k)
    }
}

// The names that commands give to command k.
#[derive(Drop)]
struct CommandNames<'a> {
    tables: Tables<'a>,
    k: u32,
}

impl Amount for CommandNames<'_> {
    ghost amounts = { λ x j. command_names (command_at (view x.tables) j) x.k };

    fn amount(&self, j: u32) -> u32 {
        times_in(self.tables.command(j), self.k)
    }
}

fn is_named_once(tables: Tables<'_>, k: u32) -> bool
    ensures { result ≡ (times_named (view tables.entry) k == 1) }
{
    let by_states = sum_below(&StateNames { tables, k }, tables.head.states);
    let by_commands = sum_below(&CommandNames { tables, k }, tables.head.commands);
    (by_states == 1) & (by_commands == 0) | (by_states == 0) & (by_commands == 1)
}

#[derive(Drop)]
struct UnplacedFloor<'a> {
    tables: Tables<'a>,
}

impl Test for UnplacedFloor<'_> {
    ghost test = { λ x n. not (floor_placed (register_at (view x.tables) n)) };

    fn passes(&self, n: u32) -> bool {
        !is_floor_placed(self.tables.register(n))
    }
}

#[derive(Drop)]
struct UnlinkedState<'a> {
    tables: Tables<'a>,
}

impl Test for UnlinkedState<'_> {
    ghost test = { λ x n. not (state_linked (view x.tables) n) };

    fn passes(&self, n: u32) -> bool {
        !is_state_linked(&self.tables, n)
    }
}

#[derive(Drop)]
struct UnlinkedExpression<'a> {
    tables: Tables<'a>,
}

impl Test for UnlinkedExpression<'_> {
    ghost test = { λ x n. not (expression_linked (view x.tables) n) };

    fn passes(&self, n: u32) -> bool {
        !is_expression_linked(&self.tables, n)
    }
}

#[derive(Drop)]
struct UnlinkedCommand<'a> {
    tables: Tables<'a>,
}

impl Test for UnlinkedCommand<'_> {
    ghost test = { λ x n. not (command_linked (view x.tables) n) };

    fn passes(&self, n: u32) -> bool {
        let tables = self.tables;
        let command = tables.command(n);
        let links = is_later(n, tables.head.commands, command.next)
            & is_later(n, tables.head.commands, command.alt);
        !(are_fields_linked(&tables, n) & links & is_named_once(tables, n))
    }
}

pub(crate) fn check_links(tables: Tables<'_>) -> Result<(), Breach>
    ensures { broke result ≡ linked (view tables.entry) }
{
    let head = tables.head;
    let floors = UnplacedFloor { tables };
    sweep(Rule::Links, Kind::Register, head.registers, &floors)?;
    let states = UnlinkedState { tables };
    sweep(Rule::Links, Kind::State, head.states, &states)?;
    let expressions = UnlinkedExpression { tables };
    sweep(
        Rule::Links,
        Kind::Expression,
        head.expressions,
        &expressions,
    )?;
    let commands = UnlinkedCommand { tables };
    sweep(Rule::Links, Kind::Command, head.commands, &commands)
}
