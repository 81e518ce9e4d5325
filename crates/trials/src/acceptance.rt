// A small good design, and one change to it for each edge of each rule.
use crate::parts::{
    Refusal, at, branch, expression, fall, goto, head, put, refused, register, set, state, tag,
};
use design::accept;
use records::{Command, Expression, Head, Mode, Operator, Port, Register, State};
use rules::Kind;
use shape::Tables;
use std::alloc::Global;
use std::process::Abort;
use std::test::Fail;
use table::Table;

// levels 0 and 1, 0 flowing to 1
const ROWS: [u32; 2] = [3, 2];

#[derive(Clone, Copy)]
struct Sketch {
    head: Head,
    port: Port,
    registers: [Register; 3],
    states: [State; 4],
    expressions: [Expression; 5],
    commands: [Command; 10],
}

// One change to the good design.
#[derive(Clone, Copy)]
enum Change {
    Nothing,
    Counts(Head),
    Width(u32),
    Register(usize, Register),
    State(usize, State),
    Expression(usize, Expression),
    Command(usize, Command),
}

// Register 0 is enforced, register 1 an enforced memory, register 2 dynamic. States 1 and 2 are children of the root, state 3
// of state 2. Commands: 0 root; 1 to 5 state 1; 6 and 9 state 2; 7 and 8 state 3.
fn good() -> Sketch {
    Sketch {
        head: head(1, 3, 4, 5, 10),
        port: Port { width: 32 },
        registers: [
            register(1, 1, Mode::Enforced, Some(0)),
            register(32, 4, Mode::Enforced, Some(1)),
            register(8, 1, Mode::Dynamic, None),
        ],
        states: [
            state(None, Mode::Enforced, Some(0), 0),
            state(Some(0), Mode::Enforced, Some(1), 1),
            state(Some(0), Mode::Dynamic, None, 6),
            state(Some(2), Mode::Dynamic, None, 7),
        ],
        expressions: [
            expression(Operator::Constant, 7, None),
            expression(Operator::Input, 0, None),
            expression(Operator::Read, 1, Some(0)),
            expression(Operator::Add, 1, Some(2)),
            expression(Operator::Read, 2, None),
        ],
        commands: [
            fall(None, None),
            set(0, None, 1, Some(2), Some(3)),
            branch(Some(4), None, 3, Some(5)),
            set(2, None, 0, None, None),
            tag(1, Some(0), 1, None, None),
            goto(2, None, None),
            fall(None, Some(9)),
            set(1, Some(1), 4, Some(8), None),
            goto(3, None, None),
            goto(1, None, None),
        ],
    }
}

fn changed(change: Change) -> Sketch {
    let mut sketch = good();
    match change {
        Change::Nothing => {}
        Change::Counts(head) => sketch.head = head,
        Change::Width(width) => sketch.port = Port { width },
        Change::Register(at, record) => put(&mut sketch.registers, at, record),
        Change::State(at, record) => put(&mut sketch.states, at, record),
        Change::Expression(at, record) => put(&mut sketch.expressions, at, record),
        Change::Command(at, record) => put(&mut sketch.commands, at, record),
    }
    sketch
}

// What acceptance answers: none where it accepts.
fn judge(heap: Global, tables: Tables<'_>) -> Result<Option<Refusal>, Fail> {
    let lattice = Table::new(2, &ROWS)?;
    Ok(accept(heap, lattice, tables).err().map(refused))
}

fn judged(heap: Global, sketch: &Sketch) -> Result<Option<Refusal>, Fail> {
    let ports = [sketch.port];
    let tables = Tables {
        head: sketch.head,
        ports: &ports,
        registers: &sketch.registers,
        states: &sketch.states,
        expressions: &sketch.expressions,
        commands: &sketch.commands,
    };
    judge(heap, tables)
}

// Acceptance answers what is due to each change.
fn check(rt: &impl Abort, heap: Global, cases: &[(Change, Option<Refusal>)]) -> Result<(), Fail> {
    for (change, due) in cases {
        assert_eq!(rt; judged(heap, &changed(*change))?, *due);
    }
    Ok(())
}

#[test]
fn sizes(rt: HostRuntime) -> Result<(), Fail> {
    let cases = [
        (Change::Nothing, None),
        // a table may be longer than the head says, and not shorter
        (Change::Counts(head(2, 3, 4, 5, 10)), at(2, Kind::Port, 0)),
        (
            Change::Counts(head(1, 3, 4, 5, 11)),
            at(2, Kind::Command, 0),
        ),
        (Change::Counts(head(1, 3, 1, 5, 10)), at(3, Kind::State, 1)),
        (
            Change::Counts(head(1, 0, 4, 5, 10)),
            at(3, Kind::Register, 0),
        ),
        (Change::Counts(head(1, 3, 4, 5, 0)), at(3, Kind::Command, 0)),
        (Change::Width(0), at(3, Kind::Port, 0)),
        (Change::Width(33), at(3, Kind::Port, 0)),
        (
            Change::Register(0, register(33, 1, Mode::Enforced, Some(0))),
            at(3, Kind::Register, 0),
        ),
        (
            Change::Register(0, register(8, 0, Mode::Enforced, Some(0))),
            at(3, Kind::Register, 0),
        ),
        (
            Change::Register(2, register(8, 2, Mode::Dynamic, None)),
            at(3, Kind::Register, 2),
        ),
        // 1,024 cells in all, and one more
        (
            Change::Register(1, register(8, 1022, Mode::Enforced, Some(1))),
            None,
        ),
        (
            Change::Register(1, register(8, 1023, Mode::Enforced, Some(1))),
            at(3, Kind::Register, 2),
        ),
        (
            Change::Register(1, register(8, u32::MAX, Mode::Enforced, Some(1))),
            at(3, Kind::Register, 1),
        ),
    ];
    check(&rt, rt.alloc(), &cases)
}

#[test]
fn links(rt: HostRuntime) -> Result<(), Fail> {
    let cases = [
        (
            Change::Register(2, register(8, 1, Mode::Dynamic, Some(0))),
            at(4, Kind::Register, 2),
        ),
        (
            Change::Register(0, register(8, 1, Mode::Enforced, None)),
            at(4, Kind::Register, 0),
        ),
        (
            Change::State(0, state(Some(0), Mode::Enforced, Some(0), 0)),
            at(4, Kind::State, 0),
        ),
        (
            Change::State(1, state(None, Mode::Enforced, Some(1), 1)),
            at(4, Kind::State, 1),
        ),
        (
            Change::State(2, state(Some(2), Mode::Dynamic, None, 6)),
            at(4, Kind::State, 2),
        ),
        (
            Change::State(3, state(Some(2), Mode::Dynamic, Some(1), 7)),
            at(4, Kind::State, 3),
        ),
        (
            Change::State(3, state(Some(2), Mode::Dynamic, None, 10)),
            at(4, Kind::State, 3),
        ),
        (
            Change::Expression(0, expression(Operator::Constant, 7, Some(0))),
            at(4, Kind::Expression, 0),
        ),
        (
            Change::Expression(1, expression(Operator::Input, 1, None)),
            at(4, Kind::Expression, 1),
        ),
        (
            Change::Expression(2, expression(Operator::Read, 1, None)),
            at(4, Kind::Expression, 2),
        ),
        (
            Change::Expression(2, expression(Operator::Read, 3, Some(0))),
            at(4, Kind::Expression, 2),
        ),
        (
            Change::Expression(4, expression(Operator::Read, 2, Some(0))),
            at(4, Kind::Expression, 4),
        ),
        (
            Change::Expression(3, expression(Operator::Less, 3, Some(2))),
            at(4, Kind::Expression, 3),
        ),
        (
            Change::Expression(3, expression(Operator::Less, 2, Some(3))),
            at(4, Kind::Expression, 3),
        ),
        (
            Change::Command(3, set(3, None, 0, None, None)),
            at(4, Kind::Command, 3),
        ),
        (
            Change::Command(3, set(2, None, 5, None, None)),
            at(4, Kind::Command, 3),
        ),
        (
            Change::Command(4, tag(1, None, 1, None, None)),
            at(4, Kind::Command, 4),
        ),
        // a link to itself, a command named twice, one never named
        (
            Change::Command(2, branch(Some(2), None, 3, Some(5))),
            at(4, Kind::Command, 2),
        ),
        (
            Change::Command(2, branch(Some(4), Some(4), 3, Some(5))),
            at(4, Kind::Command, 4),
        ),
        (
            Change::Command(2, branch(None, None, 3, Some(5))),
            at(4, Kind::Command, 4),
        ),
        (
            Change::Command(9, goto(4, None, None)),
            at(4, Kind::Command, 9),
        ),
    ];
    check(&rt, rt.alloc(), &cases)
}

#[test]
fn levels_and_places(rt: HostRuntime) -> Result<(), Fail> {
    let cases = [
        (
            Change::Register(1, register(8, 4, Mode::Enforced, Some(2))),
            at(5, Kind::Register, 1),
        ),
        (
            Change::State(0, state(None, Mode::Enforced, Some(1), 0)),
            at(5, Kind::State, 0),
        ),
        (
            Change::State(0, state(None, Mode::Dynamic, None, 0)),
            at(5, Kind::State, 0),
        ),
        (
            Change::State(1, state(Some(0), Mode::Enforced, Some(2), 1)),
            at(5, Kind::State, 1),
        ),
        (
            Change::Command(4, tag(1, Some(0), 2, None, None)),
            at(5, Kind::Command, 4),
        ),
        // a goto in the root, to a cousin, to the root; a fall in a leaf; a tag of a dynamic register
        (
            Change::Command(0, goto(1, None, None)),
            at(6, Kind::Command, 0),
        ),
        (
            Change::Command(8, goto(1, None, None)),
            at(6, Kind::Command, 8),
        ),
        (
            Change::Command(5, goto(0, None, None)),
            at(6, Kind::Command, 5),
        ),
        (
            Change::Command(5, fall(None, None)),
            at(6, Kind::Command, 5),
        ),
        (
            Change::Command(4, tag(2, None, 1, None, None)),
            at(6, Kind::Command, 4),
        ),
        // an alt on a dynamic set, on a goto to a dynamic state, on an if
        (
            Change::Command(1, set(2, None, 1, Some(2), Some(3))),
            at(6, Kind::Command, 1),
        ),
        // two faults at once: the first in order wins
        (
            Change::State(0, state(None, Mode::Dynamic, Some(1), 0)),
            at(4, Kind::State, 0),
        ),
    ];
    check(&rt, rt.alloc(), &cases)
}

#[test]
fn ends(rt: HostRuntime) -> Result<(), Fail> {
    let cases = [
        // a state's chain that does not end
        (
            Change::Command(8, set(2, None, 0, None, None)),
            at(7, Kind::State, 3),
        ),
        // a branch that ends beside one that does not
        (
            Change::Command(4, goto(2, None, None)),
            at(7, Kind::Command, 2),
        ),
        // an alt that ends though its command does not leave, and the other way round
        (
            Change::Command(3, goto(1, None, None)),
            at(7, Kind::Command, 1),
        ),
        (
            Change::Command(9, set(2, None, 0, None, None)),
            at(7, Kind::Command, 6),
        ),
    ];
    check(&rt, rt.alloc(), &cases)
}

// From the second on, each expression adds the one before it to itself; from the thirteenth on, the first.
fn add_up(expressions: &mut [Expression; 257]) {
    for (before, slot) in (0u32..256).zip(&mut expressions[1..]) {
        let operand = if before < 12 { before } else { 0 };
        *slot = expression(Operator::Add, operand, Some(operand));
    }
}

// From the second on, a chain of sets.
fn chain(commands: &mut [Command; 257]) {
    for (next, slot) in (2u32..258).zip(&mut commands[1..]) {
        *slot = set(0, None, 0, Some(next), None);
    }
}

// A design of the largest tables, with these counts.
fn large(heap: Global, head: Head) -> Result<Option<Refusal>, Fail> {
    let mut expressions = [expression(Operator::Constant, 0, None); 257];
    add_up(&mut expressions);
    let mut commands = [fall(None, None); 257];
    chain(&mut commands);
    put(&mut commands, 255, goto(1, None, None));
    let root = state(None, Mode::Enforced, Some(0), 0);
    let mut states = [state(Some(0), Mode::Dynamic, None, 1); 33];
    put(&mut states, 0, root);
    let tables = Tables {
        head,
        ports: &[Port { width: 1 }; 17],
        registers: &[register(1, 1, Mode::Dynamic, None); 33],
        states: &states,
        expressions: &expressions,
        commands: &commands,
    };
    judge(heap, tables)
}

#[test]
fn largest(rt: HostRuntime) -> Result<(), Fail> {
    let cases = [
        (head(16, 32, 2, 12, 256), None),
        (head(17, 32, 2, 12, 256), at(3, Kind::Port, 17)),
        (head(16, 33, 2, 12, 256), at(3, Kind::Register, 33)),
        (head(16, 32, 33, 12, 256), at(3, Kind::State, 33)),
        (head(16, 32, 2, 257, 256), at(3, Kind::Expression, 257)),
        (head(16, 32, 2, 12, 257), at(3, Kind::Command, 257)),
        // an expression 13 deep
        (head(16, 32, 2, 13, 256), at(8, Kind::Expression, 12)),
        (head(16, 32, 2, 256, 256), at(8, Kind::Expression, 12)),
        // no expression for the sets
        (head(0, 1, 2, 0, 256), at(4, Kind::Command, 1)),
    ];
    for (counts, due) in cases {
        assert_eq!(rt; large(rt.alloc(), counts)?, due);
    }
    Ok(())
}
