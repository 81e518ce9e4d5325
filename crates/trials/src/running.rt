// A small design and its memory: one change for each edge of what a start and a step ask, and a run by turns.
use crate::parts::{
    Refusal, at, expression, fall, goto, head, needs, put, refused, register, set, state, tag,
};
use design::{Accepted, accept};
use machine::{start, step};
use records::{Cell, Input, Mode, Operator, Pointer, Port, Report};
use rules::Kind;
use session::{NotTaken, SessionFault, Turn, Unwritten};
use shape::Tables;
use std::alloc::Global;
use std::process::Abort;
use std::test::Fail;
use table::Table;

// levels 0, 1 and 2, each flowing to those above it
const CHAIN: [u32; 3] = [7, 6, 4];

// No cycle writes this report.
const UNTOUCHED: Report = Report {
    command: 99,
    level: 99,
};

// Register 0 is an enforced memory (cells 0 and 1), register 1 dynamic (cell 2). State 1 is the child of the root; the
// leaves 2 and 3 are its children, and go to each other. Commands: 0 root; 1 and 2 state 1; 3 to 5 state 2; 6 and 7 state 3.
fn design(heap: Global) -> Result<Accepted<Table>, Fail> {
    let lattice = Table::new(3, &CHAIN)?;
    let tables = Tables {
        head: head(1, 2, 4, 5, 8),
        ports: &[Port { width: 4 }],
        registers: &[
            register(4, 2, Mode::Enforced, Some(1)),
            register(8, 1, Mode::Dynamic, None),
        ],
        states: &[
            state(None, Mode::Enforced, Some(0), 0),
            state(Some(0), Mode::Dynamic, None, 1),
            state(Some(1), Mode::Dynamic, None, 3),
            state(Some(1), Mode::Enforced, Some(1), 6),
        ],
        expressions: &[
            expression(Operator::Constant, 0, None),
            expression(Operator::Constant, 1, None),
            expression(Operator::Constant, 7, None),
            expression(Operator::Input, 0, None),
            expression(Operator::Read, 1, None),
        ],
        commands: &[
            fall(None, None),
            set(1, None, 3, Some(2), None),
            fall(None, None),
            set(0, Some(0), 4, Some(4), Some(5)),
            goto(3, None, None),
            set(0, Some(1), 2, None, None),
            tag(0, Some(0), 1, Some(7), None),
            goto(2, None, None),
        ],
    };
    Ok(accept(heap, lattice, tables)?)
}

// How many of each are lent.
#[derive(Clone, Copy, PartialEq)]
struct Lengths {
    cells: usize,
    pointers: usize,
    inputs: usize,
    reports: usize,
}

// One more of each than the design needs, and lengths beside them, since a case lends one less or one more than is due.
#[derive(Clone, Copy, PartialEq)]
struct Lent {
    lengths: Lengths,
    cells: [Cell; 4],
    pointers: [Pointer; 5],
    inputs: [Input; 2],
    reports: [Report; 9],
}

// a cell or an input
const fn of(value: u32, level: u32) -> Cell {
    Cell { value, level }
}

const fn child(value: Option<u32>, level: u32) -> Pointer {
    Pointer { value, level }
}

// One change to good memory.
#[derive(Clone, Copy)]
enum Change {
    Nothing,
    Lengths(Lengths),
    Cell(usize, Cell),
    Pointer(usize, Pointer),
    Input(Input),
}

const fn lend(cells: usize, pointers: usize, inputs: usize, reports: usize) -> Change {
    Change::Lengths(Lengths {
        cells,
        pointers,
        inputs,
        reports,
    })
}

const fn cell(j: usize, value: u32, level: u32) -> Change {
    Change::Cell(j, of(value, level))
}

const fn pointer(s: usize, value: Option<u32>, level: u32) -> Change {
    Change::Pointer(s, child(value, level))
}

const fn input(value: u32, level: u32) -> Change {
    Change::Input(of(value, level))
}

fn good() -> Lent {
    Lent {
        lengths: Lengths {
            cells: 3,
            pointers: 4,
            inputs: 1,
            reports: 8,
        },
        cells: [of(3, 2), of(5, 2), of(0, 0), of(0, 0)],
        pointers: [
            child(Some(1), 0),
            child(Some(2), 0),
            child(None, 0),
            child(None, 0),
            child(None, 0),
        ],
        inputs: [of(9, 1); 2],
        reports: [UNTOUCHED; 9],
    }
}

fn apply(lent: &mut Lent, change: Change) {
    match change {
        Change::Nothing => {}
        Change::Lengths(lengths) => lent.lengths = lengths,
        Change::Cell(j, cell) => put(&mut lent.cells, j, cell),
        Change::Pointer(s, pointer) => put(&mut lent.pointers, s, pointer),
        Change::Input(input) => put(&mut lent.inputs, 0, input),
    }
}

// Good memory with two changes.
fn changed(changes: [Change; 2]) -> Lent {
    let mut lent = good();
    apply(&mut lent, changes[0]);
    apply(&mut lent, changes[1]);
    lent
}

// The first entries of a table; all of it where there are no more.
fn first<T>(table: &[T], count: usize) -> &[T] {
    table.get(..count).unwrap_or(table)
}

fn first_mut<T>(table: &mut [T], count: usize) -> &mut [T] {
    let count = count.min(table.len());
    &mut table[..count]
}

// The number and the place of a step's refusal, or of none.
fn stepped(design: &Accepted<Table>, lent: &mut Lent) -> Option<Refusal> {
    let lengths = lent.lengths;
    let inputs = first(&lent.inputs, lengths.inputs);
    let cells = first_mut(&mut lent.cells, lengths.cells);
    let pointers = first_mut(&mut lent.pointers, lengths.pointers);
    let reports = first_mut(&mut lent.reports, lengths.reports);
    step(design, inputs, cells, pointers, reports)
        .err()
        .map(refused)
}

// A step answers what is due, and changes what it is lent exactly when it is not refused.
fn check_step(rt: &impl Abort, design: &Accepted<Table>, before: Lent, due: Option<Refusal>) {
    let mut lent = before;
    assert_eq!(rt; stepped(design, &mut lent), due);
    assert_eq!(rt; lent == before, due.is_some());
}

#[test]
fn refused_steps(rt: HostRuntime) -> Result<(), Fail> {
    let design = design(rt.alloc())?;
    let cases = [
        (Change::Nothing, None),
        // one short and one more
        (lend(2, 4, 1, 8), needs(12, 3)),
        (lend(4, 4, 1, 8), needs(12, 3)),
        (lend(3, 3, 1, 8), needs(12, 4)),
        (lend(3, 5, 1, 8), needs(12, 4)),
        (lend(3, 4, 0, 8), needs(12, 1)),
        (lend(3, 4, 2, 8), needs(12, 1)),
        (lend(3, 4, 1, 7), needs(12, 8)),
        (lend(3, 4, 1, 9), None),
        // values at the width of their register
        (cell(1, 15, 2), None),
        (cell(1, 16, 2), at(3, Kind::Cell, 1)),
        (cell(2, 255, 0), None),
        (cell(2, 256, 0), at(3, Kind::Cell, 2)),
        // levels of cells: at the floor, below it, none; a dynamic register has no floor
        (cell(0, 3, 1), None),
        (cell(0, 3, 0), at(5, Kind::Cell, 0)),
        (cell(1, 5, 3), at(5, Kind::Cell, 1)),
        (cell(2, 0, 2), None),
        (cell(2, 0, 3), at(5, Kind::Cell, 2)),
        // a grandchild, the state itself, no state, none
        (pointer(0, Some(2), 0), at(5, Kind::State, 0)),
        (pointer(0, Some(0), 0), at(5, Kind::State, 0)),
        (pointer(1, Some(4), 0), at(5, Kind::State, 1)),
        (pointer(1, None, 0), at(5, Kind::State, 1)),
        // another child, another level, no level
        (pointer(1, Some(3), 0), None),
        (pointer(1, Some(2), 2), None),
        (pointer(1, Some(2), 3), at(5, Kind::State, 1)),
        // a leaf
        (pointer(2, Some(3), 0), at(5, Kind::State, 2)),
        (pointer(3, None, 2), None),
        (pointer(3, None, 3), at(5, Kind::State, 3)),
        // the value of an input is cut, not refused
        (input(u32::MAX, 2), None),
        (input(9, 3), at(5, Kind::Input, 0)),
    ];
    for (change, due) in cases {
        check_step(&rt, &design, changed([change, Change::Nothing]), due);
    }
    Ok(())
}

#[test]
fn first_of_two(rt: HostRuntime) -> Result<(), Fail> {
    let design = design(rt.alloc())?;
    let cases = [
        // lengths by cells, pointers, inputs and reports, and before all else
        ([lend(2, 3, 0, 7), cell(0, 16, 2)], needs(12, 3)),
        ([lend(3, 3, 0, 7), cell(0, 16, 2)], needs(12, 4)),
        ([lend(3, 4, 0, 7), cell(0, 16, 2)], needs(12, 1)),
        ([lend(3, 4, 1, 7), cell(0, 16, 2)], needs(12, 8)),
        ([lend(3, 4, 2, 8), cell(0, 3, 3)], needs(12, 1)),
        ([lend(3, 4, 1, 7), pointer(0, None, 0)], needs(12, 8)),
        ([lend(3, 4, 1, 7), input(9, 3)], needs(12, 8)),
        // values before levels, also of the same cell
        ([cell(2, 256, 0), cell(0, 3, 0)], at(3, Kind::Cell, 2)),
        ([cell(0, 16, 3), Change::Nothing], at(3, Kind::Cell, 0)),
        ([cell(2, 256, 0), pointer(0, None, 0)], at(3, Kind::Cell, 2)),
        ([cell(2, 256, 0), input(9, 3)], at(3, Kind::Cell, 2)),
        // cells, then pointers, then inputs
        ([cell(2, 0, 3), pointer(0, None, 0)], at(5, Kind::Cell, 2)),
        ([cell(2, 0, 3), input(9, 3)], at(5, Kind::Cell, 2)),
        ([pointer(3, None, 3), input(9, 3)], at(5, Kind::State, 3)),
        // the lowest of a kind
        ([cell(2, 256, 0), cell(1, 16, 2)], at(3, Kind::Cell, 1)),
        ([cell(2, 0, 3), cell(1, 5, 0)], at(5, Kind::Cell, 1)),
        (
            [pointer(3, None, 3), pointer(1, None, 0)],
            at(5, Kind::State, 1),
        ),
    ];
    for (changes, due) in cases {
        check_step(&rt, &design, changed(changes), due);
    }
    Ok(())
}

// The number and the place of a start's refusal, or of none.
fn started(design: &Accepted<Table>, lent: &mut Lent) -> Option<Refusal> {
    let lengths = lent.lengths;
    let cells = first(&lent.cells, lengths.cells);
    let pointers = first_mut(&mut lent.pointers, lengths.pointers);
    start(design, cells, pointers).err().map(refused)
}

// A start answers what is due, and sets the pointers that it is lent exactly when it is not refused.
fn check_start(rt: &impl Abort, design: &Accepted<Table>, before: Lent, due: Option<Refusal>) {
    let mut lent = before;
    assert_eq!(rt; started(design, &mut lent), due);
    let mut after = before;
    if due.is_none() {
        after.pointers = [
            child(Some(1), 0),
            child(Some(2), 0),
            child(None, 0),
            child(None, 0),
            before.pointers[4],
        ];
    }
    assert!(rt; lent == after);
}

#[test]
fn starts(rt: HostRuntime) -> Result<(), Fail> {
    let design = design(rt.alloc())?;
    let cases = [
        // whatever the pointers hold, and whatever a step alone is lent
        ([Change::Nothing, Change::Nothing], None),
        ([pointer(0, Some(2), 3), pointer(1, Some(3), 1)], None),
        ([pointer(2, Some(3), 0), pointer(3, None, 3)], None),
        ([pointer(1, None, 2), pointer(4, Some(9), 9)], None),
        ([lend(3, 4, 0, 0), input(9, 3)], None),
        // lengths first, those of the cells before those of the pointers
        ([lend(2, 4, 1, 8), pointer(1, Some(3), 1)], needs(12, 3)),
        ([lend(4, 4, 1, 8), pointer(1, Some(3), 1)], needs(12, 3)),
        ([lend(3, 3, 1, 8), pointer(1, Some(3), 1)], needs(12, 4)),
        ([lend(3, 5, 1, 8), pointer(1, Some(3), 1)], needs(12, 4)),
        ([lend(2, 3, 1, 8), pointer(1, Some(3), 1)], needs(12, 3)),
        ([lend(3, 5, 1, 8), cell(0, 16, 3)], needs(12, 4)),
        // then values
        ([cell(1, 15, 2), pointer(1, Some(3), 1)], None),
        (
            [cell(1, 16, 2), pointer(1, Some(3), 1)],
            at(3, Kind::Cell, 1),
        ),
        ([cell(1, 16, 2), cell(0, 3, 0)], at(3, Kind::Cell, 1)),
        // then levels
        ([cell(0, 3, 1), pointer(1, Some(3), 1)], None),
        (
            [cell(0, 3, 0), pointer(1, Some(3), 1)],
            at(5, Kind::Cell, 0),
        ),
        (
            [cell(0, 3, 3), pointer(1, Some(3), 1)],
            at(5, Kind::Cell, 0),
        ),
        ([cell(2, 0, 3), cell(1, 5, 3)], at(5, Kind::Cell, 1)),
    ];
    for (changes, due) in cases {
        check_start(&rt, &design, changed(changes), due);
    }
    Ok(())
}

fn first_turn(design: &Accepted<Table>, lent: &mut Lent) -> Result<Turn, Fail> {
    let cells = first(&lent.cells, 3);
    let pointers = first_mut(&mut lent.pointers, 4);
    session::start(design, cells, pointers).map_err(Fail::new)
}

// Writes what becomes of a turn: a refusal, which changes nothing, a waiver, or the text of the cycle.
fn take_turn(
    rt: &impl Abort,
    design: &Accepted<Table>,
    lent: &mut Lent,
    turn: Turn,
    cycle: u32,
    waives: bool,
    text: &mut String,
) -> Result<Turn, Fail> {
    let before = *lent;
    let inputs = first(&lent.inputs, 1);
    let cells = first_mut(&mut lent.cells, 3);
    let pointers = first_mut(&mut lent.pointers, 4);
    match turn.step(design, inputs, cells, pointers, &mut lent.reports) {
        Err(
            NotTaken {
                turn,
                fault: SessionFault::Design(fault),
            },
        ) => {
            assert!(rt; *lent == before);
            let told = refused(fault);
            let kind = told.kind.map_or(0, |kind| kind as u32);
            writeln!(
                text,
                "refused={} kind={kind} record={}",
                told.number, told.record
            )?;
            Ok(turn)
        }
        Err(NotTaken { turn: _, fault }) => Err(Fail::new(fault)),
        Ok(owed) if waives => {
            let count = owed.count();
            let turn = owed.waive();
            writeln!(text, "waived={count}")?;
            Ok(turn)
        }
        Ok(owed) => owed
            .write_out(text, cycle, &lent.reports, cells, pointers)
            .map_err(|Unwritten { owed, fault }| {
                owed.waive();
                Fail::new(fault)
            }),
    }
}

#[test]
fn run_by_turns(rt: HostRuntime) -> Result<(), Fail> {
    let heap = rt.alloc();
    let design = design(heap)?;
    let mut lent = changed([pointer(0, None, 3), pointer(1, Some(3), 2)]);
    let mut turn = first_turn(&design, &mut lent)?;
    let cases = [
        (
            (1, of(9, 1), false),
            "cycle=1 reports=0\nvalue=9 level=2\nvalue=5 level=2\nvalue=9 level=1\n\
state=0 child=1 level=0\nstate=1 child=3 level=0\n",
        ),
        // the tag lowers and clears
        (
            (2, of(18, 2), false),
            "cycle=2 reports=0\nvalue=0 level=1\nvalue=5 level=2\nvalue=2 level=2\n\
state=0 child=1 level=0\nstate=1 child=2 level=1\n",
        ),
        // refused, and the turn handed back
        ((3, of(0, 3), false), "refused=5 kind=6 record=0\n"),
        ((3, of(31, 2), true), "waived=1\n"),
        (
            (4, of(1, 0), false),
            "cycle=4 reports=0\nvalue=0 level=1\nvalue=7 level=2\nvalue=1 level=0\n\
state=0 child=1 level=0\nstate=1 child=2 level=1\n",
        ),
        // the set is refused, and its alt runs
        (
            (5, of(29, 2), false),
            "cycle=5 reports=1\ncommand=3 level=1\nvalue=0 level=1\nvalue=7 level=2\nvalue=13 level=2\n\
state=0 child=1 level=0\nstate=1 child=3 level=1\n",
        ),
    ];
    let mut text = String::new(heap);
    for ((cycle, input, waives), due) in cases {
        put(&mut lent.inputs, 0, input);
        text.clear();
        turn = take_turn(&rt, &design, &mut lent, turn, cycle, waives, &mut text)?;
        assert_eq!(rt; text.as_str(), due);
    }
    // the rest of the table of reports is as it was
    let mut reports = [UNTOUCHED; 9];
    reports[0] = Report {
        command: 3,
        level: 1,
    };
    assert_eq!(rt; lent.reports, reports);
    Ok(())
}
