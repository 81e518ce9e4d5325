// Reads a design and the inputs of its cycles from standard input, and prints what each cycle leaves.
#![tactic(auto)]

use console::{Stop, read_input, refuse};
use design::{Accepted, accept};
use draft::Draft;
use reader::Reader;
use records::{Head, Pointer, Report};
use rules::DesignFault;
use session::{SessionFault, Turn, Unwritten, start};
use std::alloc::Global;
use std::io::Write;
use table::Table;

// The memory that cycles are lent beside the cells, and the text of what they leave.
#[derive(Drop)]
struct Lent {
    pointers: Vec<Pointer>,
    reports: Vec<Report>,
    text: String,
}

fn lend(heap: Global, head: Head) -> Result<Lent, DesignFault> {
    Ok(Lent {
        pointers: vec![in heap; Pointer::default(); head.states as usize]?,
        reports: vec![in heap; Report::default(); head.commands as usize]?,
        text: String::new(heap),
    })
}

// One cycle: its step, and what is printed of it, in one call.
fn run_cycle(
    rt: &HostRuntime,
    design: &Accepted<Table>,
    draft: &mut Draft,
    lent: &mut Lent,
    turn: Turn,
    number: u32,
) -> Result<Turn, Stop<SessionFault>> {
    let inputs = draft.inputs.as_slice();
    let cells = draft.cells.as_mut_slice();
    let pointers = lent.pointers.as_mut_slice();
    let reports = lent.reports.as_mut_slice();
    let owed = turn
        .step(design, inputs, cells, pointers, reports)
        .map_err(|refused| Stop::Refused(refused.fault))?;
    lent.text.clear();
    let turn = owed
        .write_out(&mut lent.text, number, reports, cells, pointers)
        .map_err(|Unwritten { owed, fault }| {
            owed.waive();
            Stop::Refused(fault)
        })?;
    rt.stdout().write_all(lent.text.as_bytes())?;
    Ok(turn)
}

// Each part runs as soon as its lines are read.
fn run(rt: &HostRuntime, text: &[u8]) -> Result<(), Stop<SessionFault>> {
    let heap = rt.alloc();
    let mut reader = Reader::new(text)?;
    let mut draft = Draft::new(heap);
    let table = draft.read_lattice(&mut reader)?;
    draft.read_records(&mut reader)?;
    let head = draft.tables().head;
    let design = accept(heap, table, draft.tables())?;
    draft.read_cells(&mut reader)?;
    let mut lent = lend(heap, head)?;
    let mut turn = start(
        &design,
        draft.cells.as_slice(),
        lent.pointers.as_mut_slice(),
    )
    .map_err(Stop::Refused)?;
    for number in 1..=head.cycles {
        draft.read_inputs(&mut reader)?;
        turn = run_cycle(rt, &design, &mut draft, &mut lent, turn, number)?;
    }
    reader.read_line()?;
    Ok(())
}

fn main(rt: HostRuntime) -> anyhow::Result<()> {
    let text = read_input(rt.alloc(), rt.stdin())?;
    match run(&rt, text.as_slice()) {
        Ok(()) => Ok(()),
        Err(Stop::Refused(fault)) => refuse(&rt, fault.number(), &fault),
        Err(Stop::Failed(fault)) => Err(fault),
    }
}
