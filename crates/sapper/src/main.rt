// Reads a design from standard input, and prints its lattice and what it accepted.
#![tactic(auto)]

use console::{Stop, read_input, refuse};
use design::accept;
use draft::{Draft, read_rest};
use reader::Reader;
use rules::DesignFault;

mod show;

// Each part is shown as soon as its lines are read.
fn run(rt: &HostRuntime, text: &[u8]) -> Result<(), Stop<DesignFault>> {
    let heap = rt.alloc();
    let mut reader = Reader::new(text)?;
    let mut draft = Draft::new(heap);
    let table = draft.read_lattice(&mut reader)?;
    show::lattice(rt, &table, draft.levels)?;
    draft.read_records(&mut reader)?;
    accept(heap, table, draft.tables())?;
    show::design(rt, &draft)?;
    read_rest(&mut reader)?;
    Ok(())
}

// As in `runner`, whose faults are of another type: what both could share would only take the number out of either.
fn main(rt: HostRuntime) -> anyhow::Result<()> {
    let text = read_input(rt.alloc(), rt.stdin())?;
    match run(&rt, text.as_slice()) {
        Ok(()) => Ok(()),
        Err(Stop::Refused(fault)) => refuse(&rt, fault.number(), &fault),
        Err(Stop::Failed(fault)) => Err(fault),
    }
}
