// Reports that are owed: written out or waived. What is printed is lent in slices, as to a step: a
// struct of them would be made only to be taken apart.
ghost use Rattle.std.specs.Prelude.{◌≡◌, ◌++◌, take, is_ok, if◌then◌else◌, string_bytes};
ghost use Rattle.output.specs.Printed.{cycle_text};
ghost use Rattle.session.specs.Turns.{Written, the_turn};

use crate::turns::{Owed, Turn, Unwritten};
use output::cycle_text;
use records::{Cell, Pointer, Report};
use std::alloc::AllocError;

// The first reports of a table; all of it where there are no more.
fn first_reports(reports: &[Report], count: u32) -> &[Report]
    ensures { result.now ≡ take count reports.now }
{
    reports.get(..count as usize).unwrap_or(reports)
}

// Appends all that is printed of a cycle, or nothing.
fn append_cycle(
    text: &mut String,
    cycle: u32,
    reports: &[Report],
    cells: &[Cell],
    pointers: &[Pointer],
) -> Result<(), AllocError>
    ensures { string_bytes text.new ≡ (if is_ok result then string_bytes text.old ++ cycle_text cycle reports.now cells.now pointers.now else string_bytes text.old) }
{
    let mut printed = String::new(*text.allocator());
    cycle_text(&mut printed, cycle, reports, cells, pointers)?;
    text.push_str(&printed)
}

impl Owed {
    // How many reports are owed.
    pub fn count(&self) -> u32
        ensures { result ≡ self.now.count }
    {
        self.count
    }

    // Appends what is printed of the cycle to a text, and gives the next turn. The reports are the first of the table, as
    // many as are owed; all of it where it is shorter. For want of memory the text is as it was.
    pub fn write_out(
        self,
        text: &mut String,
        cycle: u32,
        reports: &[Report],
        cells: &[Cell],
        pointers: &[Pointer],
    ) -> Result<Turn, Unwritten>
        ensures { Written self (cycle_text cycle (take self.count reports.now) cells.now pointers.now) (string_bytes text.old) (string_bytes text.new) result }
    {
        let reports = first_reports(reports, self.count);
        // Both arms use up what is owed, so that no two closures can.
        match append_cycle(text, cycle, reports, cells, pointers) {
            Ok(()) => Ok(self.settle()),
            Err(e) => Err(Unwritten {
                owed: self,
                fault: e.into(),
            }),
        }
    }

    // Gives the next turn without writing the reports out.
    pub fn waive(self) -> Turn
        ensures { result ≡ the_turn }
    {
        self.settle()
    }

    // Nothing is owed any more, and the next turn is given.
    fn settle(self) -> Turn
        ensures { result ≡ the_turn }
    {
        let Owed { count: _ } = self;
        Turn { given: () }
    }
}
