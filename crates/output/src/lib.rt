// What is printed of a run, appended to a text that is lent. A cycle is lent in slices, as to a step: a struct of them would
// be made only to be taken apart.
#![tactic(auto)]

ghost use Rattle.std.specs.Prelude.{◌≡◌, ◌++◌, string_bytes, OnOk};
ghost use Rattle.output.specs.Printed.{cycle_text};

use records::{Cell, Pointer, Report};
use std::alloc::AllocError;

// Appends what is printed after a cycle: its line, its reports, the cells, and the pointers of the states with children.
pub fn cycle_text(
    text: &mut String,
    cycle: u32,
    reports: &[Report],
    cells: &[Cell],
    pointers: &[Pointer],
) -> Result<(), AllocError>
    ensures { OnOk result (string_bytes text.new ≡ string_bytes text.old ++ cycle_text cycle reports.now cells.now pointers.now) }
{
    writeln!(text, "cycle={cycle} reports={}", reports.len())?;
    for Report { command, level } in reports {
        writeln!(text, "command={command} level={level}")?;
    }
    for Cell { value, level } in cells {
        writeln!(text, "value={value} level={level}")?;
    }
    for (state, Pointer { value, level }) in pointers.iter().enumerate() {
        if let Some(child) = value {
            writeln!(text, "state={state} child={child} level={level}")?;
        }
    }
    Ok(())
}

#[cfg(test)]
mod tests {
    use super::*;
    use std::test::Fail;

    #[test]
    fn appends_a_cycle(rt: HostRuntime) -> Result<(), Fail> {
        let reports = [Report {
            command: 3,
            level: 1,
        }];
        let cells = [
            Cell { value: 0, level: 0 },
            Cell {
                value: u32::MAX,
                level: 2,
            },
        ];
        let pointers = [
            Pointer {
                value: None,
                level: 1,
            },
            Pointer {
                value: Some(10),
                level: 0,
            },
        ];
        let mut text = String::from_str(rt.alloc(), "before\n")?;
        cycle_text(&mut text, 42, &reports, &cells, &pointers)?;
        assert_eq!(rt;
            text.as_str(),
            "before\ncycle=42 reports=1\ncommand=3 level=1\n\
value=0 level=0\nvalue=4294967295 level=2\nstate=1 child=10 level=0\n"
        );
        Ok(())
    }
}
