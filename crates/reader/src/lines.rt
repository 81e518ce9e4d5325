// The lines of each kind, from behind the key at their head. A reader of a line answers it with the section that follows and
// the rest of the text, or how many bytes are left at the first one with which no such line goes on.
ghost use Rattle.std.specs.Prelude.{◌+◌, ◌^◌, ◌≤◌};
ghost use Rattle.reader.specs.Format.{Goes, values, labeled, LabeledFits};
ghost use Rattle.reader.specs.Pieces.{Reads, Strips};
ghost use Rattle.reader.specs.Texts.{cells_so_far, due_key, Due};

use crate::pieces::{Read, literal, number, optional_number};
use crate::sections::{Ahead, Line, Plan, Section, Step};
use crate::{sections, words};
use records::{Command, Expression, Head, Labeled, Port, Register, State};

const MOST_CYCLES: u32 = 10_000;

// The line that is due in the section, from the beginning of its key.
// The caller sees to it that the cells counted so far leave room for those of another register.
#[tactic(auto, using(crate::proofs::Answering::valued))]
pub(crate) fn due(section: Section, text: &[u8]) -> Read<'_, Step>
    requires { cells_so_far section + 2 ^ 32 ≤ 2 ^ 64 }
    ensures { Due section text.now result }
{
    let value = strip_key(section, text)?;
    match section {
        Section::Levels => levels(value),
        Section::Rows(left) => row(value, left),
        Section::Head => head(value),
        Section::Ports(ahead) => port(value, ahead),
        Section::Registers(ahead) => register(value, ahead),
        Section::States(ahead) => state(value, ahead),
        Section::Expressions(ahead) => expression(value, ahead),
        Section::Commands(ahead) => command(value, ahead),
        Section::Cells(left, head) => cell(value, left, head),
        Section::Inputs(left) => input(value, left),
        Section::End => end(value),
    }
}

// The text behind the key of the line that is due. A line is split by its leading bytes, so that a key is compared with
// constants.
fn strip_key(section: Section, text: &[u8]) -> Result<&[u8], usize>
    ensures { Strips (due_key section) text.now result }
{
    match (section, text) {
        (Section::Levels, [b'l', b'e', b'v', b'e', b'l', b's', b'=', rest @ ..]) => Ok(rest),
        (Section::Rows(_), [b'r', b'o', b'w', b'=', rest @ ..]) => Ok(rest),
        (Section::Head, [b'p', b'o', b'r', b't', b's', b'=', rest @ ..]) => Ok(rest),
        (Section::Ports(_), [b'w', b'i', b'd', b't', b'h', b'=', rest @ ..]) => Ok(rest),
        (Section::Registers(_), [b'w', b'i', b'd', b't', b'h', b'=', rest @ ..]) => Ok(rest),
        (Section::States(_), [b'p', b'a', b'r', b'e', b'n', b't', b'=', rest @ ..]) => Ok(rest),
        (Section::Expressions(_), [b'o', b'p', b'=', rest @ ..]) => Ok(rest),
        (Section::Commands(_), [b'd', b'o', b'=', rest @ ..]) => Ok(rest),
        (Section::Cells(..), [b'v', b'a', b'l', b'u', b'e', b'=', rest @ ..]) => Ok(rest),
        (Section::Inputs(_), [b'i', b'n', b'=', rest @ ..]) => Ok(rest),
        // Another key, or none: how far the text goes with the one that is due.
        _ => literal(text, section.key()),
    }
}

fn levels(text: &[u8]) -> Read<'_, Step>
    ensures { Reads (Goes Section.Levels) (λ s. values s.line) text.now result }
{
    let (n, rest) = number(text, u32::MAX, b"\n")?;
    let line = Line::Levels(n);
    let next = sections::rows(n);
    Ok((Step { line, next }, rest))
}

fn row(text: &[u8], left: u32) -> Read<'_, Step>
    ensures { Reads (Goes (Section.Rows left)) (λ s. values s.line) text.now result }
{
    let (n, rest) = number(text, u32::MAX, b"\n")?;
    let line = Line::Row(n);
    let next = sections::rows(left.saturating_sub(1));
    Ok((Step { line, next }, rest))
}

fn head(text: &[u8]) -> Read<'_, Step>
    ensures { Reads (Goes Section.Head) (λ s. values s.line) text.now result }
{
    let (ports, rest) = number(text, u32::MAX, b" registers=")?;
    let (registers, rest) = number(rest, u32::MAX, b" states=")?;
    let (states, rest) = number(rest, u32::MAX, b" expressions=")?;
    let (expressions, rest) = number(rest, u32::MAX, b" commands=")?;
    let (commands, rest) = number(rest, u32::MAX, b" cycles=")?;
    let (cycles, rest) = number(rest, MOST_CYCLES, b"\n")?;
    let head = Head {
        ports,
        registers,
        states,
        expressions,
        commands,
        cycles,
    };
    let line = Line::Head(head);
    let next = sections::ports(Ahead {
        left: ports,
        plan: Plan { head, cells: 0 },
    });
    Ok((Step { line, next }, rest))
}

fn port(text: &[u8], ahead: Ahead) -> Read<'_, Step>
    ensures { Reads (Goes (Section.Ports ahead)) (λ s. values s.line) text.now result }
{
    let (width, rest) = number(text, u32::MAX, b"\n")?;
    let line = Line::Port(Port { width });
    let next = sections::ports(ahead.after_one());
    Ok((Step { line, next }, rest))
}

fn register(text: &[u8], ahead: Ahead) -> Read<'_, Step>
    requires { ahead.plan.cells + 2 ^ 32 ≤ 2 ^ 64 }
    ensures { Reads (Goes (Section.Registers ahead)) (λ s. values s.line) text.now result }
{
    let (width, rest) = number(text, u32::MAX, b" cells=")?;
    let (cells, rest) = number(rest, u32::MAX, b" mode=")?;
    let (mode, rest) = words::mode(rest, b" floor=")?;
    let (floor, rest) = optional_number(rest, b"\n")?;
    let line = Line::Register(Register {
        width,
        cells,
        mode,
        floor,
    });
    let plan = Plan {
        cells: ahead.plan.cells + u64::from(cells),
        ..ahead.plan
    };
    let next = sections::registers(Ahead {
        plan,
        ..ahead.after_one()
    });
    Ok((Step { line, next }, rest))
}

fn state(text: &[u8], ahead: Ahead) -> Read<'_, Step>
    ensures { Reads (Goes (Section.States ahead)) (λ s. values s.line) text.now result }
{
    let (parent, rest) = optional_number(text, b" mode=")?;
    let (mode, rest) = words::mode(rest, b" level=")?;
    let (level, rest) = optional_number(rest, b" first=")?;
    let (first, rest) = number(rest, u32::MAX, b"\n")?;
    let line = Line::State(State {
        parent,
        mode,
        level,
        first,
    });
    let next = sections::states(ahead.after_one());
    Ok((Step { line, next }, rest))
}

fn expression(text: &[u8], ahead: Ahead) -> Read<'_, Step>
    ensures { Reads (Goes (Section.Expressions ahead)) (λ s. values s.line) text.now result }
{
    let (op, rest) = words::operator(text, b" a=")?;
    let (a, rest) = number(rest, u32::MAX, b" b=")?;
    let (b, rest) = optional_number(rest, b"\n")?;
    let line = Line::Expression(Expression { op, a, b });
    let next = sections::expressions(ahead.after_one());
    Ok((Step { line, next }, rest))
}

fn command(text: &[u8], ahead: Ahead) -> Read<'_, Step>
    ensures { Reads (Goes (Section.Commands ahead)) (λ s. values s.line) text.now result }
{
    let (action, rest) = words::action(text, b" x=")?;
    let (x, rest) = optional_number(rest, b" i=")?;
    let (i, rest) = optional_number(rest, b" e=")?;
    let (e, rest) = optional_number(rest, b" next=")?;
    let (next, rest) = optional_number(rest, b" alt=")?;
    let (alt, rest) = optional_number(rest, b"\n")?;
    let line = Line::Command(Command {
        action,
        x,
        i,
        e,
        next,
        alt,
    });
    let next = sections::commands(ahead.after_one());
    Ok((Step { line, next }, rest))
}

fn cell(text: &[u8], left: u64, head: Head) -> Read<'_, Step>
    ensures { Reads (Goes (Section.Cells left head)) (λ s. values s.line) text.now result }
{
    let (cell, rest) = labeled(text)?;
    let line = Line::Cell(cell);
    let next = sections::cells(head, left.saturating_sub(1));
    Ok((Step { line, next }, rest))
}

fn input(text: &[u8], left: u64) -> Read<'_, Step>
    ensures { Reads (Goes (Section.Inputs left)) (λ s. values s.line) text.now result }
{
    let (input, rest) = labeled(text)?;
    let line = Line::Input(input);
    let next = sections::inputs(left.saturating_sub(1));
    Ok((Step { line, next }, rest))
}

fn labeled(text: &[u8]) -> Read<'_, Labeled<u32>>
    ensures { Reads LabeledFits labeled text.now result }
{
    let (value, rest) = number(text, u32::MAX, b" level=")?;
    let (level, rest) = number(rest, u32::MAX, b"\n")?;
    Ok((Labeled { value, level }, rest))
}

#[tactic(auto, using(crate::proofs::Answering::past_end))]
fn end(text: &[u8]) -> Read<'_, Step>
    ensures { Due Section.End text.now result }
{
    if !text.is_empty() {
        return Err(text.len());
    }
    let line = Line::End;
    let next = Section::End;
    Ok((Step { line, next }, text))
}
