// What the programs read, and why they stop before their end.
#![tactic(auto)]

ghost use Rattle.std.specs.Prelude.{◌≡◌, IfOk, IfSome, IsErr, None, take};
ghost use Rattle.anyhow.specs.declared.error.Error.{Error};
ghost use Rattle.anyhow.specs.Error.{IsMadeOf};
ghost use Rattle.console.specs.declared.Stop.TheVariants.{Refused, Failed};

use anyhow::anyhow;
use reader::MOST_BYTES;
use records::LineFault;
use rules::DesignFault;
use std::alloc::Global;
use std::fmt::Display;
use std::io;
use std::io::Read;

// One byte more than a text may have shows that it is too long.
const MOST_INPUT: u64 = MOST_BYTES as u64 + 1;

pub fn read_input<R: Read + Drop>(heap: Global, input: R) -> io::Result<Vec<u8>>
    ensures { IfOk result (λ text. IfSome (R.remaining input) (λ bytes. text.items ≡ take 60001 bytes)) }
{
    let mut text = Vec::new(heap);
    input.take(MOST_INPUT).read_to_end(&mut text)?;
    Ok(text)
}

// Why a program stopped before its end. A refusal is printed, another failure is only passed up.
#[derive(Drop)]
pub enum Stop<F> {
    Refused(F),
    Failed(anyhow::Error),
}

// One conversion of whatever becomes a fault would overlap with that of each value into itself.
impl<F: From<LineFault>> From<LineFault> for Stop<F> {
    ghost from_gives = { λ e r. (f : F) × F.From.from_gives e f × (r ≡ Refused f) };

    fn from(fault: LineFault) -> Stop<F> {
        Stop::Refused(F::from(fault))
    }
}

impl<F: From<DesignFault>> From<DesignFault> for Stop<F> {
    ghost from_gives = { λ e r. (f : F) × F.From.from_gives e f × (r ≡ Refused f) };

    fn from(e: DesignFault) -> Stop<F> {
        Stop::Refused(F::from(e))
    }
}

impl<F> From<io::Error> for Stop<F> {
    ghost from_gives = { λ e r. (f : Error) × IsMadeOf None f × (r ≡ Failed f) };

    fn from(e: io::Error) -> Stop<F> {
        Stop::Failed(e.into())
    }
}

impl<F> From<anyhow::Error> for Stop<F> {
    ghost from_gives = { λ e r. r ≡ Failed e };

    fn from(e: anyhow::Error) -> Stop<F> {
        Stop::Failed(e)
    }
}

// A refusal is the last line of the output; standard error says where.
pub fn refuse<F: Display>(
    rt: &(impl Print + Eprint),
    number: Option<u32>,
    fault: &F,
) -> anyhow::Result<()>
    ensures { IsErr result }
{
    if let Some(number) = number {
        println!(rt; "refused={number}")?;
    }
    eprintln!(rt; "{fault}")?;
    Err(anyhow!("refused"))
}

#[cfg(test)]
mod tests {
    use super::*;
    use std::test::Fail;

    #[test]
    fn reads_a_text(rt: HostRuntime) -> Result<(), Fail> {
        let text = read_input(rt.alloc(), b"levels=1".as_slice())?;
        assert_eq!(rt; text.as_slice(), b"levels=1".as_slice());
        Ok(())
    }

    #[test]
    fn reads_no_more_than_shows_too_long(rt: HostRuntime) -> Result<(), Fail> {
        let text = read_input(rt.alloc(), [0; 70_000].as_slice())?;
        assert_eq!(rt; text.len(), 60_001);
        Ok(())
    }
}
