// Sets of numbers below 32, kept as bits: number t is in the set when bit t is set.
#![tactic(auto)]

ghost use Rattle.std.specs.Prelude.{◌≡◌};
ghost use Rattle.std.specs.Iterator.{YieldsFirst, item_count};
ghost use Rattle.lattice.specs.Bit.{bit};
ghost use Rattle.members.specs.Members.{members};

// The members of a set, lowest first.
#[derive(Clone, Copy)]
pub struct Members {
    rest: u32,
}

impl Members {
    pub fn of(set: u32) -> Members
        ensures { result.rest ≡ set }
    {
        Members { rest: set }
    }
}

impl Iterator for Members {
    type Item = u32;

    ghost next_gives = { YieldsFirst (λ s. members s.rest) };

    ghost remaining = { item_count (λ s. members s.rest) };

    fn next(&mut self) -> Option<u32> {
        if self.rest == 0 {
            return None;
        }
        let member = self.rest.trailing_zeros();
        self.rest = self.rest & (self.rest - 1);
        Some(member)
    }
}

// Number t is in the set.
pub fn has(set: u32, t: u32) -> bool
    ensures { result ≡ bit set t }
{
    (t < 32) && (set >> t) % 2 == 1
}

#[cfg(test)]
mod tests {
    use super::*;
    use std::test::Fail;

    #[test]
    fn takes_each_member(rt: HostRuntime) -> Result<(), Fail> {
        let cases: [(u32, &[u32]); 4] = [(0, &[]), (1, &[0]), (40, &[3, 5]), (0x8000_0000, &[31])];
        for (set, due) in cases {
            let taken: Vec<u32> = Members::of(set).collect(rt.alloc())?;
            assert_eq!(rt; taken.as_slice(), due);
        }
        // the full set has every number
        let all: Vec<u32> = Members::of(0xffff_ffff).collect(rt.alloc())?;
        let numbers: Vec<u32> = (0..32).collect(rt.alloc())?;
        assert_eq!(rt; all.as_slice(), numbers.as_slice());
        Ok(())
    }
}
