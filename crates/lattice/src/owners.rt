ghost use Rattle.std.specs.Prelude.{◌≡◌, ◌≤◌};
ghost use Rattle.lattice.specs.Faults.{Answers, refusal};
ghost use Rattle.lattice.specs.Sets.{owners_model, owners_verdict};
ghost use Rattle.lattice.specs.SetLaws.{owners_lawful};

use crate::{Lattice, LatticeFault};

pub const MOST_OWNERS: u32 = 32;

// Sets of owners, as bits of a code: inclusion is the order.
#[derive(Clone, Copy)]
pub struct Owners {
    count: u32,
    ghost some: { 1 ≤ count },
    ghost few: { count ≤ 32 },
}

impl Owners {
    pub fn new(count: u32) -> Result<Self, LatticeFault>
        ensures { Answers refusal (owners_verdict count) (λ o. o.count ≡ count) result }
    {
        if count < 1 || count > MOST_OWNERS {
            return Err(LatticeFault::CountOutOfRange { count });
        }
        Ok(Owners { count })
    }
}

impl Lattice for Owners {
    ghost model = { λ o. owners_model o.count };

    ghost lawful = { λ x. owners_lawful x.count x.some x.few };

    fn is_level(&self, code: u32) -> bool {
        (code as u64) < 1u64 << self.count
    }

    fn width(&self) -> u32 {
        self.count
    }

    fn flows(&self, a: u32, b: u32) -> bool {
        self.is_level(a) & self.is_level(b) & (a & b == a)
    }

    fn bottom(&self) -> u32 {
        0
    }

    fn top(&self) -> u32 {
        ((1u64 << self.count) - 1) as u32
    }

    fn join(&self, a: u32, b: u32) -> u32 {
        if self.is_level(a) & self.is_level(b) {
            a | b
        } else {
            0
        }
    }

    fn meet(&self, a: u32, b: u32) -> u32 {
        if self.is_level(a) & self.is_level(b) {
            a & b
        } else {
            0
        }
    }
}
