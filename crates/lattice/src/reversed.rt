ghost use Rattle.std.specs.Prelude.{◌≡◌};
ghost use Rattle.lattice.specs.Pairs.{reversed};
ghost use Rattle.lattice.specs.PairLaws.{reversed_lawful};

use crate::Lattice;

// A lattice with its order turned round: bottom and top change places, and so do join and meet.
#[derive(Drop)]
pub struct Reversed<L> {
    base: L,
}

impl<L: Lattice> Reversed<L> {
    pub fn new(base: L) -> Self
        ensures { result.base ≡ base }
    {
        Reversed { base }
    }
}

impl<L: Lattice> Lattice for Reversed<L> {
    ghost model = { λ x. reversed (L.Lattice.model x.base) };

    ghost lawful = { λ x. reversed_lawful _ (L.Lattice.lawful x.base) };

    fn is_level(&self, code: u32) -> bool {
        self.base.is_level(code)
    }

    fn width(&self) -> u32 {
        self.base.width()
    }

    fn flows(&self, a: u32, b: u32) -> bool {
        self.base.flows(b, a)
    }

    fn bottom(&self) -> u32 {
        self.base.top()
    }

    fn top(&self) -> u32 {
        self.base.bottom()
    }

    fn join(&self, a: u32, b: u32) -> u32 {
        if self.base.is_level(a) & self.base.is_level(b) {
            self.base.meet(a, b)
        } else {
            self.base.top()
        }
    }

    fn meet(&self, a: u32, b: u32) -> u32 {
        if self.base.is_level(a) & self.base.is_level(b) {
            self.base.join(a, b)
        } else {
            self.base.top()
        }
    }
}
