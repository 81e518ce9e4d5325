ghost use Rattle.std.specs.Prelude.{◌≡◌, ◌^◌, ◌<◌};
ghost use Rattle.lattice.specs.Faults.{Answers, refusal};
ghost use Rattle.lattice.specs.Pairs.{pair_model, pair_verdict, Shift, paired, left_of, right_of};
ghost use Rattle.lattice.specs.PairLaws.{pair_lawful};

use crate::{Lattice, LatticeFault};

const MOST_BITS: u32 = 32;

// Pairs of levels, ordered part by part: the right part's code in the low bits, the left part's above. That they fit together
// is no invariant: it would cite what the parts mean, and so ask for two lattices wherever the type is named.
#[derive(Drop)]
pub struct Pair<L, R> {
    left: L,
    right: R,
}

impl<L: Lattice, R: Lattice> Pair<L, R> {
    // Both parts together, in at most 32 bits.
    pub fn new(left: L, right: R) -> Result<Self, LatticeFault>
    where
        L: Drop,
        R: Drop,
        ensures { Answers refusal (pair_verdict (L.Lattice.model left).joins (R.Lattice.model right).joins) (λ p. (p.left ≡ left) × (p.right ≡ right)) result }
    {
        let sum = left.width() + right.width();
        if sum > MOST_BITS {
            return Err(LatticeFault::TooWide { sum });
        }
        Ok(Pair { left, right })
    }

    // The bits of the right part, or none where the parts are too wide together.
    fn shift(&self) -> Option<u32>
        ensures { Shift (L.Lattice.model self.now.left) (R.Lattice.model self.now.right) result }
    {
        let right = self.right.width();
        if self.left.width() + right > MOST_BITS {
            return None;
        }
        Some(right)
    }
}

// The left and the right part of a code.
fn split(shift: u32, code: u32) -> (u32, u32)
    requires { shift < 32 }
    ensures { (result.0 ≡ left_of shift code) × (result.1 ≡ right_of shift code) }
{
    (code >> shift, code & ((1u32 << shift) - 1))
}

fn whole(shift: u32, left: u32, right: u32) -> u32
    requires { (shift < 32) × (paired shift left right < 2 ^ 32) }
    ensures { result ≡ paired shift left right }
{
    (left << shift) + right
}

impl<L: Lattice, R: Lattice> Lattice for Pair<L, R> {
    ghost model = { λ x. pair_model (L.Lattice.model x.left) (R.Lattice.model x.right) };

    ghost lawful = { λ x. pair_lawful _ _ (L.Lattice.lawful x.left) (R.Lattice.lawful x.right) };

    fn is_level(&self, code: u32) -> bool {
        match self.shift() {
            Some(shift) => {
                let (left, right) = split(shift, code);
                self.left.is_level(left) & self.right.is_level(right)
            }
            None => code == 0,
        }
    }

    // Asks each part once, so that a pile of pairs answers in time in proportion to its height.
    fn width(&self) -> u32 {
        let width = self.left.width() + self.right.width();
        if width > MOST_BITS { 1 } else { width }
    }

    fn flows(&self, a: u32, b: u32) -> bool {
        match self.shift() {
            Some(shift) => {
                let (left, right) = split(shift, a);
                let (to_left, to_right) = split(shift, b);
                self.left.flows(left, to_left) & self.right.flows(right, to_right)
            }
            None => (a == 0) & (b == 0),
        }
    }

    fn bottom(&self) -> u32 {
        match self.shift() {
            Some(shift) => whole(shift, self.left.bottom(), self.right.bottom()),
            None => 0,
        }
    }

    fn top(&self) -> u32 {
        match self.shift() {
            Some(shift) => whole(shift, self.left.top(), self.right.top()),
            None => 0,
        }
    }

    fn join(&self, a: u32, b: u32) -> u32 {
        let levels = self.is_level(a) & self.is_level(b);
        match self.shift() {
            Some(shift) if levels => {
                let (left, right) = split(shift, a);
                let (with_left, with_right) = split(shift, b);
                whole(
                    shift,
                    self.left.join(left, with_left),
                    self.right.join(right, with_right),
                )
            }
            _ => self.bottom(),
        }
    }

    // One function for joins and meets would take the operations of both parts, and ask of them that they give levels.
    fn meet(&self, a: u32, b: u32) -> u32 {
        let levels = self.is_level(a) & self.is_level(b);
        match self.shift() {
            Some(shift) if levels => {
                let (left, right) = split(shift, a);
                let (with_left, with_right) = split(shift, b);
                whole(
                    shift,
                    self.left.meet(left, with_left),
                    self.right.meet(right, with_right),
                )
            }
            _ => self.bottom(),
        }
    }
}
