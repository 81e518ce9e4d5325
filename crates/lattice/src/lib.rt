// Lattices of security levels: the interface with its laws, sets of owners, pairs and reversed orders over any lattice,
// and the join of a list of levels.
#![tactic(auto)]

ghost use Rattle.std.specs.Prelude.{◌≡◌};
ghost use Rattle.lattice.specs.Model.{Model, Lawful};

mod faults;
mod fold;
mod numbers;
mod owners;
mod pair;
mod reversed;

pub use faults::LatticeFault;
pub use fold::join_all;
pub use owners::Owners;
pub use pair::Pair;
pub use reversed::Reversed;

// A lattice of levels, each named by a 32-bit code. Where a code is no level, it flows nowhere, and joins and meets give bottom.
pub trait Lattice {
    ghost model: { Self → Model };

    fn is_level(&self, code: u32) -> bool
        ensures { result ≡ (model self.now).joins.level code };

    // The bits that a level's code takes, from 1 to 32.
    fn width(&self) -> u32
        ensures { result ≡ (model self.now).joins.width };

    fn flows(&self, a: u32, b: u32) -> bool
        ensures { result ≡ (model self.now).joins.flows a b };

    fn bottom(&self) -> u32
        ensures { result ≡ (model self.now).joins.bottom };

    fn top(&self) -> u32
        ensures { result ≡ (model self.now).top };

    fn join(&self, a: u32, b: u32) -> u32
        ensures { result ≡ (model self.now).joins.join a b };

    fn meet(&self, a: u32, b: u32) -> u32
        ensures { result ≡ (model self.now).meet a b };

    ghost lawful: { (x : Self) → Lawful (model x) };
}
