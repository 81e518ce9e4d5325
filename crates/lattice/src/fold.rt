ghost use Rattle.std.specs.Prelude.{◌≡◌};
ghost use Rattle.lattice.specs.Folds.{joined, Least, Levels};

use crate::Lattice;

// The join of a list of levels, bottom where there are none: the least level to which all of them flow.
pub fn join_all<L: Lattice>(lattice: &L, levels: &[u32]) -> u32
    ensures value { result ≡ joined (L.Lattice.model lattice.now).joins levels.now }
    ensures least { Levels (L.Lattice.model lattice.now).joins levels.now → Least (L.Lattice.model lattice.now).joins levels.now result }
{
    levels
        .iter()
        .fold(lattice.bottom(), |all, level| lattice.join(all, *level))
}
