// All rules, in their order.
ghost use Rattle.std.specs.Prelude.{◌≡◌};
ghost use Rattle.rules.specs.Faults.{broke};
ghost use Rattle.rules.specs.Rules.{broken};
ghost use Rattle.shape.specs.View.{view};

use crate::depth::check_depth;
use crate::ends::check_ends;
use crate::faults::Breach;
use crate::levels::check_levels;
use crate::links::check_links;
use crate::places::check_places;
use crate::sizes::check_sizes;
use lattice::Lattice;
use shape::Tables;

// Refuses the first rule that is broken, at its first place.
pub fn check<L: Lattice>(lattice: &L, tables: Tables<'_>) -> Result<(), Breach>
    ensures { broke result ≡ broken (L.Lattice.model lattice.now).joins (view tables.entry) }
{
    let counted = check_sizes(tables)?;
    check_links(tables)?;
    check_levels(lattice, tables)?;
    check_places(counted)?;
    check_ends(counted)?;
    check_depth(counted)
}
