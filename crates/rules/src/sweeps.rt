// A rule over the records of a kind.
ghost use Rattle.std.specs.Prelude.{◌≡◌};
ghost use Rattle.rules.specs.Faults.{broke, rule_number, kind_number};
ghost use Rattle.rules.specs.Rules.{sweep};

use crate::faults::{Breach, Kind, Rule};
use search::{Test, first_below};

// Refuses the lowest record below `count` that breaks the rule.
pub fn sweep<T: Test>(rule: Rule, kind: Kind, count: u32, breaks: &T) -> Result<(), Breach>
    ensures { broke result ≡ sweep (rule_number rule) (kind_number kind) count (T.Test.test breaks.now) }
{
    match first_below(breaks, count) {
        Some(record) => Err(Breach { rule, kind, record }),
        None => Ok(()),
    }
}
