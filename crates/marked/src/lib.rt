// Worked cases of the rules, each proved from the definitions that the contracts cite; and tests at the edges.
#![tactic(auto)]

ghost use Rattle.std.specs.Prelude.{◌≡◌, length};
ghost use Rattle.marked.specs.Cases.{Marked, cases};

// How many worked cases there are. The contract says that every one comes out as due.
pub fn marked_cases() -> u32
    ensures count { result ≡ length cases }
    ensures marked { Marked }
{
    15
}

#[cfg(test)]
mod lattice_tests;
