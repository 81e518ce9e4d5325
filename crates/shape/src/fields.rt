// What single fields of records say.
ghost use Rattle.std.specs.Prelude.{◌≡◌};
ghost use Rattle.shape.specs.Shape.{enforced, holds, is_if};

use records::{Action, Mode};

// A field that holds this number.
pub fn is_number(field: Option<u32>, n: u32) -> bool
    ensures { result ≡ holds field n }
{
    field == Some(n)
}

pub fn is_enforced(mode: Mode) -> bool
    ensures { result ≡ enforced mode }
{
    mode == Mode::Enforced
}

pub fn is_if(action: Action) -> bool
    ensures { result ≡ is_if action }
{
    action == Action::If
}
