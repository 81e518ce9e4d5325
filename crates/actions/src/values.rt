// Arithmetic on values.
ghost use Rattle.std.specs.Prelude.{◌≡◌};
ghost use Rattle.actions.specs.Values.{applied, cut as cut_to};

use records::Operator;

// The value of an operator on its operands, on 32 bits.
pub(crate) fn apply(op: Operator, a: u32, b: u32) -> u32
    ensures { result ≡ applied op a b }
{
    match op {
        Operator::Constant | Operator::Input | Operator::Read => 0,
        Operator::Add => a.wrapping_add(b),
        Operator::Subtract => a.wrapping_sub(b),
        Operator::And => a & b,
        Operator::Or => a | b,
        Operator::Xor => a ^ b,
        Operator::ShiftLeft => a.unbounded_shl(b),
        Operator::ShiftRight => a.unbounded_shr(b),
        Operator::Equal => u32::from(a == b),
        Operator::Less => u32::from(a < b),
    }
}

// A value cut to a width.
pub(crate) fn cut(width: u32, value: u32) -> u32
    ensures { result ≡ cut_to width value }
{
    if width < 32 {
        value % (1 << width)
    } else {
        value
    }
}
