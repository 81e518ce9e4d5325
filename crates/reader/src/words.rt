// The words for modes, operators and actions.
ghost use Rattle.std.specs.Prelude.{◌≡◌, ◌++◌};
ghost use Rattle.reader.specs.Pieces.{Reads};
ghost use Rattle.reader.specs.Format.{mode as spelled_mode, operator as spelled_operator, action as spelled_action};

use crate::pieces::{Read, Word, one_of};
use records::{Action, Mode, Operator};

impl Word for Mode {
    ghost spelled = { spelled_mode };

    fn text(self) -> &'static [u8] {
        match self {
            Mode::Enforced => b"e",
            Mode::Dynamic => b"d",
        }
    }
}

impl Word for Operator {
    ghost spelled = { spelled_operator };

    fn text(self) -> &'static [u8] {
        match self {
            Operator::Constant => b"const",
            Operator::Input => b"in",
            Operator::Read => b"reg",
            Operator::Add => b"add",
            Operator::Subtract => b"sub",
            Operator::And => b"and",
            Operator::Or => b"or",
            Operator::Xor => b"xor",
            Operator::ShiftLeft => b"shl",
            Operator::ShiftRight => b"shr",
            Operator::Equal => b"eq",
            Operator::Less => b"lt",
        }
    }
}

impl Word for Action {
    ghost spelled = { spelled_action };

    fn text(self) -> &'static [u8] {
        match self {
            Action::Set => b"set",
            Action::Tag => b"tag",
            Action::If => b"if",
            Action::Goto => b"goto",
            Action::Fall => b"fall",
        }
    }
}

pub(crate) fn mode<'a>(text: &'a [u8], after: &[u8]) -> Read<'a, Mode>
    ensures { Reads (λ _. Unit {0}) (λ m. spelled_mode m ++ after.now) text.now result }
{
    one_of(text, &[Mode::Enforced, Mode::Dynamic], after)
}

pub(crate) fn operator<'a>(text: &'a [u8], after: &[u8]) -> Read<'a, Operator>
    ensures { Reads (λ _. Unit {0}) (λ o. spelled_operator o ++ after.now) text.now result }
{
    let all = [
        Operator::Constant,
        Operator::Input,
        Operator::Read,
        Operator::Add,
        Operator::Subtract,
        Operator::And,
        Operator::Or,
        Operator::Xor,
        Operator::ShiftLeft,
        Operator::ShiftRight,
        Operator::Equal,
        Operator::Less,
    ];
    one_of(text, &all, after)
}

pub(crate) fn action<'a>(text: &'a [u8], after: &[u8]) -> Read<'a, Action>
    ensures { Reads (λ _. Unit {0}) (λ a. spelled_action a ++ after.now) text.now result }
{
    one_of(
        text,
        &[
            Action::Set,
            Action::Tag,
            Action::If,
            Action::Goto,
            Action::Fall,
        ],
        after,
    )
}
