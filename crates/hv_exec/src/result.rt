//! The result of each arithmetic instruction.

ghost use Rattle.std.specs.Prelude.{◌≡◌, ℕ, ◌+◌, ◌-◌, ◌*◌, ◌/◌, ◌%◌, ◌^◌};
ghost use Rattle.hv_exec.specs.Result.{result_of};

use crate::operation::Alu;
use crate::{alu, multiply, word};

#[tactic(auto, unfolding(crate::specs::Result::result_of))]
pub fn result_of(how: Alu, left: u64, right: u64) -> u64
    ensures { result ≡ result_of how left right }
{
    let a = word::low_word(left);
    let b = word::low_word(right);
    let short = match how {
        Alu::Add => return alu::add(left, right),
        Alu::Subtract => return alu::subtract(left, right),
        Alu::ShiftLeft => return alu::shift_left(left, right),
        Alu::Less => return u64::from(alu::less_signed(left, right)),
        Alu::LessUnsigned => return u64::from(left < right),
        Alu::ExclusiveOr => return left ^ right,
        Alu::ShiftRight => return alu::shift_right(left, right),
        Alu::ShiftRightSigned => return alu::shift_right_signed(left, right),
        Alu::Or => return left | right,
        Alu::And => return left & right,
        Alu::Multiply => return multiply::multiply(left, right),
        Alu::MultiplyHigh => return multiply::high_signed(left, right),
        Alu::MultiplyHighMixed => return multiply::high_mixed(left, right),
        Alu::MultiplyHighUnsigned => return multiply::high_unsigned(left, right),
        Alu::Divide => return alu::divide(left, right),
        Alu::DivideUnsigned => return alu::divide_unsigned(left, right),
        Alu::Remain => return alu::remain(left, right),
        Alu::RemainUnsigned => return alu::remain_unsigned(left, right),
        Alu::AddWord => word::add(a, b),
        Alu::SubtractWord => word::subtract(a, b),
        Alu::ShiftLeftWord => word::shift_left(a, right),
        Alu::ShiftRightWord => word::shift_right(a, right),
        Alu::ShiftRightSignedWord => word::shift_right_signed(a, right),
        Alu::MultiplyWord => word::multiply(a, b),
        Alu::DivideWord => word::divide(a, b),
        Alu::DivideUnsignedWord => word::divide_unsigned(a, b),
        Alu::RemainWord => word::remain(a, b),
        Alu::RemainUnsignedWord => word::remain_unsigned(a, b),
    };
    word::sign_extend_word(short)
}
