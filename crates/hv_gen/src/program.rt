//! The program of the generated guests.
ghost use Rattle.std.specs.Prelude.{◌≡◌, ◌++◌, ◌<◌, ◌+◌, ◌^◌, IfOk, OnOk};
ghost use Rattle.std.specs.List.{flat_map, range_with_len};
ghost use Rattle.hv_gen.specs.Numbers.{next_number};
ghost use Rattle.hv_gen.specs.Program.{addition_line, addition_at, program_text};

use hv_text::{Bytes, push_decimal};
use std::alloc::{AllocError, Global};

/// The number behind another one: a linear congruential generator.
fn next_number(number: u64) -> u64
    requires { number < 2 ^ 31 }
    ensures { result ≡ next_number number }
{
    (1_103_515_245 * number + 12_345) % 0x8000_0000
}

fn push_addition(alloc: Global, to: &mut Bytes, number: u64) -> Result<(), AllocError>
    ensures { OnOk result (to.new ≡ to.old ++ addition_line number) }
{
    to.append(b"addi x5, x5, ")?;
    push_decimal(alloc, to, number % 2048)?;
    to.append(b"\n")
}

fn push_additions(alloc: Global, to: &mut Bytes, first: u64, count: u64) -> Result<(), AllocError>
    requires { first < 2 ^ 31 }
    ensures { OnOk result
        (to.new ≡ to.old ++ flat_map (addition_at first) (range_with_len 1 count)) }
{
    let mut number = first;
    'additions: for _made in 0..count {
        number = next_number(number);
        push_addition(alloc, to, number)?;
    }
    Ok(())
}

/// The source of a program that adds so many numbers, and then prints a `G`.
#[tactic(auto, unfolding(crate::specs::Program::program_text))]
pub fn program_text(alloc: Global, first: u64, count: u64) -> Result<Bytes, AllocError>
    requires { first < 2 ^ 31 }
    ensures { IfOk result (λ text. text ≡ program_text first count) }
{
    let mut text = Bytes::from_vec(Vec::new(alloc));
    push_additions(alloc, &mut text, first, count)?;
    text.append(b"lui x6, 0x10000\naddi x7, x0, 71\nsb x7, 0(x6)\nwfi\n")?;
    Ok(text)
}
