//! The ten operations on integers. Each answers the exact number, or says why there is none.

ghost use Rattle.std.specs.Prelude.{◌≡◌, ℕ, ℤ, ◌+ℤ◌, ◌-ℤ◌, ◌*ℤ◌, int_rem};
ghost use Rattle.std.specs.Int.{int_pow};
ghost use Rattle.ev_integer.specs.Ints.{apply, divided, floor_divide, in_range, is_small, modulo, power, powered, rounds_up};

use std::error::Error;
use std::fmt;

/// An operation on two integers.
#[derive(Clone, Copy)]
pub enum IntOp {
    Add,
    Subtract,
    Multiply,
    /// The quotient rounded downwards.
    FloorDivide,
    /// What is left of the quotient rounded to zero: it has the sign of the first number.
    Remainder,
    /// What is left of the quotient rounded downwards: it has the sign of the second number.
    Mod,
    /// The first number to the power of the second. Any number to the power 0 is 1.
    Pow,
    /// The bits in two's complement that both have.
    And,
    /// The bits that one of the two has.
    Or,
    /// The bits that exactly one of the two has.
    Xor,
}

/// Why an operation has no answer.
#[derive(Clone, Copy, Debug)]
pub enum NumFault {
    /// The exact result is below -2^127 or is 2^127 or more.
    Overflow,
    /// A division by 0.
    ZeroDivisor,
    /// A power whose exponent is below 0.
    NegativePower,
}

impl fmt::Display for NumFault {
    ghost use Rattle.std.specs.Prelude.{Some};
    ghost use Rattle.ev_integer.specs.Message.{fault_text};

    ghost output = { λ fault. Some (fault_text fault) };

    fn fmt<W: fmt::Write>(&self, f: &mut fmt::Formatter<W>) -> fmt::Result {
        match self {
            NumFault::Overflow => write!(f, "integer overflow"),
            NumFault::ZeroDivisor => write!(f, "zero divisor"),
            NumFault::NegativePower => write!(f, "negative power"),
        }
    }
}

impl Error for NumFault {}

/// The number, where it is within 128 bits.
#[tactic(auto, using(crate::proofs::Ranges::checked))]
fn sum(a: i128, b: i128) -> Result<i128, NumFault>
    ensures { result ≡ in_range (a +ℤ b) }
{
    a.checked_add(b).ok_or(NumFault::Overflow)
}

#[tactic(auto, using(crate::proofs::Ranges::checked))]
fn difference(a: i128, b: i128) -> Result<i128, NumFault>
    ensures { result ≡ in_range (a -ℤ b) }
{
    a.checked_sub(b).ok_or(NumFault::Overflow)
}

#[tactic(auto, using(crate::proofs::Ranges::checked))]
fn product(a: i128, b: i128) -> Result<i128, NumFault>
    ensures { result ≡ in_range (a *ℤ b) }
{
    a.checked_mul(b).ok_or(NumFault::Overflow)
}

/// Whether a quotient rounded to zero that leaves this rest is above the exact one.
fn rounds_up(rest: i128, divisor: i128) -> bool
    ensures { result ≡ rounds_up rest divisor }
{
    rest != 0 && (rest < 0) != (divisor < 0)
}

/// The quotient rounded downwards.
fn floor_divide(a: i128, b: i128) -> Result<i128, NumFault>
    ensures { result ≡ divided b (floor_divide a b) }
{
    if b == 0 {
        return Err(NumFault::ZeroDivisor);
    }
    match a.checked_div(b) {
        None => Err(NumFault::Overflow),
        Some(quotient) => {
            if rounds_up(a.wrapping_rem(b), b) {
                difference(quotient, 1)
            } else {
                Ok(quotient)
            }
        }
    }
}

/// What is left of the quotient rounded to zero.
fn remainder(a: i128, b: i128) -> Result<i128, NumFault>
    ensures { result ≡ divided b (int_rem a b) }
{
    if b == 0 {
        Err(NumFault::ZeroDivisor)
    } else {
        Ok(a.wrapping_rem(b))
    }
}

/// What is left of the quotient rounded downwards.
fn modulo(a: i128, b: i128) -> Result<i128, NumFault>
    ensures { result ≡ divided b (modulo a b) }
{
    if b == 0 {
        return Err(NumFault::ZeroDivisor);
    }
    let rest = a.wrapping_rem(b);
    if rounds_up(rest, b) {
        sum(rest, b)
    } else {
        remainder(a, b)
    }
}

/// Whether the number is -1, 0 or 1.
fn is_small(a: i128) -> bool
    ensures { result ≡ is_small a }
{
    -1 <= a && a <= 1
}

/// The power. Above 127 only those of -1, 0 and 1 are within 128 bits.
fn power(a: i128, exponent: u128) -> Result<i128, NumFault>
    ensures { result ≡ power a exponent }
{
    if is_small(a) {
        if exponent == 0 {
            Ok(1)
        } else if exponent % 2 == 0 && a < 0 {
            Ok(1)
        } else {
            Ok(a)
        }
    } else if exponent <= 127 {
        a.checked_pow(exponent as u32).ok_or(NumFault::Overflow)
    } else {
        Err(NumFault::Overflow)
    }
}

/// The power whose exponent may be below 0.
fn powered(a: i128, exponent: i128) -> Result<i128, NumFault>
    ensures { result ≡ powered a exponent }
{
    if exponent < 0 {
        Err(NumFault::NegativePower)
    } else {
        power(a, exponent as u128)
    }
}

/// The exact result of an operation, or the fault: `ZeroDivisor` exactly where a division has the divisor 0,
/// `NegativePower` exactly where a power has an exponent below 0, and `Overflow` exactly where the exact result is not
/// within 128 bits. It takes no memory.
#[tactic(auto, using(crate::proofs::Ranges::or_bits, crate::proofs::Ranges::xor_bits))]
pub fn apply(op: IntOp, a: i128, b: i128) -> Result<i128, NumFault>
    ensures { result ≡ apply op a b }
{
    match op {
        IntOp::Add => sum(a, b),
        IntOp::Subtract => difference(a, b),
        IntOp::Multiply => product(a, b),
        IntOp::FloorDivide => floor_divide(a, b),
        IntOp::Remainder => remainder(a, b),
        IntOp::Mod => modulo(a, b),
        IntOp::Pow => powered(a, b),
        IntOp::And => Ok(a & b),
        IntOp::Or => Ok(a | b),
        IntOp::Xor => Ok(a ^ b),
    }
}

/// The power by the bound on its exponent is the exact one, where that is within 128 bits.
#[tactic(auto, using(crate::proofs::Powers::power_exact))]
pub fn power_is_exact()
    ensures { (a : ℤ) (n : ℕ) → power a n ≡ in_range (int_pow a n) }
{}
