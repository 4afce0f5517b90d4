// Integer operations on what the walk met. "An integer operation is undefined if an operand is."
ghost use Rattle.std.specs.Prelude.{◌≡◌, ℤ, false, pos};
ghost use Rattle.std.proofs.Math.Option.{Option, some};
ghost use Rattle.numbers.specs.Whole.{eq_z};
ghost use Rattle.numbers.specs.Whole as whole;
ghost use Rattle.language.specs.Readings as readings;
ghost use Rattle.operations.specs.Values.{optional};
ghost use Rattle.operations.specs.Integers.{arithmetic_of, division_of, operands_of, integers, negated, numbered};

use crate::values::{Value, Walked, limited, undefined};

// An operation on two integers, which may have no value.
pub trait Operation: Copy {
    ghost meaning: { Self → ℤ → ℤ → Option ℤ };

    fn of(self, x: i32, y: i32) -> Option<i64>
        ensures { optional result ≡ meaning self x y };
}

#[derive(Clone, Copy, Debug, PartialEq, Eq)]
pub enum Arithmetic {
    Plus,
    Minus,
    Times,
    Minimum,
    Maximum,
}

impl Operation for Arithmetic {
    ghost meaning = { λ op x y. some (readings.arithmetic (arithmetic_of op) x y) };

    // Sums and products of 32 bits fit 64.
    #[tactic(auto, using(std::proofs::lemmas::Int::ints, std::proofs::lemmas::Int::clamps), unfolding(language::specs::Readings::arithmetic, numbers::specs::Whole::least, numbers::specs::Whole::greatest))]
    fn of(self, x: i32, y: i32) -> Option<i64> {
        let x = i64::from(x);
        let y = i64::from(y);
        Some(match self {
            Arithmetic::Plus => x + y,
            Arithmetic::Minus => x - y,
            Arithmetic::Times => x * y,
            Arithmetic::Minimum => x.min(y),
            Arithmetic::Maximum => x.max(y),
        })
    }
}

#[derive(Clone, Copy, Debug, PartialEq, Eq)]
pub enum Division {
    Quotient,
    Remainder,
}

impl Operation for Division {
    ghost meaning = { λ op. readings.division (division_of op) };

    // "div and mod by 0 .. are undefined."
    #[tactic(auto, using(numbers::proofs::Widths::zero_bits, numbers::proofs::Widths::nonzero_bits), unfolding(language::specs::Readings::division))]
    fn of(self, x: i32, y: i32) -> Option<i64> {
        if y == 0 {
            return None;
        }
        Some(match self {
            Division::Quotient => quotient(x, y),
            Division::Remainder => remainder(x, y),
        })
    }
}

// "The quotient is cut toward zero": that of the magnitudes; then the sign is set, below zero where the signs differ.
fn quotient(x: i32, y: i32) -> i64
    requires { eq_z y (pos 0) ≡ false }
    ensures { result ≡ whole.quotient x y }
{
    let q = i64::from(x.unsigned_abs() / y.unsigned_abs());
    let negative = (x < 0) != (y < 0);
    if negative { -q } else { q }
}

// "MiniZinc gives the remainder the sign of the dividend", and so does the machine; but in 32 bits it stops at −2^31 mod −1, whose quotient has no room.
fn remainder(x: i32, y: i32) -> i64
    requires { eq_z y (pos 0) ≡ false }
    ensures { result ≡ whole.remainder x y }
{
    i64::from(x) % i64::from(y)
}

// Operands of which one is no integer, or was met past the limit; and whether both stayed within it.
#[derive(Clone, Copy, Debug, PartialEq, Eq)]
pub struct Missing {
    pub within: bool,
}

// Two operands as integers.
#[tactic(auto, unfolding(crate::specs::Integers::operands_of))]
pub fn integers_of(a: Walked, b: Walked) -> Result<(i32, i32), Missing>
    ensures { result ≡ operands_of a b }
{
    let within = a.within & b.within;
    match (a.value, b.value) {
        (Value::Integer(x), Value::Integer(y)) if within => Ok((x, y)),
        _ => Err(Missing { within }),
    }
}

// An operation on what the walk met.
#[tactic(auto, unfolding(crate::specs::Integers::integers, crate::specs::Integers::operands_of, crate::specs::Values::limited_to, language::specs::Readings::both, language::specs::Meaning::value_within))]
pub fn operated<O: Operation>(op: O, a: Walked, b: Walked) -> Walked
    ensures { result ≡ integers (O.meaning op) a b }
{
    match integers_of(a, b) {
        Ok((x, y)) => match op.of(x, y) {
            Some(z) => limited(true, z),
            None => undefined(true),
        },
        Err(missing) => undefined(missing.within),
    }
}

// Arithmetic on what the walk met.
pub fn calculate(op: Arithmetic, a: Walked, b: Walked) -> Walked
    ensures { result ≡ integers (λ x y. some (readings.arithmetic (arithmetic_of op) x y)) a b }
{
    operated(op, a, b)
}

// Division on what the walk met.
pub fn divide(op: Division, a: Walked, b: Walked) -> Walked
    ensures { result ≡ integers (readings.division (division_of op)) a b }
{
    operated(op, a, b)
}

// The number with the other sign.
#[tactic(auto, using(crate::proofs::Walks::missing, crate::proofs::Walks::not_integer), unfolding(crate::specs::Integers::negated))]
pub fn negate(a: Walked) -> Walked
    ensures { result ≡ negated a }
{
    match a.value {
        Value::Integer(x) => limited(a.within, -i64::from(x)),
        _ => undefined(a.within),
    }
}

// boolToInt: true is 1, false 0.
#[tactic(auto, using(crate::proofs::Walks::missing, crate::proofs::Walks::not_truth), unfolding(crate::specs::Integers::numbered, language::specs::Meaning::number))]
pub fn number(a: Walked) -> Walked
    ensures { result ≡ numbered a }
{
    match a.value {
        Value::Truth(b) => limited(a.within, i64::from(b)),
        _ => undefined(a.within),
    }
}
