// Boolean operations on what the walk met. The readings part in two places only: connectives and open comparisons.
ghost use Rattle.std.specs.Prelude.{◌≡◌};
ghost use Rattle.std.proofs.Math.Option.{none, map};
ghost use Rattle.language.specs.Readings as readings;
ghost use Rattle.language.specs.Meaning.{is_one};
ghost use Rattle.reading.specs.Readings.{meant};
ghost use Rattle.operations.specs.Values.{integer_of, truth_of, of_truth, truth_to};
ghost use Rattle.operations.specs.Truths.{comparison_of, connective_of, compared, connected, opposed};

use crate::integers::integers_of;
use crate::values::{Value, Walked, of_walk, truth_of};
use reading::Reading;

#[derive(Clone, Copy, Debug, PartialEq, Eq)]
pub enum Comparison {
    Equal,
    Unequal,
    AtMost,
    Below,
}

impl Comparison {
    #[tactic(auto, using(numbers::proofs::Widths::eq_bits), unfolding(language::specs::Readings::comparison))]
    fn holds(self, x: i32, y: i32) -> bool
        ensures { result ≡ readings.comparison (comparison_of self) x y }
    {
        match self {
            Comparison::Equal => x == y,
            Comparison::Unequal => x != y,
            Comparison::AtMost => x <= y,
            Comparison::Below => x < y,
        }
    }
}

// The value of a comparison or a Boolean lookup that lacks an operand, or whose index is outside.
#[tactic(auto, unfolding(language::specs::Readings::atomic))]
fn open_value(reading: Reading) -> Value
    ensures { result ≡ of_truth (readings.atomic (meant reading) none) }
{
    match reading {
        Reading::Strict | Reading::Kleene => Value::Undefined,
        Reading::Relational => Value::Truth(false),
    }
}

#[tactic(auto, unfolding(crate::specs::Truths::compared, crate::specs::Values::truth_to, crate::specs::Integers::operands_of, language::specs::Readings::both, language::specs::Readings::atomic))]
pub fn compare(reading: Reading, c: Comparison, a: Walked, b: Walked) -> Walked
    ensures { result ≡ compared (meant reading) (comparison_of c) a b }
{
    match integers_of(a, b) {
        Ok((x, y)) => truth_of(true, c.holds(x, y)),
        Err(missing) => of_walk(missing.within, open_value(reading)),
    }
}

// A Boolean lookup whose element was found, or not: 1 is true.
#[tactic(auto, using(crate::proofs::Walks::same_as_one), unfolding(crate::specs::Values::truth_to, language::specs::Readings::atomic))]
pub fn element_truth(reading: Reading, within: bool, element: Value) -> Walked
    ensures { result ≡ truth_to within (readings.atomic (meant reading) (map is_one (integer_of element))) }
{
    match element {
        Value::Integer(x) => truth_of(within, x == 1),
        _ => of_walk(within, open_value(reading)),
    }
}

// not is undefined if its operand is, in each reading.
#[tactic(auto, unfolding(language::specs::Readings::opposite))]
fn opposite(x: Value) -> Value
    ensures { result ≡ of_truth (readings.opposite (truth_of x)) }
{
    match x {
        Value::Truth(b) => Value::Truth(!b),
        _ => Value::Undefined,
    }
}

#[tactic(auto, unfolding(crate::specs::Truths::opposed, crate::specs::Values::truth_to))]
pub fn negation(a: Walked) -> Walked
    ensures { result ≡ opposed a }
{
    of_walk(a.within, opposite(a.value))
}

#[derive(Clone, Copy, Debug, PartialEq, Eq)]
pub enum Connective {
    And,
    Or,
    Implies,
    Iff,
}

impl Connective {
    // Ordinary logic.
    #[tactic(auto, unfolding(language::specs::Readings::logic))]
    fn holds(self, x: bool, y: bool) -> bool
        ensures { result ≡ readings.logic (connective_of self) x y }
    {
        match self {
            Connective::And => x & y,
            Connective::Or => x | y,
            Connective::Implies => !x | y,
            Connective::Iff => x == y,
        }
    }

    // "Strict: any node with an undefined operand is undefined."
    #[tactic(auto, unfolding(language::specs::Readings::strictly, language::specs::Readings::both))]
    fn strictly(self, x: Value, y: Value) -> Value
        ensures { result ≡ of_truth (readings.strictly (connective_of self) (truth_of x) (truth_of y)) }
    {
        match (x, y) {
            (Value::Truth(x), Value::Truth(y)) => Value::Truth(self.holds(x, y)),
            _ => Value::Undefined,
        }
    }

    // "Kleene's tables for connectives."
    #[tactic(auto, unfolding(language::specs::Readings::kleenely))]
    fn kleenely(self, x: Value, y: Value) -> Value
        ensures { result ≡ of_truth (readings.kleenely (connective_of self) (truth_of x) (truth_of y)) }
    {
        match self {
            Connective::And => kleene_and(x, y),
            Connective::Or => kleene_or(x, y),
            Connective::Implies => kleene_or(opposite(x), y),
            Connective::Iff => self.strictly(x, y),
        }
    }
}

// false settles an and, whatever the other operand is.
#[tactic(auto, unfolding(language::specs::Readings::kleene_and))]
fn kleene_and(x: Value, y: Value) -> Value
    ensures { result ≡ of_truth (readings.kleene_and (truth_of x) (truth_of y)) }
{
    match (x, y) {
        (Value::Truth(false), _) | (_, Value::Truth(false)) => Value::Truth(false),
        (Value::Truth(true), Value::Truth(true)) => Value::Truth(true),
        _ => Value::Undefined,
    }
}

// true settles an or.
#[tactic(auto, unfolding(language::specs::Readings::kleene_or))]
fn kleene_or(x: Value, y: Value) -> Value
    ensures { result ≡ of_truth (readings.kleene_or (truth_of x) (truth_of y)) }
{
    match (x, y) {
        (Value::Truth(true), _) | (_, Value::Truth(true)) => Value::Truth(true),
        (Value::Truth(false), Value::Truth(false)) => Value::Truth(false),
        _ => Value::Undefined,
    }
}

#[tactic(auto, unfolding(crate::specs::Truths::connected, crate::specs::Values::truth_to, language::specs::Readings::connective))]
pub fn connect(reading: Reading, c: Connective, a: Walked, b: Walked) -> Walked
    ensures { result ≡ connected (meant reading) (connective_of c) a b }
{
    let value = match reading {
        Reading::Strict => c.strictly(a.value, b.value),
        Reading::Kleene | Reading::Relational => c.kleenely(a.value, b.value),
    };
    of_walk(a.within & b.within, value)
}
