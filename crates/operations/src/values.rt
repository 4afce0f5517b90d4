// What a node gives: its value, and whether the walk stayed within the limit.
ghost use Rattle.std.specs.Prelude.{◌≡◌};
ghost use Rattle.std.proofs.Math.Option.{some};
ghost use Rattle.operations.specs.Values.{of_walk, integer_of, limited_to};

// "Each value is an integer, a truth value or undefined."
#[derive(Clone, Copy, Debug, PartialEq, Eq)]
pub enum Value {
    Integer(i32),
    Truth(bool),
    Undefined,
}

// What a walk over a node gives back: its value, and whether every integer node met had a value within the limit.
// Past the limit the value does not matter any more, and is left undefined.
// Kept: the flag beside the value, since a value enum held in the evaluator's result struct is a form that document 01 names.
#[derive(Clone, Copy, Debug, PartialEq, Eq)]
pub struct Walked {
    pub value: Value,
    pub within: bool,
}

#[derive(Clone, Copy, Debug, PartialEq, Eq)]
pub enum Quantifier {
    Exists,
    Forall,
}

// What an integer node's value stays within, on both sides of 0.
pub const LIMIT: u64 = 2_000_000_000;

// The value of a walk that stayed within the limit, or else none.
pub fn of_walk(within: bool, value: Value) -> Walked
    ensures { result ≡ of_walk within value }
{
    let value = if within { value } else { Value::Undefined };
    Walked { value, within }
}

// The value of an integer node, held to the limit.
pub fn limited(within: bool, x: i64) -> Walked
    ensures { result ≡ limited_to within (some x) }
{
    if x.unsigned_abs() <= LIMIT {
        of_walk(within, Value::Integer(x as i32))
    } else {
        undefined(false)
    }
}

// A value already in hand, held to the limit.
#[tactic(auto, using(crate::proofs::Walks::missing, crate::proofs::Walks::not_integer))]
pub fn limited_value(within: bool, value: Value) -> Walked
    ensures { result ≡ limited_to within (integer_of value) }
{
    match value {
        Value::Integer(x) => limited(within, i64::from(x)),
        _ => undefined(within),
    }
}

// No value.
pub fn undefined(within: bool) -> Walked
    ensures { result ≡ of_walk within Value.Undefined }
{
    of_walk(within, Value::Undefined)
}

// The truth value of a walk that stayed within the limit, or else none.
pub fn truth_of(within: bool, b: bool) -> Walked
    ensures { result ≡ of_walk within (Value.Truth b) }
{
    of_walk(within, Value::Truth(b))
}
