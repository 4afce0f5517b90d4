// "One small table of kinds says which operands each kind takes and what it yields."
#![tactic(auto)]

ghost use Rattle.std.specs.Prelude.{◌≡◌, ◌&&◌, ltb, nat_abs};
ghost use Rattle.std.specs.Int.Signed.{non_neg};
ghost use Rattle.table.specs.Kinds.{kinds};
ghost use Rattle.kinds.specs.Entries.{declared_sort, entries_of, row_of};

// What a field of a node holds.
#[derive(Clone, Copy, Debug, PartialEq, Eq)]
pub enum Operand {
    // No number is right: there is no such kind.
    Missing,
    // 0.
    Unused,
    AnyNumber,
    // 0 or 1.
    TruthValue,
    // The number of a slot, or of a variable, an array or an earlier node of that type.
    Slot,
    BooleanVariable,
    IntegerVariable,
    BooleanArray,
    IntegerArray,
    BooleanNode,
    IntegerNode,
}

// A type.
#[derive(Clone, Copy, Debug, PartialEq, Eq)]
pub enum Sort {
    Boolean,
    Integer,
}

impl Sort {
    // The type of a variable, an array or a constant of that kind: 0 Boolean, 1 integer.
    pub fn declared(kind: u8) -> Sort
        ensures { result ≡ declared_sort kind }
    {
        if kind == 0 {
            Sort::Boolean
        } else {
            Sort::Integer
        }
    }
}

// A kind of node: what x holds, what y holds, what the kind yields, and whether it binds slot x in its body y.
#[derive(Clone, Copy, Debug, PartialEq, Eq)]
pub struct Entry {
    pub x: Operand,
    pub y: Operand,
    pub yields: Sort,
    pub binds: bool,
}

macro_rules! kind {
    ($x:ident, $y:ident, $yields:ident) => {
        Entry {
            x: Operand::$x,
            y: Operand::$y,
            yields: Sort::$yields,
            binds: false,
        }
    };
    ($x:ident, $y:ident, $yields:ident, binds) => {
        Entry {
            binds: true,
            ..kind!($x, $y, $yields)
        }
    };
}

// So many numbers are given to kinds, from 0 on.
pub const COUNT: usize = 31;

// The kinds in the order of their numbers.
const KINDS: [Entry; COUNT] = [
    kind!(Missing, Missing, Boolean), // 0: does not exist
    kind!(AnyNumber, Unused, Integer), // 1: constant
    kind!(TruthValue, Unused, Boolean), // 2: truth constant
    kind!(IntegerVariable, Unused, Integer), // 3: variable
    kind!(BooleanVariable, Unused, Boolean), // 4: Boolean variable
    kind!(Slot, Unused, Integer), // 5: slot
    kind!(IntegerNode, IntegerNode, Integer), // 6: add
    kind!(IntegerNode, IntegerNode, Integer), // 7: subtract
    kind!(IntegerNode, IntegerNode, Integer), // 8: multiply
    kind!(IntegerNode, IntegerNode, Integer), // 9: div
    kind!(IntegerNode, IntegerNode, Integer), // 10: mod
    kind!(IntegerNode, Unused, Integer), // 11: negate
    kind!(IntegerNode, IntegerNode, Integer), // 12: min
    kind!(IntegerNode, IntegerNode, Integer), // 13: max
    kind!(BooleanNode, Unused, Integer), // 14: boolToInt
    kind!(IntegerArray, IntegerNode, Integer), // 15: lookup
    kind!(BooleanArray, IntegerNode, Boolean), // 16: Boolean lookup
    kind!(Slot, IntegerNode, Integer, binds), // 17: sum
    kind!(Missing, Missing, Boolean), // 18: does not exist
    kind!(Missing, Missing, Boolean), // 19: does not exist
    kind!(BooleanNode, BooleanNode, Boolean), // 20: and
    kind!(BooleanNode, BooleanNode, Boolean), // 21: or
    kind!(BooleanNode, BooleanNode, Boolean), // 22: implies
    kind!(BooleanNode, BooleanNode, Boolean), // 23: iff
    kind!(BooleanNode, Unused, Boolean), // 24: not
    kind!(IntegerNode, IntegerNode, Boolean), // 25: =
    kind!(IntegerNode, IntegerNode, Boolean), // 26: ≠
    kind!(IntegerNode, IntegerNode, Boolean), // 27: ≤
    kind!(IntegerNode, IntegerNode, Boolean), // 28: <
    kind!(Slot, BooleanNode, Boolean, binds), // 29: exists
    kind!(Slot, BooleanNode, Boolean, binds), // 30: forall
];

// The table is document 01's.
pub fn entries() -> [Entry; COUNT]
    ensures { result ≡ entries_of kinds }
{
    KINDS
}

// The row of a kind number in the table; those that do not exist share row 0.
#[tactic(auto, unfolding(crate::specs::Entries::row_of))]
pub fn row(number: u8) -> usize
    ensures { result ≡ row_of number }
{
    let number = usize::from(number);
    if number < COUNT { number } else { 0 }
}

// Whether a field's number names one of `count` things: "a negative number names nothing".
pub fn names(count: u16, x: i32) -> bool
    ensures { result ≡ (non_neg x && ltb (nat_abs x) count) }
{
    // Without a branch the two tests become one comparison.
    (0 <= x) & (x < i32::from(count))
}
