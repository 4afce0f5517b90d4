// "The total is the sum over all constraints, shared nodes counted each time": found beforehand in one pass, however often a node is shared.
#![tactic(auto)]

ghost use Rattle.std.specs.Prelude.{◌≡◌, ◌+◌, ◌≤◌, ◌<◌, get_or};
ghost use Rattle.language.specs.Tables.{tree_at};
ghost use Rattle.language.specs.Meaning.{slot_at, count};
ghost use Rattle.language.specs.Steps.{cost};
ghost use Rattle.table.specs.Kinds.{kind_of};
ghost use Rattle.answers.specs.Sections.{declarations, node_count, node_trees};
ghost use Rattle.answers.specs.Answers.{total_cost};
ghost use Rattle.steps.specs.Capped as Capped;
ghost use Rattle.steps.specs.Shapes.{shape_of};
ghost use Rattle.steps.specs.Kept.{Kept};

use layout::checked_table::CheckedTable;
use table::{MOST_RECORDS, values_between};

// Whose steps a node takes over: nobody's, those of node x, of node y, of both, or of the body y for each value of slot x.
#[derive(Clone, Copy, Debug, PartialEq, Eq)]
enum Shape {
    Leaf,
    OfX,
    OfY,
    OfBoth,
    OfRange,
}

// The shape of each kind's nodes.
static SHAPES: [Shape; 31] = [
    Shape::Leaf, // 0: does not exist
    Shape::Leaf, // 1: constant
    Shape::Leaf, // 2: truth value
    Shape::Leaf, // 3: variable
    Shape::Leaf, // 4: Boolean variable
    Shape::Leaf, // 5: slot
    Shape::OfBoth, // 6: add
    Shape::OfBoth, // 7: subtract
    Shape::OfBoth, // 8: multiply
    Shape::OfBoth, // 9: div
    Shape::OfBoth, // 10: mod
    Shape::OfX, // 11: negate
    Shape::OfBoth, // 12: min
    Shape::OfBoth, // 13: max
    Shape::OfX, // 14: boolToInt
    Shape::OfY, // 15: lookup
    Shape::OfY, // 16: Boolean lookup
    Shape::OfRange, // 17: sum
    Shape::Leaf, // 18: does not exist
    Shape::Leaf, // 19: does not exist
    Shape::OfBoth, // 20: and
    Shape::OfBoth, // 21: or
    Shape::OfBoth, // 22: implies
    Shape::OfBoth, // 23: iff
    Shape::OfX, // 24: not
    Shape::OfBoth, // 25: =
    Shape::OfBoth, // 26: ≠
    Shape::OfBoth, // 27: ≤
    Shape::OfBoth, // 28: <
    Shape::OfRange, // 29: exists
    Shape::OfRange, // 30: forall
];

// 2^32: more than every budget.
const PAST_BUDGETS: u64 = 4294967296;

impl Shape {
    fn of(kind: u8) -> Shape
        requires { kind < 31 }
        ensures { result ≡ shape_of (kind_of kind) }
    {
        SHAPES[kind as usize]
    }
}

// Steps are told apart up to the largest budget.
#[tactic(auto, unfolding(crate::specs::Capped::capped))]
fn capped(steps: u64) -> u64
    ensures { result ≡ Capped.capped steps }
{
    steps.min(PAST_BUDGETS)
}

// The steps kept of node k: 0 where there are none.
fn kept(costs: &[u64; MOST_RECORDS], k: u32) -> u64
    ensures { result ≡ get_or costs.now k 0 }
{
    costs.get(k as usize).copied().unwrap_or(0)
}

// How many values slot n has.
fn slot_values(table: &CheckedTable, n: u32) -> u64
    ensures { result ≡ count (slot_at (declarations table.now.bytes.now) n) }
{
    let n = n as usize;
    if n < table.slot_count() {
        let slot = table.record_at(table.at.slots + n);
        values_between(slot.x, slot.y)
    } else {
        0
    }
}

// The steps of node n from those of the nodes before it: 1, and those of its operands.
fn node_steps(table: &CheckedTable, costs: &[u64; MOST_RECORDS], n: usize) -> u64
    requires kept { Kept table.now.bytes.now n costs.now }
    requires n_bound { n < node_count table.now.bytes.now }
    ensures { result ≡ Capped.capped (cost (declarations table.now.bytes.now) (tree_at (node_trees table.now.bytes.now) n)) }
{
    let record = table.record_at(table.at.nodes + n);
    let (x, y) = record.named();
    let a = kept(costs, x);
    let b = kept(costs, y);
    match Shape::of(record.kind) {
        Shape::Leaf => 1,
        Shape::OfX => capped(1 + a),
        Shape::OfY => capped(1 + b),
        Shape::OfBoth => capped(1 + a + b),
        Shape::OfRange => capped(1 + slot_values(table, x) * b),
    }
}

// The steps of all constraints from those of the nodes.
fn constraint_steps(table: &CheckedTable, costs: &[u64; MOST_RECORDS]) -> u64
    requires { Kept table.now.bytes.now (node_count table.now.bytes.now) costs.now }
    ensures { result ≡ Capped.capped (total_cost table.now.bytes.now) }
{
    let mut total = 0;
    for p in table.at.constraints..table.at.rest {
        let (root, _) = table.record_at(p).named();
        total = capped(total + kept(costs, root));
    }
    total
}

// The steps of all constraints together, 2^32 where they are more than 2^32 − 1.
pub fn total_steps(table: &CheckedTable) -> u64
    ensures { result ≡ Capped.capped (total_cost table.now.bytes.now) }
{
    let mut costs = [0u64; MOST_RECORDS];
    for n in 0..table.node_count() {
        costs[n] = node_steps(table, &costs, n);
    }
    constraint_steps(table, &costs)
}
