// Node records decoded. A node of the other type is met in no sound table: it reads as 0, or as false.
ghost use Rattle.std.specs.Prelude.{◌≡◌};
ghost use Rattle.table.specs.Kinds.{kind_of, row_in};
ghost use Rattle.evaluator.specs.Nodes.{integer_case, truth_case};

use operations::integers::{Arithmetic, Division};
use operations::truths::{Comparison, Connective};
use operations::values::{Quantifier, Value};
use table::kind::Kind;
use table::{ArrayNumber, NodeNumber, Record, SlotNumber, VariableNumber};

#[derive(Clone, Copy)]
pub enum IntegerNode {
    Constant(Value),
    Variable(VariableNumber),
    Slot(SlotNumber),
    Calculated(Arithmetic, NodeNumber, NodeNumber),
    Divided(Division, NodeNumber, NodeNumber),
    Negate(NodeNumber),
    BoolToInt(NodeNumber),
    Lookup(ArrayNumber, NodeNumber),
    Sum(SlotNumber, NodeNumber),
}

#[derive(Clone, Copy)]
pub enum TruthNode {
    Constant(Value),
    Variable(VariableNumber),
    Lookup(ArrayNumber, NodeNumber),
    Connected(Connective, NodeNumber, NodeNumber),
    Not(NodeNumber),
    Compared(Comparison, NodeNumber, NodeNumber),
    Quantified(Quantifier, SlotNumber, NodeNumber),
}

pub fn integer_node(row: Record) -> IntegerNode
    ensures { result ≡ integer_case (row_in (kind_of row.kind) row.x row.y) }
{
    let (x, y) = row.named();
    let (a, b) = (NodeNumber(x), NodeNumber(y));
    let Ok(kind) = Kind::try_from(row.kind) else {
        return IntegerNode::Constant(Value::Integer(0));
    };
    match kind {
        Kind::Constant => IntegerNode::Constant(Value::Integer(row.x)),
        Kind::Variable => IntegerNode::Variable(VariableNumber(x)),
        Kind::Slot => IntegerNode::Slot(SlotNumber(x)),
        Kind::Add => IntegerNode::Calculated(Arithmetic::Plus, a, b),
        Kind::Subtract => IntegerNode::Calculated(Arithmetic::Minus, a, b),
        Kind::Multiply => IntegerNode::Calculated(Arithmetic::Times, a, b),
        Kind::Div => IntegerNode::Divided(Division::Quotient, a, b),
        Kind::Mod => IntegerNode::Divided(Division::Remainder, a, b),
        Kind::Negate => IntegerNode::Negate(a),
        Kind::Min => IntegerNode::Calculated(Arithmetic::Minimum, a, b),
        Kind::Max => IntegerNode::Calculated(Arithmetic::Maximum, a, b),
        Kind::BoolToInt => IntegerNode::BoolToInt(a),
        Kind::Lookup => IntegerNode::Lookup(ArrayNumber(x), b),
        Kind::Sum => IntegerNode::Sum(SlotNumber(x), b),
        _ => IntegerNode::Constant(Value::Integer(0)),
    }
}

pub fn truth_node(row: Record) -> TruthNode
    ensures { result ≡ truth_case (row_in (kind_of row.kind) row.x row.y) }
{
    let (x, y) = row.named();
    let (a, b) = (NodeNumber(x), NodeNumber(y));
    let Ok(kind) = Kind::try_from(row.kind) else {
        return TruthNode::Constant(Value::Truth(false));
    };
    match kind {
        Kind::TruthValue => TruthNode::Constant(Value::Truth(row.x == 1)),
        Kind::BooleanVariable => TruthNode::Variable(VariableNumber(x)),
        Kind::BooleanLookup => TruthNode::Lookup(ArrayNumber(x), b),
        Kind::And => TruthNode::Connected(Connective::And, a, b),
        Kind::Or => TruthNode::Connected(Connective::Or, a, b),
        Kind::Implies => TruthNode::Connected(Connective::Implies, a, b),
        Kind::Iff => TruthNode::Connected(Connective::Iff, a, b),
        Kind::Not => TruthNode::Not(a),
        Kind::Equal => TruthNode::Compared(Comparison::Equal, a, b),
        Kind::Unequal => TruthNode::Compared(Comparison::Unequal, a, b),
        Kind::AtMost => TruthNode::Compared(Comparison::AtMost, a, b),
        Kind::Below => TruthNode::Compared(Comparison::Below, a, b),
        Kind::Exists => TruthNode::Quantified(Quantifier::Exists, SlotNumber(x), b),
        Kind::Forall => TruthNode::Quantified(Quantifier::Forall, SlotNumber(x), b),
        _ => TruthNode::Constant(Value::Truth(false)),
    }
}
