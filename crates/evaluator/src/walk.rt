// The walk: integers call for truth values and truth values for integers, down to the leaves, with no short cuts.
ghost use Rattle.std.specs.Prelude.{◌≡◌, true, ◌<◌, pos, replicate};
ghost use Rattle.std.proofs.Math.Option.{some};
ghost use Rattle.language.specs.Readings as readings;
ghost use Rattle.operations.specs.Values.{of_truth, of_walk};
ghost use Rattle.operations.specs.Truths.{connective_of};
ghost use Rattle.evaluator.specs.Walks.{quantifier_of};
ghost use Rattle.evaluator.specs.OfWalk.{integer_at, truth_at, sum_at, quantified_at};

use crate::decoded::{IntegerNode, TruthNode, integer_node, truth_node};
use crate::lookups::slot;
use crate::places::Walk;
use operations::integers::{calculate, divide, negate, number};
use operations::sums::{added, nothing, summed};
use operations::truths::{Connective, compare, connect, negation};
use operations::values::{Quantifier, Walked, limited, limited_value, of_walk, truth_of};
use table::{NodeNumber, SlotNumber};

// A quantifier over an empty range.
#[tactic(auto, unfolding(language::specs::Readings::of_none))]
fn empty(q: Quantifier) -> Walked
    ensures { result ≡ of_walk true (of_truth (some (readings.of_none (quantifier_of q)))) }
{
    match q {
        Quantifier::Exists => truth_of(true, false),
        Quantifier::Forall => truth_of(true, true),
    }
}

// "quantifiers as or/and over the range"
#[tactic(auto, unfolding(language::specs::Readings::joins))]
fn joins(q: Quantifier) -> Connective
    ensures { connective_of result ≡ readings.joins (quantifier_of q) }
{
    match q {
        Quantifier::Exists => Connective::Or,
        Quantifier::Forall => Connective::And,
    }
}

// Kept: two clauses at each function of the cycle. That a node's number is within the table would be a type tied to one table, and that the slots'
// values are as they were is said of a call, not of a value.
impl Walk<'_> {
    // An integer operand: a leaf is worked out on the spot.
    #[cycle(walk)]
    fn operand(&self, setting: &mut [i32; 16], n: NodeNumber) -> Walked
        requires { n.0 < self.now.places.now.node_count }
        ensures value { result ≡ integer_at self.now setting.old n.0 }
        ensures kept { setting.new ≡ setting.old }
    {
        match self.leaf_at(setting, n) {
            Some(leaf) => leaf,
            None => self.integer(setting, n),
        }
    }

    // The value of an integer node.
    #[cycle(walk)]
    fn integer(&self, setting: &mut [i32; 16], n: NodeNumber) -> Walked
        requires { n.0 < self.now.places.now.node_count }
        ensures value { result ≡ integer_at self.now setting.old n.0 }
        ensures kept { setting.new ≡ setting.old }
    {
        match integer_node(self.record_at(self.places.nodes_from + n.0 as usize)) {
            IntegerNode::Constant(v) => limited_value(true, v),
            IntegerNode::Variable(v) => limited(true, self.variable(v) as i64),
            IntegerNode::Slot(s) => limited(true, slot(setting, s) as i64),
            IntegerNode::Calculated(op, a, b) => {
                let x = self.operand(setting, a);
                let y = self.operand(setting, b);
                calculate(op, x, y)
            }
            IntegerNode::Divided(op, a, b) => {
                let x = self.operand(setting, a);
                let y = self.operand(setting, b);
                divide(op, x, y)
            }
            IntegerNode::Negate(a) => negate(self.operand(setting, a)),
            IntegerNode::BoolToInt(a) => number(self.truth(setting, a)),
            IntegerNode::Lookup(array, i) => {
                let index = self.operand(setting, i);
                self.looked_up(array, index)
            }
            IntegerNode::Sum(s, body) => self.sum(setting, s, body),
        }
    }

    // The value of a Boolean node.
    #[cycle(walk)]
    fn truth(&self, setting: &mut [i32; 16], n: NodeNumber) -> Walked
        requires { n.0 < self.now.places.now.node_count }
        ensures value { result ≡ truth_at self.now setting.old n.0 }
        ensures kept { setting.new ≡ setting.old }
    {
        match truth_node(self.record_at(self.places.nodes_from + n.0 as usize)) {
            TruthNode::Constant(v) => of_walk(true, v),
            TruthNode::Variable(v) => truth_of(true, self.variable(v) == 1),
            TruthNode::Lookup(array, i) => {
                let index = self.operand(setting, i);
                self.looked_up_truth(array, index)
            }
            TruthNode::Connected(op, a, b) => {
                let x = self.truth(setting, a);
                let y = self.truth(setting, b);
                connect(self.reading, op, x, y)
            }
            TruthNode::Not(a) => negation(self.truth(setting, a)),
            TruthNode::Compared(op, a, b) => {
                let x = self.operand(setting, a);
                let y = self.operand(setting, b);
                compare(self.reading, op, x, y)
            }
            TruthNode::Quantified(q, s, body) => self.quantified(setting, q, s, body),
        }
    }

    // The sum of a body over a slot's values. After each the slot has its outer value again.
    #[cycle(walk)]
    fn sum(&self, setting: &mut [i32; 16], s: SlotNumber, body: NodeNumber) -> Walked
        requires { body.0 < self.now.places.now.node_count }
        ensures value { result ≡ sum_at self.now setting.old s.0 body.0 }
        ensures kept { setting.new ≡ setting.old }
    {
        let range = self.range_of(s);
        let i = s.0 as usize;
        let mut total = nothing();
        for k in 0..range.count {
            let outer = setting[i];
            setting[i] = range.value(k);
            let m = self.integer(setting, body);
            setting[i] = outer; // the outer setting is back
            total = added(total, m);
        }
        summed(total)
    }

    // A quantifier's body over its slot's values, joined from the left.
    // Kept: a loop here and one in `sum`. One loop over two closures would state the walk's contract once more for each: no plainer.
    #[cycle(walk)]
    fn quantified(
        &self,
        setting: &mut [i32; 16],
        q: Quantifier,
        s: SlotNumber,
        body: NodeNumber,
    ) -> Walked
        requires { body.0 < self.now.places.now.node_count }
        ensures value { result ≡ quantified_at self.now setting.old (quantifier_of q) s.0 body.0 }
        ensures kept { setting.new ≡ setting.old }
    {
        let range = self.range_of(s);
        let i = s.0 as usize;
        let mut joint = empty(q);
        for k in 0..range.count {
            let outer = setting[i];
            setting[i] = range.value(k);
            let m = self.truth(setting, body);
            setting[i] = outer;
            joint = connect(self.reading, joins(q), joint, m);
        }
        joint
    }

    // The value of a constraint. It has no free slot, so the values that the slots begin with do not matter.
    pub fn constraint(&self, n: NodeNumber) -> Walked
        requires { n.0 < self.now.places.now.node_count }
        ensures { result ≡ truth_at self.now (replicate 16 (pos 0)) n.0 }
    {
        self.truth(&mut [0; 16], n)
    }
}
