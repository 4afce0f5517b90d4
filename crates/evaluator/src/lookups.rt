// Variables, slots and array elements: what evaluation reads.
ghost use Rattle.std.specs.Prelude.{◌≡◌, ◌+◌, ◌≤◌, ◌<◌, get_or, pos};
ghost use Rattle.std.proofs.Math.Option.{bind};
ghost use Rattle.language.specs.Readings.{strict};
ghost use Rattle.language.specs.Meaning.{value_of, element_value, element_at, array_at};
ghost use Rattle.table.specs.Parts.{parts_of};
ghost use Rattle.answers.specs.Sections.{element_of, array_of, behind_array, row_of};
ghost use Rattle.reading.specs.Readings.{meant};
ghost use Rattle.operations.specs.Values.{of_integer, integer_of};
ghost use Rattle.evaluator.specs.Walks.{declared, setting_of, looked_up, looked_up_truth, leaf_of};

use crate::places::{TablePlaces, Walk};
use operations::truths::element_truth;
use operations::values::{Value, Walked, limited, limited_value};
use table::kind::Kind;
use table::{ArrayNumber, MOST_BYTES, NodeNumber, Record, SlotNumber, VariableNumber, record_at};

// The number at an index; past the end 0.
fn number_at(numbers: &[i32], i: u32) -> i32
    ensures { result ≡ get_or numbers.now i (pos 0) }
{
    match numbers.get(i as usize) {
        Some(number) => *number,
        None => 0,
    }
}

#[tactic(auto, unfolding(crate::specs::Walks::setting_of))]
pub fn slot(setting: &[i32; 16], s: SlotNumber) -> i32
    ensures { result ≡ setting_of setting.now s.0 }
{
    number_at(setting, s.0)
}

// The value of a variable in an assignment; past its end 0.
#[tactic(auto, unfolding(language::specs::Meaning::value_of))]
pub fn variable(assignment: &[i32], v: VariableNumber) -> i32
    ensures { result ≡ value_of assignment.now v.0 }
{
    number_at(assignment, v.0)
}

// The value of an integer leaf: a constant, a variable or a slot. The table need not be laid out as a walk's is.
// Kept: `integer` knows leaves too. Tried without this look before that call: 2.6 times the time of hand-tuned C, with it 1.8.
#[inline(always)]
pub fn leaf_at(
    table: &[u8; MOST_BYTES],
    places: &TablePlaces,
    assignment: &[i32],
    setting: &[i32; 16],
    n: NodeNumber,
) -> Option<Walked>
    requires { places.now.nodes_from + n.0 < 5000 }
    ensures { result ≡ leaf_of assignment.now (setting_of setting.now) (row_of table.now (places.now.nodes_from + n.0)) }
{
    let row = record_at(table, places.nodes_from + n.0 as usize);
    let (named, _) = row.named();
    let Ok(kind) = Kind::try_from(row.kind) else {
        return None;
    };
    match kind {
        Kind::Constant => Some(limited(true, row.x as i64)),
        Kind::Variable => Some(limited(true, variable(assignment, VariableNumber(named)) as i64)),
        Kind::Slot => Some(limited(true, slot(setting, SlotNumber(named)) as i64)),
        _ => None,
    }
}

impl Walk<'_> {
    // What stands in record p behind its mark.
    pub fn record_at(&self, p: usize) -> Record
        requires { p < 5000 }
        ensures { result ≡ parts_of self.now.table.now p }
    {
        let table = self.table;
        record_at(table, p)
    }

    pub fn variable(&self, v: VariableNumber) -> i32
        ensures { result ≡ value_of self.now.assignment.now v.0 }
    {
        variable(self.assignment, v)
    }

    // What an element record gives: a constant, or the variable that it names.
    fn element_value(&self, p: usize) -> i32
        requires { p < 5000 }
        ensures { result ≡ element_value self.now.assignment.now (element_of self.now.table.now p) }
    {
        let element = self.record_at(p);
        // Kept: 0 for a constant, as the record has it. An enum of two cases would be made here and matched in the next line: no plainer.
        if element.kind == 0 {
            element.x
        } else {
            self.variable(VariableNumber(element.x.unsigned_abs()))
        }
    }

    // The element of the array of record p at an index: undefined outside.
    fn element_in(&self, p: usize, index: i32) -> Value
        requires { behind_array self.now.table.now p ≤ 5000 }
        ensures { result ≡ of_integer (element_at self.now.assignment.now (array_of self.now.table.now p) index) }
    {
        let array = self.record_at(p);
        if array.x <= index {
            let along = index.abs_diff(array.x);
            if along < array.y.unsigned_abs() {
                return Value::Integer(self.element_value(p + 1 + along as usize));
            }
        }
        Value::Undefined
    }

    // The element of an array at an index; an array that is not declared has none.
    pub fn element(&self, array: ArrayNumber, index: i32) -> Value
        ensures { result ≡ of_integer (element_at self.now.assignment.now (array_at (declared self.now.table.now self.now.places.now) array.0) index) }
    {
        let a = array.0 as usize;
        if a < self.places.array_count {
            self.element_in(self.places.arrays[a], index)
        } else {
            Value::Undefined
        }
    }

    // The element at an index that was walked: an index that is no integer has none.
    fn element_of(&self, array: ArrayNumber, index: Value) -> Value
        ensures { integer_of result ≡ bind (integer_of index) (element_at self.now.assignment.now (array_at (declared self.now.table.now self.now.places.now) array.0)) }
    {
        match index {
            Value::Integer(i) => self.element(array, i),
            Value::Truth(_) | Value::Undefined => Value::Undefined,
        }
    }

    #[tactic(auto, unfolding(crate::specs::Walks::looked_up))]
    pub fn looked_up(&self, array: ArrayNumber, index: Walked) -> Walked
        ensures { result ≡ looked_up strict (declared self.now.table.now self.now.places.now) self.now.assignment.now array.0 index }
    {
        limited_value(index.within, self.element_of(array, index.value))
    }

    // The same in a bool array.
    #[tactic(auto, unfolding(crate::specs::Walks::looked_up_truth))]
    pub fn looked_up_truth(&self, array: ArrayNumber, index: Walked) -> Walked
        ensures { result ≡ looked_up_truth (meant self.now.reading) (declared self.now.table.now self.now.places.now) self.now.assignment.now array.0 index }
    {
        element_truth(
            self.reading,
            index.within,
            self.element_of(array, index.value),
        )
    }

    #[inline(always)]
    pub fn leaf_at(&self, setting: &[i32; 16], n: NodeNumber) -> Option<Walked>
        requires { self.now.places.now.nodes_from + n.0 < 5000 }
        ensures { result ≡ leaf_of self.now.assignment.now (setting_of setting.now) (row_of self.now.table.now (self.now.places.now.nodes_from + n.0)) }
    {
        leaf_at(self.table, self.places, self.assignment, setting, n)
    }
}
