// What one assignment makes of the constraints of a table, with no lent output.
#![tactic(auto)]

ghost use Rattle.std.specs.Prelude.{◌≡◌, nat_abs};
ghost use Rattle.table.specs.Records.{x_at};
ghost use Rattle.answers.specs.Answers.{verdict};
ghost use Rattle.reading.specs.Readings.{meant};
ghost use Rattle.operations.specs.Values.{truth_of};
ghost use Rattle.constraints.specs.Verdicts.{walked_at, ConstraintAt, verdicts_of};

use evaluator::places::Walk;
use operations::values::{Value, Walked};
use preparation::PreparedTable;
use reading::Reading;
use table::{MOST_RECORDS, NodeNumber};

// One byte per constraint from byte 0 on, and whether all are 1.
#[derive(Clone, Copy)]
pub struct Verdicts {
    pub bytes: [u8; MOST_RECORDS],
    pub all: bool,
}

// "0 false, 1 true, 2 undefined"
// Kept: a function, since `From<Value> for u8` may stand only where `Value` does, and these numbers are this crate's.
fn verdict_byte(value: Value) -> u8
    ensures { result ≡ verdict (truth_of value) }
{
    match value {
        Value::Truth(false) => 0,
        Value::Truth(true) => 1,
        Value::Integer(_) | Value::Undefined => 2,
    }
}

// The value of the constraint of record p for an assignment under a reading.
pub fn constraint_value(
    table: &PreparedTable,
    assignment: &[i32],
    reading: Reading,
    p: usize,
) -> Walked
    requires { ConstraintAt table.now.checked.bytes.now p }
    ensures { result ≡ walked_at table.now.checked.bytes.now (meant reading) assignment.now (nat_abs (x_at table.now.checked.bytes.now p)) }
{
    let (n, _) = table.checked.record_at(p).named();
    let walk = Walk {
        table: table.bytes,
        places: &table.places,
        assignment,
        reading,
    };
    walk.constraint(NodeNumber(n))
}

// The values of all constraints for an assignment under a reading; none once a number beyond the limit is met.
pub fn constraint_values(
    table: &PreparedTable,
    assignment: &[i32],
    reading: Reading,
) -> Option<Verdicts>
    ensures { result ≡ verdicts_of table.now.checked.bytes.now (meant reading) assignment.now }
{
    let first = table.checked.at.constraints;
    let mut bytes = [0u8; MOST_RECORDS];
    let mut all = true;
    for i in 0..table.checked.constraint_count() {
        let walked = constraint_value(table, assignment, reading, first + i);
        if !walked.within {
            return None;
        }
        let byte = verdict_byte(walked.value);
        bytes[i] = byte;
        all &= byte == 1;
    }
    Some(Verdicts { bytes, all })
}
