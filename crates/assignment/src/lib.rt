// "The assignment is a list of signed 32-bit numbers, one per variable", each within its variable's domain.
#![tactic(auto)]

ghost use Rattle.std.specs.Prelude.{◌≡◌};
ghost use Rattle.numbers.specs.Whole.{between};
ghost use Rattle.answers.specs.Answers.{assignment_fault};
ghost use Rattle.assignment.specs.Results.{refusal_of};

use layout::checked_table::CheckedTable;
use table::Record;

// The record that an assignment is refused at: 0 for more or fewer values than variables, else that of the first variable whose value is outside its domain.
#[derive(Clone, Copy, Debug, PartialEq, Eq)]
pub struct Unassigned(pub u32);

// Whether a value is within the domain that a variable's record states.
#[tactic(auto, unfolding(numbers::specs::Whole::between))]
fn admits(domain: Record, value: i32) -> bool
    ensures { result ≡ between domain.x domain.y value }
{
    (domain.x..=domain.y).contains(&value)
}

// Whether the assignment fits the table's variables.
pub fn check_assignment(table: &CheckedTable, assignment: &[i32]) -> Result<(), Unassigned>
    ensures { refusal_of result ≡ assignment_fault table.now.bytes.now assignment.now }
{
    if assignment.len() != table.variable_count() {
        return Err(Unassigned(0));
    }
    for (v, value) in assignment.iter().enumerate() {
        if !admits(table.record_at(1 + v), *value) {
            return Err(Unassigned(1 + v as u32));
        }
    }
    Ok(())
}
