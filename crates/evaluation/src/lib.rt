// The public evaluation: for every choice, byte string, assignment, budget and list the verdict of each constraint, or the refusal.
#![tactic(auto)]

ghost use Rattle.std.specs.Prelude.{◌≡◌, ◌++◌, ◌≤◌, length, drop};
ghost use Rattle.answers.specs.Sections.{constraints};
ghost use Rattle.answers.specs.Answers as Answers;
ghost use Rattle.answers.specs.Answers.{total_cost};
ghost use Rattle.reading.specs.Readings.{meant};
ghost use Rattle.evaluation.specs.declared.Refusal.TheVariants.{BadChoice, Unsound, Unassigned};
ghost use Rattle.evaluation.specs.Results.{number_and_record, answer_of, outcome_of};
ghost use Rattle.evaluation.specs.Admissions.{outcome_after, Admits};

use assignment::check_assignment;
use constraints::constraint_values;
use layout::checked_table::CheckedTable;
use preparation::{PreparedTable, fill};
use reading::{BadChoice, Reading};
use soundness::checked;
use steps::total_steps;
use table::MOST_BYTES;
use verdict::{Fault, Refused};

// The total steps, how many bytes are written, and whether all are 1.
#[derive(Clone, Copy, Debug, Default, PartialEq, Eq)]
pub struct Totals {
    pub steps: u32,
    pub written: u32,
    pub all: bool,
}

// Why an evaluation is refused. A case has the record that it is about, where there is one.
#[derive(Clone, Copy, Debug, PartialEq, Eq)]
pub enum Refusal {
    // "choice not 1 to 3"
    BadChoice,
    // what the check says
    Unsound(Fault),
    // "assignment of wrong length, or first value outside its domain": record 0, or that VR
    Unassigned(u32),
    // "output longer than the buffer"
    NoRoom,
    // "total steps above the budget"
    OverBudget,
    // "an integer node met with a value beyond it"
    BeyondLimit,
}

impl Refused for Refusal {
    ghost told = { number_and_record };

    fn number(&self) -> u32 {
        match self {
            Refusal::BadChoice => 7,
            Refusal::Unsound(fault) => fault.number(),
            Refusal::Unassigned(_) => 10,
            Refusal::NoRoom => 9,
            Refusal::OverBudget => 11,
            Refusal::BeyondLimit => 8,
        }
    }

    fn record(&self) -> u32 {
        match self {
            Refusal::Unsound(fault) => fault.record(),
            Refusal::Unassigned(k) => *k,
            _ => 0,
        }
    }
}

impl From<BadChoice> for Refusal {
    ghost from_gives = { λ choice refusal. refusal ≡ BadChoice };

    fn from(_choice: BadChoice) -> Refusal {
        Refusal::BadChoice
    }
}

impl From<Fault> for Refusal {
    ghost from_gives = { λ fault refusal. refusal ≡ Unsound fault };

    fn from(fault: Fault) -> Refusal {
        Refusal::Unsound(fault)
    }
}

impl From<assignment::Unassigned> for Refusal {
    ghost from_gives = { λ first refusal. refusal ≡ Unassigned first.0 };

    fn from(first: assignment::Unassigned) -> Refusal {
        Refusal::Unassigned(first.0)
    }
}

// "Evaluate: then 10, 9, 11": the total steps, or the refusal.
fn admit(table: &CheckedTable, assignment: &[i32], budget: u32, room: usize) -> Result<u32, Refusal>
    ensures { Admits table.now.bytes.now assignment.now budget room result }
{
    check_assignment(table, assignment)?;
    if room < table.constraint_count() {
        return Err(Refusal::NoRoom);
    }
    let steps = total_steps(table);
    if steps <= budget as u64 {
        Ok(steps as u32)
    } else {
        Err(Refusal::OverBudget)
    }
}

// Copies the bytes to the front of the lent list.
fn write(bytes: &[u8], out: &mut [u8])
    requires { length bytes.now ≤ length out.old }
    ensures { out.new ≡ bytes.now ++ drop (length bytes.now) out.old }
{
    out[..bytes.len()].copy_from_slice(bytes);
}

// The walk and then the bytes: none is written before the walk is over.
fn evaluate_admitted(
    reading: Reading,
    table: &CheckedTable,
    assignment: &[i32],
    steps: u32,
    verdicts: &mut [u8],
) -> Result<Totals, Refusal>
    requires steps_value { steps ≡ total_cost table.now.bytes.now }
    requires table_in_bounds { length (constraints table.now.bytes.now) ≤ length verdicts.old }
    ensures { outcome_of result verdicts.new ≡ outcome_after table.now.bytes.now assignment.now (meant reading) verdicts.old }
{
    let mut padded = [0u8; MOST_BYTES];
    fill(&mut padded, table.bytes);
    let prepared = PreparedTable::new(table, &padded);
    match &constraint_values(&prepared, assignment, reading) {
        None => Err(Refusal::BeyondLimit),
        Some(found) => {
            let written = table.constraint_count();
            let bytes: &[u8] = &found.bytes;
            write(&bytes[..written], verdicts);
            Ok(Totals {
                steps,
                written: written as u32,
                all: found.all,
            })
        }
    }
}

// The verdict of each constraint (0 false, 1 true, 2 undefined) from byte 0 of `verdicts` on, with the total steps and whether all
// are 1; or the refusal, which changes no byte. For every input.
pub fn evaluate(
    choice: u32,
    table: &[u8],
    assignment: &[i32],
    budget: u32,
    verdicts: &mut [u8],
) -> Result<Totals, Refusal>
    ensures { outcome_of result verdicts.new ≡ Answers.evaluate choice table.now assignment.now budget verdicts.old }
{
    let reading = Reading::try_from(choice)?;
    let table = checked(table)?;
    let steps = admit(&table, assignment, budget, verdicts.len())?;
    evaluate_admitted(reading, &table, assignment, steps, verdicts)
}

// The total steps, how many bytes are written, and whether all are 1; after a refusal 0, 0 and false.
pub fn totals_of(given: Result<Totals, Refusal>) -> Totals
    ensures steps_value { result.steps ≡ (answer_of given).steps }
    ensures written_value { result.written ≡ (answer_of given).length_written }
    ensures all_value { result.all ≡ (answer_of given).all_true }
{
    given.unwrap_or_default()
}
