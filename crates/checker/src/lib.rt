// The check: for every byte string the first faulty record and what is wrong with it, or that the table is sound.
#![tactic(auto)]

ghost use Rattle.std.specs.Prelude.{◌≡◌, true, length};
ghost use Rattle.answers.specs.Answers as Answers;
ghost use Rattle.answers.specs.Check.{length_allowed};
ghost use Rattle.verdict.specs.Results.{refusal_of, answer_of};
ghost use Rattle.checker.specs.Chain.{records_fault};

use table::{MOST_BYTES, RECORD_SIZE};
use verdict::Fault;

// "length below 12, above 60,000, or no multiple of 12"
#[tactic(auto, unfolding(answers::specs::Check::length_allowed, table::specs::Records::record_size))]
fn length_allowed(table: &[u8]) -> bool
    ensures { result ≡ length_allowed table.now }
{
    let length = table.len();
    (RECORD_SIZE..=MOST_BYTES).contains(&length) && length % RECORD_SIZE == 0
}

// The first fault among the records of a table of a length that is allowed, section by section.
fn check_records(table: &[u8]) -> Result<(), Fault>
    requires { length_allowed table.now ≡ true }
    ensures { refusal_of result ≡ records_fault table.now }
{
    declarations::header(table)?;
    let at = sections::find_places(table);
    let variables = at.slots - 1;
    declarations::variables(table, variables)?;
    declarations::slots(table, at.slots, at.arrays - at.slots)?;
    declarations::arrays(table, at.arrays, variables)?;
    nodes::nodes_and_constraints(table, at)?;
    if at.rest < table::record_count(table) {
        Err(Fault::Misplaced(at.rest as u32))
    } else {
        Ok(())
    }
}

// What is wrong with a table, if anything is: for every byte string.
pub fn check(table: &[u8]) -> Result<(), Fault>
    ensures { answer_of result ≡ Answers.check table.now }
{
    if length_allowed(table) {
        check_records(table)
    } else {
        Err(Fault::BadLength)
    }
}
