// The library's three calls, as include/barfigol.h declares them. `barfigol_c` exports them to C and Rust.
#![tactic(auto)]

ghost use Rattle.std.specs.Prelude.{◌≡◌};
ghost use Rattle.answers.specs.Answers as Answers;
ghost use Rattle.barfigol.specs.Given.{answer_in};
ghost use Rattle.barfigol.specs.Results.{answer_of, outcome_of};

use evaluation::Totals;
use verdict::Refused;

// What a call gives back. A field that a call has nothing to say about is 0 or false.
// Kept: numbers in place of a Result, as include/barfigol.h has them; the clauses of the three calls go by this struct.
#[repr(C)]
#[derive(Clone, Copy)]
pub struct Answer {
    // 0 for done, else the number of the refusal
    pub number: u32,
    // the record that a refusal is about
    pub record: u32,
    // the steps of an evaluation
    pub steps: u32,
    // how many bytes the call wrote
    pub length: u32,
    // whether every verdict of an evaluation is 1
    pub all_true: bool,
}

// What a call gives, in numbers.
impl<E: Refused + Drop> From<Result<Totals, E>> for Answer {
    ghost from_gives = { λ given answer. answer_of answer ≡ answer_in E.told given };

    #[tactic(auto, unfolding(answers::specs::Answers::done, answers::specs::Answers::refused))]
    fn from(given: Result<Totals, E>) -> Answer {
        match given {
            Ok(totals) => Answer {
                number: 0,
                record: 0,
                steps: totals.steps,
                length: totals.written,
                all_true: totals.all,
            },
            Err(refusal) => Answer {
                number: refusal.number(),
                record: refusal.record(),
                steps: 0,
                length: 0,
                all_true: false,
            },
        }
    }
}

// Kept: each call's promise stands at its crate's function, here and at what C links, since all three are public and the page of the demands names them.

// Checks a table.
pub fn barfigol_check(table: &[u8]) -> Answer
    ensures { answer_of result ≡ Answers.check table.now }
{
    checker::check(table).map(|_| Totals::default()).into()
}

// Works out each constraint of a table for one assignment, under one reading.
pub fn barfigol_evaluate(
    choice: u32,
    table: &[u8],
    assignment: &[i32],
    budget: u32,
    verdicts: &mut [u8],
) -> Answer
    ensures { outcome_of result verdicts.new ≡ Answers.evaluate choice table.now assignment.now budget verdicts.old }
{
    evaluation::evaluate(choice, table, assignment, budget, verdicts).into()
}

// Translates a table under one reading.
pub fn barfigol_translate(choice: u32, table: &[u8], out: &mut [u8]) -> Answer
    ensures { outcome_of result out.new ≡ Answers.translate choice table.now out.old }
{
    translation::translate(choice, table, out)
        .map(|written| Totals {
            steps: 0,
            written,
            all: false,
        })
        .into()
}
