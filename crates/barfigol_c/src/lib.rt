// The static library for C and Rust, as include/barfigol.h declares it. A slice is a pointer and a length there.
#![tactic(auto)]

ghost use Rattle.std.specs.Prelude.{◌≡◌};
ghost use Rattle.answers.specs.Answers as Answers;
ghost use Rattle.barfigol.specs.Results.{answer_of, outcome_of};

use barfigol::Answer;

// Kept: the three functions of `barfigol` once more, each under its name, since these are what C links.

// Checks a table.
#[unsafe(no_mangle)]
pub extern "C" fn barfigol_check(table: &[u8]) -> Answer
    ensures { answer_of result ≡ Answers.check table.now }
{
    barfigol::barfigol_check(table)
}

// Works out each constraint of a table for one assignment, under one reading.
#[unsafe(no_mangle)]
pub extern "C" fn barfigol_evaluate(
    choice: u32,
    table: &[u8],
    assignment: &[i32],
    budget: u32,
    verdicts: &mut [u8],
) -> Answer
    ensures { outcome_of result verdicts.new ≡ Answers.evaluate choice table.now assignment.now budget verdicts.old }
{
    barfigol::barfigol_evaluate(choice, table, assignment, budget, verdicts)
}

// Translates a table under one reading.
#[unsafe(no_mangle)]
pub extern "C" fn barfigol_translate(choice: u32, table: &[u8], out: &mut [u8]) -> Answer
    ensures { outcome_of result out.new ≡ Answers.translate choice table.now out.old }
{
    barfigol::barfigol_translate(choice, table, out)
}
