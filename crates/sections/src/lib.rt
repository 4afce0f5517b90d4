// Where each section of a table of whole records begins, whether or not the table is sound.
#![tactic(auto)]

ghost use Rattle.std.specs.Prelude.{◌≡◌, ◌%◌, length};
ghost use Rattle.table.specs.Records.{record_size};
ghost use Rattle.table.specs.Marks.{mark_of};
ghost use Rattle.answers.specs.Sections.{end_of};
ghost use Rattle.sections.specs.Places.{places_of, array_run_of};

use table::{Mark, marked, record_at, record_count};

// The record at which each section begins, and how many arrays there are. The variables begin at record 1.
#[derive(Clone, Copy, Debug, PartialEq, Eq)]
pub struct Places {
    pub slots: usize,
    pub arrays: usize,
    pub array_count: usize,
    pub nodes: usize,
    pub constraints: usize,
    pub rest: usize,
}

// The arrays from a record on: the record behind their elements, and how many they are.
#[derive(Clone, Copy, Debug, PartialEq, Eq)]
pub struct ArrayRun {
    pub end: usize,
    pub count: usize,
}

// The first record from `from` on without the mark.
pub fn run_end(table: &[u8], m: Mark, from: usize) -> usize
    requires { length table.now % record_size ≡ 0 }
    ensures { result ≡ end_of table.now (mark_of m) from }
{
    let n = record_count(table);
    for p in from..n {
        if !marked(table, m, p) {
            return p;
        }
    }
    from.max(n)
}

// The arrays from `from` on, each behind the elements of the one before it.
pub fn array_run(table: &[u8], from: usize) -> ArrayRun
    requires { length table.now % record_size ≡ 0 }
    ensures { result ≡ array_run_of table.now from }
{
    let n = record_count(table);
    let mut p = from;
    let mut count = 0;
    // Kept: each step is as long as the array, so no range has it, and a chain of `successors` would yield the end or the count, not both.
    while p < n && marked(table, Mark::Array, p) {
        let (_, elements) = record_at(table, p).named();
        p = p + 1 + elements as usize;
        count += 1;
    }
    ArrayRun { end: p, count }
}

// Kept: whole records as a `requires`, here and above. A struct around the slice would be made and taken apart again by both callers: no plainer.
pub fn find_places(table: &[u8]) -> Places
    requires { length table.now % record_size ≡ 0 }
    ensures { result ≡ places_of table.now }
{
    let slots = run_end(table, Mark::Variable, 1);
    let arrays = run_end(table, Mark::Slot, slots);
    let ArrayRun {
        end: nodes,
        count: array_count,
    } = array_run(table, arrays);
    let constraints = run_end(table, Mark::Node, nodes);
    let rest = run_end(table, Mark::Constraint, constraints);
    Places {
        slots,
        arrays,
        array_count,
        nodes,
        constraints,
        rest,
    }
}
