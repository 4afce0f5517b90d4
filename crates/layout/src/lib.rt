// A checked table: its records, and where its sections and its arrays stand.
#![tactic(auto)]

ghost use Rattle.std.specs.Prelude.{◌≡◌};
ghost use Rattle.sections.specs.Places.{places_of};
ghost use Rattle.layout.specs.Passed.{Passed};
ghost use Rattle.layout.specs.Places.{ArraysHeld};

use sections::Places;
use table::record_at;

pub mod checked_table;

// The record of each array, 0 past the last one.
pub fn array_records(s: &[u8], at: Places) -> [usize; 64]
    requires passed { Passed s.now }
    requires at_value { at ≡ places_of s.now }
    ensures { ArraysHeld s.now result }
{
    let mut records = [0usize; 64];
    let mut p = at.arrays;
    for n in 0..at.array_count {
        records[n] = p;
        let (_, count) = record_at(s, p).named();
        p = p + 1 + count as usize;
    }
    records
}
