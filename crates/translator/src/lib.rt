// How many records the new table has. The rules' rows and their writer stand in the modules.
#![tactic(auto)]

ghost use Rattle.std.specs.Prelude.{◌≡◌};
ghost use Rattle.answers.specs.Answers.{new_count};
ghost use Rattle.reading.specs.Readings.{meant};

use crate::plans::plan_of;
use layout::checked_table::CheckedTable;
use reading::Reading;

pub mod plans;
pub mod rows;
pub mod tables;
pub mod writer;

// How many records the new table has.
pub fn new_records(table: &CheckedTable, reading: Reading) -> usize
    ensures { result ≡ new_count table.now.bytes.now (meant reading) }
{
    let at = table.at;
    let mut total = at.nodes + table.constraint_count();
    for p in at.nodes..at.constraints {
        total += usize::from(plan_of(reading, table.record_at(p).kind).count);
    }
    total
}
