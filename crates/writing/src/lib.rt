// The nodes and the constraints of the new table.
#![tactic(auto)]

ghost use Rattle.std.specs.Prelude.{◌≡◌, ◌++◌, ◌*◌, ◌≤◌, length};
ghost use Rattle.std.proofs.lemmas.List.Edits.{sets};
ghost use Rattle.numbers.specs.Limits.{most_bytes};
ghost use Rattle.table.specs.Records.{record_size};
ghost use Rattle.answers.specs.Sections.{nodes_at, constraints};
ghost use Rattle.answers.specs.Answers.{translated, new_nodes, new_constraints, new_count};
ghost use Rattle.reading.specs.Readings.{meant};

use crate::new_constraints::put_constraints;
use crate::nodes::Nodes;
use crate::positions::Positions;
use layout::checked_table::CheckedTable;
use reading::Reading;
use table::{MOST_RECORDS, RECORD_SIZE};
use translator::plans::plan_of;
use translator::rows::put_rows;

mod new_constraints;
mod nodes;
mod positions;
mod words;

// Writes the new nodes and constraints behind the declarations of the new table.
pub fn put_nodes_and_constraints(table: &CheckedTable, reading: Reading, out: &mut [u8])
    requires in_bounds { record_size * new_count table.now.bytes.now (meant reading) ≤ length out.old }
    requires within_limit { record_size * new_count table.now.bytes.now (meant reading) ≤ most_bytes }
    ensures { out.new ≡ sets out.old (record_size * nodes_at table.now.bytes.now) (new_nodes table.now.bytes.now (meant reading) (translated table.now.bytes.now (meant reading)).rows ++ new_constraints table.now.bytes.now (meant reading) (constraints table.now.bytes.now)) }
{
    let nodes = Nodes::new(table);
    let mut positions = Positions {
        firsts: [0; MOST_RECORDS],
        seconds: [0; MOST_RECORDS],
    };
    let first = table.at.nodes;
    let mut next = 0u32;
    for n in 0..table.node_count() {
        let node = nodes.node(n, next, &positions);
        let plan = plan_of(reading, node.kind);
        put_rows(
            out,
            RECORD_SIZE * (first + next as usize),
            plan.rows(),
            &node,
        );
        positions.keep(n, node.number(plan.first), node.number(plan.second));
        next += u32::from(plan.count);
    }
    put_constraints(table, &positions.firsts, first + next as usize, out);
}
