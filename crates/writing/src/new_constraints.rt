// "Each CN becomes P of its node."
ghost use Rattle.std.specs.Prelude.{◌≡◌, ◌+◌, ◌*◌, ◌≤◌, length};
ghost use Rattle.std.proofs.lemmas.List.Edits.{sets};
ghost use Rattle.table.specs.Records.{record_size};
ghost use Rattle.answers.specs.Sections.{constraints};
ghost use Rattle.writing.specs.Constraints.{constraints_over};

use crate::positions::kept;
use layout::checked_table::CheckedTable;
use table::{MOST_RECORDS, Mark, RECORD_SIZE};
use translator::writer::{NewRecord, put_record};

// Writes the constraints as records from record `from` on; P of a node is its first position.
pub fn put_constraints(
    table: &CheckedTable,
    firsts: &[u32; MOST_RECORDS],
    from: usize,
    out: &mut [u8],
)
    requires { record_size * (from + length (constraints table.now.bytes.now)) ≤ length out.old }
    ensures { out.new ≡ sets out.old (record_size * from) (constraints_over firsts.now (constraints table.now.bytes.now)) }
{
    for i in 0..table.constraint_count() {
        let (node, _) = table.record_at(table.at.constraints + i).named();
        let constraint = NewRecord {
            mark: Mark::Constraint,
            kind: 0,
            x: kept(firsts, node as usize),
            y: 0,
        };
        put_record(out, RECORD_SIZE * (from + i), constraint);
    }
}
