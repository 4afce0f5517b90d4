// A checked table made ready for the walk: its bytes in an array of fixed length, and where its sections lie.
#![tactic(auto)]

ghost use Rattle.std.specs.Prelude.{◌≡◌, ◌≤◌, length, replicate};
ghost use Rattle.numbers.specs.Limits.{most_bytes};
ghost use Rattle.layout.specs.Passed.{Passed};
ghost use Rattle.sections.specs.Places.{places_of};
ghost use Rattle.preparation.specs.Prepared.{padded, PlacesOf};
ghost use Rattle.preparation.specs.PlacedOnce.{PlacesOf-prop};

use evaluator::places::TablePlaces;
use layout::array_records;
use layout::checked_table::CheckedTable;
use sections::Places;
use table::MOST_BYTES;

// Copies the table into an array of zeros.
pub fn fill(t: &mut [u8; MOST_BYTES], table: &[u8])
    requires t_value { t.old ≡ replicate most_bytes 0 }
    requires table_len_bound { length table.now ≤ most_bytes }
    ensures { t.new ≡ padded table.now }
{
    t[..table.len()].copy_from_slice(table);
}

// The record of each array, and where slots and nodes begin and how many there are.
pub fn lay_out(s: &[u8], at: Places) -> TablePlaces
    requires passed { Passed s.now }
    requires at_value { at ≡ places_of s.now }
    ensures { PlacesOf s.now result }
{
    TablePlaces {
        arrays: array_records(s, at),
        array_count: at.array_count,
        slots_from: at.slots,
        slot_count: at.arrays - at.slots,
        nodes_from: at.nodes,
        node_count: at.constraints - at.nodes,
    }
}

// A checked table, a copy of it that is padded with 0, and where its sections lie.
#[derive(Clone, Copy)]
pub struct PreparedTable<'t, 'p> {
    pub checked: CheckedTable<'t>,
    pub bytes: &'p [u8; MOST_BYTES],
    pub places: TablePlaces,
    pub ghost copied: { bytes.now ≡ padded checked.bytes.now },
    pub ghost placed: { PlacesOf checked.bytes.now places } by { PlacesOf-prop checked.bytes.now places },
}

impl<'t, 'p> PreparedTable<'t, 'p> {
    pub fn new(table: &CheckedTable<'t>, bytes: &'p [u8; MOST_BYTES]) -> PreparedTable<'t, 'p>
        requires { bytes.now ≡ padded table.now.bytes.now }
        ensures { result.checked.bytes.now ≡ table.now.bytes.now }
    {
        PreparedTable {
            checked: *table,
            bytes,
            places: lay_out(table.bytes, table.at),
        }
    }
}
