// A table that a walk goes over, and where its sections lie.
ghost use Rattle.evaluator.specs.Walks.{Laid};
ghost use Rattle.evaluator.specs.LaidOnce.{Laid-prop};

use reading::Reading;
use table::MOST_BYTES;

// The record of each array, 0 past the last one, the first slot's record and the first node's, and how many of each there are.
#[derive(Clone, Copy)]
pub struct TablePlaces {
    pub arrays: [usize; 64],
    pub array_count: usize,
    pub slots_from: usize,
    pub slot_count: usize,
    pub nodes_from: usize,
    pub node_count: usize,
}

// What a walk goes by: a table that was copied, padded with 0, into a fixed array, where its sections lie, an assignment of its variables,
// and a reading.
#[derive(Clone, Copy)]
pub struct Walk<'a> {
    pub table: &'a [u8; MOST_BYTES],
    pub places: &'a TablePlaces,
    pub assignment: &'a [i32],
    pub reading: Reading,
    pub ghost laid: { Laid table.now places.now } by { Laid-prop table.now places.now },
}
