// A table that passes the check, with where its sections begin: what every pass behind the check goes by.
ghost use Rattle.std.specs.Prelude.{◌≡◌, ◌<◌};
ghost use Rattle.std.proofs.Math.Option.{none};
ghost use Rattle.table.specs.Records.{record_count};
ghost use Rattle.table.specs.Parts.{parts_of};
ghost use Rattle.answers.specs.Check.{check_fault};
ghost use Rattle.answers.specs.Sections as Sections;
ghost use Rattle.sections.specs.Places.{places_of};
ghost use Rattle.layout.specs.Places.{ArraysHeld};

use crate::array_records;
use sections::{Places, find_places};
use table::{Record, record_at};

#[derive(Clone, Copy)]
pub struct CheckedTable<'a> {
    pub bytes: &'a [u8],
    pub at: Places,
    pub ghost sound: { check_fault bytes.now ≡ none },
    pub ghost placed: { at ≡ places_of bytes.now },
}

impl<'a> CheckedTable<'a> {
    // A table that the check found no fault in.
    pub fn new(bytes: &'a [u8]) -> CheckedTable<'a>
        requires { check_fault bytes.now ≡ none }
        ensures { result.bytes.now ≡ bytes.now }
    {
        CheckedTable {
            bytes,
            at: find_places(bytes),
        }
    }

    // How many things of each sort there are.
    pub fn variable_count(&self) -> usize
        ensures { result ≡ Sections.variable_count self.now.bytes.now }
    {
        self.at.slots - 1
    }

    pub fn slot_count(&self) -> usize
        ensures { result ≡ Sections.slot_count self.now.bytes.now }
    {
        self.at.arrays - self.at.slots
    }

    pub fn node_count(&self) -> usize
        ensures { result ≡ Sections.node_count self.now.bytes.now }
    {
        self.at.constraints - self.at.nodes
    }

    pub fn constraint_count(&self) -> usize
        ensures { result ≡ Sections.constraint_count self.now.bytes.now }
    {
        self.at.rest - self.at.constraints
    }

    // What stands in record `p` behind its mark.
    pub fn record_at(&self, p: usize) -> Record
        requires { p < record_count self.now.bytes.now }
        ensures { result ≡ parts_of self.now.bytes.now p }
    {
        record_at(self.bytes, p)
    }

    // The record of each array, 0 past the last one.
    pub fn array_records(&self) -> [usize; 64]
        ensures { ArraysHeld self.now.bytes.now result }
    {
        array_records(self.bytes, self.at)
    }
}
