// The ranges of slots.
ghost use Rattle.std.specs.Prelude.{◌≡◌, pos, ◌+ℤ◌};
ghost use Rattle.std.specs.Int.{w32};
ghost use Rattle.std.proofs.Common.{SFits};
ghost use Rattle.language.specs.Meaning.{slot_at};
ghost use Rattle.evaluator.specs.Walks.{declared, range_of};

use crate::places::Walk;
use table::{SlotNumber, values_between};

// A slot's first value and how many it has.
#[derive(Clone, Copy)]
pub struct Range {
    pub low: i32,
    pub count: u32,
}

impl Range {
    // The value that stands k places behind the first.
    pub fn value(&self, k: u32) -> i32
        requires { SFits w32 (self.now.low +ℤ pos k) }
        ensures { result ≡ self.now.low +ℤ pos k }
    {
        (self.low as i64 + k as i64) as i32
    }
}

impl Walk<'_> {
    // The range of a slot; of one that is not declared it is empty.
    pub fn range_of(&self, s: SlotNumber) -> Range
        ensures { result ≡ range_of (slot_at (declared self.now.table.now self.now.places.now) s.0) }
    {
        let s = s.0 as usize;
        if s < self.places.slot_count {
            let slot = self.record_at(self.places.slots_from + s);
            Range {
                low: slot.x,
                count: values_between(slot.x, slot.y) as u32, // at most 10,000
            }
        } else {
            Range { low: 1, count: 0 }
        }
    }
}
