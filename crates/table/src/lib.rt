// The table on disk in code: numbers that cannot be confused, the marks, the parts of a record, and how many values a range has.
#![tactic(auto)]

ghost use Rattle.std.specs.Prelude.{◌≡◌, ◌+◌, ◌*◌, ◌≤◌, ◌<◌, length, nat_abs};
ghost use Rattle.language.specs.Meaning.{count};
ghost use Rattle.table.specs.Records as Records;
ghost use Rattle.table.specs.Records.{record_count, word_at};
ghost use Rattle.table.specs.Marks.{mark_of, letters_of};
ghost use Rattle.table.specs.Parts.{parts_of};

pub mod kind;

// "Variables, slots, arrays and nodes are each numbered from 0".
#[derive(Clone, Copy, Debug, PartialEq, Eq)]
pub struct NodeNumber(pub u32);

#[derive(Clone, Copy, Debug, PartialEq, Eq)]
pub struct VariableNumber(pub u32);

#[derive(Clone, Copy, Debug, PartialEq, Eq)]
pub struct SlotNumber(pub u32);

#[derive(Clone, Copy, Debug, PartialEq, Eq)]
pub struct ArrayNumber(pub u32);

// What a record is: its two letters.
#[derive(Clone, Copy, Debug, PartialEq, Eq)]
pub enum Mark {
    Head,
    Variable,
    Slot,
    Array,
    Element,
    Node,
    Constraint,
}

// The bytes of a record, and where in it its parts stand.
pub const RECORD_SIZE: usize = 12;

const KIND: usize = 2;

const AUX: usize = 3;

const X: usize = 4;

const Y: usize = 8;

// The longest table, in bytes and in records.
pub const MOST_BYTES: usize = 60_000;

pub const MOST_RECORDS: usize = 5_000;

impl Mark {
    // The two letters in ASCII.
    #[tactic(auto, unfolding(crate::specs::Marks::letters_of, crate::specs::Marks::mark_of, crate::specs::Records::first_letter, crate::specs::Records::second_letter))]
    pub fn letters(self) -> [u8; 2]
        ensures { result ≡ letters_of self }
    {
        match self {
            Mark::Head => *b"HD",
            Mark::Variable => *b"VR",
            Mark::Slot => *b"SL",
            Mark::Array => *b"AR",
            Mark::Element => *b"EL",
            Mark::Node => *b"ND",
            Mark::Constraint => *b"CN",
        }
    }
}

// How many records there are.
pub fn record_count(table: &[u8]) -> usize
    ensures { result ≡ record_count table.now }
{
    table.len() / RECORD_SIZE
}

// Whether record `p` has the two letters of a mark.
pub fn marked(table: &[u8], m: Mark, p: usize) -> bool
    requires { p < record_count table.now }
    ensures { result ≡ Records.marked table.now (mark_of m) p }
{
    let [first, second] = m.letters();
    let at = RECORD_SIZE * p;
    table[at] == first && table[at + 1] == second
}

// The parts of a record behind its mark.
#[derive(Clone, Copy, Debug, PartialEq, Eq)]
pub struct Record {
    pub kind: u8,
    pub aux: u8,
    pub x: i32,
    pub y: i32,
}

impl Record {
    // The numbers that the fields x and y name.
    pub fn named(&self) -> (u32, u32)
        ensures x { result.0 ≡ nat_abs self.now.x }
        ensures y { result.1 ≡ nat_abs self.now.y }
        ensures x_bound { result.0 ≤ 0x8000_0000 }
        ensures y_bound { result.1 ≤ 0x8000_0000 }
    {
        (self.x.unsigned_abs(), self.y.unsigned_abs())
    }
}

// Four bytes from byte `i` on, low byte first, as a signed number.
fn number_at(table: &[u8], i: usize) -> i32
    requires { i + 4 ≤ length table.now }
    ensures { result ≡ Records.signed (word_at table.now i) }
{
    i32::from_le_bytes([table[i], table[i + 1], table[i + 2], table[i + 3]])
}

// What stands in record `p` behind its mark.
// Kept: the bound on `p` as a `requires`, here and elsewhere: each caller knows it of another record, from its own loop or section.
#[tactic(auto, unfolding(crate::specs::Records::record_size, crate::specs::Records::record_count))]
pub fn record_at(table: &[u8], p: usize) -> Record
    requires { p < record_count table.now }
    ensures { result ≡ parts_of table.now p }
{
    let at = RECORD_SIZE * p;
    Record {
        kind: table[at + KIND],
        aux: table[at + AUX],
        x: number_at(table, at + X),
        y: number_at(table, at + Y),
    }
}

// How many values lie from low to high.
#[tactic(auto, unfolding(language::specs::Meaning::count))]
pub fn values_between(low: i32, high: i32) -> u64
    ensures { result ≡ count (record { low = low; high = high }) }
{
    if low <= high {
        u64::from(high.abs_diff(low)) + 1
    } else {
        0
    }
}
