// The nodes of a checked table, each with the words that it hands to its rule.
ghost use Rattle.std.specs.Prelude.{◌≡◌, ◌+◌, ◌<◌, true, length};
ghost use Rattle.language.specs.Meaning.{array_at};
ghost use Rattle.table.specs.Records.{record_count, kind_at, x_at, y_at};
ghost use Rattle.table.specs.Kinds as Kinds;
ghost use Rattle.kinds.specs.Entries.{entries_of};
ghost use Rattle.answers.specs.Sections.{nodes_at, node_count, declarations, array_records, array_of};
ghost use Rattle.layout.specs.Places.{ArraysHeld};
ghost use Rattle.translator.specs.Words.{node_words};
ghost use Rattle.writing.specs.Operands.{names_array};
ghost use Rattle.writing.specs.Ends.{indexes_of};

use crate::positions::{Positions, kept};
use crate::words::{Indexes, last_word, names_array, own_word};
use kinds::{COUNT, Entry, Operand, entries};
use layout::checked_table::CheckedTable;
use translator::rows::Node;

// A checked table, the entries of the kinds, and the record of each array.
#[derive(Drop)]
pub struct Nodes<'a> {
    pub table: &'a CheckedTable<'a>,
    pub kinds: [Entry; COUNT],
    pub arrays: [usize; 64],
    pub ghost kinds_are: { kinds ≡ entries_of Kinds.kinds },
    pub ghost arrays_held: { ArraysHeld table.now.bytes.now arrays },
}

impl<'a> Nodes<'a> {
    // The nodes of a table.
    pub fn new(table: &'a CheckedTable<'a>) -> Nodes<'a>
        ensures { result.table.now ≡ table.now }
    {
        Nodes {
            table,
            kinds: entries(),
            arrays: table.array_records(),
        }
    }

    // The indices of the array of record p.
    fn array_indexes(&self, p: usize) -> Indexes
        requires { p < record_count self.now.table.now.bytes.now }
        ensures { result ≡ indexes_of true (array_of self.now.table.now.bytes.now p) }
    {
        let array = self.table.record_at(p);
        let (_, count) = array.named();
        let first = array.x.cast_unsigned();
        Indexes {
            first,
            last: last_word(first, count),
        }
    }

    // The indices of array x where the operand is an array's number.
    fn indexes(&self, operand: Operand, x: usize) -> Indexes
        requires { names_array operand ≡ true → x < length (array_records self.now.table.now.bytes.now) }
        ensures { result ≡ indexes_of (names_array operand) (array_at (declarations self.now.table.now.bytes.now) x) }
    {
        if names_array(operand) {
            self.array_indexes(self.arrays[x])
        } else {
            Indexes { first: 0, last: 0 }
        }
    }

    // Node n, whose rule's first row gets number `base`.
    pub fn node(&self, n: usize, base: u32, positions: &Positions) -> Node
        requires is_node { n < node_count self.now.table.now.bytes.now }
        requires base_bound { base + 256 < 0x1_0000_0000 }
        ensures kind { let bs = self.now.table.now.bytes.now in result.kind ≡ kind_at bs (nodes_at bs + n) }
        ensures words { let bs = self.now.table.now.bytes.now in let p = nodes_at bs + n in result.words ≡ node_words (declarations bs) positions.now.firsts positions.now.seconds (kind_at bs p) (x_at bs p) (y_at bs p) }
        ensures base { result.base ≡ base }
    {
        let record = self.table.record_at(self.table.at.nodes + n);
        let operand = self.kinds[usize::from(record.kind)].x;
        let (x, y) = record.named();
        let x = x as usize;
        let y = y as usize;
        let indexes = self.indexes(operand, x);
        Node {
            kind: record.kind,
            words: [
                0,
                1,
                kept(&positions.firsts, x),
                kept(&positions.seconds, x),
                kept(&positions.firsts, y),
                kept(&positions.seconds, y),
                own_word(operand, record.x),
                indexes.first,
                indexes.last,
            ],
            base,
        }
    }
}
