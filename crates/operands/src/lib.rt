// One operand of a node, and a node's fact made of those of its operands.
#![tactic(auto)]

ghost use Rattle.std.specs.Prelude.{◌≡◌, ◌<◌, eqb};
ghost use Rattle.verdict.specs.Results.{numbered, number_and_record};
ghost use Rattle.operands.specs.Facts as Facts;
ghost use Rattle.operands.specs.Facts.{closed, index_of, known_first, noted, IsWithin, looked, joined_of, made_of, fault_of};

use kinds::{Entry, Operand, Sort};
use table::MOST_RECORDS;
use verdict::Fault;

// What is known of a thing that a node may name: the slots that are free in it, a bit for each, and what it yields.
#[derive(Clone, Copy, Debug, PartialEq, Eq)]
pub struct Fact {
    pub free: u16,
    pub yields: Sort,
}

// The things that an operand may name: where their facts begin, how many there are, and what they have to yield. A fact takes 4 bytes and a
// range 8, so that either is read at its index.
#[derive(Clone, Copy, Debug, PartialEq, Eq)]
pub struct Range {
    pub from: u32,
    pub count: u16,
    pub yields: Sort,
}

// Where the facts of each sort begin: 0 and 1 for an unused field and a truth value, 2 for any number, and then those of 16 slots, 64 arrays,
// 256 variables and as many nodes as a table has records.
pub const SLOTS: usize = 3;

pub const ARRAYS: usize = SLOTS + 16;

pub const VARIABLES: usize = ARRAYS + 64;

const NODES: usize = VARIABLES + 256;

pub const FACTS: usize = NODES + MOST_RECORDS;

// All that is known: a range for each operand, in the order of `Operand`, and the facts of all things.
#[derive(Drop)]
pub struct Known {
    ranges: [Range; 11],
    pub facts: [Fact; FACTS],
}

// Why an operand is refused.
#[derive(Clone, Copy, Debug, PartialEq, Eq)]
pub enum Miss {
    // The number is beyond those that the field may hold.
    Beyond,
    // What it names has the other type.
    OtherType,
}

// The place of an operand's range.
fn index(operand: Operand) -> usize
    ensures { result ≡ index_of operand }
{
    operand as usize
}

// The number that it is looked up by: any number has one fact.
fn looked_by(operand: Operand, x: i32) -> i32
    ensures { result ≡ Facts.looked_by operand x }
{
    if operand == Operand::AnyNumber { 0 } else { x }
}

impl Fact {
    // Of a thing without free slots.
    pub fn closed(yields: Sort) -> Fact
        ensures { result ≡ closed yields }
    {
        Fact { free: 0, yields }
    }
}

const CLOSED: Fact = Fact {
    free: 0,
    yields: Sort::Boolean,
};

macro_rules! range {
    ($from:expr, $count:expr, $yields:ident) => {
        Range {
            from: $from as u32,
            count: $count,
            yields: Sort::$yields,
        }
    };
}

impl Known {
    // Before the first node: so many slots, variables and arrays, and nothing known of them yet.
    #[tactic(auto, unfolding(crate::specs::Facts::known_first, crate::specs::Facts::ranges_of))]
    pub fn new(slots: u16, variables: u16, arrays: u16) -> Known
        ensures { result ≡ known_first slots variables arrays }
    {
        let mut facts = [CLOSED; FACTS];
        facts[2].yields = Sort::Integer;
        let ranges = [
            range!(0, 0, Boolean),
            range!(0, 1, Boolean),
            range!(2, 1, Integer),
            range!(0, 2, Boolean),
            range!(SLOTS, slots, Integer),
            range!(VARIABLES, variables, Boolean),
            range!(VARIABLES, variables, Integer),
            range!(ARRAYS, arrays, Boolean),
            range!(ARRAYS, arrays, Integer),
            range!(NODES, 0, Boolean),
            range!(NODES, 0, Integer),
        ];
        Known { ranges, facts }
    }

    // Notes the fact of node `n` for those behind it.
    #[tactic(auto, unfolding(crate::specs::Facts::noted))]
    pub fn note(&mut self, n: usize, fact: Fact)
        requires { n < 5000 }
        ensures { self.new ≡ noted self.old n fact }
    {
        self.facts[NODES + n] = fact;
        self.ranges[Operand::BooleanNode as usize].count = n as u16 + 1;
        self.ranges[Operand::IntegerNode as usize].count = n as u16 + 1;
    }

    // The free slots of what a field names.
    #[tactic(auto, unfolding(crate::specs::Facts::looked, answers::specs::Check::names))]
    pub fn look(&self, operand: Operand, x: i32) -> Result<u16, Miss>
        requires { IsWithin self.now operand x }
        ensures { result ≡ looked self.now operand x }
    {
        let range = &self.ranges[index(operand)];
        let x = looked_by(operand, x);
        if !kinds::names(range.count, x) {
            return Err(Miss::Beyond);
        }
        let fact = &self.facts[range.from as usize + x.unsigned_abs() as usize];
        if fact.yields == range.yields {
            Ok(fact.free)
        } else {
            Err(Miss::OtherType)
        }
    }
}

// The fact of a node from the free slots of its operands: those of both, without the bound slot.
#[tactic(auto, unfolding(crate::specs::Facts::joined_of))]
fn joined(a: u16, b: u16, kind: Entry) -> Fact
    ensures { result ≡ joined_of a b kind }
{
    let bound = if kind.binds { a } else { 0 };
    Fact {
        free: (a | b) & !bound,
        yields: kind.yields,
    }
}

// The fact of a node, if it can be made.
pub fn make(aux: u8, kind: Entry, x: Result<u16, Miss>, y: Result<u16, Miss>) -> Option<Fact>
    ensures { result ≡ made_of (eqb aux 0) kind x y }
{
    match (aux, x, y) {
        (0, Ok(a), Ok(b)) => Some(joined(a, b, kind)),
        _ => None,
    }
}

// The field is a number that names nothing.
fn is_plain(operand: Operand) -> bool
    ensures { result ≡ Facts.is_plain operand }
{
    matches!(
        operand,
        Operand::Missing | Operand::Unused | Operand::AnyNumber | Operand::TruthValue
    )
}

fn is_beyond(found: Result<u16, Miss>) -> bool
    ensures { result ≡ Facts.is_beyond found }
{
    matches!(found, Err(Miss::Beyond))
}

// What is wrong with a node that could not be made: 3 before 4, and 4 before 5.
pub fn node_fault(aux: u8, kind: Entry, x: Result<u16, Miss>, y: Result<u16, Miss>, p: u32) -> Fault
    ensures { number_and_record result ≡ numbered (fault_of aux kind x y) p }
{
    let bx = is_beyond(x);
    let by = is_beyond(y);
    if aux != 0 || is_plain(kind.x) && bx || is_plain(kind.y) && by {
        Fault::NotAllowed(p)
    } else if bx || by {
        Fault::NamesNothing(p)
    } else {
        Fault::WrongType(p)
    }
}
