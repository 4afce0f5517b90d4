// What the check says of a table, and what every refusal tells.
#![tactic(auto)]

ghost use Rattle.std.specs.Prelude.{◌≡◌, Ok};
ghost use Rattle.answers.specs.Check.{Refusal};
ghost use Rattle.verdict.specs.Results.{number_and_record, number_in, record_in};
ghost use Rattle.verdict.specs.FirstFaults.{InTurn, FirstFaultOf};

// What a refusal tells: document 01's number, and the record that it is about, 0 where there is none.
pub trait Refused {
    ghost told: { Self → Refusal };

    fn number(&self) -> u32
        ensures { result ≡ (told self.now).number };

    fn record(&self) -> u32
        ensures { result ≡ (told self.now).at };
}

// Why a table does not pass. Each case but `BadLength` has the record of the fault.
#[derive(Clone, Copy, Debug, PartialEq, Eq)]
pub enum Fault {
    // "length below 12, above 60,000, or no multiple of 12"
    BadLength,
    // "wrong mark or order, an EL missing (at the end: the record count)"
    Misplaced(u32),
    // "kind, unused field or number not allowed, too many of a mark, HD's count wrong"
    NotAllowed(u32),
    // "a number names nothing, or no earlier node"
    NamesNothing(u32),
    // "operand (node, variable, array) or element of the wrong type, constraint not Boolean"
    WrongType(u32),
    // "constraint with a free slot"
    OpenConstraint(u32),
}

impl Refused for Fault {
    ghost told = { number_and_record };

    fn number(&self) -> u32 {
        match self {
            Fault::BadLength => 1,
            Fault::Misplaced(_) => 2,
            Fault::NotAllowed(_) => 3,
            Fault::NamesNothing(_) => 4,
            Fault::WrongType(_) => 5,
            Fault::OpenConstraint(_) => 6,
        }
    }

    fn record(&self) -> u32 {
        match *self {
            Fault::BadLength => 0,
            Fault::Misplaced(k)
            | Fault::NotAllowed(k)
            | Fault::NamesNothing(k)
            | Fault::WrongType(k)
            | Fault::OpenConstraint(k) => k,
        }
    }
}

// Document 01's number for what a call gives: 0 where it is done.
pub fn number<T, E: Refused>(given: &Result<T, E>) -> u32
    ensures { result ≡ number_in E.told given.now }
{
    match given {
        Ok(_) => 0,
        Err(refusal) => refusal.number(),
    }
}

// The record that a refusal is about; 0 where there is none.
pub fn record<T, E: Refused>(given: &Result<T, E>) -> u32
    ensures { result ≡ record_in E.told given.now }
{
    match given {
        Ok(_) => 0,
        Err(refusal) => refusal.record(),
    }
}

// The checks of things 0 to `count` - 1 in order, up to the first that finds a fault.
pub fn check_each<F: Fn(usize) -> Result<(), Fault>>(count: usize, check: F) -> Result<(), Fault>
    requires { InTurn (F.pre check) (F.post check) count }
    ensures { FirstFaultOf (F.post check) count result }
{
    // Kept: with `try_for_each` here, as tried, the check leaves its `callable` clause and the result open; with the loop it leaves none.
    for i in 0..count {
        check(i)?;
    }
    Ok(())
}
