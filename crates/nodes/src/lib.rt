// ND and CN: each node from what is known of what it names, and each constraint.
#![tactic(auto)]

ghost use Rattle.std.specs.Prelude.{◌≡◌, ℕ, ◌+◌, ◌≤◌, ◌<◌, ◌&&◌, eqb, length, get_or};
ghost use Rattle.table.specs.Records.{record_count, kind_at};
ghost use Rattle.answers.specs.Sections.{array_records};
ghost use Rattle.answers.specs.Check.{is_zero, first_fault, constraint_fault};
ghost use Rattle.verdict.specs.Results.{refusal_of, fault_at};
ghost use Rattle.nodes.specs.Known.{declared_fact, slot_fact, entered, Arrays, Nodes, NodesChecked, ConstraintAt, Constraints, DeclarationsSound, body_fault};

use kinds::{Operand, Sort};
use operands::{ARRAYS, FACTS, Fact, Known, Miss, SLOTS, VARIABLES, make, node_fault};
use sections::Places;
use table::Record;
use verdict::Fault;

// In slot s itself slot s is free.
fn enter_slots(facts: &mut [Fact; FACTS], count: usize)
    requires { count ≤ 16 }
    ensures { facts.new ≡ entered 3 slot_fact count facts.old }
{
    for s in 0..count {
        facts[SLOTS + s] = Fact {
            free: 1 << (s as u32),
            yields: Sort::Integer,
        };
    }
}

fn enter_variables(facts: &mut [Fact; FACTS], table: &[u8], count: usize)
    requires count_bound { count ≤ 256 }
    requires by_index { (v : ℕ) → v < count → 1 + v < record_count table.now }
    ensures { facts.new ≡ entered 83 (λ v. declared_fact (kind_at table.now (1 + v))) count facts.old }
{
    for v in 0..count {
        let variable = table::record_at(table, 1 + v);
        facts[VARIABLES + v] = Fact::closed(Sort::declared(variable.kind));
    }
}

// Each array begins behind the elements of the one before it.
// Kept: three loops that enter, each with its range and step; one over a closure needs an `FnMut` that moves `p` along the arrays: no plainer.
fn enter_arrays(facts: &mut [Fact; FACTS], table: &[u8], from: usize, count: usize)
    requires { Arrays table.now from count }
    ensures { facts.new ≡ entered 19 (λ a. declared_fact (kind_at table.now (get_or (array_records table.now) a 0))) count facts.old }
{
    let mut p = from;
    for a in 0..count {
        let array = table::record_at(table, p);
        facts[ARRAYS + a] = Fact::closed(Sort::declared(array.kind));
        p = p + 1 + array.y.unsigned_abs() as usize;
    }
}

// The nodes from record `from` on: the fact of each is noted for those behind it.
fn nodes(table: &[u8], from: usize, count: usize, known: &mut Known) -> Result<(), Fault>
    requires { Nodes table.now from count known.old }
    ensures { NodesChecked table.now (refusal_of result) known.new }
{
    let kinds = kinds::entries();
    for n in 0..count {
        let p = from + n;
        let node = table::record_at(table, p);
        let kind = kinds[kinds::row(node.kind)];
        let x = known.look(kind.x, node.x);
        let y = known.look(kind.y, node.y);
        let Some(fact) = make(node.aux, kind, x, y) else {
            return Err(node_fault(node.aux, kind, x, y, p as u32));
        };
        known.note(n, fact);
    }
    Ok(())
}

// Kind, aux and y are 0. The three tests are joined without a branch: a table may have thousands of constraints.
#[tactic(auto, unfolding(answers::specs::Check::is_zero, numbers::specs::Whole::eq_z))]
fn constraint_allowed(parts: Record) -> bool
    ensures { result ≡ (eqb parts.kind 0 && eqb parts.aux 0 && is_zero parts.y) }
{
    (parts.kind == 0) & (parts.aux == 0) & (parts.y == 0)
}

// One constraint: a Boolean node in which none of the slots in `all` is free.
fn constraint(table: &[u8], p: usize, all: u32, known: &Known) -> Result<(), Fault>
    requires { ConstraintAt table.now p all known.now }
    ensures { refusal_of result ≡ fault_at p (constraint_fault table.now p) }
{
    let record = table::record_at(table, p);
    if !constraint_allowed(record) {
        return Err(Fault::NotAllowed(p as u32));
    }
    match known.look(Operand::BooleanNode, record.x) {
        Ok(free) if u32::from(free) & all == 0 => Ok(()),
        Ok(_) => Err(Fault::OpenConstraint(p as u32)),
        Err(Miss::Beyond) => Err(Fault::NamesNothing(p as u32)),
        Err(Miss::OtherType) => Err(Fault::WrongType(p as u32)),
    }
}

fn constraints(
    table: &[u8],
    from: usize,
    count: usize,
    slots: usize,
    known: &Known,
) -> Result<(), Fault>
    requires { Constraints table.now from count slots known.now }
    ensures { refusal_of result ≡ first_fault (λ i. constraint_fault table.now (from + i)) from count }
{
    let all = (1u32 << (slots as u32)) - 1;
    verdict::check_each(count, |i| constraint(table, from + i, all, known))
}

// The nodes and the constraints of a table whose declarations are sound.
pub fn nodes_and_constraints(table: &[u8], at: Places) -> Result<(), Fault>
    requires { DeclarationsSound table.now at }
    ensures { refusal_of result ≡ body_fault table.now }
{
    let variables = at.slots - 1;
    let slots = at.arrays - at.slots;
    let mut known = Known::new(slots as u16, variables as u16, at.array_count as u16);
    enter_slots(&mut known.facts, slots);
    enter_variables(&mut known.facts, table, variables);
    enter_arrays(&mut known.facts, table, at.arrays, at.array_count);
    nodes(table, at.nodes, at.constraints - at.nodes, &mut known)?;
    constraints(
        table,
        at.constraints,
        at.rest - at.constraints,
        slots,
        &known,
    )
}
