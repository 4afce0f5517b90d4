// "Bounds before translation": the interval of every node in one pass, which stops at the first one beyond the limit.
#![tactic(auto)]

ghost use Rattle.std.specs.Prelude.{◌≡◌, ◌<◌, ◌≤◌, length};
ghost use Rattle.language.specs.Meaning.{slot_at};
ghost use Rattle.rules.specs.Bounds.{variable_interval, element_interval, elements_interval};
ghost use Rattle.table.specs.Records.{record_count};
ghost use Rattle.answers.specs.Sections.{declarations, element_of, array_of, behind_array, node_count};
ghost use Rattle.answers.specs.Answers.{bounds_fault};
ghost use Rattle.intervals.specs.Spans.{span, interval_of, as_slot};
ghost use Rattle.bounds.specs.Kept.{kept_at, trees_before, node_ends, Kept, Hulls, refusal_of};

use intervals::{Ends, Interval, Slot};
use layout::checked_table::CheckedTable;
use table::MOST_RECORDS;
use table::kind::Kind;

// The record of the first node whose interval is beyond the limit.
#[derive(Clone, Copy, Debug, PartialEq, Eq)]
pub struct Beyond(pub usize);

// A variable's domain.
fn domain(table: &CheckedTable, v: usize) -> Interval
    ensures { interval_of result ≡ variable_interval (declarations table.now.bytes.now) v }
{
    if v >= table.variable_count() {
        return Interval::ZERO;
    }
    let variable = table.record_at(1 + v);
    Interval {
        low: variable.x,
        high: variable.y,
    }
}

// A slot's range, and an empty one past the last slot.
fn slot(table: &CheckedTable, n: usize) -> Slot
    ensures { as_slot result ≡ slot_at (declarations table.now.bytes.now) n }
{
    if n >= table.slot_count() {
        return Slot { low: 1, high: 0 };
    }
    let slot = table.record_at(table.at.slots + n);
    Slot {
        low: slot.x,
        high: slot.y,
    }
}

// What the element of record p can be.
fn element(table: &CheckedTable, p: usize) -> Interval
    requires { p < record_count table.now.bytes.now }
    ensures { interval_of result ≡ element_interval (declarations table.now.bytes.now) (element_of table.now.bytes.now p) }
{
    let element = table.record_at(p);
    // Kept: 0 for a constant, as the record has it. An enum of two cases would be made here and matched in the next line: no plainer.
    if element.kind == 0 {
        Interval::only(element.x)
    } else {
        let (variable, _) = element.named();
        domain(table, variable as usize)
    }
}

// The hull of the elements of the array of record p.
fn elements(table: &CheckedTable, p: usize) -> Interval
    requires { behind_array table.now.bytes.now p ≤ record_count table.now.bytes.now }
    ensures { interval_of result ≡ elements_interval (declarations table.now.bytes.now) (array_of table.now.bytes.now p).elements }
{
    let (_, count) = table.record_at(p).named();
    if count == 0 {
        return Interval::ZERO;
    }
    let mut all = element(table, p + 1);
    for q in p + 2..p + 1 + count as usize {
        all = all.hull(element(table, q));
    }
    all
}

// The hull of every array.
fn array_hulls(table: &CheckedTable) -> [Interval; 64]
    ensures { Hulls (declarations table.now.bytes.now) result }
{
    let records = table.array_records();
    let mut hulls = [Interval::ZERO; 64];
    for a in 0..table.at.array_count {
        hulls[a] = elements(table, records[a]);
    }
    hulls
}

// The interval that is kept at k: 0..0 where there is none.
fn kept_at(intervals: &[Interval], k: usize) -> Interval
    ensures { interval_of result ≡ kept_at intervals.now k }
{
    intervals.get(k).copied().unwrap_or(Interval::ZERO)
}

// The interval of the node behind those whose intervals are kept.
fn node_ends(table: &CheckedTable, hulls: &[Interval], kept: &[Interval]) -> Ends
    requires inside { length kept.now < node_count table.now.bytes.now }
    requires kept { Kept (declarations table.now.bytes.now) (trees_before table.now.bytes.now (length kept.now)) kept.now }
    requires hulls { Hulls (declarations table.now.bytes.now) hulls.now }
    ensures { span result ≡ node_ends table.now.bytes.now (length kept.now) }
{
    let node = table.record_at(table.at.nodes + kept.len());
    let (x, y) = node.named();
    let a = kept_at(kept, x as usize);
    let b = kept_at(kept, y as usize);
    let Ok(kind) = Kind::try_from(node.kind) else {
        return Interval::ZERO.into();
    };
    match kind {
        Kind::Constant => Interval::only(node.x).into(),
        Kind::Variable => domain(table, x as usize).into(),
        Kind::Slot => slot(table, x as usize).values().into(),
        Kind::Add => a + b,
        Kind::Subtract => a - b,
        Kind::Multiply => a * b,
        Kind::Div => a.quotients(),
        Kind::Mod => b.remainders(),
        Kind::Negate => -a,
        Kind::Min => a.min(b).into(),
        Kind::Max => a.max(b).into(),
        Kind::BoolToInt => Interval { low: 0, high: 1 }.into(),
        Kind::Lookup => kept_at(hulls, x as usize).into(),
        Kind::Sum => slot(table, x as usize).sum(b),
        _ => Interval::ZERO.into(),
    }
}

// The first node whose interval is beyond the limit, reached or not.
pub fn check_bounds(table: &CheckedTable) -> Result<(), Beyond>
    ensures { refusal_of result ≡ bounds_fault table.now.bytes.now }
{
    let hulls = array_hulls(table);
    let mut kept = [Interval::ZERO; MOST_RECORDS];
    let nodes = table.at.nodes;
    let count = table.node_count();
    for n in 0..count {
        let ends = node_ends(table, &hulls, &kept[..n]);
        kept[n] = ends.within_limit().ok_or(Beyond(nodes + n))?;
    }
    Ok(())
}
