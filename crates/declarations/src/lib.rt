// HD, VR, SL, AR and EL: each record by itself, and the first fault of each section.
#![tactic(auto)]

ghost use Rattle.std.specs.Prelude.{◌≡◌, ◌+◌, ◌≤◌, ◌<◌, ◌&&◌, eqb, leb, pos};
ghost use Rattle.numbers.specs.Whole.{eq_z, between};
ghost use Rattle.language.specs.Meaning.{count as valueCount};
ghost use Rattle.table.specs.Records.{record_count, kind_at};
ghost use Rattle.kinds.specs.Entries.{declared_sort, type_of};
ghost use Rattle.answers.specs.Check as Check;
ghost use Rattle.answers.specs.Check.{unless, is_zero, constant_allowed, first_fault, header_fault, variable_fault, slot_fault, array_fault, element_fault, arrays_fault};
ghost use Rattle.sections.specs.Within.{Section};
ghost use Rattle.verdict.specs.Results.{refusal_of, fault_at};
ghost use Rattle.declarations.specs.Elements.{Variables};

use kinds::Sort;
use table::{Mark, Record, VariableNumber};
use verdict::Fault;

// Record `p` by itself, where the test of it passed or not.
fn allowed(passed: bool, p: usize) -> Result<(), Fault>
    requires { p < 4_294_967_296 }
    ensures { refusal_of result ≡ fault_at p (unless 3 passed) }
{
    if passed {
        Ok(())
    } else {
        Err(Fault::NotAllowed(p as u32))
    }
}

// "HD: kind 1, x = number of records, this one included"
#[tactic(auto, unfolding(answers::specs::Check::is_zero, numbers::specs::Whole::eq_z))]
fn header_allowed(head: Record, count: usize) -> bool
    requires { count ≤ 5000 }
    ensures { result ≡ (eqb head.kind 1 && eqb head.aux 0 && eq_z head.x (pos count) && is_zero head.y) }
{
    head.kind == 1 && head.aux == 0 && head.x == count as i32 && head.y == 0
}

pub fn header(table: &[u8]) -> Result<(), Fault>
    requires table_nonzero { 0 < record_count table.now }
    requires table_bound { record_count table.now ≤ 5000 }
    ensures { refusal_of result ≡ first_fault (λ i. header_fault table.now 0) 0 1 }
{
    if !table::marked(table, Mark::Head, 0) {
        return Err(Fault::Misplaced(0));
    }
    if header_allowed(table::record_at(table, 0), table::record_count(table)) {
        Ok(())
    } else {
        Err(Fault::NotAllowed(0))
    }
}

// "bool is 0..1; integer needs x ≤ y"
#[tactic(auto, unfolding(answers::specs::Check::domain_allowed, answers::specs::Check::is_zero, numbers::specs::Whole::eq_z))]
fn domain_allowed(kind: u8, x: i32, y: i32) -> bool
    ensures { result ≡ Check.domain_allowed kind x y }
{
    if kind == 0 { x == 0 && y == 1 } else { x <= y }
}

#[tactic(auto, unfolding(answers::specs::Check::variable_fault, answers::specs::Check::is_kind))]
fn variable_allowed(table: &[u8], i: usize, p: usize) -> bool
    requires { p < record_count table.now }
    ensures { unless 3 result ≡ variable_fault table.now i p }
{
    let variable = table::record_at(table, p);
    i < 256
        && variable.kind <= 1
        && variable.aux == 0
        && domain_allowed(variable.kind, variable.x, variable.y)
}

pub fn variables(table: &[u8], count: usize) -> Result<(), Fault>
    requires { Section table.now 1 count }
    ensures { refusal_of result ≡ first_fault (λ i. variable_fault table.now i (1 + i)) 1 count }
{
    verdict::check_each(count, |i| allowed(variable_allowed(table, i, 1 + i), 1 + i))
}

// Within ±1,000,000,000.
#[tactic(auto, unfolding(answers::specs::Check::near))]
fn near(x: i32) -> bool
    ensures { result ≡ Check.near x }
{
    x.unsigned_abs() <= 1_000_000_000
}

// "at most 10,000 values, empty if y < x"
fn few_values(x: i32, y: i32) -> bool
    ensures { result ≡ leb (valueCount (record { low = x; high = y })) 10_000 }
{
    i64::from(y) - i64::from(x) < 10_000
}

#[tactic(auto, unfolding(answers::specs::Check::slot_fault, answers::specs::Sections::slot_of))]
fn slot_allowed(table: &[u8], i: usize, p: usize) -> bool
    requires { p < record_count table.now }
    ensures { unless 3 result ≡ slot_fault table.now i p }
{
    let slot = table::record_at(table, p);
    i < 16
        && slot.kind == 0
        && slot.aux == 0
        && near(slot.x)
        && near(slot.y)
        && few_values(slot.x, slot.y)
}

pub fn slots(table: &[u8], from: usize, count: usize) -> Result<(), Fault>
    requires { Section table.now from count }
    ensures { refusal_of result ≡ first_fault (λ i. slot_fault table.now i (from + i)) from count }
{
    verdict::check_each(
        count,
        |i| allowed(slot_allowed(table, i, from + i), from + i),
    )
}

// "1 to 1,024"
#[tactic(auto, unfolding(numbers::specs::Whole::between))]
fn length_allowed(y: i32) -> bool
    ensures { result ≡ between (pos 1) (pos 1024) y }
{
    (1..=1024).contains(&y)
}

#[tactic(auto, unfolding(answers::specs::Check::array_fault, answers::specs::Check::is_kind))]
fn array_allowed(table: &[u8], j: usize, p: usize) -> bool
    requires { p < record_count table.now }
    ensures { unless 3 result ≡ array_fault table.now j p }
{
    let array = table::record_at(table, p);
    j < 64 && array.kind <= 1 && array.aux == 0 && near(array.x) && length_allowed(array.y)
}

// The type of a declared variable.
fn variable_sort(table: &[u8], v: VariableNumber) -> Sort
    requires { 1 + v.0 < record_count table.now }
    ensures { result ≡ declared_sort (kind_at table.now (1 + v.0)) }
{
    Sort::declared(table::record_at(table, 1 + v.0 as usize).kind)
}

// "constant x (0 or 1 in a bool array)", or any variable number.
#[tactic(auto, unfolding(answers::specs::Check::is_kind, answers::specs::Check::is_zero, answers::specs::Check::constant_allowed, answers::specs::Check::is_bit, numbers::specs::Whole::eq_z))]
fn element_allowed(element: Record, sort: Sort) -> bool
    ensures { result ≡ (Check.is_kind element.kind && eqb element.aux 0 && is_zero element.y && constant_allowed (type_of sort) element.kind element.x) }
{
    let is_bit = element.x == 0 || element.x == 1;
    element.kind <= 1
        && element.aux == 0
        && element.y == 0
        && (sort == Sort::Integer || element.kind != 0 || is_bit)
}

// One record of an array of a type.
// Kept: the clause `Variables`, here and in the two functions below. The number is found once, and a type for it and the table would be taken apart at once: no plainer.
fn element(table: &[u8], sort: Sort, p: usize, variables: u16) -> Result<(), Fault>
    requires p_bound { p ≤ record_count table.now }
    requires variables { Variables table.now variables }
    ensures { refusal_of result ≡ fault_at p (element_fault table.now (type_of sort) p) }
{
    if table::record_count(table) <= p {
        return Err(Fault::Misplaced(p as u32));
    }
    if !table::marked(table, Mark::Element, p) {
        return Err(Fault::Misplaced(p as u32));
    }
    let element = table::record_at(table, p);
    if !element_allowed(element, sort) {
        return Err(Fault::NotAllowed(p as u32));
    }
    // Kept: 0 for a constant, as the record has it. An enum of two cases would be made here and matched in the next line: no plainer.
    if element.kind == 0 {
        return Ok(());
    }
    if !kinds::names(variables, element.x) {
        return Err(Fault::NamesNothing(p as u32));
    }
    let named = variable_sort(table, VariableNumber(element.x.unsigned_abs()));
    if named == sort {
        Ok(())
    } else {
        Err(Fault::WrongType(p as u32))
    }
}

// The elements of an array of a type, from record `from` on.
fn elements(
    table: &[u8],
    sort: Sort,
    from: usize,
    count: usize,
    variables: u16,
) -> Result<(), Fault>
    requires from_bound { from ≤ record_count table.now }
    requires variables { Variables table.now variables }
    ensures { refusal_of result ≡ first_fault (λ i. element_fault table.now (type_of sort) (from + i)) from count }
{
    verdict::check_each(count, |i| element(table, sort, from + i, variables))
}

pub fn arrays(table: &[u8], from: usize, variables: usize) -> Result<(), Fault>
    requires { Variables table.now variables }
    ensures { refusal_of result ≡ arrays_fault table.now (record_count table.now) 0 from }
{
    let n = table::record_count(table);
    let variables = variables as u16;
    let mut j = 0;
    let mut p = from;
    // Kept: a `for` has no range to go over, since only the record of an array tells where the next one begins.
    while p < n && table::marked(table, Mark::Array, p) {
        if !array_allowed(table, j, p) {
            return Err(Fault::NotAllowed(p as u32));
        }
        let array = table::record_at(table, p);
        let count = array.y.unsigned_abs() as usize;
        elements(table, Sort::declared(array.kind), p + 1, count, variables)?;
        j += 1;
        p += 1 + count;
    }
    Ok(())
}
