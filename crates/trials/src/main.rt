// The trials that document 01 runs, and the smallest table of each refusal number, through the public functions. One line a trial: the
// answer's number and record, behind them the steps and "all are 1" of an evaluation or the length of a translation.
#![tactic(auto)]

ghost use Rattle.std.specs.Prelude.{◌<◌};

use std::io;
use table::kind::Kind;
use table::{MOST_RECORDS, Mark, RECORD_SIZE};

// One record more than a table may have.
const TOO_MANY: usize = MOST_RECORDS + 1;

// ---- tables, an array of records each

type Record = [u8; RECORD_SIZE];

fn record(mark: Mark, kind: u8, x: i32, y: i32) -> Record {
    let [first, second] = mark.letters();
    let [x0, x1, x2, x3] = x.to_le_bytes();
    let [y0, y1, y2, y3] = y.to_le_bytes();
    [first, second, kind, 0, x0, x1, x2, x3, y0, y1, y2, y3]
}

// The header of a table of so many records.
fn header(count: i32) -> Record {
    record(Mark::Head, 1, count, 0)
}

// An integer variable of this domain.
fn variable(low: i32, high: i32) -> Record {
    record(Mark::Variable, 1, low, high)
}

fn node(kind: Kind, x: i32, y: i32) -> Record {
    record(Mark::Node, kind as u8, x, y)
}

// The constraint that a node is true.
fn constraint(node: i32) -> Record {
    record(Mark::Constraint, 0, node, 0)
}

// One true constraint.
fn truth() -> [Record; 3] {
    [header(3), node(Kind::TruthValue, 1, 0), constraint(0)]
}

// One integer constant, which no constraint reaches.
fn constant(x: i32) -> [Record; 2] {
    [header(2), node(Kind::Constant, x, 0)]
}

// One constraint: that a constant is itself.
fn itself(x: i32) -> [Record; 4] {
    [
        header(4),
        node(Kind::Constant, x, 0),
        node(Kind::Equal, 0, 0),
        constraint(1),
    ]
}

// "P4 y in 0..1, ¬(1/y = 1)"; "P4 as nodes: constant 1, variable 0, div 0 1, = 2 0, not 3; 8 records"
fn p4() -> [Record; 8] {
    [
        header(8),
        variable(0, 1),
        node(Kind::Constant, 1, 0),
        node(Kind::Variable, 0, 0),
        node(Kind::Div, 0, 1),
        node(Kind::Equal, 2, 0),
        node(Kind::Not, 3, 0),
        constraint(4),
    ]
}

// ---- one trial

fn say(rt: &impl Print, name: &str, answer: &[u32]) -> io::Result<()> {
    print!(rt; "{name}")?;
    for n in answer {
        print!(rt; " {n}")?;
    }
    println!(rt)
}

fn check(rt: &impl Print, name: &str, table: &[Record]) -> io::Result<()> {
    let c = checker::check(table.as_flattened());
    say(rt, name, &[verdict::number(&c), verdict::record(&c)])
}

fn translate(
    rt: &impl Print,
    name: &str,
    choice: u32,
    table: &[Record],
    out: &mut [u8],
) -> io::Result<()> {
    let t = translation::translate(choice, table.as_flattened(), out);
    let number = verdict::number(&t);
    let record = verdict::record(&t);
    if number == 0 {
        say(rt, name, &[number, record, translation::length(t)])
    } else {
        say(rt, name, &[number, record])
    }
}

// With room for one verdict.
fn evaluate(
    rt: &impl Print,
    name: &str,
    choice: u32,
    table: &[Record],
    values: &[i32],
    budget: u32,
) -> io::Result<()> {
    let mut out = [0u8; 1];
    let e = evaluation::evaluate(choice, table.as_flattened(), values, budget, &mut out);
    let number = verdict::number(&e);
    let record = verdict::record(&e);
    if number == 0 {
        let totals = evaluation::totals_of(e);
        say(
            rt,
            name,
            &[number, record, totals.steps, u32::from(totals.all)],
        )
    } else {
        say(rt, name, &[number, record])
    }
}

// ---- the trials

// 1 to 6, by the check.
fn checks(rt: &impl Print) -> io::Result<()> {
    check(rt, "HD alone:", &[header(1)])?;
    check(rt, "no byte:", &[])?;
    check(rt, "no mark:", &[[0; RECORD_SIZE]])?;
    check(rt, "HD's count wrong:", &[header(2)])?;
    check(
        rt,
        "no such variable:",
        &[header(2), node(Kind::Variable, 0, 0)],
    )?;
    check(
        rt,
        "constraint not Boolean:",
        &[header(3), node(Kind::Constant, 0, 0), constraint(0)],
    )?;
    let slot = record(Mark::Slot, 0, 1, 1);
    check(
        rt,
        "free slot:",
        &[
            header(5),
            slot,
            node(Kind::Slot, 0, 0),
            node(Kind::Equal, 0, 0),
            constraint(1),
        ],
    )
}

// 7, 9 and 10, by the calls.
fn calls(rt: &impl Print) -> io::Result<()> {
    let mut out = [0u8; RECORD_SIZE - 1];
    translate(rt, "choice 0, translate:", 0, &[], &mut out)?;
    translate(rt, "11 bytes for 12:", 1, &[header(1)], &mut out)?;
    evaluate(rt, "choice 4, evaluate:", 4, &[], &[2], 0)?;
    evaluate(rt, "a value for no variable:", 1, &[header(1)], &[2], 0)?;
    evaluate(
        rt,
        "2 outside 0..1:",
        1,
        &[header(2), variable(0, 1)],
        &[2],
        0,
    )
}

// "a constant of 2,000,000,000 translates and 2,000,000,001 gives 8"
fn limits(rt: &impl Print) -> io::Result<()> {
    let mut out = [0u8; 96];
    translate(
        rt,
        "2,000,000,000, translate:",
        3,
        &constant(2_000_000_000),
        &mut out,
    )?;
    translate(
        rt,
        "2,000,000,001, translate:",
        3,
        &constant(2_000_000_001),
        &mut out,
    )
}

// "budget 6 passes P4 and 5 is refused with 11"; 11 and 8 of evaluation on the smallest tables
fn budgets(rt: &impl Print) -> io::Result<()> {
    evaluate(rt, "P4, budget 6:", 3, &p4(), &[0], 6)?;
    evaluate(rt, "P4, budget 5:", 3, &p4(), &[0], 5)?;
    evaluate(rt, "true, budget 1:", 1, &truth(), &[], 1)?;
    evaluate(rt, "true, budget 0:", 1, &truth(), &[], 0)?;
    evaluate(
        rt,
        "2,000,000,000, evaluate:",
        1,
        &itself(2_000_000_000),
        &[],
        3,
    )?;
    evaluate(
        rt,
        "2,000,000,001, evaluate:",
        1,
        &itself(2_000_000_001),
        &[],
        3,
    )
}

// A true constant, and constraints on it up to the end of the table.
fn filled<const N: usize>() -> [Record; N]
    requires { 1 < N }
{
    let mut table = [constraint(0); N];
    table[0] = header(5_000);
    table[1] = node(Kind::TruthValue, 1, 0);
    table
}

// "60,000 bytes are read and 60,012 refused with 1"
fn lengths(rt: &impl Print) -> io::Result<()> {
    check(rt, "60,000 bytes:", &filled::<MOST_RECORDS>())?;
    check(rt, "60,012 bytes:", &filled::<TOO_MANY>())
}

fn main(rt: HostRuntime) -> io::Result<()> {
    checks(&rt)?;
    calls(&rt)?;
    limits(&rt)?;
    budgets(&rt)?;
    lengths(&rt)
}
