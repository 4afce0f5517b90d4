// The public translation: for every choice, byte string and buffer the table without undefined parts, or the refusal.
#![tactic(auto)]

ghost use Rattle.std.specs.Prelude.{◌≡◌, ◌&&◌, ◌++◌, ◌*◌, ◌≤◌, leb, length, drop};
ghost use Rattle.std.proofs.lemmas.List.Edits.{sets};
ghost use Rattle.numbers.specs.Limits.{most_bytes};
ghost use Rattle.table.specs.Records.{record_size};
ghost use Rattle.answers.specs.Sections.{nodes_at};
ghost use Rattle.answers.specs.Answers as Answers;
ghost use Rattle.answers.specs.Answers.{bounds_fault, new_count, translation};
ghost use Rattle.verdict.specs.Results.{refusal_in};
ghost use Rattle.reading.specs.Readings.{meant};
ghost use Rattle.translation.specs.declared.Refusal.TheVariants.{BadChoice, Unsound};
ghost use Rattle.translation.specs.Results.{number_and_record, answer_of, outcome_of};
ghost use Rattle.translation.specs.Fronts.{front};
ghost use Rattle.translation.specs.Under.{TranslatesUnder};

use bounds::check_bounds;
use layout::checked_table::CheckedTable;
use reading::{BadChoice, Reading};
use soundness::checked;
use table::{MOST_BYTES, Mark, RECORD_SIZE};
use translator::new_records;
use translator::writer::{NewRecord, put_record};
use verdict::{Fault, Refused};
use writing::put_nodes_and_constraints;

// Why a translation is refused. A case has the record that it is about, where there is one.
#[derive(Clone, Copy, Debug, PartialEq, Eq)]
pub enum Refusal {
    // "choice not 1 to 3"
    BadChoice,
    // what the check says
    Unsound(Fault),
    // "first interval beyond ±2,000,000,000"
    Beyond(u32),
    // "output longer than the buffer, or a translation beyond 60,000 bytes"
    NoRoom,
}

impl Refused for Refusal {
    ghost told = { number_and_record };

    fn number(&self) -> u32 {
        match self {
            Refusal::BadChoice => 7,
            Refusal::Unsound(fault) => fault.number(),
            Refusal::Beyond(_) => 8,
            Refusal::NoRoom => 9,
        }
    }

    fn record(&self) -> u32 {
        match self {
            Refusal::Unsound(fault) => fault.record(),
            Refusal::Beyond(k) => *k,
            Refusal::BadChoice | Refusal::NoRoom => 0,
        }
    }
}

impl From<BadChoice> for Refusal {
    ghost from_gives = { λ choice refusal. refusal ≡ BadChoice };

    fn from(_choice: BadChoice) -> Refusal {
        Refusal::BadChoice
    }
}

impl From<Fault> for Refusal {
    ghost from_gives = { λ fault refusal. refusal ≡ Unsound fault };

    fn from(fault: Fault) -> Refusal {
        Refusal::Unsound(fault)
    }
}

// "output longer than the buffer, or a translation beyond 60,000 bytes": neither
fn has_room(records: usize, room: usize) -> bool
    ensures { result ≡ (leb (record_size * records) room && leb (record_size * records) most_bytes) }
{
    (records <= room / RECORD_SIZE) & (records <= MOST_BYTES / RECORD_SIZE)
}

// Every interval is within the limit; or the first node's that is not.
fn bounded(table: &CheckedTable) -> Result<(), Refusal>
    ensures { refusal_in number_and_record result ≡ bounds_fault table.now.bytes.now }
{
    match check_bounds(table) {
        Ok(()) => Ok(()),
        Err(first) => Err(Refusal::Beyond(first.0 as u32)),
    }
}

// Writes HD with the new count, and the declarations.
fn put_declarations(table: &CheckedTable, records: u32, out: &mut [u8])
    requires { record_size * nodes_at table.now.bytes.now ≤ length out.old }
    ensures { out.new ≡ sets out.old 0 (front table.now.bytes.now records) }
{
    let end = RECORD_SIZE * table.at.nodes;
    let head = NewRecord {
        mark: Mark::Head,
        kind: 1,
        x: records,
        y: 0,
    };
    put_record(out, 0, head);
    // Kept: a loop. `copy_from_slice` becomes a call of `memmove` here, a third function of C that the archive would ask for (`tests/symbols.sh`).
    for i in RECORD_SIZE..end {
        out[i] = table.bytes[i];
    }
}

// Writes the whole new table.
fn write(table: &CheckedTable, reading: Reading, records: u32, out: &mut [u8])
    requires records_value { records ≡ new_count table.now.bytes.now (meant reading) }
    requires records_in_bounds { record_size * records ≤ length out.old }
    requires records_bound { record_size * records ≤ most_bytes }
    ensures { out.new ≡ translation table.now.bytes.now (meant reading) ++ drop (length (translation table.now.bytes.now (meant reading))) out.old }
{
    put_declarations(table, records, out);
    put_nodes_and_constraints(table, reading, out);
}

// A translation under a reading: what the check refuses comes before all else, and nothing is written before every refusal is ruled out. It is a function of
// its own in the machine code: with the test of the choice in front of its large frame LLVM loses a register there (`tests/probes.sh`).
#[inline(never)]
fn translate_under(reading: Reading, table: &[u8], out: &mut [u8]) -> Result<u32, Refusal>
    ensures { TranslatesUnder (meant reading) table.now out.old (outcome_of result out.new) }
{
    let table = checked(table)?;
    let records = new_records(&table, reading);
    let room = has_room(records, out.len());
    bounded(&table)?;
    if !room {
        return Err(Refusal::NoRoom);
    }
    write(&table, reading, records as u32, out);
    Ok((RECORD_SIZE * records) as u32)
}

// The table under the choice's reading, written from byte 0 of `out`, and how many bytes those are; or the refusal, which changes no byte. For every input.
pub fn translate(choice: u32, table: &[u8], out: &mut [u8]) -> Result<u32, Refusal>
    ensures { outcome_of result out.new ≡ Answers.translate choice table.now out.old }
{
    translate_under(Reading::try_from(choice)?, table, out)
}

// How many bytes are written; 0 after a refusal.
pub fn length(given: Result<u32, Refusal>) -> u32
    ensures { result ≡ (answer_of given).length_written }
{
    given.unwrap_or(0)
}
