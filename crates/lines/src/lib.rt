// The lines of a listing in code: decimal numbers, the line of a record and the line of a refusal; and the lines of many records at the
// start of a lent slice.
#![tactic(auto)]

ghost use Rattle.std.specs.Prelude.{◌≡◌, ◌++◌, ◌+◌, ◌*◌, ◌^◌, ◌≤◌, ◌<◌, [], length, drop, unsigned_abs};
ghost use Rattle.std.proofs.lemmas.List.Edits.{sets};
ghost use Rattle.table.specs.Records.{record_count};
ghost use Rattle.answers.specs.Listing.{decimal, signed_decimal, space, line_of, lines_of};
ghost use Rattle.lines.specs.Pieces.{longest_line, longest_refusal, refusal_text};

use std::marker::Model;
use table::RECORD_SIZE;

// The longest line, in bytes: a mark of two letters, two numbers of at most three digits, two of at most ten and a sign, four spaces and
// a newline.
const MOST_LINE: usize = 35;

// Puts a number in decimal from byte `at` on, and gives the place behind it.
// Kept: digit by digit, since no clause of `write!` excludes an error, and clause `text_after` of `list` holds for every input.
fn put_decimal(text: &mut [u8], at: usize, w: u64) -> usize
    requires w_bound { w < 2 ^ 32 }
    requires in_bounds { at + length (decimal w) ≤ length text.old }
    ensures value { result ≡ at + length (decimal w) }
    ensures text_after { text.new ≡ sets text.old at (decimal w) }
{
    if w < 10 {
        text[at] = b'0' + w as u8;
        at + 1
    } else {
        let last = put_decimal(text, at, w / 10);
        text[last] = b'0' + (w % 10) as u8;
        last + 1
    }
}

// Puts a space and a number from byte `at` on, and gives the place behind them.
fn put_field(text: &mut [u8], at: usize, x: i64) -> usize
    requires x_bound { unsigned_abs x < 2 ^ 32 }
    requires in_bounds { at + length (space ++ signed_decimal x) ≤ length text.old }
    ensures value { result ≡ at + length (space ++ signed_decimal x) }
    ensures text_after { text.new ≡ sets text.old at (space ++ signed_decimal x) }
{
    text[at] = b' ';
    let start = if x < 0 {
        text[at + 1] = b'-';
        at + 2
    } else {
        at + 1
    };
    put_decimal(text, start, x.unsigned_abs())
}

// Puts the line of record `k` from byte `at` on, and gives the place behind it: "each record .. as mark, kind, aux, x, y with single spaces".
// Kept: each byte stored where it stays. With lines made one by one in a buffer and copied, a listing took up to twice the time.
#[tactic(auto, unfolding(table::specs::Records::record_size, table::specs::Records::record_count))]
fn put_line(table: &[u8], k: usize, text: &mut [u8], at: usize) -> usize
    requires k_bound { k < record_count table.now }
    requires in_bounds { at + longest_line ≤ length text.old }
    ensures value { result ≡ at + length (line_of table.now k) }
    ensures text_after { text.new ≡ sets text.old at (line_of table.now k) }
    ensures upper_bound { result ≤ at + longest_line }
{
    let from = RECORD_SIZE * k;
    let record = table::record_at(table, k);
    text[at] = table[from];
    text[at + 1] = table[from + 1];
    let kind_end = put_field(text, at + 2, i64::from(record.kind));
    let aux_end = put_field(text, kind_end, i64::from(record.aux));
    let x_end = put_field(text, aux_end, i64::from(record.x));
    let y_end = put_field(text, x_end, i64::from(record.y));
    text[y_end] = b'\n';
    y_end + 1
}

// A line as far as it is written.
// Kept: a buffer with its length beside it, since nothing here allocates; a clause sees the bytes that are written.
#[derive(Drop)]
pub struct Line {
    bytes: [u8; MOST_LINE],
    len: usize,
}

impl Model for Line {
    ghost use Rattle.std.specs.Prelude.{ℕ, List, take, ◌≤◌};
    ghost use Rattle.lines.specs.Pieces.{longest_line};

    ghost Value = { List ℕ };

    ghost view = { λ l. take l.len l.bytes };

    ghost invariant = { λ l. l.len ≤ longest_line };
}

impl Line {
    fn new() -> Self
        ensures { result ≡ [] }
    {
        Line {
            bytes: [0; MOST_LINE],
            len: 0,
        }
    }

    // The line of record `k`.
    pub fn of_record(table: &[u8], k: usize) -> Self
        requires { k < record_count table.now }
        ensures { result ≡ line_of table.now k }
    {
        let mut line = Line::new();
        line.len = put_line(table, k, &mut line.bytes, 0);
        line
    }

    // "on refusal: `refused`, number, record"
    pub fn of_refusal(number: u32, at: u32) -> Self
        ensures value { result ≡ refusal_text number at }
        ensures upper_bound { length result ≤ longest_refusal }
    {
        let mut line = Line::new();
        line.push(b"refused");
        line.push_field(i64::from(number));
        line.push_field(i64::from(at));
        line.push(b"\n");
        line
    }

    pub fn as_bytes(&self) -> &[u8]
        ensures value { result.now ≡ self.now }
        ensures upper_bound { length result.now ≤ longest_line }
    {
        &self.bytes[..self.len]
    }

    fn push(&mut self, bytes: &[u8])
        requires { length self.old + length bytes.now ≤ longest_line }
        ensures { self.new ≡ self.old ++ bytes.now }
    {
        let end = self.len + bytes.len();
        self.bytes[self.len..end].copy_from_slice(bytes);
        self.len = end;
    }

    // A space and a number.
    fn push_field(&mut self, x: i64)
        requires x_bound { unsigned_abs x < 2 ^ 32 }
        requires in_bounds { length self.old + length (space ++ signed_decimal x) ≤ longest_line }
        ensures { self.new ≡ self.old ++ (space ++ signed_decimal x) }
    {
        self.len = put_field(&mut self.bytes, self.len, x);
    }
}

// The lines of the first `count` records, from the start of `text`; gives how many bytes they are.
pub fn put_lines(table: &[u8], count: usize, text: &mut [u8]) -> usize
    requires count_bound { count ≤ record_count table.now }
    requires count_in_bounds { longest_line * count ≤ length text.old }
    ensures value { result ≡ length (lines_of table.now count) }
    ensures text_after { text.new ≡ lines_of table.now count ++ drop result text.old }
    ensures upper_bound { result ≤ longest_line * count }
{
    let mut at = 0;
    for k in 0..count {
        at = put_line(table, k, text, at);
    }
    at
}
