// The listing: the text that the listing program writes for all that it reads.
#![tactic(auto)]

ghost use Rattle.std.specs.Prelude.{◌≡◌, ◌++◌, ◌≤◌, length, drop};
ghost use Rattle.answers.specs.Listing.{choice_of, listing_of, listing};
ghost use Rattle.listing.specs.Texts.{longest_text};

use lines::{Line, put_lines};
use table::{MOST_BYTES, RECORD_SIZE};
use translation::translate;
use verdict::Refused;

// The longest text.
pub const MOST_TEXT: usize = 175_000;

// "one digit of choice (any other byte, or none, counts as choice 0)"
// Kept: a function over bytes, since no type stands behind the number; what `From` would say of it stands in its clause.
#[tactic(auto, unfolding(answers::specs::Listing::choice_of))]
fn choice_of(b: u8) -> u32
    ensures { result ≡ choice_of b }
{
    match b {
        b'0'..=b'9' => u32::from(b - b'0'),
        _ => 0,
    }
}

// The choice that the input begins with, and the table behind it.
fn choice_and_table(input: &[u8]) -> (u32, &[u8])
    ensures { listing_of result.0 result.1.now ≡ listing input.now }
{
    match input.split_first() {
        Some((digit, table)) => (choice_of(*digit), table),
        None => (0, input),
    }
}

// Writes the listing for all of standard input, the digit of choice and then the table, from byte 0 of `text` on, and gives its length.
// For every input; the rest of `text` stays.
pub fn list(input: &[u8], text: &mut [u8; MOST_TEXT]) -> usize
    ensures value { result ≡ length (listing input.now) }
    ensures text_after { text.new ≡ listing input.now ++ drop result text.old }
    ensures upper_bound { result ≤ longest_text }
{
    let (choice, table) = choice_and_table(input);
    let mut new = [0u8; MOST_BYTES];
    match translate(choice, table, &mut new) {
        Ok(written) => put_lines(&new, written as usize / RECORD_SIZE, text),
        Err(refusal) => {
            let line = Line::of_refusal(refusal.number(), refusal.record());
            let line = line.as_bytes();
            text[..line.len()].copy_from_slice(line);
            line.len()
        }
    }
}
