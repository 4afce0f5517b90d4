// Records, written into a lent slice.
ghost use Rattle.std.specs.Prelude.{◌≡◌, ◌+◌, ◌≤◌, length};
ghost use Rattle.std.proofs.lemmas.List.Edits.{sets};
ghost use Rattle.table.specs.Records.{record_size, word_bytes};
ghost use Rattle.translator.specs.Cells.{bytes_of};

use table::Mark;

// A record to be written; x and y by their 32 bits.
#[derive(Clone, Copy)]
pub struct NewRecord {
    pub mark: Mark,
    pub kind: u8,
    pub x: u32,
    pub y: u32,
}

// Puts a word from byte `at` on, low byte first.
fn put_word(out: &mut [u8], at: usize, w: u32)
    requires { at + 4 ≤ length out.old }
    ensures { out.new ≡ sets out.old at (word_bytes w) }
{
    out[at..at + 4].copy_from_slice(&w.to_le_bytes());
}

// Puts a record from byte `at` on: its mark's two letters, its kind, 0, and x and y.
pub fn put_record(out: &mut [u8], at: usize, new: NewRecord)
    requires { at + record_size ≤ length out.old }
    ensures { out.new ≡ sets out.old at (bytes_of new) }
{
    let [first, second] = new.mark.letters();
    // Kept: four stores. Copied as a slice these bytes are tested for an overlap with their place, and a translation took a sixth longer.
    out[at] = first;
    out[at + 1] = second;
    out[at + 2] = new.kind;
    out[at + 3] = 0;
    put_word(out, at + 4, new.x);
    put_word(out, at + 8, new.y);
}
