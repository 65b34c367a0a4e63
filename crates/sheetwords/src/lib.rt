#![tactic(auto)]

ghost use Rattle.std.specs.Prelude.{◌≡◌, ◌+◌, ◌<◌, ◌≤◌, [], length};
ghost use Rattle.limits.specs.Limits.{most_atoms, most_words};
ghost use Rattle.refusal.specs.Numbers.{refusal};
ghost use Rattle.literals.specs.Literals.{nothing};
ghost use Rattle.sheetwords.specs.Sheets.{sheet_from, sheet_outcome};
ghost use Rattle.buffers.specs.Padded.{padded};
ghost use Rattle.sheetwords.specs.Filling.{FilledBy, ReadInto};

use literals::Counts;
use reader::Reading;
use refusal::{Reason, Refusal};

// A sheet read into words: N, and how many words are filled.
#[derive(Clone, Copy)]
pub struct Filled {
    pub atoms: usize,
    pub words: usize,
}

// Literal after literal, into empty buffers; the first with a fault decides.
fn fill(sheet: &[u8], words: &mut [u16], names: &mut [u32]) -> Result<Filled, Refusal>
    requires most_words_in_bounds { most_words ≤ length words.old }
    requires most_atoms_in_bounds { most_atoms ≤ length names.old }
    requires words_value { words.old ≡ padded (length words.old) [] }
    requires names_value { names.old ≡ padded (length names.old) [] }
    ensures { FilledBy (sheet_from (length sheet.now + 1) sheet.now 0 nothing) result words.new names.new }
{
    // The heads so far: 7 asks whether one is there already.
    let mut heads = [0u64; 16];
    let mut counts = Counts {
        atoms: 0,
        words: 0,
        line: 0,
        rule: 0,
        group: 0,
    };
    let mut place: usize = 0;
    // Each literal says where the next one begins, and the end is a reading.
    loop {
        let next = reader::next_at(sheet, place);
        let reading = next.reading;
        match reading {
            Reading::End => {
                return Ok(Filled {
                    atoms: counts.atoms,
                    words: counts.words,
                });
            }
            Reading::Refused(r) => return Err(r),
            Reading::Literal(l) => {
                counts = literals::take_literal(sheet, words, names, &mut heads, counts, place, l)?;
            }
        }
        place = next.place;
    }
}

// Fills empty buffers, and leaves them empty where the sheet is refused.
fn fill_or_clear(sheet: &[u8], words: &mut [u16], names: &mut [u32]) -> Result<Filled, Refusal>
    requires most_words_in_bounds { most_words ≤ length words.old }
    requires most_atoms_in_bounds { most_atoms ≤ length names.old }
    requires words_value { words.old ≡ padded (length words.old) [] }
    requires names_value { names.old ≡ padded (length names.old) [] }
    ensures { ReadInto (sheet_from (length sheet.now + 1) sheet.now 0 nothing) (length words.old) (length names.old) result words.new names.new }
{
    let filled = fill(sheet, words, names);
    if filled.is_err() {
        buffers::clear(words, names);
    }
    filled
}

// Reads a sheet into words and name entries: 8, 9, then its literals.
pub fn read_words(sheet: &[u8], words: &mut [u16], names: &mut [u32]) -> Result<Filled, Refusal>
    ensures { ReadInto (sheet_outcome sheet.now (length words.old) (length names.old)) (length words.old) (length names.old) result words.new names.new }
{
    buffers::clear(words, names);
    if limits::MOST_SHEET_BYTES < sheet.len() {
        return Reason::SheetTooLong.refused(0);
    }
    if words.len() < limits::MOST_WORDS {
        return Reason::BufferTooSmall.refused(0);
    }
    if names.len() < limits::MOST_ATOMS {
        return Reason::BufferTooSmall.refused(0);
    }
    fill_or_clear(sheet, words, names)
}
