#![tactic(auto)]

ghost use Rattle.std.specs.Prelude.{◌≡◌, ◌+◌, ◌/◌, ◌%◌, ◌<◌, ◌≤◌, length, set};
ghost use Rattle.hostsheet.specs.Rooms.{sized, room_for, HasRoom};
ghost use Rattle.hostsheet.specs.SheetBytes.{words_over, names_over, packed_answer, HostSheet};

use refusal::Refusal;
use sheets::SheetCounts;

fn low_byte(x: usize) -> u8
    ensures { result ≡ x % 256 }
{
    (x % 256) as u8
}

// A word as two bytes, low byte first.
fn put_word(bytes: &mut [u8], at: usize, word: usize)
    requires at_in_bounds { at + 1 < length bytes.old }
    requires word_bound { word < 65536 }
    ensures { bytes.new ≡ set (set bytes.old at (word % 256)) (at + 1) (word / 256) }
{
    bytes[at] = low_byte(word);
    bytes[at + 1] = low_byte(word / 256);
}

// A name entry as four bytes, low byte first.
fn put_name(bytes: &mut [u8], at: usize, e: usize)
    requires at_in_bounds { at + 3 < length bytes.old }
    requires e_bound { e < 4294967296 }
    ensures { bytes.new ≡ set (set (set (set bytes.old at (e % 256)) (at + 1) (e / 256 % 256)) (at + 2) (e / 65536 % 256)) (at + 3) (e / 16777216) }
{
    bytes[at] = low_byte(e);
    bytes[at + 1] = low_byte(e / 256);
    bytes[at + 2] = low_byte(e / 65536);
    bytes[at + 3] = low_byte(e / 16777216);
}

// Every whole word of the lent bytes; a surplus byte is untouched.
fn put_words(words: &[u16], bytes: &mut [u8])
    ensures { bytes.new ≡ words_over (sized (length bytes.old / 2) words.now) bytes.old }
{
    for i in 0..bytes.len() / 2 {
        put_word(bytes, 2 * i, words::word(words, i));
    }
}

// Every whole name entry of the lent bytes; surplus bytes are untouched.
fn put_names(names: &[u32], bytes: &mut [u8])
    ensures { bytes.new ≡ names_over (sized (length bytes.old / 4) names.now) bytes.old }
{
    for i in 0..bytes.len() / 4 {
        put_name(bytes, 4 * i, names::entry(names, i));
    }
}

fn room_for(limit: usize, whole: usize) -> usize
    ensures value { result ≡ room_for limit whole }
    ensures upper_bound { result ≤ limit }
{
    limit.min(whole)
}

fn answer(r: Result<SheetCounts, Refusal>) -> u64
    requires { HasRoom r }
    ensures { result ≡ packed_answer r }
{
    match r {
        Ok(c) => c.bytes as u64,
        Err(f) => host::pack(f),
    }
}

// The sheet entry over bytes: the answer is the value sheet's length, or the refusal packed.
pub fn sheet_bytes(sheet: &[u8], words: &mut [u8], names: &mut [u8], text: &mut [u8]) -> u64
    ensures { HostSheet sheet.now words.old names.old text.old result words.new names.new text.new }
{
    let w = room_for(limits::MOST_WORDS, words.len() / 2);
    let n = room_for(limits::MOST_ATOMS, names.len() / 4);
    let mut ws = [0u16; limits::MOST_WORDS];
    let mut ns = [0u32; limits::MOST_ATOMS];
    let r = sheets::read_sheet(sheet, &mut ws[..w], &mut ns[..n], text);
    put_words(&ws, words);
    put_names(&ns, names);
    answer(r)
}
