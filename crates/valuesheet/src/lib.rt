#![tactic(auto)]

ghost use Rattle.std.specs.Prelude.{◌≡◌, ◌+◌, ◌<◌, ◌≤◌, ◌^◌, length, get_or, take, set};
ghost use Rattle.std.proofs.lemmas.List.Edits.{sets};
ghost use Rattle.limits.specs.Limits.{most_atoms};
ghost use Rattle.names.specs.Names.{bytes_at};
ghost use Rattle.valuesheet.specs.ValueSheet.{letter_of, line_for, value_sheet};
ghost use Rattle.valuesheet.specs.Fitting.{line_bytes, bytes_for, printing, text_after};

use refusal::{Reason, Refusal};

#[tactic(auto, unfolding(crate::specs::ValueSheet::letter_of))]
fn letter(v: u8) -> u8
    ensures { result ≡ letter_of v }
{
    match v {
        0 => b'f',
        1 => b'u',
        2 => b'i',
        _ => b't',
    }
}

fn line_bytes(e: usize) -> usize
    ensures value { result ≡ line_bytes e }
    ensures upper_bound { result ≤ 34 }
{
    e % 32 + 3
}

// The bytes that the value sheet of `n` names needs.
fn bytes_needed(names: &[u32], n: usize) -> usize
    requires n_le_most_atoms { n ≤ most_atoms }
    requires n_in_bounds { n ≤ length names.now }
    ensures { result ≡ bytes_for (take n names.now) }
{
    let mut total: usize = 0;
    for a in 0..n {
        total += line_bytes(names::entry(names, a));
    }
    total
}

// Copies the `len` bytes of the sheet from `start` on to `at`.
fn put_name(sheet: &[u8], start: usize, len: usize, text: &mut [u8], at: usize)
    requires len_bound { start + len < 2 ^ 63 }
    requires len_in_bounds { at + len ≤ length text.old }
    ensures { text.new ≡ sets text.old at (bytes_at sheet.now start len) }
{
    for i in 0..len {
        text[at + i] = reader::byte(sheet, start + i);
    }
}

fn put_value(text: &mut [u8], at: usize, v: u8)
    requires { at + 3 ≤ length text.old }
    ensures { text.new ≡ set (set (set text.old at 9) (at + 1) (letter_of v)) (at + 2) 10 }
{
    text[at] = b'\t';
    text[at + 1] = letter(v);
    text[at + 2] = b'\n';
}

fn put_line(sheet: &[u8], e: usize, v: u8, text: &mut [u8], at: usize)
    requires e_bound { e < 2 ^ 32 }
    requires e_in_bounds { at + line_bytes e ≤ length text.old }
    ensures { text.new ≡ sets text.old at (line_for sheet.now e v) }
{
    put_name(sheet, e / 32, e % 32, text, at);
    put_value(text, at + e % 32, v);
}

fn put_lines(sheet: &[u8], names: &[u32], n: usize, values: &[u8], text: &mut [u8])
    requires n_le_most_atoms { n ≤ most_atoms }
    requires n_in_bounds { n ≤ length names.now }
    requires names_in_bounds { bytes_for (take n names.now) ≤ length text.old }
    ensures { text.new ≡ sets text.old 0 (value_sheet sheet.now (λ a. get_or values.now a 0) (take n names.now)) }
{
    let mut at: usize = 0;
    for a in 0..n {
        let e = names::entry(names, a);
        put_line(sheet, e, reader::byte(values, a), text, at);
        at += line_bytes(e);
    }
}

// Prints the value sheet of `n` names, if it fits the text room.
pub fn print(
    sheet: &[u8],
    names: &[u32],
    n: usize,
    values: &[u8],
    text: &mut [u8],
) -> Result<usize, Refusal>
    requires n_le_most_atoms { n ≤ most_atoms }
    requires n_in_bounds { n ≤ length names.now }
    ensures value { result ≡ printing (value_sheet sheet.now (λ a. get_or values.now a 0) (take n names.now)) (length text.old) }
    ensures text_is { text.new ≡ text_after (value_sheet sheet.now (λ a. get_or values.now a 0) (take n names.now)) text.old }
{
    let needed = bytes_needed(names, n);
    if text.len() < needed {
        return Reason::TextRoomTooSmall.refused(needed);
    }
    put_lines(sheet, names, n, values, text);
    Ok(needed)
}
