#![tactic(auto)]

ghost use Rattle.std.specs.Prelude.{◌≡◌, ◌+◌, ◌*◌, ◌≤◌, ◌<◌, length};
ghost use Rattle.std.proofs.lemmas.List.Edits.{sets};
ghost use Rattle.words.specs.Check.{AcceptedTable};
ghost use Rattle.reasontext.specs.ReasonSheet.{line_text, reason_text};
ghost use Rattle.reasons.specs.Sheet.{line_found, lines_found, text_if, Printed};
ghost use Rattle.reasons.specs.Reasons.{ReasonsAllows};

use index::{Index, IndexedTable};
use ranks::Found;
use refusal::{Reason, Refusal};

// The bytes of the line of a literal.
fn length_of(found: &Found, l: usize) -> usize
    requires { l < 1024 }
    ensures { (result ≡ length (line_text (line_found found.now l))) × (result ≤ 24) }
{
    let line = justified::line_of(&found.lines, l);
    reasontext::line_length(
        l,
        line.rank as usize,
        line.head as usize,
        line.group as usize,
    )
}

// The bytes that a literal adds to the sheet.
#[tactic(auto, unfolding(crate::specs::Sheet::text_if))]
fn length_if(found: &Found, l: usize) -> usize
    requires { l < 1024 }
    ensures { (result ≡ length (text_if found.now l)) × (result ≤ 24) }
{
    if bits::has(&found.ranked, l) {
        length_of(found, l)
    } else {
        0
    }
}

// The bytes of the sheet of the first `n` literals.
fn sheet_length(found: &Found, n: usize) -> usize
    requires { n ≤ 1024 }
    ensures { result ≡ length (reason_text (lines_found found.now n)) }
{
    let mut total: usize = 0;
    for l in 0..n {
        total += length_if(found, l);
    }
    total
}

// Writes the line of a literal at `at`; says where it ends.
fn put_of(text: &mut [u8], found: &Found, at: usize, l: usize) -> usize
    requires { (l < 1024) × (at + length (line_text (line_found found.now l)) ≤ length text.old) }
    ensures value { result ≡ at + length (line_text (line_found found.now l)) }
    ensures text_is { text.new ≡ sets text.old at (line_text (line_found found.now l)) }
{
    let line = justified::line_of(&found.lines, l);
    let rank = line.rank as usize;
    let head = line.head as usize;
    let group = line.group as usize;
    reasontext::put_line(text, at, l, rank, head, group)
}

// Writes what a literal adds to the sheet at `at`; says where it ends.
#[tactic(auto, unfolding(crate::specs::Sheet::text_if))]
fn put_if(text: &mut [u8], found: &Found, at: usize, l: usize) -> usize
    requires { (l < 1024) × (at + length (text_if found.now l) ≤ length text.old) }
    ensures value { result ≡ at + length (text_if found.now l) }
    ensures text_is { text.new ≡ sets text.old at (text_if found.now l) }
{
    if bits::has(&found.ranked, l) {
        put_of(text, found, at, l)
    } else {
        at
    }
}

// Writes the sheet, which fits.
fn put_sheet(text: &mut [u8], found: &Found, n: usize)
    requires { (n ≤ 1024) × (length (reason_text (lines_found found.now n)) ≤ length text.old) }
    ensures { text.new ≡ sets text.old 0 (reason_text (lines_found found.now n)) }
{
    let mut at: usize = 0;
    for l in 0..n {
        at = put_if(text, found, at, l);
    }
}

// Writes the sheet where it fits; its length.
fn print_sheet(text: &mut [u8], found: &Found, n: usize) -> Result<u64, Refusal>
    requires { n ≤ 1024 }
    ensures { Printed (reason_text (lines_found found.now n)) text.old result text.new }
{
    let needed = sheet_length(found, n);
    if text.len() < needed {
        return Reason::TextRoomTooSmall.refused(needed);
    }
    put_sheet(text, found, n);
    Ok(needed as u64)
}

// The sheet of an accepted table.
fn write_settled(n: usize, table: &[u16], text: &mut [u8]) -> Result<u64, Refusal>
    requires { AcceptedTable n table.now }
    ensures { ReasonsAllows n table.now text.old result text.new }
{
    let mut room = Index::empty();
    let rules = IndexedTable::build(table, &mut room);
    let m = evaluation::settle(&rules, n);
    let marks = m.marks;
    let found = waiting::find_reasons(rules.table, rules.index, &marks);
    print_sheet(text, &found, 2 * n)
}

// Why each literal of the smallest well-supported model is in it: the reason sheet, and its length.
pub fn write_reasons(n: u64, table: &[u16], text: &mut [u8]) -> Result<u64, Refusal>
    ensures { ReasonsAllows n table.now text.old result text.new }
{
    words::check(n, table)?;
    write_settled(n as usize, table, text)
}
