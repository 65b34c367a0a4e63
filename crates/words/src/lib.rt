#![tactic(auto)]

ghost use Rattle.std.specs.Prelude.{◌≡◌, ◌<◌, ◌≤◌, length, get_or};
ghost use Rattle.limits.specs.Limits.{most_atoms};
ghost use Rattle.bits.specs.Sets.{member};
ghost use Rattle.refusal.specs.Numbers.{refusal};
ghost use Rattle.words.specs.Flags.{noted};
ghost use Rattle.words.specs.Check.{fault, code_fault, repeat_fault, range_fault, groups_due, literals_due, next, ended, no_heads, walk, table_too_long_fault, table_check};

use refusal::{Reason, Refusal};

// What the next word is. A length or a literal says how many groups come after its own, a literal how many after it in its group.
#[derive(Clone, Copy)]
pub enum Due {
    Head,
    Line,
    Count,
    Size(usize),
    Literal(usize, usize),
}

// A record: its head, then its line, then the number of its groups, then its groups (line_number_at, groups_at, body_at in specs/Layout.antt).
pub const LINE: usize = 1;

pub const GROUPS: usize = 2;

pub const BODY: usize = 3;

// A group: its length, then its literals (literals_at); the words of a group of one literal (after_one).
pub const LITERALS: usize = 1;

pub const ONE_LITERAL: usize = 2;

// The word at `i`, inside the table: whoever knows that reads it without asking again.
pub fn word_inside(table: &[u16], i: usize) -> usize
    requires { i < length table.now }
    ensures value { result ≡ get_or table.now i 0 }
    ensures upper_bound { result < 65536 }
{
    usize::from(table[i])
}

// The word at `i`, 0 past the end.
pub fn word(table: &[u16], i: usize) -> usize
    ensures value { result ≡ get_or table.now i 0 }
    ensures upper_bound { result < 65536 }
{
    table.get(i).map_or(0, |&w| usize::from(w))
}

// A literal code is below twice the number of atoms.
fn code_fault(n: usize, at: usize, w: usize) -> Result<(), Refusal>
    requires { n ≤ most_atoms }
    ensures { result ≡ code_fault n at w }
{
    if w < 2 * n {
        Ok(())
    } else {
        Reason::NotALiteral.refused(at)
    }
}

// A head was not seen before.
fn repeat_fault(seen: &[u64], at: usize, w: usize) -> Result<(), Refusal>
    ensures { result ≡ repeat_fault (member seen.now) at w }
{
    if bits::has(seen, w) {
        Reason::SecondRule.refused(at)
    } else {
        Ok(())
    }
}

// A line, a number of groups or a length is at least `least` and at most `most`.
fn range_fault(least: usize, most: usize, at: usize, w: usize) -> Result<(), Refusal>
    ensures { result ≡ range_fault least most at w }
{
    if least <= w && w <= most {
        Ok(())
    } else {
        Reason::OutOfRange.refused(at)
    }
}

// The fault of the word at `at`, or none.
fn fault_of(n: usize, seen: &[u64], due: Due, at: usize, w: usize) -> Result<(), Refusal>
    requires { n ≤ most_atoms }
    ensures { result ≡ fault n (member seen.now) due at w }
{
    match due {
        Due::Head => {
            code_fault(n, at, w)?;
            repeat_fault(seen, at, w)
        }
        Due::Line => range_fault(0, limits::MOST_LINE, at, w),
        Due::Count => range_fault(0, limits::MOST_IN_BODY, at, w),
        Due::Size(_) => range_fault(1, limits::MOST_IN_BODY, at, w),
        Due::Literal(_, _) => code_fault(n, at, w),
    }
}

// `g` groups are to come.
fn groups_due(g: usize) -> Due
    ensures { result ≡ groups_due g }
{
    if g == 0 { Due::Head } else { Due::Size(g - 1) }
}

// `k` literals of a group are to come, and `g` groups after it.
fn literals_due(k: usize, g: usize) -> Due
    ensures { result ≡ literals_due k g }
{
    if k == 0 {
        groups_due(g)
    } else {
        Due::Literal(k - 1, g)
    }
}

// What is due after the word `w`.
fn next_due(due: Due, w: usize) -> Due
    ensures { result ≡ next due w }
{
    match due {
        Due::Head => Due::Line,
        Due::Line => Due::Count,
        Due::Count => groups_due(w),
        Due::Size(g) => literals_due(w, g),
        Due::Literal(k, g) => literals_due(k, g),
    }
}

// A head is seen; no other word is.
fn note(seen: &mut [u64], due: Due, w: usize)
    ensures { seen.new ≡ noted due seen.old w }
{
    match due {
        Due::Head => bits::put(seen, w),
        Due::Line | Due::Count | Due::Size(_) | Due::Literal(_, _) => {}
    }
}

// The words have ended, so many of them.
fn ended_at(due: Due, words: usize) -> Result<(), Refusal>
    ensures { result ≡ ended due words }
{
    match due {
        Due::Head => Ok(()),
        Due::Line | Due::Count | Due::Size(_) | Due::Literal(_, _) => {
            Reason::CutShort.refused(words)
        }
    }
}

// The words from left to right: the first faulty one decides.
fn walk_words(n: usize, table: &[u16]) -> Result<(), Refusal>
    requires { n ≤ most_atoms }
    ensures { result ≡ walk n no_heads Due.Head 0 table.now }
{
    let mut seen = [0u64; 16];
    let mut due = Due::Head;
    for (i, &word) in table.iter().enumerate() {
        let w = usize::from(word);
        fault_of(n, &seen, due, i, w)?;
        note(&mut seen, due, w);
        due = next_due(due, w);
    }
    ended_at(due, table.len())
}

// 2 alone.
pub fn table_too_long(table: &[u16]) -> Result<(), Refusal>
    ensures { result ≡ table_too_long_fault table.now }
{
    if limits::MOST_WORDS < table.len() {
        Reason::TableTooLong.refused(0)
    } else {
        Ok(())
    }
}

// Is this a table for `n` atoms?
#[tactic(auto, unfolding(crate::specs::Check::table_check))]
pub fn check(n: u64, table: &[u16]) -> Result<(), Refusal>
    ensures { result ≡ table_check n table.now }
{
    if limits::MOST_N < n {
        return Reason::TooManyAtoms.refused(0);
    }
    table_too_long(table)?;
    walk_words(n as usize, table)
}
