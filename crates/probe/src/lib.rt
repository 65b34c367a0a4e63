// The entries for tests, over numbers and lent rows; tests/probe.h says how each answer is packed into one number.
#![tactic(auto)]

ghost use Rattle.std.specs.Prelude.{◌≡◌, ◌≤◌, length};
ghost use Rattle.truth.specs.Connectives.{conjunction, disjunction, negated, implied};
ghost use Rattle.words.specs.Check.{table_check};
ghost use Rattle.bits.specs.Sets.{member};
ghost use Rattle.reader.specs.Readings.{reading_at, place_after, next_at};
ghost use Rattle.probe.specs.Packed.{packed_wrapping, checked_number, numbered_number, decided_number, pick_number, FreshPacked, PickPacked, SettledPacked, ReportPacked, CountPacked, ConflictPacked, which_number, WhichPacked, EvaluationPacked, role_number, literal_number, reading_number, name_start, name_length, sheet_number, sheet_atoms, sheet_words, SheetPacked};

use picks::PickAnswer;
use reader::{Reading, Role, SheetLiteral};
use records::MarkRecord;
use refusal::Refusal;
use sheets::SheetCounts;

// 2^32 times the number, plus the place.
fn packed_refusal(r: Refusal) -> u64
    ensures { result ≡ packed_wrapping r }
{
    std::num::wrapping_add_u64(r.number << 32, r.place)
}

fn checked_number(answer: Result<(), Refusal>) -> u64
    ensures { result ≡ checked_number answer }
{
    match answer {
        Ok(()) => 0,
        Err(r) => packed_refusal(r),
    }
}

fn numbered_number(answer: Result<u64, Refusal>) -> u64
    ensures { result ≡ numbered_number answer }
{
    match answer {
        Ok(number) => number,
        Err(r) => packed_refusal(r),
    }
}

fn decided_number(answer: Result<bool, Refusal>) -> u64
    ensures { result ≡ decided_number answer }
{
    match answer {
        Ok(true) => 1,
        Ok(false) => 0,
        Err(r) => packed_refusal(r),
    }
}

#[unsafe(no_mangle)]
pub extern "C" fn probe_and(v: u64, w: u64) -> u64
    ensures { result ≡ numbered_number (conjunction v w) }
{
    numbered_number(truth::and(v, w))
}

#[unsafe(no_mangle)]
pub extern "C" fn probe_or(v: u64, w: u64) -> u64
    ensures { result ≡ numbered_number (disjunction v w) }
{
    numbered_number(truth::or(v, w))
}

#[unsafe(no_mangle)]
pub extern "C" fn probe_not(v: u64) -> u64
    ensures { result ≡ numbered_number (negated v) }
{
    numbered_number(truth::not(v))
}

#[unsafe(no_mangle)]
pub extern "C" fn probe_implication(body: u64, head: u64) -> u64
    ensures { result ≡ numbered_number (implied body head) }
{
    numbered_number(truth::implication(body, head))
}

#[unsafe(no_mangle)]
pub extern "C" fn probe_check(n: u64, table: &[u16]) -> u64
    ensures { result ≡ checked_number (table_check n table.now) }
{
    checked_number(words::check(n, table))
}

#[unsafe(no_mangle)]
pub extern "C" fn probe_fresh(asked: u64, n: &mut u64, marks: &mut [u64; 8], count: &mut u64) -> u64
    ensures { FreshPacked asked result n.new marks.new count.new }
{
    let made = records::fresh(asked);
    let record = made.record;
    let answer = made.answer;
    let m = record.marks;
    *n = record.n;
    *marks = m;
    *count = record.count;
    checked_number(answer)
}

fn pick_number(answer: Result<PickAnswer, Refusal>) -> u64
    ensures { result ≡ pick_number answer }
{
    match answer {
        Ok(PickAnswer::Marked) => 0,
        Ok(PickAnswer::AlreadyMarked) => 1,
        Ok(PickAnswer::CannotBeMarkedNow) => 2,
        Err(r) => packed_refusal(r),
    }
}

#[unsafe(no_mangle)]
pub extern "C" fn probe_pick(
    n: &mut u64,
    marks: &mut [u64; 8],
    count: &mut u64,
    table: &[u16],
    atom: u64,
) -> u64
    ensures { PickPacked (record { n = n.entry.now; marks = marks.old; count = count.old }) table.now atom result n.exit.now marks.new count.new }
{
    let m = *marks;
    let picked = picks::pick_numbers(*n, m, *count, table, atom);
    let record = picked.record;
    let answer = picked.answer;
    let after = record.marks;
    *n = record.n;
    *marks = after;
    *count = record.count;
    pick_number(answer)
}

#[unsafe(no_mangle)]
pub extern "C" fn probe_settled(n: u64, marks: &[u64; 8], count: u64, table: &[u16]) -> u64
    ensures { SettledPacked (record { n = n; marks = marks.now; count = count }) table.now result }
{
    let m = *marks;
    decided_number(picks::settled(MarkRecord { n, marks: m, count }, table))
}

#[unsafe(no_mangle)]
pub extern "C" fn probe_report(
    n: u64,
    marks: &[u64; 8],
    count: u64,
    table: &[u16],
    values: &mut [u8],
) -> u64
    ensures { ReportPacked (record { n = n; marks = marks.now; count = count }) table.now values.old result values.new }
{
    let m = *marks;
    checked_number(picks::report(MarkRecord { n, marks: m, count }, table, values))
}

#[unsafe(no_mangle)]
pub extern "C" fn probe_mark_count(n: u64, marks: &[u64; 8], count: u64) -> u64
    ensures { CountPacked (record { n = n; marks = marks.now; count = count }) result }
{
    let m = *marks;
    numbered_number(records::mark_count(MarkRecord { n, marks: m, count }))
}

#[unsafe(no_mangle)]
pub extern "C" fn probe_conflict(n: u64, table: &[u16]) -> u64
    ensures { ConflictPacked n table.now result }
{
    decided_number(conflict::in_conflict(n, table))
}

fn which_number(which: Option<usize>) -> u64
    ensures { result ≡ which_number which }
{
    match which {
        Some(g) => g as u64,
        None => 65,
    }
}

#[unsafe(no_mangle)]
pub extern "C" fn probe_which_group(n: u64, table: &[u16], set: &[u64]) -> u64
    ensures { WhichPacked n table.now (member set.now) result }
{
    if let Err(r) = words::check(n, table) {
        return packed_refusal(r);
    }
    if 0 < table.len() {
        let body = least::which_group(table, set, 0);
        let which = body.which;
        return which_number(which);
    }
    66
}

#[unsafe(no_mangle)]
pub extern "C" fn probe_evaluate(n: u64, table: &[u16], values: &mut [u8]) -> u64
    ensures { EvaluationPacked n table.now values.old result values.new }
{
    checked_number(evaluation::evaluate(n, table, values))
}

fn role_number(role: Role) -> u64
    ensures value { result ≡ role_number role }
    ensures upper_bound { result ≤ 6 }
{
    match role {
        Role::Head => 2,
        Role::First => 4,
        Role::Further => 6,
    }
}

fn literal_number(l: SheetLiteral) -> u64
    ensures { result ≡ literal_number l }
{
    let role = l.role;
    let number = role_number(role);
    if l.negated { number + 1 } else { number }
}

fn reading_number(reading: Reading) -> u64
    ensures { result ≡ reading_number reading }
{
    match reading {
        Reading::End => 0,
        Reading::Refused(r) => packed_refusal(r),
        Reading::Literal(l) => literal_number(l),
    }
}

fn name_start(reading: Reading) -> usize
    ensures { result ≡ name_start reading }
{
    match reading {
        Reading::End => 0,
        Reading::Refused(_) => 0,
        Reading::Literal(l) => l.start,
    }
}

fn name_length(reading: Reading) -> usize
    ensures { result ≡ name_length reading }
{
    match reading {
        Reading::End => 0,
        Reading::Refused(_) => 0,
        Reading::Literal(l) => l.len,
    }
}

// A reading as a number; its name's place and length go where they are lent.
fn put_reading(reading: Reading, start: &mut usize, len: &mut usize) -> u64
    ensures value { result ≡ reading_number reading }
    ensures start_after { start.new ≡ name_start reading }
    ensures len_after { len.new ≡ name_length reading }
{
    *start = name_start(reading);
    *len = name_length(reading);
    reading_number(reading)
}

#[unsafe(no_mangle)]
pub extern "C" fn probe_reading(
    sheet: &[u8],
    place: &mut usize,
    start: &mut usize,
    len: &mut usize,
) -> u64
    ensures value { result ≡ reading_number (next_at sheet.now place.old).reading }
    ensures place_is { place.new ≡ (next_at sheet.now place.old).place }
    ensures start_after { start.new ≡ name_start (next_at sheet.now place.old).reading }
    ensures len_after { len.new ≡ name_length (next_at sheet.now place.old).reading }
{
    let next = reader::next_at(sheet, *place);
    let reading = next.reading;
    *place = next.place;
    put_reading(reading, start, len)
}

#[unsafe(no_mangle)]
pub extern "C" fn probe_reader(
    sheet: &[u8],
    place: &mut usize,
    start: &mut usize,
    len: &mut usize,
    seen: &mut u64,
    seen_start: &mut usize,
    seen_len: &mut usize,
) -> u64
    ensures value { result ≡ reading_number (reading_at sheet.now place.old) }
    ensures place_is { place.new ≡ place_after (reading_at sheet.now place.old) place.old }
    ensures start_after { start.new ≡ name_start (reading_at sheet.now place.old) }
    ensures len_after { len.new ≡ name_length (reading_at sheet.now place.old) }
    ensures seen_after { seen.new ≡ reading_number (reading_at sheet.now place.old) }
    ensures seen_start_after { seen_start.new ≡ name_start (reading_at sheet.now place.old) }
    ensures seen_len_after { seen_len.new ≡ name_length (reading_at sheet.now place.old) }
{
    let stepped = reader::step(sheet, *place);
    let seen_reading = stepped.seen;
    let reading = stepped.reading;
    *place = stepped.place;
    *seen = put_reading(seen_reading, seen_start, seen_len);
    put_reading(reading, start, len)
}

fn sheet_number(answer: Result<SheetCounts, Refusal>) -> u64
    ensures { result ≡ sheet_number answer }
{
    match answer {
        Ok(counts) => counts.bytes as u64,
        Err(r) => packed_refusal(r),
    }
}

fn sheet_atoms(answer: Result<SheetCounts, Refusal>) -> usize
    ensures { result ≡ sheet_atoms answer }
{
    match answer {
        Ok(counts) => counts.atoms,
        Err(_) => 0,
    }
}

fn sheet_words(answer: Result<SheetCounts, Refusal>) -> usize
    ensures { result ≡ sheet_words answer }
{
    match answer {
        Ok(counts) => counts.words,
        Err(_) => 0,
    }
}

#[unsafe(no_mangle)]
pub extern "C" fn probe_sheet(
    sheet: &[u8],
    words: &mut [u16],
    names: &mut [u32],
    text: &mut [u8],
    atoms: &mut usize,
    filled: &mut usize,
) -> u64
    ensures { SheetPacked sheet.now (length words.old) (length names.old) text.old result words.new names.new text.new atoms.new filled.new }
{
    let answer = sheets::read_sheet(sheet, words, names, text);
    *atoms = sheet_atoms(answer);
    *filled = sheet_words(answer);
    sheet_number(answer)
}
