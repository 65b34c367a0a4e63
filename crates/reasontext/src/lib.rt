#![tactic(auto)]

ghost use Rattle.std.specs.Prelude.{not, ◌&&◌, eqb, [], ◌∷◌, ◌++◌, ◌≡◌, ◌+◌, ◌≤◌, ◌<◌, ◌^◌, length};
ghost use Rattle.std.proofs.lemmas.List.Edits.{sets};
ghost use Rattle.limits.specs.Limits.{most_four_digits};
ghost use Rattle.decimals.specs.Decimals.{decimal};
ghost use Rattle.reasontext.specs.ReasonSheet.{line, line_text};
ghost use Rattle.reasontext.specs.Reading.{separator, after_field, with_digit, number_goes_on, breaks, at_end, read_text, after_byte, stored_byte};

use refusal::{Reason, Refusal};

// Where reading stands: which number of its line comes, whether it has begun, its value so far, and how many numbers are whole.
#[derive(Clone, Copy)]
pub struct State {
    pub field: usize,
    pub begun: bool,
    pub number: usize,
    pub count: usize,
}

// What stands behind a number of a line.
fn separator_byte(field: usize) -> u8
    ensures { result ≡ separator field }
{
    if field == 3 { b'\n' } else { b'\t' }
}

fn after_field(field: usize) -> usize
    requires { field ≤ 3 }
    ensures { result ≡ after_field field }
{
    if field == 3 { 0 } else { field + 1 }
}

// A number with a digit more.
fn with_digit(n: usize, b: u8) -> usize
    requires { (n ≤ most_four_digits) × (48 ≤ b) }
    ensures { result ≡ with_digit n b }
{
    10 * n + (b - 48) as usize
}

// Has a number no leading zero, and fewer than four digits?
fn goes_on(n: usize) -> bool
    ensures { result ≡ number_goes_on n }
{
    1 <= n && n <= 999
}

// Does a digit break the text?
fn digit_breaks(begun: bool, n: usize) -> bool
    ensures { result ≡ (begun && not (number_goes_on n)) }
{
    if begun {
        if goes_on(n) {
            return false;
        }
        return true;
    }
    false
}

// Does a byte that is no digit break the text?
fn separator_breaks(begun: bool, field: usize, b: u8) -> bool
    ensures { result ≡ not (begun && eqb b (separator field)) }
{
    if begun {
        if b == separator_byte(field) {
            return false;
        }
        return true;
    }
    true
}

// Does a byte break the text?
fn breaks_text(s: State, b: u8) -> bool
    ensures { result ≡ breaks s.field s.begun s.number b }
{
    if decimals::is_digit(b) {
        digit_breaks(s.begun, s.number)
    } else {
        separator_breaks(s.begun, s.field, b)
    }
}

// Reading goes on behind a byte that does not break the text.
fn after_byte(s: State, b: u8) -> State
    requires { (s.number ≤ most_four_digits) × (s.field ≤ 3) × (s.count + 1 < 2 ^ 64) }
    ensures { result ≡ after_byte s b }
{
    let field = s.field;
    let count = s.count;
    if decimals::is_digit(b) {
        return State {
            field,
            begun: true,
            number: with_digit(s.number, b),
            count,
        };
    }
    State {
        field: after_field(field),
        begun: false,
        number: 0,
        count: count + 1,
    }
}

// A number that a byte makes whole goes into the room, where it has a place for it.
fn store_whole(room: &mut [u16], s: State, b: u8)
    requires { s.number ≤ most_four_digits }
    ensures { room.new ≡ stored_byte room.old s b }
{
    if decimals::is_digit(b) {
        return;
    }
    let at = s.count;
    if at < room.len() {
        room[at] = s.number as u16;
    }
}

// The text may end between two lines.
fn end_fault(s: State, at: usize) -> Result<(), Refusal>
    ensures { result ≡ (at_end s.field s.begun at).fault }
{
    let field = s.field;
    let begun = s.begun;
    if field == 0 {
        if begun {
            return Reason::TextBroken.refused(at);
        }
        return Ok(());
    }
    Reason::TextBroken.refused(at)
}

// What reading found: a fault, and how many numbers are whole.
#[derive(Clone, Copy)]
pub struct Numbers {
    pub fault: Result<(), Refusal>,
    pub count: usize,
}

// Reads a text; its numbers go into the room, as many as it has places for.
pub fn read_numbers(text: &[u8], room: &mut [u16]) -> Numbers
    ensures fault_value { result.fault ≡ (read_text text.now).fault }
    ensures count_value { result.count ≡ length (read_text text.now).numbers }
    ensures room_after { room.new ≡ sets room.old 0 (read_text text.now).numbers }
{
    let mut s = State {
        field: 0,
        begun: false,
        number: 0,
        count: 0,
    };
    for (i, &b) in text.iter().enumerate() {
        if breaks_text(s, b) {
            let count = s.count;
            return Numbers {
                fault: Reason::TextBroken.refused(i),
                count,
            };
        }
        store_whole(room, s, b);
        s = after_byte(s, b);
    }
    let count = s.count;
    Numbers {
        fault: end_fault(s, text.len()),
        count,
    }
}

// Writes a number at `at`, and the byte that stands behind it; says where they end.
fn put_number(text: &mut [u8], at: usize, n: usize, end: u8) -> usize
    requires { (n < 2 ^ 32) × (at + length (decimal n ++ end ∷ []) ≤ length text.old) }
    ensures value { result ≡ at + length (decimal n ++ end ∷ []) }
    ensures text_is { text.new ≡ sets text.old at (decimal n ++ end ∷ []) }
{
    let behind = decimals::put_decimal(text, at, n);
    text[behind] = end;
    behind + 1
}

// How many bytes a line has.
pub fn line_length(l: usize, rank: usize, head: usize, group: usize) -> usize
    requires { (l < 65536) × (rank < 65536) × (head < 65536) × (group < 65536) }
    ensures value { result ≡ length (line_text (line l rank head group)) }
    ensures upper_bound { result ≤ 24 }
{
    let literal = decimals::decimal_length(l);
    let ranks = decimals::decimal_length(rank);
    let heads = decimals::decimal_length(head);
    let groups = decimals::decimal_length(group);
    literal + ranks + heads + groups + 4
}

// Writes a line at `at`; says where it ends.
pub fn put_line(
    text: &mut [u8],
    at: usize,
    l: usize,
    rank: usize,
    head: usize,
    group: usize,
) -> usize
    requires { (l < 65536) × (rank < 65536) × (head < 65536) × (group < 65536) × (at + length (line_text (line l rank head group)) ≤ length text.old) }
    ensures value { result ≡ at + length (line_text (line l rank head group)) }
    ensures text_is { text.new ≡ sets text.old at (line_text (line l rank head group)) }
{
    let ranks = put_number(text, at, l, b'\t');
    let heads = put_number(text, ranks, rank, b'\t');
    let groups = put_number(text, heads, head, b'\t');
    put_number(text, groups, group, b'\n')
}
