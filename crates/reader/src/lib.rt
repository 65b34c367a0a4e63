#![tactic(auto)]

ghost use Rattle.std.specs.Prelude.{◌≡◌, ◌+◌, ◌<◌, ◌≤◌, ◌^◌, length, get_or, drop};
ghost use Rattle.refusal.specs.Numbers.{number_of, refusal};
ghost use Rattle.reader.specs.Sheet.{starts_name, continues_name, name_run, may_follow, byte_before};
ghost use Rattle.reader.specs.Readings.{ended_name, name_at, literal_at, line_at, reading_after, reading_at, place_after, next_at};

use refusal::{Reason, Refusal};

// Where a literal stands: at the start of a line, or in a group.
#[derive(Clone, Copy)]
pub enum Role {
    Head,
    First,
    Further,
}

// A literal of a sheet: its sign, where its name starts (past the "-"), the name's length, and its role.
#[derive(Clone, Copy)]
pub struct SheetLiteral {
    pub negated: bool,
    pub start: usize,
    pub len: usize,
    pub role: Role,
}

#[derive(Clone, Copy)]
pub enum Reading {
    End,
    Refused(Refusal),
    Literal(SheetLiteral),
}

// A reading, and the place that comes after it.
#[derive(Clone, Copy)]
pub struct Next {
    pub reading: Reading,
    pub place: usize,
}

// The byte at `i`, 0 past the end.
pub fn byte(sheet: &[u8], i: usize) -> u8
    ensures { result ≡ get_or sheet.now i 0 }
{
    if i < sheet.len() { sheet[i] } else { 0 }
}

// A reading that refuses.
fn refused(reason: Reason, at: usize) -> Reading
    ensures { result ≡ Reading.Refused (refusal (number_of reason) at) }
{
    Reading::Refused(reason.at(at))
}

fn starts_name(b: u8) -> bool
    ensures { result ≡ starts_name b }
{
    97 <= b && b <= 122
}

fn continues_name(b: u8) -> bool
    ensures { result ≡ continues_name b }
{
    if starts_name(b) {
        return true;
    }
    if decimals::is_digit(b) {
        return true;
    }
    if b == b'_' {
        return true;
    }
    b == b'.'
}

fn ends_field(b: u8) -> bool
    ensures { result ≡ may_follow Role.Head b }
{
    if b == b'\t' {
        return true;
    }
    b == b'\n'
}

fn ends_in_group(b: u8) -> bool
    ensures { result ≡ may_follow Role.First b }
{
    if b == b' ' {
        return true;
    }
    ends_field(b)
}

// May `b` follow a literal of this role?
fn may_follow(role: Role, b: u8) -> bool
    ensures { result ≡ may_follow role b }
{
    match role {
        Role::Head => ends_field(b),
        Role::First => ends_in_group(b),
        Role::Further => ends_in_group(b),
    }
}

// How many bytes from `q` on can belong to a name.
fn name_run(sheet: &[u8], q: usize) -> usize
    requires { q ≤ length sheet.now }
    ensures value { result ≡ name_run (drop q sheet.now) }
    ensures result_in_bounds { q + result ≤ length sheet.now }
{
    let mut n: usize = 0;
    // As take_while and count the proof of the length did not close.
    while continues_name(byte(sheet, q + n)) {
        n += 1;
    }
    n
}

fn ended_name(sheet: &[u8], q: usize, n: usize, negated: bool, role: Role) -> Reading
    requires { q + n ≤ length sheet.now }
    ensures { result ≡ ended_name sheet.now q n negated role }
{
    if limits::MOST_NAME_BYTES < n {
        return refused(Reason::NameTooLong, q + limits::MOST_NAME_BYTES);
    }
    if may_follow(role, byte(sheet, q + n)) {
        Reading::Literal(SheetLiteral {
            negated,
            start: q,
            len: n,
            role,
        })
    } else {
        refused(Reason::WrongByte, q + n)
    }
}

fn name_at(sheet: &[u8], q: usize, negated: bool, role: Role) -> Reading
    requires { q ≤ length sheet.now }
    ensures { result ≡ name_at sheet.now q negated role }
{
    if starts_name(byte(sheet, q)) {
        ended_name(sheet, q, name_run(sheet, q), negated, role)
    } else {
        refused(Reason::WrongByte, q)
    }
}

fn literal_at(sheet: &[u8], place: usize, role: Role) -> Reading
    requires { place ≤ length sheet.now }
    ensures { result ≡ literal_at sheet.now place role }
{
    let b = byte(sheet, place);
    if b == b'-' {
        name_at(sheet, place + 1, true, role)
    } else {
        name_at(sheet, place, false, role)
    }
}

fn line_at(sheet: &[u8], place: usize) -> Reading
    requires { place ≤ length sheet.now }
    ensures { result ≡ line_at sheet.now place }
{
    if place == sheet.len() {
        Reading::End
    } else {
        literal_at(sheet, place, Role::Head)
    }
}

fn byte_before(sheet: &[u8], place: usize) -> u8
    ensures { result ≡ byte_before sheet.now place }
{
    if place == 0 {
        b'\n'
    } else {
        byte(sheet, place - 1)
    }
}

fn reading_after(before: u8, sheet: &[u8], place: usize) -> Reading
    requires { place ≤ length sheet.now }
    ensures { result ≡ reading_after before sheet.now place }
{
    if before == b'\n' {
        return line_at(sheet, place);
    }
    if before == b'\t' {
        return literal_at(sheet, place, Role::First);
    }
    if before == b' ' {
        return literal_at(sheet, place, Role::Further);
    }
    refused(Reason::WrongByte, place)
}

// What stands at a place of a sheet.
pub fn reading_at(sheet: &[u8], place: usize) -> Reading
    ensures { result ≡ reading_at sheet.now place }
{
    if limits::MOST_SHEET_BYTES < sheet.len() {
        return refused(Reason::SheetTooLong, 0);
    }
    if sheet.len() < place {
        return refused(Reason::WrongByte, sheet.len());
    }
    reading_after(byte_before(sheet, place), sheet, place)
}

fn place_after(reading: Reading, place: usize) -> usize
    requires { place_after reading place < 2 ^ 64 }
    ensures { result ≡ place_after reading place }
{
    match reading {
        Reading::End => place,
        Reading::Refused(_) => place,
        Reading::Literal(l) => l.start + l.len + 1,
    }
}

// What stands at a place of a sheet, and the place to read at next.
pub fn next_at(sheet: &[u8], place: usize) -> Next
    ensures { result ≡ next_at sheet.now place }
{
    let reading = reading_at(sheet, place);
    let after = place_after(reading, place);
    Next {
        reading,
        place: after,
    }
}

// The sheet reader: the sheet, and the place it has reached, where the next literal starts.
#[derive(Clone, Copy)]
pub struct Reader<'a> {
    pub sheet: &'a [u8],
    pub place: usize,
}

impl<'a> Reader<'a> {
    // At the start of a sheet.
    pub fn new(sheet: &'a [u8]) -> Reader<'a>
        ensures { (result.sheet ≡ sheet.entry) × (result.place ≡ 0) }
    {
        Reader { sheet, place: 0 }
    }

    // The reading at its place.
    pub fn peek(self) -> Reading
        ensures { result ≡ reading_at self.entry.sheet.now self.entry.place }
    {
        reading_at(self.sheet, self.place)
    }

    // The reading at its place; the reader then stands at the next literal, and after the end or a refusal where it stood.
    pub fn next(&mut self) -> Reading
        ensures { (result ≡ reading_at self.old.sheet.now self.old.place) × (self.new.sheet ≡ self.old.sheet) × (self.new.place ≡ place_after (reading_at self.old.sheet.now self.old.place) self.old.place) }
    {
        let next = next_at(self.sheet, self.place);
        self.place = next.place;
        next.reading
    }
}

// What a reader at a place sees, what it yields, and where it then stands.
#[derive(Clone, Copy)]
pub struct Stepped {
    pub seen: Reading,
    pub reading: Reading,
    pub place: usize,
}

// A reader moved on from the start to a place, and one step of it.
pub fn step(sheet: &[u8], place: usize) -> Stepped
    ensures { (result.seen ≡ reading_at sheet.now place) × (result.reading ≡ reading_at sheet.now place) × (result.place ≡ place_after (reading_at sheet.now place) place) }
{
    let mut reader = Reader::new(sheet);
    reader.place += place;
    let seen = reader.peek();
    let reading = reader.next();
    Stepped {
        seen,
        reading,
        place: reader.place,
    }
}
