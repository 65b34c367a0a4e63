#![tactic(auto)]

ghost use Rattle.std.specs.Prelude.{◌≡◌, ◌+◌, ◌<◌, ◌≤◌, length, get_or};
ghost use Rattle.limits.specs.Limits.{most_atoms, most_words, most_in_body, most_name_bytes, most_sheet_bytes};
ghost use Rattle.bits.specs.Sets.{member};
ghost use Rattle.words.specs.Layout.{line_number_at, groups_at, body_at, literals_at};
ghost use Rattle.words.specs.RecordAt.{groups_in};
ghost use Rattle.refusal.specs.Numbers.{refusal};
ghost use Rattle.names.specs.Names.{entry_for};
ghost use Rattle.literals.specs.Literals.{code_for, words_for, repeats, fault_with};
ghost use Rattle.literals.specs.Putting.{names_with, put_words, put_name, put_head, counted, Room, body_in, fault_by, Put, Took};

use reader::{Role, SheetLiteral};
use refusal::{Reason, Refusal};

// The names and words so far, the line and the place of the last record, and the place of its last group.
#[derive(Clone, Copy)]
pub struct Counts {
    pub atoms: usize,
    pub words: usize,
    pub line: usize,
    pub rule: usize,
    pub group: usize,
}

// The fault of a literal, from what there would be with it.
#[tactic(auto, unfolding(crate::specs::Literals::fault_with))]
fn fault_with(
    names: usize,
    repeated: bool,
    body: usize,
    words: usize,
    place: usize,
    start: usize,
) -> Result<(), Refusal>
    ensures { result ≡ fault_with names repeated body words place start }
{
    if limits::MOST_ATOMS < names {
        return Reason::TooManyNames.refused(start);
    }
    if repeated {
        return Reason::SecondRule.refused(place);
    }
    if limits::MOST_IN_BODY < body {
        return Reason::TooManyInBody.refused(place);
    }
    if limits::MOST_WORDS < words {
        return Reason::TooManyWords.refused(place);
    }
    Ok(())
}

fn names_with(atom: usize, atoms: usize) -> usize
    requires { atoms ≤ most_atoms }
    ensures { result ≡ names_with atom atoms }
{
    if atom < atoms { atoms } else { atoms + 1 }
}

fn code_for(negated: bool, atom: usize) -> usize
    requires { atom ≤ most_atoms }
    ensures value { result ≡ code_for negated atom }
    ensures upper_bound { result < 65536 }
{
    if negated { 2 * atom + 1 } else { 2 * atom }
}

fn is_repeated(role: Role, heads: &[u64], code: usize) -> bool
    ensures { result ≡ repeats role (member heads.now) code }
{
    match role {
        Role::Head => bits::has(heads, code),
        Role::First => false,
        Role::Further => false,
    }
}

fn body_with(role: Role, words: &[u16], counts: Counts) -> usize
    requires { body_at counts.rule ≤ most_words }
    ensures { result ≡ body_in role counts words.now }
{
    match role {
        Role::Head => 0,
        Role::First => words::word(words, counts.rule + words::GROUPS) + 1,
        Role::Further => words::word(words, counts.group) + 1,
    }
}

fn words_for(role: Role) -> usize
    ensures value { result ≡ words_for role }
    ensures upper_bound { result ≤ 3 }
{
    match role {
        Role::Head => words::BODY,
        Role::First => words::ONE_LITERAL,
        Role::Further => 1,
    }
}

// The fault of a literal at `place`, by what the buffers hold.
fn fault_of(
    words: &[u16],
    heads: &[u64],
    counts: Counts,
    atom: usize,
    code: usize,
    place: usize,
    l: SheetLiteral,
) -> Result<(), Refusal>
    requires atoms_le_most_atoms { counts.atoms ≤ most_atoms }
    requires words_le_most_words { counts.words ≤ most_words }
    requires rule_bound { body_at counts.rule ≤ most_words }
    ensures { result ≡ fault_by atom code counts words.now heads.now place l }
{
    let role = l.role;
    let names = names_with(atom, counts.atoms);
    let repeated = is_repeated(role, heads, code);
    let body = body_with(role, words, counts);
    let room = words_for(role);
    fault_with(names, repeated, body, counts.words + room, place, l.start)
}

fn put_head(words: &mut [u16], counts: Counts, code: usize)
    requires words_in_bounds { line_number_at counts.words < length words.old }
    requires line_bound { counts.line < 65535 }
    requires code_bound { code < 65536 }
    ensures { words.new ≡ put_words Role.Head (counts.line + 1) code counts words.old }
{
    let w = counts.words;
    words[w] = code as u16;
    words[w + words::LINE] = (counts.line + 1) as u16;
}

fn put_first(words: &mut [u16], counts: Counts, code: usize)
    requires words_in_bounds { literals_at counts.words < length words.old }
    requires rule_in_bounds { groups_at counts.rule < length words.old }
    requires rule_bound { groups_in words.old counts.rule < 65535 }
    requires code_bound { code < 65536 }
    ensures { words.new ≡ put_words Role.First (counts.line + 1) code counts words.old }
{
    let m = counts.rule + words::GROUPS;
    let w = counts.words;
    words[m] = words[m] + 1;
    words[w] = 1;
    words[w + words::LITERALS] = code as u16;
}

fn put_further(words: &mut [u16], counts: Counts, code: usize)
    requires words_in_bounds { counts.words < length words.old }
    requires group_in_bounds { counts.group < length words.old }
    requires group_bound { get_or words.old counts.group 0 < 65535 }
    requires code_bound { code < 65536 }
    ensures { words.new ≡ put_words Role.Further (counts.line + 1) code counts words.old }
{
    let k = counts.group;
    let w = counts.words;
    words[k] = words[k] + 1;
    words[w] = code as u16;
}

fn put_words(role: Role, words: &mut [u16], counts: Counts, code: usize)
    requires role_in_bounds { counts.words + words_for role ≤ length words.old }
    requires line_bound { counts.line < 65535 }
    requires rule_in_bounds { groups_at counts.rule < length words.old }
    requires group_in_bounds { counts.group < length words.old }
    requires words_bound { body_in role counts words.old ≤ most_in_body }
    requires code_bound { code < 65536 }
    ensures { words.new ≡ put_words role (counts.line + 1) code counts words.old }
{
    match role {
        Role::Head => put_head(words, counts, code),
        Role::First => put_first(words, counts, code),
        Role::Further => put_further(words, counts, code),
    }
}

fn put_name(names: &mut [u32], atom: usize, atoms: usize, start: usize, len: usize)
    requires atoms_in_bounds { names_with atom atoms ≤ length names.old }
    requires start_le_most_sheet_bytes { start ≤ most_sheet_bytes }
    requires len_le_most_name_bytes { len ≤ most_name_bytes }
    ensures { names.new ≡ put_name atom atoms (entry_for start len) names.old }
{
    if atom < atoms {} else {
        names[atoms] = (32 * start + len) as u32;
    }
}

fn note_head(role: Role, heads: &mut [u64], code: usize)
    ensures { heads.new ≡ put_head role code heads.old }
{
    match role {
        Role::Head => bits::put(heads, code),
        Role::First => {}
        Role::Further => {}
    }
}

fn count_on(role: Role, atom: usize, counts: Counts) -> Counts
    requires atoms_le_most_atoms { counts.atoms ≤ most_atoms }
    requires words_le_most_words { counts.words ≤ most_words }
    requires line_le_most_words { counts.line ≤ most_words }
    ensures { result ≡ counted role atom counts }
{
    let atoms = names_with(atom, counts.atoms);
    let words = counts.words;
    let line = counts.line;
    let rule = counts.rule;
    let group = counts.group;
    match role {
        Role::Head => Counts {
            atoms,
            words: words + words::BODY,
            line: line + 1,
            rule: words,
            group,
        },
        Role::First => Counts {
            atoms,
            words: words + words::ONE_LITERAL,
            line,
            rule,
            group: words,
        },
        Role::Further => Counts {
            atoms,
            words: words + 1,
            line,
            rule,
            group,
        },
    }
}

// Puts a literal of this number and code into the buffers.
fn put_literal(
    words: &mut [u16],
    names: &mut [u32],
    heads: &mut [u64],
    counts: Counts,
    atom: usize,
    code: usize,
    l: SheetLiteral,
) -> Counts
    requires room { Room counts words.old names.old }
    requires role_bound { counts.words + words_for l.role ≤ most_words }
    requires atoms_bound { names_with atom counts.atoms ≤ most_atoms }
    requires words_bound { body_in l.role counts words.old ≤ most_in_body }
    requires code_bound { code < 65536 }
    requires start_le_most_sheet_bytes { l.start ≤ most_sheet_bytes }
    requires len_le_most_name_bytes { l.len ≤ most_name_bytes }
    ensures { Put atom code l counts words.old names.old heads.old result words.new names.new heads.new }
{
    let role = l.role;
    put_words(role, words, counts, code);
    put_name(names, atom, counts.atoms, l.start, l.len);
    note_head(role, heads, code);
    count_on(role, atom, counts)
}

// Takes the literal at `place` into the buffers, unless it has a fault.
pub fn take_literal(
    sheet: &[u8],
    words: &mut [u16],
    names: &mut [u32],
    heads: &mut [u64],
    counts: Counts,
    place: usize,
    l: SheetLiteral,
) -> Result<Counts, Refusal>
    requires room { Room counts words.old names.old }
    requires start_le_most_sheet_bytes { l.start ≤ most_sheet_bytes }
    requires len_le_most_name_bytes { l.len ≤ most_name_bytes }
    ensures { Took sheet.now place l counts words.old names.old heads.old result words.new names.new heads.new }
{
    let atom = names::number(sheet, names, counts.atoms, l.start, l.len);
    let code = code_for(l.negated, atom);
    fault_of(words, heads, counts, atom, code, place, l)?;
    Ok(put_literal(words, names, heads, counts, atom, code, l))
}
