#![tactic(auto)]

ghost use Rattle.std.specs.Prelude.{◌≡◌, ◌++◌, Bool, ◌+◌, ◌*◌, ◌/◌, ◌≤◌, ◌<◌, length, drop};
ghost use Rattle.limits.specs.Limits.{most_words};
ghost use Rattle.host.specs.Bytes.{words_in, then_lone_byte};
ghost use Rattle.host.specs.WholeWords.{word_at, WordsEvaluation, too_long_answer, Packable, CheckPackable, DecidedPackable};
ghost use Rattle.host.specs.Evaluation.{HostEvaluation, packed};
ghost use Rattle.host.specs.Conflict.{HostConflict, packed_decided};

use refusal::{Reason, Refusal};

// A word of two bytes, low byte first.
fn word_of(bytes: &[u8], i: usize) -> u16
    requires { 2 * i + 1 < length bytes.now }
    ensures { result ≡ word_at bytes.now i }
{
    u16::from_le_bytes([bytes[2 * i], bytes[2 * i + 1]])
}

// The whole words of the bytes; the rest of the buffer is untouched.
pub fn fill_words(bytes: &[u8], words: &mut [u16])
    requires { length bytes.now / 2 ≤ length words.old }
    ensures { words.new ≡ (words_in bytes.now ++ drop (length bytes.now / 2) words.old) }
{
    for i in 0..bytes.len() / 2 {
        words[i] = word_of(bytes, i);
    }
}

// 2^32 times the number, plus the place.
pub fn pack(r: Refusal) -> u64
    requires { Packable r }
    ensures { result ≡ packed r }
{
    4294967296 * r.number + r.place
}

// What a lone byte after so many words is answered: their own fault comes first.
pub fn cut_short(fault: Result<(), Refusal>, words: usize) -> Refusal
    requires { (words ≤ most_words) × CheckPackable fault }
    ensures { (then_lone_byte fault words Bool.true ≡ Err result) × Packable result }
{
    if let Err(r) = fault {
        return r;
    }
    Reason::CutShort.at(words)
}

// Whole words, and no byte after them.
fn evaluate_words(n: u64, words: &[u16], values: &mut [u8]) -> u64
    ensures { WordsEvaluation n words.now values.old result values.new }
{
    match evaluation::evaluate(n, words, values) {
        Ok(()) => 0,
        Err(r) => pack(r),
    }
}

// Too many words: 1 before 2.
pub fn too_long(n: u64) -> u64
    ensures { result ≡ too_long_answer n }
{
    if limits::MOST_N < n {
        return pack(Reason::TooManyAtoms.at(0));
    }
    pack(Reason::TableTooLong.at(0))
}

// Evaluation over bytes: the answer is 0, or the refusal packed.
pub fn evaluate_bytes(n: u64, table: &[u8], values: &mut [u8]) -> u64
    ensures { HostEvaluation n table.now values.old result values.new }
{
    let m = table.len() / 2;
    if limits::MOST_WORDS < m {
        return too_long(n);
    }
    let mut words = [0u16; limits::MOST_WORDS];
    fill_words(table, &mut words);
    if table.len() % 2 == 1 {
        return pack(cut_short(
            evaluation::evaluation_fault(n, &words[..m], values.len() as u64),
            m,
        ));
    }
    evaluate_words(n, &words[..m], values)
}

fn pack_decided(answer: Result<bool, Refusal>) -> u64
    requires { DecidedPackable answer }
    ensures { result ≡ packed_decided answer }
{
    match answer {
        Ok(false) => 0,
        Ok(true) => 1,
        Err(r) => pack(r),
    }
}

// The question of conflict over bytes: 0 is no, 1 is yes, or the refusal packed.
pub fn conflict_bytes(n: u64, table: &[u8]) -> u64
    ensures { HostConflict n table.now result }
{
    let m = table.len() / 2;
    if limits::MOST_WORDS < m {
        return too_long(n);
    }
    let mut words = [0u16; limits::MOST_WORDS];
    fill_words(table, &mut words);
    if table.len() % 2 == 1 {
        return pack(cut_short(words::check(n, &words[..m]), m));
    }
    pack_decided(conflict::in_conflict(n, &words[..m]))
}
