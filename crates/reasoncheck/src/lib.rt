#![tactic(auto)]

ghost use Rattle.std.specs.Prelude.{◌&&◌, ◌≡◌, ◌+◌, ◌*◌, ◌≤◌, ◌<◌, leb, length, get_or, take, replicate};
ghost use Rattle.limits.specs.Limits.{most_rank};
ghost use Rattle.bits.specs.Sets.{member};
ghost use Rattle.justified.specs.ByLiteral.{no_line, rank_in};
ghost use Rattle.words.specs.Check.{AcceptedTable};
ghost use Rattle.words.specs.Layout.{rules_of};
ghost use Rattle.valued.specs.InStructs.{model_of};
ghost use Rattle.reasoncheck.specs.ReasonCheck.{codes_fault, check_fault, CheckAllows};
ghost use Rattle.reasoncheck.specs.Matching.{line_numbered, MatchedOne, MatchesAny, LinesAllow, JudgesAny};

use justified::Line;
use refusal::{Reason, Refusal};
use valued::Values;

// Does the literal want a line: is it in the interpretation that the values give?
fn wants_line(values: &Values, l: usize) -> bool
    requires { l < 2 * values.now.n }
    ensures { result ≡ model_of values.now l }
{
    2 <= values.literal_code(l)
}

// The lines of a text, four numbers for each, its literal first: `reasontext::read_numbers` promises a row of numbers (`room_after`).
#[derive(Clone, Copy)]
struct TextLines<'a> {
    numbers: &'a [u16; 4096],
    count: usize,
}

impl TextLines<'_> {
    // The literal of line `k`.
    fn literal(&self, k: usize) -> usize
        requires { k < 1024 }
        ensures { result ≡ get_or self.now.numbers.now (4 * k) 0 }
    {
        self.numbers[4 * k] as usize
    }

    // What line `k` says of it.
    fn line(&self, k: usize) -> Line
        requires { k < 1024 }
        ensures { result ≡ line_numbered self.now.numbers.now k }
    {
        Line {
            rank: self.numbers[4 * k + 1],
            head: self.numbers[4 * k + 2],
            group: self.numbers[4 * k + 3],
        }
    }
}

// Which line comes after those of the literal, if it wants none or line `k` is its own, which then stands by literal.
fn match_literal(
    values: &Values,
    text: &TextLines,
    lines: &mut [Line],
    l: usize,
    k: usize,
) -> Option<usize>
    requires { (l < 2 * values.now.n) × (k < 1024) × (l < length lines.old) }
    ensures { MatchedOne (model_of values.now) text.now.numbers.now text.now.count lines.old l k result lines.new }
{
    if !wants_line(values, l) {
        return Some(k);
    }
    if text.count <= k || text.literal(k) != l {
        return None;
    }
    lines[l] = text.line(k);
    Some(k + 1)
}

// Matches the lines with the literals that want one, in code order; the lines then stand by literal.
fn match_lines(values: &Values, text: &TextLines, lines: &mut [Line]) -> Result<(), Refusal>
    requires { (values.now.n ≤ 512) × (lines.old ≡ replicate 1024 no_line) }
    ensures { MatchesAny (model_of values.now) (2 * values.now.n) text.now.numbers.now text.now.count result lines.new }
{
    let mut k: usize = 0;
    for l in 0..2 * values.n {
        match match_literal(values, text, lines, l, k) {
            Some(next) => k = next,
            None => return Reason::LineNotJustified.refused(k + 1),
        }
    }
    if k < text.count {
        return Reason::LineNotJustified.refused(k + 1);
    }
    Ok(())
}

// Is the line of the literal justified, and its rank small enough?
fn line_holds(lines: &[Line], ok: &[u64], l: usize) -> bool
    ensures { result ≡ (leb (rank_in lines.now l) most_rank && member ok.now l) }
{
    justified::line_of(lines, l).rank as usize <= limits::MOST_RANK && bits::has(ok, l)
}

// The first line that does not hold.
fn line_fault(values: &Values, lines: &[Line], ok: &[u64]) -> Result<(), Refusal>
    requires { values.now.n ≤ 512 }
    ensures { LinesAllow (model_of values.now) (λ l. leb (rank_in lines.now l) most_rank && member ok.now l) (2 * values.now.n) result }
{
    let mut k: usize = 0;
    for l in 0..2 * values.n {
        if wants_line(values, l) {
            if !line_holds(lines, ok, l) {
                return Reason::LineNotJustified.refused(k + 1);
            }
            k += 1;
        }
    }
    Ok(())
}

// The first of `n` value codes that is above 3.
fn codes_fault(values: &[u8], n: usize) -> Result<(), Refusal>
    requires { n ≤ length values.now }
    ensures { result ≡ codes_fault 0 (take n values.now) }
{
    for a in 0..n {
        if 3 < values[a] {
            return Reason::NotATruthCode.refused(a);
        }
    }
    Ok(())
}

fn check_fault(n: u64, table: &[u16], values: &[u8]) -> Result<(), Refusal>
    ensures { result ≡ check_fault n table.now values.now }
{
    evaluation::evaluation_fault(n, table, values.len() as u64)?;
    codes_fault(values, n as usize)
}

// Judges the lines of a text.
fn judge_lines(table: &[u16], values: &Values, text: &TextLines) -> Result<(), Refusal>
    requires { AcceptedTable values.now.n table.now }
    ensures { JudgesAny (rules_of table.now) (model_of values.now) (2 * values.now.n) text.now.numbers.now text.now.count result }
{
    let mut lines = [justified::NO_LINE; 1024];
    match_lines(values, text, &mut lines)?;
    let ok = grounds::justified_lines(table, values, &lines);
    line_fault(values, &lines, &ok)
}

// Judges a text against values that are N codes.
fn judge_text(n: usize, table: &[u16], codes: &[u8], text: &[u8]) -> Result<(), Refusal>
    requires { check_fault n table.now codes.now ≡ Ok tt }
    ensures { CheckAllows n table.now codes.now text.now result }
{
    let values = Values { n, codes };
    let mut numbers = [0u16; 4096];
    let read = reasontext::read_numbers(text, &mut numbers);
    let fault = read.fault;
    fault?;
    valued::model_fault(table, &values)?;
    let lines = TextLines {
        numbers: &numbers,
        count: read.count / 4,
    };
    judge_lines(table, &values, &lines)
}

// Is a text a reason sheet for these values: a model, every literal of which has a justified line?
pub fn check_reasons(n: u64, table: &[u16], values: &[u8], text: &[u8]) -> Result<(), Refusal>
    ensures { CheckAllows n table.now values.now text.now result }
{
    check_fault(n, table, values)?;
    judge_text(n as usize, table, values, text)
}
