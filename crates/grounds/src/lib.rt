#![tactic(auto)]

ghost use Rattle.std.specs.Prelude.{◌&&◌, ◌≡◌, ◌*◌, ◌≤◌, ◌<◌, eqb};
ghost use Rattle.std.specs.List.{list_all};
ghost use Rattle.paper.specs.Fires.{no_groups};
ghost use Rattle.bits.specs.Sets.{member};
ghost use Rattle.words.specs.Check.{AcceptedTable};
ghost use Rattle.words.specs.Layout.{body_at, rules_of};
ghost use Rattle.words.specs.RecordAt.{groups_in};
ghost use Rattle.least.specs.Walk.{GroupsSkipped};
ghost use Rattle.valued.specs.InStructs.{model_of, rule_of};
ghost use Rattle.justified.specs.ByLiteral.{rank_in, group_in};
ghost use Rattle.grounds.specs.Grounds.{below, carried, both_inconsistent, by_carried, grounds, judged, with_judged, judged_both, JustifiedLines};

use justified::Line;
use valued::{Record, ValuedRecord, Values};

// Has a literal a smaller rank than `rank`?
fn is_below(lines: &[Line], rank: u16, l: usize) -> bool
    ensures { result ≡ below lines.now rank l }
{
    justified::line_of(lines, l).rank < rank
}

// Have all literals of a group a smaller rank than `rank`?
fn group_below(lines: &[Line], rank: u16, group: &[u16]) -> bool
    ensures { result ≡ list_all (λ l. below lines.now rank l) group.now }
{
    group.iter().all(|l| is_below(lines, rank, *l as usize))
}

// The code of the value of group `g` of the record, if all its literals have a smaller rank; 0 otherwise.
fn carried_code(rule: &ValuedRecord, lines: &[Line], rank: u16, g: usize) -> usize
    requires { 1 ≤ g }
    ensures { result ≡ carried (model_of rule.now.values) (below lines.now rank) (rule_of rule.now.record).groups g }
{
    if rule.record.group_count() < g {
        return 0;
    }
    let place = least::skip_groups(rule.record.table, rule.record.body(), g - 1);
    let group = valued::group_at(rule.record.table, place);
    if group_below(lines, rank, group) {
        rule.values.group_code(group)
    } else {
        0
    }
}

// Is the record a fact for the literal?
fn fact_of(rule: &ValuedRecord, l: usize) -> bool
    ensures { result ≡ (no_groups (rule_of rule.now.record).groups && eqb l (rule_of rule.now.record).head) }
{
    rule.record.group_count() == 0 && l == rule.record.head()
}

// Are the literal and the whole body of the record inconsistent?
fn both_inconsistent(rule: &ValuedRecord, l: usize) -> bool
    requires { l < 2 * rule.now.values.n }
    ensures { result ≡ both_inconsistent (model_of rule.now.values) (rule_of rule.now.record) l }
{
    rule.values.literal_code(l) == 2 && rule.body_code().code == 2
}

// Does a group that carries this code justify the line of the literal?
fn by_carried(rule: &ValuedRecord, l: usize, c: usize) -> bool
    requires { l < 2 * rule.now.values.n }
    ensures { result ≡ by_carried (model_of rule.now.values) (rule_of rule.now.record) l c }
{
    match c {
        3 => l == rule.record.head(),
        2 => both_inconsistent(rule, l),
        _ => false,
    }
}

// Does the group that the line of the literal names justify it, in the record?
fn ground_holds(rule: &ValuedRecord, lines: &[Line], l: usize) -> bool
    requires { l < 2 * rule.now.values.n }
    ensures { result ≡ grounds (model_of rule.now.values) (below lines.now (rank_in lines.now (rule_of rule.now.record).head)) (rule_of rule.now.record) l (group_in lines.now l) }
{
    let g = justified::line_of(lines, l).group as usize;
    if g == 0 {
        return fact_of(rule, l);
    }
    let head = rule.record.head();
    let rank = justified::line_of(lines, head).rank;
    by_carried(rule, l, carried_code(rule, lines, rank, g))
}

// Puts the literal into the set if its line names the record and is justified by it.
fn judge_literal(rule: &ValuedRecord, lines: &[Line], ok: &mut [u64], l: usize)
    requires { l < 2 * rule.now.values.n }
    ensures { ok.new ≡ with_judged ok.old l (judged (model_of rule.now.values) lines.now (rule_of rule.now.record) l) }
{
    if justified::line_of(lines, l).head as usize == rule.record.head() {
        if ground_holds(rule, lines, l) {
            bits::put(ok, l);
        }
    }
}

// Judges the lines that the record can justify; says where the next begins.
fn judge_record(rule: &ValuedRecord, lines: &[Line], ok: &mut [u64]) -> usize
    requires { (rule_of rule.now.record).head < 2 * rule.now.values.n }
    ensures groups_skipped { GroupsSkipped rule.now.record.table.now (body_at rule.now.record.at) (groups_in rule.now.record.table.now rule.now.record.at) result }
    ensures ok_after { ok.new ≡ judged_both (model_of rule.now.values) lines.now (rule_of rule.now.record) ok.old }
{
    let head = rule.record.head();
    judge_literal(rule, lines, ok, head);
    judge_literal(rule, lines, ok, justified::negated(head));
    least::skip_record(rule.record.table, rule.record.at)
}

// The literals whose lines the table justifies.
pub fn justified_lines(table: &[u16], values: &Values, lines: &[Line]) -> [u64; 16]
    requires { AcceptedTable values.now.n table.now }
    ensures { JustifiedLines (rules_of table.now) (model_of values.now) lines.now (member result) }
{
    let mut ok = [0u64; 16];
    let mut at: usize = 0;
    // Each record says where the next one begins.
    while at < table.len() {
        let record = Record { table, at };
        let rule = ValuedRecord {
            values: *values,
            record,
        };
        at = judge_record(&rule, lines, &mut ok);
    }
    ok
}
