#![tactic(auto)]

ghost use Rattle.std.specs.Prelude.{◌≡◌, ◌+◌, ◌*◌, ◌≤◌, ◌<◌, length, get_or, take, drop};
ghost use Rattle.paper.specs.Table1.{code};
ghost use Rattle.paper.specs.Definitions.{value, group_value, any_value, body_value};
ghost use Rattle.words.specs.Check.{AcceptedTable};
ghost use Rattle.words.specs.Layout.{body_at, literals_at, take_groups};
ghost use Rattle.words.specs.RecordAt.{groups_in, body_from, rule_at, WholeGroups};
ghost use Rattle.least.specs.Walk.{GroupsSkipped};
ghost use Rattle.values.specs.Given.{given};
ghost use Rattle.valued.specs.Valued.{Codes, negated_code, LiteralsBelow, GroupsBelow, whole_groups_one_proof, follows_code, FollowedBy};
ghost use Rattle.valued.specs.Model.{ModelAllows};

use refusal::{Reason, Refusal};

// The values of `n` atoms, by their codes.
#[derive(Clone, Copy)]
pub struct Values<'a> {
    pub n: usize,
    pub codes: &'a [u8],
    ghost readable: { Codes n codes.now },
}

fn negated_code(v: usize) -> usize
    ensures { result ≡ negated_code v }
{
    match v {
        0 => 3,
        3 => 0,
        _ => v,
    }
}

impl Values<'_> {
    ghost use Rattle.valued.specs.InStructs.{model_of};

    // The code of a literal's value.
    pub fn literal_code(&self, l: usize) -> usize
        requires { l < 2 * self.now.n }
        ensures { result ≡ code (value (model_of self.now) l) }
    {
        let v = self.codes[l / 2] as usize;
        if l % 2 == 0 { v } else { negated_code(v) }
    }

    // The code of the value of a group: its smallest.
    pub fn group_code(&self, group: &[u16]) -> usize
        requires { LiteralsBelow self.now.n group.now }
        ensures { result ≡ code (group_value (model_of self.now) group.now) }
    {
        let mut low: usize = 3;
        for l in group {
            low = low.min(self.literal_code(*l as usize));
        }
        low
    }
}

// The literals of the group whose length stands at `at`.
pub fn group_at(table: &[u16], at: usize) -> &[u16]
    requires { (at < length table.now) × (literals_at at + get_or table.now at 0 ≤ length table.now) }
    ensures { result.now ≡ take (get_or table.now at 0) (drop (literals_at at) table.now) }
{
    let first = at + words::LITERALS;
    &table[first..first + words::word_inside(table, at)]
}

// A whole record of a table.
#[derive(Clone, Copy)]
pub struct Record<'a> {
    pub table: &'a [u16],
    pub at: usize,
    ghost inside: { body_at at ≤ length table.now },
    ghost whole: { WholeGroups (groups_in table.now at) (body_from table.now at) } by { whole_groups_one_proof (groups_in table.now at) (body_from table.now at) },
}

impl Record<'_> {
    ghost use Rattle.valued.specs.InStructs.{rule_of};

    // The head of its rule.
    pub fn head(&self) -> usize
        ensures value { result ≡ (rule_of self.now).head }
        ensures upper_bound { result < 65536 }
    {
        words::word_inside(self.table, self.at)
    }

    // How many groups the body has.
    pub fn group_count(&self) -> usize
        ensures { result ≡ groups_in self.now.table.now self.now.at }
    {
        words::word_inside(self.table, self.at + words::GROUPS)
    }

    // Where the body begins.
    pub fn body(&self) -> usize
        ensures { result ≡ body_at self.now.at }
    {
        self.at + words::BODY
    }
}

// A record, and values for the literals of its body.
#[derive(Clone, Copy)]
pub struct ValuedRecord<'v, 't> {
    pub values: Values<'v>,
    pub record: Record<'t>,
    ghost below: { GroupsBelow values.n (rule_at record.table.now record.at).groups },
}

// The code of a body's value, and where the next record begins.
#[derive(Clone, Copy)]
pub struct BodyCode {
    pub code: usize,
    pub next: usize,
}

impl ValuedRecord<'_, '_> {
    ghost use Rattle.valued.specs.InStructs.{model_of, rule_of};

    // The OR of the `m` groups from `first` on.
    fn groups_code(&self, first: usize, m: usize) -> BodyCode
        requires { (first ≤ length self.now.record.table.now) × WholeGroups m (drop first self.now.record.table.now) × GroupsBelow self.now.values.n (take_groups m (drop first self.now.record.table.now)) }
        ensures code_value { result.code ≡ code (any_value (model_of self.now.values) (take_groups m (drop first self.now.record.table.now))) }
        ensures groups_skipped { GroupsSkipped self.now.record.table.now first m result.next }
    {
        let mut high: usize = 0;
        let mut at = first;
        for _i in 0..m {
            let group = group_at(self.record.table, at);
            high = high.max(self.values.group_code(group));
            at = at + words::LITERALS + group.len();
        }
        BodyCode {
            code: high,
            next: at,
        }
    }

    // The value of the body.
    pub fn body_code(&self) -> BodyCode
        ensures code_value { result.code ≡ code (body_value (model_of self.now.values) (rule_of self.now.record).groups) }
        ensures groups_skipped { GroupsSkipped self.now.record.table.now (body_at self.now.record.at) (groups_in self.now.record.table.now self.now.record.at) result.next }
    {
        let m = self.record.group_count();
        let first = self.record.body();
        if m == 0 {
            return BodyCode {
                code: 3,
                next: first,
            };
        }
        self.groups_code(first, m)
    }

    // Where the next record begins, if the rule is satisfied.
    fn next_if_satisfied(&self) -> Option<usize>
        requires { (rule_of self.now.record).head < 2 * self.now.values.n }
        ensures { FollowedBy (model_of self.now.values) self.now.record.table.now self.now.record.at result }
    {
        let head = self.values.literal_code(self.record.head());
        let body = self.body_code();
        if follows(body.code, head) {
            Some(body.next)
        } else {
            None
        }
    }
}

// Does the head follow from the body?
fn follows(body: usize, head: usize) -> bool
    ensures { result ≡ follows_code body head }
{
    match body {
        0 | 1 => true,
        2 => head == 2,
        _ => 2 <= head,
    }
}

// Are the values a model of the table's rules?
pub fn model_fault(table: &[u16], values: &Values) -> Result<(), Refusal>
    requires { AcceptedTable values.now.n table.now }
    ensures { ModelAllows (given values.now.n values.now.codes.now) table.now result }
{
    let mut at: usize = 0;
    // Each record says where the next one begins.
    while at < table.len() {
        let record = Record { table, at };
        let rule = ValuedRecord {
            values: *values,
            record,
        };
        match rule.next_if_satisfied() {
            Some(next) => at = next,
            None => return Reason::NotAModel.refused(at),
        }
    }
    Ok(())
}
