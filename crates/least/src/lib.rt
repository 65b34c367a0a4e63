#![tactic(auto)]

ghost use Rattle.std.specs.Prelude.{◌≡◌, ◌+◌, ◌≤◌, length, drop};
ghost use Rattle.std.specs.List.{list_all};
ghost use Rattle.bits.specs.Sets.{member};
ghost use Rattle.least.specs.Groups.{WhichAllows};
ghost use Rattle.least.specs.Walk.{GroupsSkipped, which_from};
ghost use Rattle.words.specs.Layout.{body_at, take_groups};
ghost use Rattle.words.specs.RecordAt.{groups_in, body_from, rule_at, WholeGroups};

// Which group of a body is wholly in a set, and where the next record begins. The group is the lowest, counted from 1; 0 is a fact.
#[derive(Clone, Copy)]
pub struct Body {
    pub which: Option<usize>,
    pub next: usize,
}

// Are all literals of a group in the set?
fn group_in(group: &[u16], set: &[u64]) -> bool
    ensures { result ≡ list_all (member set.now) group.now }
{
    group.iter().all(|l| bits::has(set, usize::from(*l)))
}

// Where the `m` groups from `first` on end.
pub fn skip_groups(table: &[u16], first: usize, m: usize) -> usize
    requires { (first ≤ length table.now) × WholeGroups m (drop first table.now) }
    ensures { GroupsSkipped table.now first m result }
{
    let mut at = first;
    for _ in 0..m {
        at += words::LITERALS + words::word_inside(table, at);
    }
    at
}

// The lowest of the `m` groups from `first` on that is wholly in the set, and where they end; no group after it is looked at.
fn lowest_group(table: &[u16], set: &[u64], first: usize, m: usize) -> Body
    requires { (first ≤ length table.now) × WholeGroups m (drop first table.now) }
    ensures which_value { result.which ≡ which_from (member set.now) 1 (take_groups m (drop first table.now)) }
    ensures groups_skipped { GroupsSkipped table.now first m result.next }
{
    let mut at = first;
    for g in 0..m {
        let k = words::word_inside(table, at);
        let literals = at + words::LITERALS;
        at = literals + k;
        if group_in(&table[literals..at], set) {
            return Body {
                which: Some(g + 1),
                next: skip_groups(table, at, m - (g + 1)),
            };
        }
    }
    Body {
        which: None,
        next: at,
    }
}

// Which group of the record at `at` is wholly in the set, and where does the next record begin?
pub fn which_group(table: &[u16], set: &[u64], at: usize) -> Body
    requires { (body_at at ≤ length table.now) × WholeGroups (groups_in table.now at) (body_from table.now at) }
    ensures which_allows { WhichAllows (member set.now) (rule_at table.now at).groups result.which }
    ensures groups_skipped { GroupsSkipped table.now (body_at at) (groups_in table.now at) result.next }
{
    let m = words::word_inside(table, at + words::GROUPS);
    let first = at + words::BODY;
    if m == 0 {
        return Body {
            which: Some(0),
            next: first,
        };
    }
    lowest_group(table, set, first, m)
}

// Where the record after the one at `at` begins.
pub fn skip_record(table: &[u16], at: usize) -> usize
    requires { (body_at at ≤ length table.now) × WholeGroups (groups_in table.now at) (body_from table.now at) }
    ensures { GroupsSkipped table.now (body_at at) (groups_in table.now at) result }
{
    let groups = words::word_inside(table, at + words::GROUPS);
    skip_groups(table, at + words::BODY, groups)
}
