#![tactic(auto)]

ghost use Rattle.std.specs.Prelude.{◌≡◌, ◌≤◌, ◌<◌, T, length, ◌↔◌};
ghost use Rattle.limits.specs.Limits.{most_atoms};
ghost use Rattle.sets.specs.Some.{some_below};
ghost use Rattle.bits.specs.Sets.{member};
ghost use Rattle.words.specs.Layout.{rules_of};
ghost use Rattle.paper.specs.Rules.{HeadsBelow};
ghost use Rattle.paper.specs.Marking.{CanBeMarked};
ghost use Rattle.marking.specs.Markable.{held_not_clean, reason_to_mark, markable, GoesOn};

use index::IndexedTable;

fn held_not_clean(held: &[u64], clean: &[u64], l: usize) -> bool
    ensures { result ≡ held_not_clean (member held.now) (member clean.now) l }
{
    bits::has(held, l) && !bits::has(clean, l)
}

fn reason_to_mark(held: &[u64], clean: &[u64], a: usize) -> bool
    requires { a < most_atoms }
    ensures { result ≡ reason_to_mark (member held.now) (member clean.now) a }
{
    let both = bits::has(held, 2 * a) && bits::has(held, 2 * a + 1);
    both || held_not_clean(held, clean, 2 * a) || held_not_clean(held, clean, 2 * a + 1)
}

// Can atom `a` be marked, by the held and the clean literals?
pub fn is_markable(marks: &[u64], held: &[u64], clean: &[u64], a: usize) -> bool
    requires { a < most_atoms }
    ensures { result ≡ markable (member marks.now) (member held.now) (member clean.now) a }
{
    !bits::has(marks, a) && reason_to_mark(held, clean, a)
}

// Can one of the `n` atoms be marked?
fn some_markable(marks: &[u64], held: &[u64], clean: &[u64], n: usize) -> bool
    requires { n ≤ most_atoms }
    ensures { result ≡ some_below (markable (member marks.now) (member held.now) (member clean.now)) n }
{
    for a in (0..n).rev() {
        if is_markable(marks, held, clean, a) {
            return true;
        }
    }
    false
}

// Can atom `a` be marked, by the rules of the table?
pub fn can_be_marked(rules: &IndexedTable, marks: &[u64], a: usize) -> bool
    requires { (a < most_atoms) × (length marks.now ≡ 8) }
    ensures { T result ↔ CanBeMarked (rules_of rules.now) (member marks.now) a }
{
    let held = pending::held(rules, marks);
    let clean = pending::clean(rules, marks);
    is_markable(marks, &held, &clean, a)
}

// Can any atom be marked, by the rules of the table?
pub fn can_go_on(rules: &IndexedTable, marks: &[u64], n: usize) -> bool
    requires { (n ≤ most_atoms) × (length marks.now ≡ 8) × HeadsBelow n (rules_of rules.now) }
    ensures { GoesOn (rules_of rules.now) (member marks.now) result }
{
    let held = pending::held(rules, marks);
    let clean = pending::clean(rules, marks);
    some_markable(marks, &held, &clean, n)
}
