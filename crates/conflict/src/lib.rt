#![tactic(auto)]

ghost use Rattle.std.specs.Prelude.{◌≡◌, ◌≤◌, ◌<◌};
ghost use Rattle.limits.specs.Limits.{most_atoms};
ghost use Rattle.sets.specs.Some.{some_below};
ghost use Rattle.bits.specs.Sets.{member};
ghost use Rattle.words.specs.Layout.{rules_of};
ghost use Rattle.paper.specs.Rules.{HeadsBelow};
ghost use Rattle.index.specs.Placed.{Table};
ghost use Rattle.conflict.specs.Both.{both_in, InConflict};
ghost use Rattle.conflict.specs.Conflict.{ConflictAllows};

use index::{Index, IndexedTable};
use refusal::Refusal;

fn both_in(set: &[u64], a: usize) -> bool
    requires { a < most_atoms }
    ensures { result ≡ both_in (member set.now) a }
{
    bits::has(set, 2 * a) && bits::has(set, 2 * a + 1)
}

// Has one of the `n` atoms both its literals in the set?
fn some_both_in(set: &[u64], n: usize) -> bool
    requires { n ≤ most_atoms }
    ensures { result ≡ some_below (both_in (member set.now)) n }
{
    for a in (0..n).rev() {
        if both_in(set, a) {
            return true;
        }
    }
    false
}

// One Held, without a mark, and a look at each atom.
fn held_both(table: &[u16], n: usize) -> bool
    requires { (n ≤ most_atoms) × Table table.now × HeadsBelow n (rules_of table.now) }
    ensures { InConflict (rules_of table.now) result }
{
    let marks = [0u64; 8];
    let mut room = Index::empty();
    let rules = IndexedTable::build(table, &mut room);
    let held = pending::held(&rules, &marks);
    some_both_in(&held, n)
}

// Is some atom inconsistent?
pub fn in_conflict(n: u64, table: &[u16]) -> Result<bool, Refusal>
    ensures { ConflictAllows n table.now result }
{
    words::check(n, table)?;
    if held_both(table, n as usize) {
        return Ok(true);
    }
    Ok(false)
}
