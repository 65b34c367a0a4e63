#![tactic(auto)]

ghost use Rattle.std.specs.Prelude.{◌≡◌, Bool, not, ◌<◌, T, length, get_or};
ghost use Rattle.limits.specs.Limits.{most_atoms, most_codes, most_words, most_in_body};
ghost use Rattle.bits.specs.Sets.{member, put_in};
ghost use Rattle.words.specs.Layout.{rules_of};
ghost use Rattle.paper.specs.Marking.{IsHeld, IsClean};
ghost use Rattle.index.specs.Index.{IndexOf};
ghost use Rattle.pending.specs.Pending.{CountsAre, Taken, with_one_more, with_whole, begun, Working, LookedAt, Closed, with_pair, WithMarked, CleanFor};

use index::{Index, IndexedTable};

// One more place of the group at `g` holds a taken literal; with the last of them its head is ready.
fn count_place(table: &[u16], index: &Index, ready: &mut [u64], counts: &mut [u8], g: usize)
    requires { (g < length table.now) × (g < most_words) × (length counts.old ≡ most_words) × (get_or counts.old g 0 < most_in_body) }
    ensures counts_after { counts.new ≡ with_one_more counts.old g }
    ensures ready_after { ready.new ≡ with_whole table.now index.now (with_one_more counts.old g) g ready.old }
{
    let n = counts[g] + 1;
    counts[g] = n;
    if n as usize == words::word_inside(table, g) {
        let head = index.owner(g);
        bits::put(ready, head);
    }
}

// Puts `l` into the set, and the head of each group that becomes whole by it into the row of what is ready.
pub fn take(
    table: &[u16],
    index: &Index,
    taken: &mut [u64],
    ready: &mut [u64],
    counts: &mut [u8],
    l: usize,
)
    requires { IndexOf table.now index.now × (length taken.old ≡ 16) × (length ready.old ≡ 16) × (l < most_codes) × T (not (member taken.old l)) × CountsAre table.now (member taken.old) counts.old }
    ensures taken_after { taken.new ≡ put_in taken.old l }
    ensures taken { Taken table.now (member taken.old) l ready.old ready.new counts.new }
{
    let mut c = index.last(l);
    // Each place says which one of the literal comes before it.
    while 0 < c {
        let g = index.owner(c);
        count_place(table, index, ready, counts, g);
        c = index.earlier(c);
    }
    bits::put(taken, l);
}

// The literals that were taken, those that are pending, and at the place of each group how many of its literals are taken.
#[derive(Drop)]
pub struct Taking {
    pub taken: [u64; 16],
    pub ready: [u64; 16],
    pub counts: [u8; 8192],
}

impl Taking {
    // Nothing is taken yet.
    pub fn begin(ready: [u64; 16]) -> Taking
        ensures { result ≡ begun ready }
    {
        Taking {
            taken: [0; 16],
            ready,
            counts: [0; 8192],
        }
    }

    // Takes `l`, unless it is taken already or shut out.
    fn look_at(&mut self, table: &[u16], index: &Index, shut: &[u64], l: usize)
        requires { IndexOf table.now index.now × (l < most_codes) × CountsAre table.now (member self.old.taken) self.old.counts }
        ensures { LookedAt table.now self.old shut.now l self.new }
    {
        if bits::has(&self.taken, l) || bits::has(shut, l) {
            return;
        }
        take(
            table,
            index,
            &mut self.taken,
            &mut self.ready,
            &mut self.counts,
            l,
        );
    }

    // Takes pending literals, the lowest each time, until there is none.
    pub fn close(&mut self, table: &[u16], index: &Index, shut: &[u64])
        requires { IndexOf table.now index.now × Working table.now self.old shut.now }
        ensures { Closed table.now self.old shut.now self.new }
    {
        while let Some(l) = bits::lowest(&self.ready) {
            bits::remove(&mut self.ready, l);
            self.look_at(table, index, shut, l);
        }
    }
}

// Puts both literals of atom `a` into the set.
pub fn put_both(set: &mut [u64], a: usize)
    requires { a < most_atoms }
    ensures { set.new ≡ with_pair set.old a Bool.true }
{
    bits::put(set, 2 * a);
    bits::put(set, 2 * a + 1);
}

fn put_pair(set: &mut [u64], marks: &[u64], a: usize)
    requires { a < most_atoms }
    ensures { set.new ≡ with_pair set.old a (member marks.now a) }
{
    if bits::has(marks, a) {
        put_both(set, a);
    }
}

// Puts both literals of each marked atom into the set.
fn put_marked(set: &mut [u64], marks: &[u64])
    requires { (length set.old ≡ 16) × (length marks.now ≡ 8) }
    ensures { WithMarked (member marks.now) set.old set.new }
{
    for a in 0..limits::MOST_ATOMS {
        put_pair(set, marks, a);
    }
}

// The held literals.
pub fn held(rules: &IndexedTable, marks: &[u64]) -> [u64; 16]
    requires { length marks.now ≡ 8 }
    ensures { IsHeld (rules_of rules.now) (member marks.now) (member result) }
{
    let mut ready = rules.facts();
    put_marked(&mut ready, marks);
    let mut held = Taking::begin(ready);
    held.close(rules.table, rules.index, &[0; 16]);
    held.taken
}

// The clean literals; the row has those that are shut out, both of each marked atom.
pub fn clean_without(rules: &IndexedTable, shut: &[u64]) -> [u64; 16]
    ensures { CleanFor rules.now shut.now result }
{
    let mut clean = Taking::begin(rules.facts());
    clean.close(rules.table, rules.index, shut);
    clean.taken
}

// The clean literals.
pub fn clean(rules: &IndexedTable, marks: &[u64]) -> [u64; 16]
    requires { length marks.now ≡ 8 }
    ensures { IsClean (rules_of rules.now) (member marks.now) (member result) }
{
    let mut shut = [0; 16];
    put_marked(&mut shut, marks);
    clean_without(rules, &shut)
}
