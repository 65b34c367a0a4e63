// A reason sheet's lines, found by passes over the rules. A line rests on literals that had lines before it, so each gets the next rank.
// First come the heads with unmarked atoms: all of them are t, and so is the group that a line names (conditions 6 and 7).
// Then come the marked heads. A group of literals found so far, all t, gives the head a line as before. If there is none, no group of the rule
// is t, and the body is i as soon as all literals of one group have lines: then the rule carries its head, and the head's negation (condition 8).
#![tactic(auto)]

ghost use Rattle.std.specs.Prelude.{◌≡◌, ◌<◌};
ghost use Rattle.limits.specs.Limits.{most_codes};
ghost use Rattle.bits.specs.Sets.{member};
ghost use Rattle.valued.specs.InStructs.{rule_of};
ghost use Rattle.ranks.specs.Found.{Fit, Addable, CanAdd, with_line, with_negation, line_by, by_clean, not_its_turn, adds_at, adding};
ghost use Rattle.ranks.specs.KnownClean.{marked_in, clean_in};
ghost use Rattle.ranks.specs.Counted.{Counting, Counted};

use index::Index;
use justified::Line;
use valued::Record;

// The lines found so far: the literals that have one, the lines by literal, and how many they are: the next rank.
#[derive(Clone, Copy)]
pub struct Found {
    pub ranked: [u64; 16],
    pub lines: [Line; 1024],
    pub next_rank: usize,
}

// What a record adds: nothing; a line for its head by the group of this number; or one for the head's negation besides.
#[derive(Clone, Copy)]
pub enum Adds {
    Nothing,
    OneLine(usize),
    TwoLines(usize),
}

// A line, if a group of the record is wholly in the row.
fn line_by(rule: &Record, row: &[u64]) -> Adds
    ensures { result ≡ line_by row.now (rule_of rule.now).groups }
{
    let body = least::which_group(rule.table, row, rule.at);
    let which = body.which;
    match which {
        Some(group) => Adds::OneLine(group),
        None => Adds::Nothing,
    }
}

// A marked head has a line by a group of clean literals, or else a pair by one of literals that have lines.
fn by_clean(rule: &Record, ranked: &[u64], clean: &[u64]) -> Adds
    ensures { result ≡ by_clean clean.now ranked.now (rule_of rule.now).groups }
{
    match line_by(rule, clean) {
        Adds::Nothing => match line_by(rule, ranked) {
            Adds::OneLine(group) => Adds::TwoLines(group),
            other => other,
        },
        line => line,
    }
}

// A head that has a line, or whose atom is marked where unmarked ones are looked for, or the other way round.
fn not_its_turn(ranked: &[u64], marks: &[u64], marked: bool, head: usize) -> bool
    ensures { result ≡ not_its_turn marked (member marks.now) ranked.now head }
{
    bits::has(ranked, head) || bits::has(marks, head / 2) != marked
}

// What a record adds where unmarked heads are looked for, or marked ones with these clean literals.
pub fn choose(rule: &Record, ranked: &[u64], marks: &[u64], marked: bool, clean: &[u64]) -> Adds
    ensures { result ≡ adds_at marked clean.now (member marks.now) ranked.now (rule_of rule.now) }
{
    if not_its_turn(ranked, marks, marked, rule.head()) {
        return Adds::Nothing;
    }
    if marked {
        by_clean(rule, ranked, clean)
    } else {
        line_by(rule, ranked)
    }
}

// Which heads are looked for: those with unmarked atoms; then, with the clean literals that were found, the marked ones.
#[derive(Clone, Copy)]
pub struct Heads<'a> {
    pub marks: &'a [u64],
    pub clean: Option<[u64; 16]>,
}

impl Heads<'_> {
    // What a record adds.
    pub fn choose(&self, rule: &Record, ranked: &[u64]) -> Adds
        ensures { result ≡ adds_at (marked_in self.now.clean) (clean_in self.now.clean) (member self.now.marks.now) ranked.now (rule_of rule.now) }
    {
        match &self.clean {
            Some(clean) => choose(rule, ranked, self.marks, true, clean),
            None => choose(rule, ranked, self.marks, false, &[0; 16]),
        }
    }
}

// A table and its index.
#[derive(Clone, Copy)]
pub struct IndexedTable<'a> {
    pub words: &'a [u16],
    pub index: &'a Index,
}

// A search for lines: those found, how many literals of each group have one, and the heads of the groups that became whole.
#[derive(Clone, Copy)]
pub struct Search {
    pub found: Found,
    pub counts: [u8; 8192],
    pub woken: [u64; 16],
}

impl Search {
    // A line for `l` by this group of the rule with this head.
    fn add_line(&mut self, table: &IndexedTable, l: usize, head: usize, group: usize)
        requires { Addable self.old.found l head group × Counting table.now.words.now table.now.index.now self.old.found.ranked self.old.woken self.old.counts }
        ensures found_after { self.new.found ≡ with_line self.old.found l head group }
        ensures counted { Counted table.now.words.now self.old.found.ranked self.new.found.ranked self.old.woken self.new.woken self.new.counts }
    {
        pending::take(
            table.words,
            table.index,
            &mut self.found.ranked,
            &mut self.woken,
            &mut self.counts,
            l,
        );
        self.found.lines[l] = Line {
            rank: self.found.next_rank as u16,
            head: head as u16,
            group: group as u16,
        };
        self.found.next_rank += 1;
    }

    // A line for the head's negation by the head's rule, unless it has one.
    fn add_negation(&mut self, table: &IndexedTable, head: usize, group: usize)
        requires { Fit self.old.found × (head < most_codes) × (group < 65536) × Counting table.now.words.now table.now.index.now self.old.found.ranked self.old.woken self.old.counts }
        ensures found_after { self.new.found ≡ with_negation self.old.found head group }
        ensures counted { Counted table.now.words.now self.old.found.ranked self.new.found.ranked self.old.woken self.new.woken self.new.counts }
    {
        let l = justified::negated(head);
        if !bits::has(&self.found.ranked, l) {
            self.add_line(table, l, head, group);
        }
    }

    // Adds what the rule with this head adds.
    #[tactic(auto, unfolding(crate::specs::Found::adding))]
    pub fn add(&mut self, table: &IndexedTable, head: usize, adds: Adds)
        requires { CanAdd self.old.found head adds × Counting table.now.words.now table.now.index.now self.old.found.ranked self.old.woken self.old.counts }
        ensures found_after { self.new.found ≡ adding self.old.found head adds }
        ensures counted { Counted table.now.words.now self.old.found.ranked self.new.found.ranked self.old.woken self.new.woken self.new.counts }
    {
        match adds {
            Adds::Nothing => {}
            Adds::OneLine(group) => self.add_line(table, head, head, group),
            Adds::TwoLines(group) => {
                self.add_line(table, head, head, group);
                self.add_negation(table, head, group);
            }
        }
    }
}
