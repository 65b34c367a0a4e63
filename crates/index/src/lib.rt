#![tactic(auto)]

ghost use Rattle.std.specs.Prelude.{◌≡◌, ℕ, ◌+◌, ◌≤◌, ◌<◌, suc, length, get_or, drop};
ghost use Rattle.limits.specs.Limits.{most_codes, most_words};
ghost use Rattle.words.specs.Layout.{literals_at, drop_groups};
ghost use Rattle.index.specs.Placed.{Table, Cursor, placed_of};
ghost use Rattle.index.specs.Index.{empty, last_in, earlier_in, owner_in, with_owner, with_place, with_fact_in, Indexed, IndexedTo, IndexOf, FactsOf};

use std::marker::Model;

// For each literal the last place at which it stands in a group, or 0; for each place of a table the place before it of the
// same literal, or 0, and its owner: of a literal its group's place, of a group its rule's head. And the heads of the facts.
#[derive(Drop)]
pub struct Index {
    pub last: [u16; 1024],
    pub earlier: [u16; 8192],
    pub owner: [u16; 8192],
    pub facts: [u64; 16],
}

impl Index {
    // Of a table without records.
    pub fn empty() -> Index
        ensures { result ≡ empty }
    {
        Index {
            last: [0; 1024],
            earlier: [0; 8192],
            owner: [0; 8192],
            facts: [0; 16],
        }
    }

    // The last place of literal `l`.
    pub fn last(&self, l: usize) -> usize
        requires { l < most_codes }
        ensures { result ≡ last_in self.now l }
    {
        self.last[l] as usize
    }

    // The place before `p` of the literal at `p`.
    pub fn earlier(&self, p: usize) -> usize
        requires { p < most_words }
        ensures { result ≡ earlier_in self.now p }
    {
        self.earlier[p] as usize
    }

    // The place of the group of the literal at `p`, or the head of the group at `p`.
    pub fn owner(&self, p: usize) -> usize
        requires { p < most_words }
        ensures { result ≡ owner_in self.now p }
    {
        self.owner[p] as usize
    }

    fn set_owner(&mut self, p: usize, o: usize)
        requires { (p < most_words) × (o < most_words) }
        ensures { self.new ≡ with_owner self.old p o }
    {
        self.owner[p] = o as u16;
    }

    // A literal more.
    fn note_literal(&mut self, l: usize, p: usize, g: usize)
        requires { (l < most_codes) × (p < most_words) × (g < most_words) }
        ensures { self.new ≡ with_place self.old l p g }
    {
        self.earlier[p] = self.last[l];
        self.last[l] = p as u16;
        self.set_owner(p, g);
    }

    #[tactic(auto, unfolding(crate::specs::Index::with_fact))]
    fn put_fact(&mut self, head: usize, m: usize)
        ensures { self.new ≡ with_fact_in self.old head m }
    {
        if m == 0 {
            bits::put(&mut self.facts, head);
        }
    }
}

// A group, a record and a table more.
impl Index {
    // The group at `g`, of a rule with this head; where it ends.
    fn add_group(&mut self, table: &[u16], g: usize, head: usize) -> usize
        requires { Table table.now × ((m : ℕ) × Cursor table.now g head (suc m)) × Indexed (placed_of table.now) self.old g }
        ensures value { result ≡ literals_at g + get_or table.now g 0 }
        ensures indexed { Indexed (placed_of table.now) self.new result }
        ensures facts_same { self.new.facts ≡ self.old.facts }
    {
        let first = g + words::LITERALS;
        let k = words::word_inside(table, g);
        self.set_owner(g, head);
        for i in 0..k {
            let l = words::word_inside(table, first + i);
            self.note_literal(l, first + i, g);
        }
        first + k
    }

    // The `m` groups from `first` on, of a rule with this head; where they end.
    fn add_groups(&mut self, table: &[u16], first: usize, head: usize, m: usize) -> usize
        requires { Table table.now × Cursor table.now first head m × Indexed (placed_of table.now) self.old first }
        ensures cursor { Cursor table.now result head 0 }
        ensures indexed { Indexed (placed_of table.now) self.new result }
        ensures table_value { drop result table.now ≡ drop_groups m (drop first table.now) }
        ensures lower_bound { first ≤ result }
        ensures facts_same { self.new.facts ≡ self.old.facts }
    {
        let mut at = first;
        for _ in 0..m {
            at = self.add_group(table, at, head);
        }
        at
    }

    // The record at `at`; where it ends.
    fn add_record(&mut self, table: &[u16], at: usize) -> usize
        requires { Table table.now × (at < length table.now) × IndexedTo table.now self.old at }
        ensures indexed_to { IndexedTo table.now self.new result }
        ensures lower_bound { at < result }
    {
        let head = words::word_inside(table, at);
        let m = words::word_inside(table, at + words::GROUPS);
        self.put_fact(head, m);
        self.add_groups(table, at + words::BODY, head, m)
    }

    // The index of a table.
    fn build(&mut self, table: &[u16])
        requires { Table table.now × (self.old ≡ empty) }
        ensures index_of { IndexOf table.now self.new }
        ensures facts_of { FactsOf table.now self.new.facts }
    {
        let mut at: usize = 0;
        // Each record says where the next one begins.
        while at < table.len() {
            at = self.add_record(table, at);
        }
    }
}

// A table with its index. A clause sees the table's words.
#[derive(Drop)]
pub struct IndexedTable<'a> {
    pub table: &'a [u16],
    pub index: &'a Index,
}

impl<'a> Model for IndexedTable<'a> {
    ghost use Rattle.std.specs.Prelude.{List, ℕ};

    ghost Value = { List ℕ };

    ghost use Rattle.index.specs.Index.{IndexOf, FactsOf};

    ghost view = { λ a. a.table.now };

    ghost invariant = { λ a. IndexOf a.table.now a.index.now × FactsOf a.table.now a.index.now.facts };
}

impl<'a> IndexedTable<'a> {
    // The index is built in the room that is lent for it.
    pub fn build(table: &'a [u16], room: &'a mut Index) -> IndexedTable<'a>
        requires { Table table.now × (room.old ≡ empty) }
        ensures { result ≡ table.now }
    {
        room.build(table);
        IndexedTable { table, index: room }
    }

    // The heads of the facts.
    pub fn facts(&self) -> [u64; 16]
        ensures table { Table self.now }
        ensures facts { FactsOf self.now result }
    {
        self.index.facts
    }
}
