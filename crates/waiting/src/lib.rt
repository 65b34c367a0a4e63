// The lines of a reason sheet, by passes over the rules. A pass looks only at the records that wait: at first all, then those with a group that
// became whole. No other has anything to add.
#![tactic(auto)]

ghost use Rattle.std.specs.Prelude.{◌≡◌, ℕ, ◌<◌, ◌≤◌, T, length};
ghost use Rattle.limits.specs.Limits.{most_codes};
ghost use Rattle.bits.specs.Sets.{member};
ghost use Rattle.words.specs.Layout.{rules_of};
ghost use Rattle.words.specs.RecordAt.{rule_at};
ghost use Rattle.index.specs.Placed.{Table};
ghost use Rattle.index.specs.Index.{IndexOf};
ghost use Rattle.ranks.specs.Found.{CanAdd, adding, reasons_found};
ghost use Rattle.waiting.specs.Waiting.{number_for, place_for, with_record, Numbered, AllBelow, Woke, Stirred};
ghost use Rattle.waiting.specs.Searching.{RankingIn, AwakeIn, at_rule_in, over_rules_in, found_at_rest_in};

use index::Index;
use ranks::{Adds, Heads, IndexedTable, Search};
use valued::Record;

// The records of a table by their numbers: for each head the number of its record, for each number the record's place, and how many there are.
#[derive(Clone, Copy)]
pub struct Order {
    pub numbers: [u16; 1024],
    pub places: [u16; 1024],
    pub count: usize,
}

// Heads and numbers of records are below it.
const CODES: usize = 1024;

impl Order {
    // The next record has this head and place.
    fn put(&mut self, head: usize, at: usize)
        requires { (head < most_codes) × (self.old.count < most_codes) × (at < 65536) }
        ensures { self.new ≡ with_record self.old head at }
    {
        self.numbers[head] = self.count as u16;
        self.places[self.count] = at as u16;
        self.count += 1;
    }
}

// Numbers the records of a table.
fn number_records(table: &[u16], order: &mut Order)
    requires { Table table.now × (order.old.count ≡ 0) }
    ensures { Numbered table.now order.new }
{
    let mut at: usize = 0;
    // Each record says where the next one begins.
    while at < table.len() {
        order.put(words::word_inside(table, at), at);
        at = least::skip_record(table, at);
    }
}

// All numbers below `n`.
fn all_below(n: usize) -> [u64; 16]
    requires { n ≤ most_codes }
    ensures { AllBelow n result }
{
    let mut row = [0u64; 16];
    for i in 0..n {
        bits::put(&mut row, i);
    }
    row
}

// The records of all heads of the row `woken` wait.
fn wake(order: &Order, woken: &[u64], waiting: &mut [u64])
    requires { (length waiting.old ≡ 16) × ((x : ℕ) → T (member woken.now x) → number_for order.now x < most_codes) }
    ensures { Woke order.now woken.now 0 most_codes waiting.old waiting.new }
{
    let mut h: usize = 0;
    // The next head is the next one in the row.
    while h < CODES {
        match bits::lowest_from(woken, h) {
            Some(l) => {
                bits::put(waiting, order.numbers[l] as usize);
                h = l + 1;
            }
            None => return,
        }
    }
}

// What a search reads: the table, the order of its records, and which heads are looked for.
#[derive(Clone, Copy)]
pub struct Sources<'a, 'o> {
    pub table: IndexedTable<'a>,
    pub order: &'o Order,
    pub heads: Heads<'a>,
}

// Adds what the rule with this head adds; the records of the groups that become whole wait.
fn add_and_wake(
    sources: &Sources,
    search: &mut Search,
    waiting: &mut [u64],
    head: usize,
    adds: Adds,
)
    requires { RankingIn sources.now search.old × (length waiting.old ≡ 16) × CanAdd search.old.found head adds }
    ensures found_after { search.new.found ≡ adding search.old.found head adds }
    ensures stirred { Stirred sources.now.table.words.now sources.now.order.now search.old.found.ranked search.new.found.ranked waiting.old waiting.new search.new.counts }
{
    if let Adds::Nothing = adds {
        return;
    }
    search.woken = [0u64; 16];
    search.add(&sources.table, head, adds);
    wake(sources.order, &search.woken, waiting);
}

// Looks at record `j`, and adds what it adds.
fn look(sources: &Sources, search: &mut Search, waiting: &mut [u64], j: usize)
    requires { AwakeIn sources.now search.old waiting.old × (j < length (rules_of sources.now.table.words.now)) }
    ensures found_after { search.new.found ≡ at_rule_in sources.now search.old.found (rule_at sources.now.table.words.now (place_for sources.now.order.now j)) }
    ensures awake { AwakeIn sources.now search.new waiting.new }
{
    let record = Record {
        table: sources.table.words,
        at: sources.order.places[j] as usize,
    };
    let adds = sources.heads.choose(&record, &search.found.ranked);
    add_and_wake(sources, search, waiting, record.head(), adds);
}

// One pass over all records that wait.
fn pass(sources: &Sources, search: &mut Search, waiting: &mut [u64])
    requires { AwakeIn sources.now search.old waiting.old }
    ensures found_after { search.new.found ≡ over_rules_in sources.now (rules_of sources.now.table.words.now) search.old.found }
    ensures awake { AwakeIn sources.now search.new waiting.new }
{
    let mut i: usize = 0;
    // The next record is the next one that waits, and looking at one may have others wait.
    while i < CODES {
        match bits::lowest_from(waiting, i) {
            Some(j) => {
                look(sources, search, waiting, j);
                bits::remove(waiting, j);
                i = j + 1;
            }
            None => return,
        }
    }
}

// All records wait; passes until one adds nothing.
fn rest(sources: &Sources, search: &mut Search)
    requires { RankingIn sources.now search.old }
    ensures found_after { search.new.found ≡ found_at_rest_in sources.now (rules_of sources.now.table.words.now) search.old.found }
    ensures ranking { RankingIn sources.now search.new }
{
    let mut waiting = all_below(sources.order.count);
    let mut again = true;
    while again {
        let before = search.found.next_rank;
        pass(sources, search, &mut waiting);
        again = before < search.found.next_rank;
    }
}

// A line for each literal that a settled marking holds.
pub fn find_reasons<'a>(table: &'a [u16], index: &'a Index, marks: &'a [u64]) -> ranks::Found
    requires { IndexOf table.now index.now }
    ensures { result ≡ reasons_found (rules_of table.now) (member marks.now) }
{
    let mut order = Order {
        numbers: [0u16; 1024],
        places: [0u16; 1024],
        count: 0,
    };
    number_records(table, &mut order);
    let mut search = Search {
        found: ranks::Found {
            ranked: [0u64; 16],
            lines: [justified::NO_LINE; 1024],
            next_rank: 0,
        },
        counts: [0u8; 8192],
        woken: [0u64; 16],
    };
    let table = IndexedTable {
        words: table,
        index,
    };
    rest(
        &Sources {
            table,
            order: &order,
            heads: Heads { marks, clean: None },
        },
        &mut search,
    );
    rest(
        &Sources {
            table,
            order: &order,
            heads: Heads {
                marks,
                clean: Some(search.found.ranked),
            },
        },
        &mut search,
    );
    search.found
}
