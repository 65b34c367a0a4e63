#![tactic(auto)]

ghost use Rattle.std.specs.Prelude.{◌≡◌, Bool, ◌≤◌, ◌<◌, length};
ghost use Rattle.limits.specs.Limits.{most_atoms};
ghost use Rattle.bits.specs.Sets.{member};
ghost use Rattle.words.specs.Layout.{rules_of};
ghost use Rattle.paper.specs.Rules.{HeadsBelow};
ghost use Rattle.marking.specs.Markable.{markable};
ghost use Rattle.evaluation.specs.Evaluation.{evaluation_fault, EvaluationAllows};
ghost use Rattle.evaluation.specs.Rounds.{with_one, MarkedAll, Begun, Settling, Round, Standing};

use index::{Index, IndexedTable};
use pending::Taking;
use refusal::{Reason, Refusal};

// Marks and held literals.
#[derive(Clone, Copy)]
pub struct Marking {
    pub marks: [u64; 8],
    pub held: [u64; 16],
}

// A marking before it is settled: its marks, both literals of each marked atom, and what is held with the marks.
#[derive(Drop)]
struct Unsettled {
    marks: [u64; 8],
    shut: [u64; 16],
    held: Taking,
}

impl Unsettled {
    // No marks, and nothing is held or pending.
    const NO_MARKS: Unsettled = Unsettled {
        marks: [0; 8],
        shut: [0; 16],
        held: Taking {
            taken: [0; 16],
            ready: [0; 16],
            counts: [0; 8192],
        },
    };

    // Marks atom `a` if it can be marked; then both its literals are shut out of the clean ones, and held. Was it marked?
    fn mark_one(&mut self, clean: &[u64], a: usize) -> bool
        requires { a < most_atoms }
        ensures value { result ≡ markable (member self.old.marks) (member self.old.held.taken) (member clean.now) a }
        ensures marked { self.new ≡ with_one self.old a result }
    {
        let can = marking::is_markable(&self.marks, &self.held.taken, clean, a);
        if can {
            bits::put(&mut self.marks, a);
            pending::put_both(&mut self.shut, a);
            pending::put_both(&mut self.held.ready, a);
        }
        can
    }

    // Marks every atom that can be marked, all by the same held and clean literals. Was one marked?
    fn mark_all(&mut self, clean: &[u64], n: usize) -> bool
        requires { n ≤ most_atoms }
        ensures { MarkedAll self.old (member clean.now) n result self.new }
    {
        let mut any = false;
        for a in 0..n {
            any |= self.mark_one(clean, a);
        }
        any
    }

    // One round: held goes on, clean starts afresh, then every atom that can be marked is marked. Was one marked?
    fn round(&mut self, rules: &IndexedTable, n: usize) -> bool
        requires { (n ≤ most_atoms) × HeadsBelow n (rules_of rules.now) × Begun (rules_of rules.now) self.old.marks self.old.held.taken × Standing rules.now self.old }
        ensures round { Round (rules_of rules.now) n self.old.marks self.new.marks self.new.held.taken result }
        ensures standing { Standing rules.now self.new }
    {
        self.held.close(rules.table, rules.index, &[0; 16]);
        let clean = pending::clean_without(rules, &self.shut);
        self.mark_all(&clean, n)
    }
}

// Rounds until one marks nothing; in the first there are no marks, and the held literals are the clean ones.
pub fn settle(rules: &IndexedTable, n: usize) -> Marking
    requires { (n ≤ most_atoms) × HeadsBelow n (rules_of rules.now) }
    ensures { Settling (rules_of rules.now) result.marks result.held Bool.false }
{
    let mut m = Unsettled::NO_MARKS;
    m.held.ready = rules.facts();
    m.held.close(rules.table, rules.index, &[0; 16]);
    let clean = m.held.taken;
    if m.mark_all(&clean, n) {
        while m.round(rules, n) {}
    }
    Marking {
        marks: m.marks,
        held: m.held.taken,
    }
}

#[tactic(auto, unfolding(crate::specs::Evaluation::evaluation_fault))]
pub fn evaluation_fault(n: u64, table: &[u16], room: u64) -> Result<(), Refusal>
    ensures { result ≡ evaluation_fault n table.now room }
{
    if limits::MOST_N < n {
        return Reason::TooManyAtoms.refused(0);
    }
    words::table_too_long(table)?;
    values::room_too_small(n, room)?;
    words::check(n, table)
}

fn write_settled(table: &[u16], n: usize, values: &mut [u8])
    requires { evaluation_fault n table.now (length values.old) ≡ Ok tt }
    ensures { EvaluationAllows n table.now values.old (Ok tt) values.new }
{
    let mut room = Index::empty();
    let rules = IndexedTable::build(table, &mut room);
    let m = settle(&rules, n);
    let marks = m.marks;
    let held = m.held;
    values::write_values(values, &marks, &held, n);
}

// Every atom's value in the smallest well-supported model of the table's rules.
pub fn evaluate(n: u64, table: &[u16], values: &mut [u8]) -> Result<(), Refusal>
    ensures { EvaluationAllows n table.now values.old result values.new }
{
    evaluation_fault(n, table, values.len() as u64)?;
    write_settled(table, n as usize, values);
    Ok(())
}
