#![tactic(auto)]

ghost use Rattle.std.specs.Prelude.{◌≡◌, ◌<◌, length};
ghost use Rattle.picks.specs.Faults.{atom_fault, pick_fault, settled_fault, report_fault};
ghost use Rattle.picks.specs.Entries.{PickAllows, SettledAllows, ReportAllows};

use index::{Index, IndexedTable};
use records::MarkRecord;
use refusal::{Reason, Refusal};

// What a pick that is not refused answers.
#[derive(Clone, Copy, Debug, PartialEq, Eq)]
pub enum PickAnswer {
    Marked,
    AlreadyMarked,
    CannotBeMarkedNow,
}

// 16.
fn atom_fault(n: u64, atom: u64) -> Result<(), Refusal>
    ensures { result ≡ atom_fault n atom }
{
    if atom < n {
        Ok(())
    } else {
        Reason::NoSuchAtom.refused(0)
    }
}

#[tactic(auto, unfolding(crate::specs::Faults::pick_fault))]
fn pick_fault(record: MarkRecord, table: &[u16], atom: u64) -> Result<(), Refusal>
    ensures { result ≡ pick_fault «record» table.now atom }
{
    records::record_fault(record)?;
    words::check(record.n, table)?;
    atom_fault(record.n, atom)
}

// What a pick answers, and the record after it.
#[derive(Clone, Copy)]
pub struct Picked {
    pub answer: Result<PickAnswer, Refusal>,
    pub record: MarkRecord,
}

// An accepted pick: a new mark if the atom can be marked.
fn mark_atom(record: MarkRecord, table: &[u16], atom: u64) -> Picked
    requires { pick_fault «record» table.now atom ≡ Ok tt }
    ensures { PickAllows «record» table.now atom result.answer result.record }
{
    let marks = record.marks;
    let a = atom as usize;
    if bits::has(&marks, a) {
        return Picked {
            answer: Ok(PickAnswer::AlreadyMarked),
            record,
        };
    }
    let mut room = Index::empty();
    let rules = IndexedTable::build(table, &mut room);
    if marking::can_be_marked(&rules, &marks, a) {
        let marked = records::with_mark(record, a);
        return Picked {
            answer: Ok(PickAnswer::Marked),
            record: marked,
        };
    }
    Picked {
        answer: Ok(PickAnswer::CannotBeMarkedNow),
        record,
    }
}

// The core of a pick, by value.
pub fn pick_by_value(record: MarkRecord, table: &[u16], atom: u64) -> Picked
    ensures { PickAllows «record» table.now atom result.answer result.record }
{
    if let Err(r) = pick_fault(record, table, atom) {
        return Picked {
            answer: Err(r),
            record,
        };
    }
    mark_atom(record, table, atom)
}

// A pick of an atom: it alters at most that atom's mark in the record it is lent.
pub fn pick(record: &mut MarkRecord, table: &[u16], atom: u64) -> Result<PickAnswer, Refusal>
    ensures { PickAllows «record».old table.now atom result «record».new }
{
    let picked = pick_by_value(*record, table, atom);
    *record = picked.record;
    picked.answer
}

// A pick for a caller that has N, the marks and their count as numbers: they are made a record, and the record is lent.
pub fn pick_numbers(n: u64, marks: [u64; 8], count: u64, table: &[u16], atom: u64) -> Picked
    ensures { PickAllows (record { n = n; marks = marks; count = count }) table.now atom result.answer result.record }
{
    let mut record = MarkRecord { n, marks, count };
    let answer = pick(&mut record, table, atom);
    Picked { answer, record }
}

#[tactic(auto, unfolding(crate::specs::Faults::settled_fault))]
fn settled_fault(record: MarkRecord, table: &[u16]) -> Result<(), Refusal>
    ensures { result ≡ settled_fault «record» table.now }
{
    records::record_fault(record)?;
    words::check(record.n, table)
}

// Can no atom be marked?
pub fn settled(record: MarkRecord, table: &[u16]) -> Result<bool, Refusal>
    ensures { SettledAllows «record» table.now result }
{
    settled_fault(record, table)?;
    let n = record.n;
    let marks = record.marks;
    let mut room = Index::empty();
    let rules = IndexedTable::build(table, &mut room);
    if marking::can_go_on(&rules, &marks, n as usize) {
        return Ok(false);
    }
    Ok(true)
}

#[tactic(auto, unfolding(crate::specs::Faults::report_fault))]
fn report_fault(record: MarkRecord, table: &[u16], room: u64) -> Result<(), Refusal>
    ensures { result ≡ report_fault «record» table.now room }
{
    records::record_fault(record)?;
    words::table_too_long(table)?;
    values::room_too_small(record.n, room)?;
    words::check(record.n, table)
}

fn report_settled(record: MarkRecord, table: &[u16], values: &mut [u8]) -> Result<(), Refusal>
    requires { report_fault «record» table.now (length values.old) ≡ Ok tt }
    ensures { ReportAllows «record» table.now values.old result values.new }
{
    let n = record.n;
    let marks = record.marks;
    let mut room = Index::empty();
    let rules = IndexedTable::build(table, &mut room);
    let goes_on = marking::can_go_on(&rules, &marks, n as usize);
    if goes_on {
        return Reason::NotSettled.refused(0);
    }
    let held = pending::held(&rules, &marks);
    values::write_values(values, &marks, &held, n as usize);
    Ok(())
}

// The values of a settled record.
pub fn report(record: MarkRecord, table: &[u16], values: &mut [u8]) -> Result<(), Refusal>
    ensures { ReportAllows «record» table.now values.old result values.new }
{
    report_fault(record, table, values.len() as u64)?;
    report_settled(record, table, values)
}
