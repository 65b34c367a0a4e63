#![tactic(auto)]

ghost use Rattle.std.specs.Prelude.{◌≡◌, ◌-◌, ◌≤◌};
ghost use Rattle.limits.specs.Limits.{most_atoms};
ghost use Rattle.bits.specs.Sets.{member};
ghost use Rattle.records.specs.Records.{no_marks_for, with_mark, marks_from, record_fault, FreshAllows, CountAllows};

use refusal::{Reason, Refusal};

// N, 512 marks and their count: atom a is bit a mod 64, lowest first, of word a div 64.
#[derive(Clone, Copy)]
pub struct MarkRecord {
    pub n: u64,
    pub marks: [u64; 8],
    pub count: u64,
}

// A fresh record, and whether it is one for the N that was asked.
#[derive(Clone, Copy)]
pub struct FreshRecord {
    pub answer: Result<(), Refusal>,
    pub record: MarkRecord,
}

// A record for `n` with no marks, and none counted.
fn no_marks_for(n: u64) -> MarkRecord
    ensures { result ≡ no_marks_for n }
{
    MarkRecord {
        n,
        marks: [0u64; 8],
        count: 0,
    }
}

pub fn fresh(n: u64) -> FreshRecord
    ensures { FreshAllows n result.answer result.record }
{
    if limits::MOST_N < n {
        return FreshRecord {
            answer: Reason::TooManyAtoms.refused(0),
            record: no_marks_for(0),
        };
    }
    FreshRecord {
        answer: Ok(()),
        record: no_marks_for(n),
    }
}

// The record with a mark at `a` besides, and one more counted.
pub fn with_mark(record: MarkRecord, a: usize) -> MarkRecord
    requires { «record».count ≤ most_atoms }
    ensures { result ≡ with_mark «record» a }
{
    let mut more = record;
    bits::put(&mut more.marks, a);
    more.count += 1;
    more
}

// Is an atom from `n` on marked?
fn marks_from(marks: &[u64], n: usize) -> bool
    ensures { result ≡ marks_from (member marks.now) n (most_atoms - n) }
{
    (n..limits::MOST_ATOMS).any(|a| bits::has(marks, a))
}

// 1, then 17.
pub fn record_fault(record: MarkRecord) -> Result<(), Refusal>
    ensures { result ≡ record_fault «record» }
{
    if limits::MOST_N < record.n {
        return Reason::TooManyAtoms.refused(0);
    }
    if marks_from(&record.marks, record.n as usize) {
        return Reason::BrokenRecord.refused(0);
    }
    if record.count != bits::count(&record.marks) as u64 {
        return Reason::BrokenRecord.refused(0);
    }
    Ok(())
}

// The stored number of marks.
pub fn mark_count(record: MarkRecord) -> Result<u64, Refusal>
    ensures { CountAllows «record» result }
{
    record_fault(record)?;
    Ok(record.count)
}
