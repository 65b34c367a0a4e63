#![tactic(auto)]

ghost use Rattle.std.specs.Prelude.{◌≡◌};
ghost use Rattle.paper.specs.Table1.{code, ◌and◌, ◌or◌, not', ◌implies◌};
ghost use Rattle.truth.specs.Truth.{value_of, Decodes};
ghost use Rattle.truth.specs.Connectives.{conjunction, disjunction, negated, implied};

use refusal::{Reason, Refusal};

// The four truth values, in their order.
#[derive(Clone, Copy, Debug, PartialEq, Eq, PartialOrd, Ord)]
pub enum Truth {
    False,
    Unknown,
    Inconsistent,
    True,
}

// Implication: the row of the body, in it the column of the head.
const IMPLICATION: [[Truth; 4]; 4] = [
    [Truth::True, Truth::True, Truth::True, Truth::True],
    [Truth::True, Truth::True, Truth::True, Truth::True],
    [Truth::False, Truth::False, Truth::True, Truth::False],
    [Truth::False, Truth::False, Truth::True, Truth::True],
];

impl Truth {
    // The code that a host lends and reads.
    pub fn code(self) -> u64
        ensures { result ≡ code (value_of self) }
    {
        self as u64
    }

    // AND is the smaller.
    pub fn and(self, other: Truth) -> Truth
        ensures { value_of result ≡ value_of self and value_of other }
    {
        self.min(other)
    }

    // OR is the larger.
    pub fn or(self, other: Truth) -> Truth
        ensures { value_of result ≡ value_of self or value_of other }
    {
        self.max(other)
    }

    // NOT: f to t, u to u, i to i, t to f.
    pub fn not(self) -> Truth
        ensures { value_of result ≡ not' (value_of self) }
    {
        match self {
            Truth::False => Truth::True,
            Truth::True => Truth::False,
            Truth::Unknown | Truth::Inconsistent => self,
        }
    }

    // Implication, by the table, from this body to a head.
    pub fn implies(self, head: Truth) -> Truth
        ensures { value_of result ≡ (value_of self implies value_of head) }
    {
        IMPLICATION[self as usize][head as usize]
    }
}

// A number above 3 is no truth code.
impl TryFrom<u64> for Truth {
    type Error = Refusal;

    ghost try_from_gives = { Decodes };

    fn try_from(code: u64) -> Result<Truth, Refusal> {
        match code {
            0 => Ok(Truth::False),
            1 => Ok(Truth::Unknown),
            2 => Ok(Truth::Inconsistent),
            3 => Ok(Truth::True),
            _ => Reason::NotATruthCode.refused(0),
        }
    }
}

pub fn and(v: u64, w: u64) -> Result<u64, Refusal>
    ensures { result ≡ conjunction v w }
{
    let a = Truth::try_from(v)?;
    let b = Truth::try_from(w)?;
    Ok(a.and(b).code())
}

pub fn or(v: u64, w: u64) -> Result<u64, Refusal>
    ensures { result ≡ disjunction v w }
{
    let a = Truth::try_from(v)?;
    let b = Truth::try_from(w)?;
    Ok(a.or(b).code())
}

pub fn not(v: u64) -> Result<u64, Refusal>
    ensures { result ≡ negated v }
{
    Ok(Truth::try_from(v)?.not().code())
}

// Body, then head.
pub fn implication(v: u64, w: u64) -> Result<u64, Refusal>
    ensures { result ≡ implied v w }
{
    let body = Truth::try_from(v)?;
    let head = Truth::try_from(w)?;
    Ok(body.implies(head).code())
}
