#![tactic(auto)]

ghost use Rattle.std.specs.Prelude.{◌≡◌};
ghost use Rattle.refusal.specs.Numbers.{number_of, refusal};

// Why something is refused, by the documents' numbers; specs/Numbers.antt says when each is given.
#[derive(Clone, Copy, Debug, PartialEq, Eq)]
pub enum Reason {
    TooManyAtoms = 1,
    TableTooLong = 2,
    ValueRoomTooSmall = 3,
    CutShort = 4,
    NotALiteral = 5,
    OutOfRange = 6,
    SecondRule = 7,
    SheetTooLong = 8,
    BufferTooSmall = 9,
    WrongByte = 10,
    NameTooLong = 11,
    TooManyNames = 12,
    TooManyInBody = 13,
    TooManyWords = 14,
    TextRoomTooSmall = 15,
    NoSuchAtom = 16,
    BrokenRecord = 17,
    NotSettled = 18,
    NotATruthCode = 20,
    TextBroken = 21,
    LineNotJustified = 22,
    NotAModel = 34,
}

impl Reason {
    // The number that a host is told.
    pub fn number(self) -> u64
        ensures { result ≡ number_of self }
    {
        self as u64
    }

    // The refusal for this reason at this place.
    pub fn at(self, place: usize) -> Refusal
        ensures { result ≡ refusal (number_of self) place }
    {
        at(self.number(), place)
    }

    // What refuses for this reason.
    pub fn refused<T>(self, place: usize) -> Result<T, Refusal>
        ensures { result ≡ Err (refusal (number_of self) place) }
    {
        refused(self.number(), place)
    }
}

// A refusal: its number, and the place that it names.
#[derive(Clone, Copy, Debug, PartialEq, Eq)]
pub struct Refusal {
    pub number: u64,
    pub place: u64,
}

// The refusal of this number at this place.
pub fn at(number: u64, place: usize) -> Refusal
    ensures { result ≡ refusal number place }
{
    Refusal {
        number,
        place: place as u64,
    }
}

// What refuses by this number.
pub fn refused<T>(number: u64, place: usize) -> Result<T, Refusal>
    ensures { result ≡ Err (refusal number place) }
{
    Err(at(number, place))
}
