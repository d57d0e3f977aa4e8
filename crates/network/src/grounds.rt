// The grounds for refusing: each one's number stands here, once, by its name.
ghost use Rattle.std.specs.Prelude.{◌≡◌};
ghost use Rattle.network.specs.Numbers.{number_of, by_ground};

// A ground for refusing a file, a sheet or a row.
#[derive(Clone, Copy, PartialEq, Eq)]
pub enum Ground {
    // The author of the file.
    NoCommand = 1,
    UnknownCommand = 2,
    CutOff = 3,
    TooManyLines = 4,
    PeriodOutOfRange = 5,
    CycleTooLong = 6,
    LineNotStated = 7,
    StopTooHigh = 8,
    CallsTooOften = 9,
    TooManyCalls = 10,
    NoEarlierCall = 11,
    OffsetTooLarge = 12,
    LineWithoutCall = 13,
    BytesBehindEnd = 14,
    // The candidate.
    SheetLength = 15,
    // The host program.
    StartRowLength = 16,
    ClassRowLength = 17,
    ArchiveRowTooShort = 18,
    // The author of a file of a later edition.
    RideInEdition = 19,
    EditionNotFirst = 20,
    EditionUnknown = 21,
    // Who asks for a board.
    BoardTooLong = 22,
    BoardRowTooShort = 23,
}

impl Ground {
    // The ground's number in the papers.
    pub fn number(self) -> u8
        ensures { result ≡ number_of self }
    {
        self as u8
    }

    // The refusal by this ground at a place of the file.
    pub fn at(self, place: usize) -> Refusal
        ensures { result ≡ by_ground self place }
    {
        Refusal {
            reason: self,
            place,
        }
    }
}

// Why a file or what else was lent is refused, and the place of the file that this names; 0 where it names none.
#[derive(Clone, Copy, PartialEq, Eq)]
pub struct Refusal {
    pub reason: Ground,
    pub place: usize,
}
