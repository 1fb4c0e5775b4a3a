// The refusals of document 01 by name, and each one's number there ('Turned back, by whom it is caused'), with those that document 02 adds to its list.
#![tactic(auto)]

ghost use Rattle.std.specs.Prelude.{◌≡◌, ℕ};
ghost use Rattle.refusal.specs.Fault.{Fault};
ghost use Rattle.refusal.specs.Number.{number_of, refused_at, fault_at, found_fault};

#[derive(Clone, Copy)]
pub enum Refusal {
    // The sender of the sheet: a field's start or value is cut off or missing.
    CutOff = 1,
    // The tag or the length is not the one due.
    WrongField = 2,
    WrongVersion = 3,
    // N is above 200.
    TooManyPairs = 4,
    // Bytes are left over.
    LeftOver = 5,
    // The hospital: a blood group above 3 or an age group above 1.
    OutOfRange = 6,
    // The id of an earlier pair.
    RepeatedId = 7,
    // Whoever drew the shuffle: not each number once.
    NotAShuffle = 8,
    // The calling program: a lent buffer or table is too short.
    TooShort = 9,
    // A compatibility entry is above 1, or a pair's own is not 0; in a live pool, a stored number is not the ones in its column.
    NotCompatibility = 10,
    // The hospital again (document 02): an id is in both of two sheets that are joined.
    SharedId = 11,
    // Whoever joins two sheets, or registers: they have more than 200 pairs together, or a live pool has 200 already.
    TooManyTogether = 12,
    // The calling program again: the floor is above 200,000.
    FloorTooHigh = 13,
    // The sender again: the base is 0, or base, largest mismatch step and larger age step together exceed 65,535.
    WrongPoints = 14,
    // The versions or the points of two sheets that are joined differ.
    DifferentPoints = 15,
    // The calling program again: no pair of a live pool has the id that is withdrawn.
    UnknownId = 16,
    // A present edge weighs 0, in tables that are to be planned.
    WeightlessEdge = 17,
}

// A refusal, and its place in a sheet.
#[derive(Clone, Copy)]
pub struct Refused {
    pub why: Refusal,
    pub place: usize,
}

impl Refusal {
    // Document 01's number.
    pub fn number(self) -> u8
        ensures { result ≡ number_of self }
    {
        self as u8
    }

    // This refusal, at a place.
    pub fn at(self, place: usize) -> Refused
        ensures { result ≡ refused_at self place }
    {
        Refused { why: self, place }
    }
}

// A refusal that is told with no place has place 0.
impl From<Refusal> for Refused {
    ghost from_gives = { λ why r. r ≡ refused_at why 0 };

    fn from(why: Refusal) -> Refused {
        why.at(0)
    }
}

// What a check found, told with its place: `check(..).at(place)?`.
pub trait At {
    // The fault, at a place.
    ghost found: { ℕ → Self → Fault };

    fn at(self, place: usize) -> Result<(), Refused>
        ensures { found_fault result ≡ found place self };
}

impl At for Result<(), Refusal> {
    ghost found = { fault_at };

    #[tactic(auto, unfolding(crate::specs::Number::fault_at, crate::specs::Number::found_fault))]
    fn at(self, place: usize) -> Result<(), Refused> {
        self.map_err(|why| why.at(place))
    }
}
