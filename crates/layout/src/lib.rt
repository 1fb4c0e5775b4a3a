// The pool sheet in numbers (document 01, 'The pool sheet', with 02's version 2): tags, lengths, and what stands where. Reading and writing count by
// these.
#![tactic(auto)]

ghost use Rattle.std.specs.Prelude.{◌≡◌, ◌≤◌};
ghost use Rattle.pool.specs.Points.{known_version, has_points, point_count};
ghost use Rattle.pool.specs.Sheet.{first_pair, pair_place, sheet_length};

// The tags, and the lengths of the values. (That of the shuffle is 2N.)
pub const HEAD_TAG: u64 = 1;

pub const HEAD_LENGTH: usize = 4;

pub const PAIR_TAG: u64 = 2;

pub const PAIR_LENGTH: usize = 32;

pub const SHUFFLE_TAG: u64 = 3;

pub const POINTS_TAG: u64 = 4;

// The points of version 2, two bytes each.
pub const POINTS: usize = 6;

pub const POINTS_LENGTH: usize = 2 * POINTS;

// A field's start: its tag, and the length of its value.
pub const START_LENGTH: usize = 3;

// In the head: the version, then N.
pub const VERSION_PLACE: usize = START_LENGTH;

pub const PAIRS_PLACE: usize = VERSION_PLACE + 2;

// The head with its start, and the points' field of version 2 with its start, which stands after the head.
pub const HEAD_SIZE: usize = START_LENGTH + HEAD_LENGTH;

pub const POINTS_PLACE: usize = HEAD_SIZE;

pub const POINTS_SIZE: usize = START_LENGTH + POINTS_LENGTH;

// A pair's field with its start.
pub const PAIR_SIZE: usize = START_LENGTH + PAIR_LENGTH;

// How far into a pair's field each of its numbers stands.
pub const ID_AT: usize = START_LENGTH;

pub const DONOR_BLOOD_AT: usize = ID_AT + 4;

pub const PATIENT_BLOOD_AT: usize = DONOR_BLOOD_AT + 1;

pub const DONOR_AGE_AT: usize = PATIENT_BLOOD_AT + 1;

pub const PATIENT_AGE_AT: usize = DONOR_AGE_AT + 1;

pub const DONOR_ANTIGENS_AT: usize = PATIENT_AGE_AT + 1;

pub const PATIENT_ANTIGENS_AT: usize = DONOR_ANTIGENS_AT + 8;

pub const PATIENT_ANTIBODIES_AT: usize = PATIENT_ANTIGENS_AT + 8;

// Is this version 1 or 2?
pub fn known(version: u16) -> bool
    ensures { result ≡ known_version version }
{
    version == 1 || version == 2
}

// Has this version points of its own?
pub fn has_points(version: u16) -> bool
    ensures { result ≡ has_points version }
{
    version == 2
}

// How many: six in version 2.
pub fn point_count(version: u16) -> usize
    ensures { result ≡ point_count version }
{
    if has_points(version) { POINTS } else { 0 }
}

// Where the field of pair 0 stands: after the head, and in version 2 after the points.
pub fn first_pair(version: u16) -> usize
    ensures { (result ≡ first_pair version) × (result ≤ 22) }
{
    if has_points(version) {
        HEAD_SIZE + POINTS_SIZE
    } else {
        HEAD_SIZE
    }
}

// Where the field of pair i stands, and of the shuffle where i is N.
pub fn pair_place(version: u16, i: usize) -> usize
    requires { i ≤ 200 }
    ensures { (result ≡ pair_place version i) × (result ≤ 7022) }
{
    first_pair(version) + PAIR_SIZE * i
}

// The bytes of a sheet of n pairs.
pub fn sheet_length(version: u16, n: usize) -> usize
    requires { n ≤ 200 }
    ensures { (result ≡ sheet_length version n) × (result ≤ 7425) }
{
    pair_place(version, n) + START_LENGTH + 2 * n
}
