// Compatibility and weight (document 01, with 02's mismatches and points) of one donor and one patient: an entry of M and of W.
#![tactic(auto)]

ghost use Rattle.std.specs.Prelude.{◌≡◌, not, ◌&&◌, cond, ◌+◌, ◌≤◌, length, eqb};
ghost use Rattle.laws.specs.Below.{one};
ghost use Rattle.pool.specs.Points.{document_points, point_count, points_of};
ghost use Rattle.pool.specs.Tables.{item_in};
ghost use Rattle.pool.specs.Faultless.{SoundPoints};
ghost use Rattle.points.specs.Named.{named};
ghost use Rattle.donation.specs.Compatibility.{suits, share_bit};
ghost use Rattle.donation.specs.Weight.{mismatches, mismatch_points, age_points};

use points::Points;

// The weighing, with document 01's points by name. Many mismatches and other ages give 0 in every registry.
#[derive(Clone, Copy)]
pub struct Weighing;

impl Weighing {
    pub const BASE: u16 = 1000;

    // Mismatches: none, 1 or 2, 3 or 4, more.
    pub const NO_MISMATCH: u16 = 400;

    pub const FEW_MISMATCHES: u16 = 250;

    pub const SOME_MISMATCHES: u16 = 100;

    pub const MANY_MISMATCHES: u16 = 0;

    // Age groups: equal, a young donor and a senior patient, else.
    pub const EQUAL_AGES: u16 = 50;

    pub const YOUNG_TO_SENIOR: u16 = 30;

    pub const OTHER_AGES: u16 = 0;
}

// Document 01's points.
#[tactic(auto, unfolding(pool::specs::Points::document_points))]
pub fn document() -> Points
    ensures { named result ≡ document_points }
{
    Points {
        base: Weighing::BASE,
        none: Weighing::NO_MISMATCH,
        few: Weighing::FEW_MISMATCHES,
        some: Weighing::SOME_MISMATCHES,
        equal: Weighing::EQUAL_AGES,
        young_to_senior: Weighing::YOUNG_TO_SENIOR,
    }
}

// What a pool of this version is weighed by: its own points, or document 01's.
#[tactic(auto, using(pool::proofs::Points::has_second, pool::proofs::Points::second_count), unfolding(pool::specs::Points::points_of))]
pub fn points_of(version: u16, own: &[u16]) -> Points
    requires { point_count version ≤ length own.now }
    ensures { named result ≡ points_of version (item_in own.now) }
{
    if !layout::has_points(version) {
        return document();
    }
    points::own(own)
}

const YOUNG: u8 = 0;

const SENIOR: u8 = 1;

// Which blood suits: a row for each donor group, O, A, B, AB, and in it a column for each patient group.
const SUITS: [[bool; 4]; 4] = [
    [true, true, true, true],
    [false, true, false, true],
    [false, false, true, true],
    [false, false, false, true],
];

// Does the donor's blood suit the patient's?
#[tactic(auto, unfolding(crate::specs::Compatibility::suits, crate::specs::Compatibility::blood_table))]
fn suits(donor: u8, patient: u8) -> bool
    requires { (donor ≤ 3) × (patient ≤ 3) }
    ensures { result ≡ suits donor patient }
{
    SUITS[donor as usize][patient as usize]
}

// Have two words a bit in common?
#[tactic(auto, using(crate::proofs::Bits::and_shares))]
fn share_bit(v: u64, w: u64) -> bool
    ensures { result ≡ share_bit v w }
{
    v & w != 0
}

// The donor's antigens that the patient does not have, counted.
#[tactic(auto, using(crate::proofs::Bits::and_not_count), unfolding(crate::specs::Weight::mismatches))]
fn mismatches(donor: u64, patient: u64) -> u32
    ensures { result ≡ mismatches donor patient }
{
    (donor & !patient).count_ones()
}

#[tactic(auto, unfolding(crate::specs::Weight::mismatch_points))]
fn mismatch_points(points: Points, count: u32) -> u16
    ensures { result ≡ mismatch_points (named points) count }
{
    match count {
        0 => points.none,
        1..=2 => points.few,
        3..=4 => points.some,
        _ => Weighing::MANY_MISMATCHES,
    }
}

#[tactic(auto, unfolding(crate::specs::Weight::age_points))]
fn age_points(points: Points, donor: u8, patient: u8) -> u16
    ensures { result ≡ age_points (named points) donor patient }
{
    if donor == patient {
        return points.equal;
    }
    if donor == YOUNG && patient == SENIOR {
        return points.young_to_senior;
    }
    Weighing::OTHER_AGES
}

// M(i, j), of donor i and patient j.
#[tactic(auto, unfolding(laws::specs::Below::one))]
pub fn compatibility(
    i: usize,
    j: usize,
    donor_blood: u8,
    patient_blood: u8,
    antigens: u64,
    antibodies: u64,
) -> u8
    requires { (donor_blood ≤ 3) × (patient_blood ≤ 3) }
    ensures { result ≡ one (not (eqb i j) && suits donor_blood patient_blood && not (share_bit antigens antibodies)) }
{
    let compatible = i != j
        && suits(donor_blood, patient_blood)
        && !share_bit(antigens, antibodies);
    u8::from(compatible)
}

// W(i, j), of donor i and patient j, by points whose sums fit 16 bits.
#[tactic(auto, using(crate::proofs::Points::base_fits, crate::proofs::Points::weight_fits))]
pub fn weight(
    points: Points,
    i: usize,
    j: usize,
    donor_age: u8,
    patient_age: u8,
    donor_antigens: u64,
    patient_antigens: u64,
) -> u16
    requires { SoundPoints (named points) }
    ensures { let q = named points in
        let apart = mismatches donor_antigens patient_antigens in
        result ≡ cond (eqb i j) 0 (q.base + mismatch_points q apart + age_points q donor_age patient_age) }
{
    if i == j {
        return 0;
    }
    points.base
        + mismatch_points(points, mismatches(donor_antigens, patient_antigens))
        + age_points(points, donor_age, patient_age)
}
