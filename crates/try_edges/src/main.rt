// Pairs to try, and the tables that building makes of them: the documents' edge examples, antigens that both or only the patient has, every two blood
// groups, antigens and antibodies at both ends of the laboratory's list, two registries' own points, the limits, and each refusal. What it prints is held
// to the file 'stdout'. Every lent entry holds 99 before a call, and the first one past the filled part is printed too.
#![tactic(auto)]

ghost use Rattle.std.specs.Prelude.{◌≤◌};

use fields::Fields;
use refusal::Refusal;
use silent::Silent;
use std::{fmt, io};

// Registries' points: one in which more mismatches and a senior patient weigh more; one whose heaviest edge is as heavy as may be; document 01's.
const REGISTRIES: [[u16; 6]; 3] = [
    [2000, 60, 7, 300, 5, 90],
    [1, 60000, 40000, 20000, 5534, 5000],
    [1000, 400, 250, 100, 50, 30],
];

// The ages of a donor and a patient, and their antigens, for every step: no mismatch with equal ages, young to senior, senior to young; then 1, 2, 3, 4 and 5.
const STEPS: [(u8, u8, u64, u64); 9] = [
    (1, 1, 7, 7),
    (0, 1, 7, 7),
    (1, 0, 7, 7),
    (1, 0, 1, 0),
    (0, 0, 3, 0),
    (0, 1, 7, 0),
    (1, 0, 15, 0),
    (1, 1, 31, 0),
    (1, 0, 31, 0),
];

// The version, N, the base, the second step and the last, how many points are lent, the donor's blood group and the space for M. What 14 lets pass and what
// it refuses; version 1, whatever is lent; and what comes first of two faults, 3, 4, 9, 14, 6, 9.
const BUILT: [(u16, usize, u16, u16, u16, usize, u8, usize); 20] = [
    (2, 2, 65535, 0, 0, 6, 0, 4),
    (2, 2, 0, 250, 30, 6, 0, 4),
    (2, 2, 1, 65534, 0, 6, 0, 4),
    (2, 2, 2, 65534, 0, 6, 0, 4),
    (2, 2, 5, 65000, 530, 6, 0, 4),
    (2, 2, 5, 65000, 531, 6, 0, 4),
    (1, 2, 0, 65535, 65535, 0, 0, 4),
    (1, 2, 0, 65535, 65535, 5, 0, 4),
    (1, 2, 0, 65535, 65535, 6, 0, 4),
    (0, 201, 0, 0, 0, 5, 4, 3),
    (3, 2, 1000, 250, 30, 6, 0, 4),
    (2, 201, 0, 0, 0, 5, 4, 3),
    (2, 3, 0, 0, 0, 6, 4, 3),
    (2, 2, 0, 0, 0, 5, 4, 3),
    (2, 0, 0, 0, 0, 5, 4, 3),
    (2, 2, 0, 0, 0, 6, 4, 3),
    (2, 0, 0, 0, 0, 6, 4, 3),
    (2, 2, 1000, 250, 30, 6, 4, 3),
    (2, 2, 1000, 250, 30, 6, 0, 3),
    (2, 2, 1000, 250, 30, 6, 0, 4),
];

// The blood groups by number and name.
const BLOODS: [(u8, &str); 4] = [(0, "O"), (1, "A"), (2, "B"), (3, "AB")];

// Entries of a table, each after a blank.
#[derive(Clone, Copy)]
struct Row<'a, T>(&'a [T]);

impl<T: fmt::Display> fmt::Display for Row<'_, T> {
    fn fmt<W: fmt::Write>(&self, f: &mut fmt::Formatter<W>) -> fmt::Result {
        for entry in self.0 {
            write!(f, " {entry}")?;
        }
        Ok(())
    }
}

// What building answered.
#[derive(Clone, Copy)]
struct Answer(Result<(), Refusal>);

impl fmt::Display for Answer {
    fn fmt<W: fmt::Write>(&self, f: &mut fmt::Formatter<W>) -> fmt::Result {
        match self.0 {
            Ok(()) => write!(f, "built"),
            Err(why) => write!(f, "refused {}", why.number()),
        }
    }
}

// The first pair's donor and the second pair's patient; the second pair's donor and the first pair's patient are O, young, with no antigens and
// no antibodies.
#[derive(Clone, Copy, Default)]
struct Edge {
    donor_blood: u8,
    patient_blood: u8,
    donor_age: u8,
    patient_age: u8,
    donor_antigens: u64,
    patient_antigens: u64,
    patient_antibodies: u64,
}

fn weighed(donor_age: u8, patient_age: u8, donor_antigens: u64, patient_antigens: u64) -> Edge {
    Edge {
        donor_age,
        patient_age,
        donor_antigens,
        patient_antigens,
        ..Edge::default()
    }
}

fn of_blood(donor_blood: u8, patient_blood: u8) -> Edge {
    Edge {
        donor_blood,
        patient_blood,
        ..Edge::default()
    }
}

fn of_tissue(donor_antigens: u64, patient_antigens: u64, patient_antibodies: u64) -> Edge {
    Edge {
        donor_antigens,
        patient_antigens,
        patient_antibodies,
        ..Edge::default()
    }
}

// What is built: the tables of n pairs, n up to 2, of which the second has this id, by the points of this version, where M has space for `m_space` entries
// and W for `w_space`.
#[derive(Clone, Copy)]
struct Build<'a> {
    version: u16,
    n: usize,
    points: &'a [u16],
    second_id: u32,
    edge: Edge,
    m_space: usize,
    w_space: usize,
}

// Two pairs in version 1, with no table of points.
fn usual(edge: Edge) -> Build<'static>
    ensures { (result.m_space ≤ 5) × (result.w_space ≤ 5) }
{
    Build {
        version: 1,
        n: 2,
        points: &[],
        second_id: 2,
        edge,
        m_space: 5,
        w_space: 5,
    }
}

impl Build<'_> {
    // Prints what building answers and leaves: M's four entries and the one past them, then W's.
    fn attempt(self, rt: &impl Print, name: impl fmt::Display + Drop) -> io::Result<()>
        requires { (self.m_space ≤ 5) × (self.w_space ≤ 5) }
    {
        let edge = self.edge;
        let mut m = [99; 5];
        let mut w = [99; 5];
        let answer = Answer(weighing::build(
            self.version,
            self.n,
            self.points,
            Fields {
                ids: &[1, self.second_id],
                donor_blood: &[edge.donor_blood, 0],
                patient_blood: &[0, edge.patient_blood],
                donor_age: &[edge.donor_age, 0],
                patient_age: &[0, edge.patient_age],
                donor_antigens: &[edge.donor_antigens, 0],
                patient_antigens: &[0, edge.patient_antigens],
                patient_antibodies: &[0, edge.patient_antibodies],
            },
            &mut m[..self.m_space],
            &mut w[..self.w_space],
        ));
        print!(rt; "{name}: {answer} M{} past {}", Row(&m[..4]), m[4])?;
        println!(rt; " W{} past {}", Row(&w[..4]), w[4])
    }
}

fn try_edge(rt: &impl Print, name: impl fmt::Display + Drop, edge: Edge) -> io::Result<()> {
    usual(edge).attempt(rt, name)
}

// "0 mismatches, equal ages 1,450; 2 give 1,300; 3, young to senior 1,130; 4, the same 1,130; 5, senior to young 1,000", "read with the mismatches all
// on the donor's side", and the steps' other edges.
fn try_edges(rt: &impl Print) -> io::Result<()> {
    try_edge(rt, "0 mismatches, equal ages", weighed(0, 0, 0, 0))?;
    try_edge(rt, "0 mismatches, both senior", weighed(1, 1, 5, 5))?;
    try_edge(rt, "1 mismatch, equal ages", weighed(0, 0, 5, 4))?;
    try_edge(rt, "2 mismatches, equal ages", weighed(0, 0, 3, 0))?;
    try_edge(rt, "3 mismatches, young to senior", weighed(0, 1, 7, 0))?;
    try_edge(rt, "4 mismatches, young to senior", weighed(0, 1, 15, 0))?;
    try_edge(rt, "5 mismatches, senior to young", weighed(1, 0, 31, 0))?;
    try_edge(
        rt,
        "64 mismatches, equal ages",
        weighed(0, 0, 18446744073709551615, 0),
    )
}

// Of the donor's antigens the patient has some: three of five, two of six, and all but entry 32 of all.
fn try_shared(rt: &impl Print) -> io::Result<()> {
    try_edge(rt, "2 mismatches of 5, equal ages", weighed(0, 0, 31, 28))?;
    try_edge(
        rt,
        "4 mismatches of 6, young to senior",
        weighed(0, 1, 63, 48),
    )?;
    try_edge(
        rt,
        "1 mismatch of 64, equal ages",
        weighed(0, 0, 18446744073709551615, 18446744069414584319),
    )
}

// "A patient antigen missing in the donor no longer counts": some of these beside the mismatches, and alone.
fn try_patients_own(rt: &impl Print) -> io::Result<()> {
    try_edge(
        rt,
        "1 mismatch, 2 of the patient's alone, equal ages",
        weighed(0, 0, 4, 3),
    )?;
    try_edge(
        rt,
        "2 mismatches, 1 of the patient's alone, equal ages",
        weighed(0, 0, 3, 4),
    )?;
    try_edge(
        rt,
        "3 mismatches, 2 of the patient's alone, young to senior",
        weighed(0, 1, 7, 24),
    )?;
    try_edge(
        rt,
        "4 mismatches, 2 of the patient's alone, young to senior",
        weighed(0, 1, 60, 3),
    )?;
    try_edge(
        rt,
        "5 mismatches, 59 of the patient's alone, senior to young",
        weighed(1, 0, 31, 18446744073709551584),
    )?;
    try_edge(
        rt,
        "0 mismatches, 5 of the patient's alone, senior to young",
        weighed(1, 0, 0, 31),
    )?;
    try_edge(
        rt,
        "0 mismatches, 64 of the patient's alone, equal ages",
        weighed(0, 0, 0, 18446744073709551615),
    )
}

// The first and the last entry of the laboratory's list, the donor's or the patient's.
fn try_ends(rt: &impl Print) -> io::Result<()> {
    try_edge(rt, "the donor's entry 0 alone", weighed(0, 0, 1, 0))?;
    try_edge(rt, "the patient's entry 0 alone", weighed(0, 0, 0, 1))?;
    try_edge(
        rt,
        "the donor's entry 63 alone",
        weighed(0, 0, 9223372036854775808, 0),
    )?;
    try_edge(
        rt,
        "the patient's entry 63 alone",
        weighed(0, 0, 0, 9223372036854775808),
    )
}

// Every two blood groups.
fn try_bloods(rt: &impl Print) -> io::Result<()> {
    for (donor, from) in BLOODS {
        for (patient, to) in BLOODS {
            try_edge(rt, format_args!("{from} to {to}"), of_blood(donor, patient))?;
        }
    }
    Ok(())
}

fn try_antibodies(rt: &impl Print) -> io::Result<()> {
    try_edge(rt, "antibody at bit 0", of_tissue(1, 1, 1))?;
    try_edge(
        rt,
        "antibody at bit 63",
        of_tissue(
            9223372036854775808,
            9223372036854775808,
            9223372036854775808,
        ),
    )?;
    try_edge(
        rt,
        "antibodies at every other bit",
        of_tissue(1, 1, 18446744073709551614),
    )?;
    try_edge(rt, "antigens alike, no antibody", of_tissue(3, 3, 0))
}

// Each refusal, and what comes first of two.
fn try_refusals(rt: &impl Print) -> io::Result<()> {
    let pairs = usual(Edge::default());
    let bare = Build {
        m_space: 0,
        w_space: 0,
        ..pairs
    };
    let four = Build {
        m_space: 4,
        w_space: 4,
        ..pairs
    };
    let one = Build {
        n: 1,
        m_space: 1,
        w_space: 1,
        ..pairs
    };
    Build { n: 0, ..bare }.attempt(rt, "no pair, no space")?;
    one.attempt(rt, "one pair")?;
    four.attempt(rt, "two pairs, space for four")?;
    Build { m_space: 3, ..four }.attempt(rt, "M with space for three")?;
    Build { w_space: 3, ..four }.attempt(rt, "W with space for three")?;
    let wrong_blood = of_blood(4, 0);
    let three = Build {
        n: 3,
        ..usual(wrong_blood)
    };
    three.attempt(rt, "three pairs in fields of two")?;
    let wrong = Build {
        edge: wrong_blood,
        ..bare
    };
    let twice = Build {
        second_id: 1,
        ..bare
    };
    let wrong_twice = Build {
        second_id: 1,
        ..wrong
    };
    wrong_twice.attempt(rt, "blood 4")?;
    try_edge(rt, "age group 2", weighed(0, 2, 0, 0))?;
    twice.attempt(rt, "the same id twice")?;
    Build { n: 201, ..wrong }.attempt(rt, "201 pairs")?;
    let most = Build {
        n: usize::MAX,
        ..bare
    };
    most.attempt(rt, "as many pairs as a word holds")
}

// Each registry's points, on every step.
fn try_registries(rt: &impl Print) -> io::Result<()> {
    for points in REGISTRIES {
        println!(rt; "points{}", Row(&points))?;
        for (donor_age, patient_age, donor_antigens, patient_antigens) in STEPS {
            let build = Build {
                version: 2,
                points: &points,
                ..usual(weighed(donor_age, patient_age, donor_antigens, patient_antigens))
            };
            build.attempt(
                rt,
                format_args!(
                    "  ages {donor_age} {patient_age}, antigens {donor_antigens} {patient_antigens}"
                ),
            )?;
        }
    }
    Ok(())
}

// Builds each row; of the points not named there the others are 0.
fn try_built(rt: &impl Print) -> io::Result<()> {
    for (version, n, base, step, last, count, blood, space) in BUILT {
        print!(rt; "version {version}, pairs {n}, base {base}, steps {step} {last}")?;
        print!(rt; ", points {count}, blood {blood}, space {space}")?;
        let points = [base, 0, step, 0, 0, last];
        let build = Build {
            version,
            n,
            points: &points[..count.min(6)],
            m_space: space.min(5),
            ..usual(of_blood(blood, 0))
        };
        build.attempt(rt, "")?;
    }
    Ok(())
}

// The most pairs there are: the corners of both tables, and what lies past them.
fn try_most(rt: &impl Print) -> io::Result<()> {
    let mut ids = [0; 200];
    for (id, i) in ids.iter_mut().zip(0..200) {
        *id = i;
    }
    let bloods = [3; 200];
    let ages = [1; 200];
    let none = [0; 200];
    let mut m = [99; 40001];
    let mut w = [99; 40001];
    let answer = Answer(weighing::build(
        1,
        200,
        &[],
        Fields {
            ids: &ids,
            donor_blood: &bloods,
            patient_blood: &bloods,
            donor_age: &ages,
            patient_age: &ages,
            donor_antigens: &none,
            patient_antigens: &none,
            patient_antibodies: &none,
        },
        &mut m,
        &mut w,
    ));
    print!(rt; "200 pairs: {answer}")?;
    print!(rt;
        " M {} {} {} {} past {}",
        m[0], m[199], m[39800], m[39999], m[40000]
    )?;
    println!(rt;
        " W {} {} {} {} past {}",
        w[0], w[199], w[39800], w[39999], w[40000]
    )
}

fn run(rt: &impl Print) -> io::Result<()> {
    try_edges(rt)?;
    try_shared(rt)?;
    try_patients_own(rt)?;
    try_ends(rt)?;
    try_bloods(rt)?;
    try_antibodies(rt)?;
    try_refusals(rt)?;
    try_registries(rt)?;
    try_built(rt)?;
    try_most(rt)
}

fn main() {
    // Where output is lost, it is lost silently.
    let _ = run(&Silent);
}
