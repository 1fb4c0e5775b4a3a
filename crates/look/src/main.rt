// Reads a pool sheet from standard input and says what it found: the points of version 2, the pairs and the shuffle, or the refusal's number and place.
#![tactic(auto)]

ghost use Rattle.std.specs.Prelude.{◌<◌, ◌≤◌, IfOk};

use fields::Tables;
use refusal::Refused;
use silent::Silent;
use std::fmt;

#[derive(Clone, Copy)]
enum Blood {
    O,
    A,
    B,
    Ab,
}

// An accepted sheet has no number but 0 to 3.
impl From<u8> for Blood {
    fn from(group: u8) -> Self {
        match group {
            0 => Self::O,
            1 => Self::A,
            2 => Self::B,
            _ => Self::Ab,
        }
    }
}

impl fmt::Display for Blood {
    fn fmt<W: fmt::Write>(&self, f: &mut fmt::Formatter<W>) -> fmt::Result {
        f.write_str(match self {
            Self::O => "O",
            Self::A => "A",
            Self::B => "B",
            Self::Ab => "AB",
        })
    }
}

#[derive(Clone, Copy)]
enum Age {
    Young,
    Senior,
}

// An accepted sheet has no number but 0 and 1.
impl From<u8> for Age {
    fn from(group: u8) -> Self {
        match group {
            0 => Self::Young,
            _ => Self::Senior,
        }
    }
}

// After a blank, in one piece with it: it follows a blood group.
impl fmt::Display for Age {
    fn fmt<W: fmt::Write>(&self, f: &mut fmt::Formatter<W>) -> fmt::Result {
        f.write_str(match self {
            Self::Young => " young",
            Self::Senior => " senior",
        })
    }
}

// A donor or a patient; the antigens are one bit per entry of the laboratory's list.
#[derive(Clone, Copy)]
struct Person {
    blood: Blood,
    age: Age,
    antigens: u64,
}

impl fmt::Display for Person {
    fn fmt<W: fmt::Write>(&self, f: &mut fmt::Formatter<W>) -> fmt::Result {
        let Self {
            blood,
            age,
            antigens,
        } = self;
        write!(f, "{blood}{age} antigens {antigens:x}")
    }
}

// Numbers in a row, each after a blank.
#[derive(Clone, Copy)]
struct Row<'a>(&'a [u16]);

impl fmt::Display for Row<'_> {
    fn fmt<W: fmt::Write>(&self, f: &mut fmt::Formatter<W>) -> fmt::Result {
        for number in self.0 {
            write!(f, " {number}")?;
        }
        Ok(())
    }
}

// What a sheet says.
#[derive(Clone, Copy)]
struct Pool {
    version: u16,
    n: usize,
    points: [u16; 6],
    ids: [u32; 200],
    donor_blood: [u8; 200],
    patient_blood: [u8; 200],
    donor_age: [u8; 200],
    patient_age: [u8; 200],
    donor_antigens: [u64; 200],
    patient_antigens: [u64; 200],
    patient_antibodies: [u64; 200],
    shuffle: [u16; 200],
}

impl Pool {
    // The pool of a sheet, or the first of its faults and its place.
    fn read(sheet: &[u8]) -> Result<Self, Refused>
        ensures { IfOk result (λ p. p.n ≤ 200) }
    {
        let mut points = [0; 6];
        let mut ids = [0; 200];
        let mut donor_blood = [0; 200];
        let mut patient_blood = [0; 200];
        let mut donor_age = [0; 200];
        let mut patient_age = [0; 200];
        let mut donor_antigens = [0; 200];
        let mut patient_antigens = [0; 200];
        let mut patient_antibodies = [0; 200];
        let mut shuffle = [0; 200];
        let head = reader::read(
            sheet,
            &mut Tables {
                points: &mut points,
                ids: &mut ids,
                donor_blood: &mut donor_blood,
                patient_blood: &mut patient_blood,
                donor_age: &mut donor_age,
                patient_age: &mut patient_age,
                donor_antigens: &mut donor_antigens,
                patient_antigens: &mut patient_antigens,
                patient_antibodies: &mut patient_antibodies,
                shuffle: &mut shuffle,
            },
        )?;
        Ok(Self {
            version: head.version,
            n: head.pairs,
            points,
            ids,
            donor_blood,
            patient_blood,
            donor_age,
            patient_age,
            donor_antigens,
            patient_antigens,
            patient_antibodies,
            shuffle,
        })
    }

    fn donor(&self, i: usize) -> Person
        requires { i < 200 }
    {
        Person {
            blood: Blood::from(self.donor_blood[i]),
            age: Age::from(self.donor_age[i]),
            antigens: self.donor_antigens[i],
        }
    }

    fn patient(&self, i: usize) -> Person
        requires { i < 200 }
    {
        Person {
            blood: Blood::from(self.patient_blood[i]),
            age: Age::from(self.patient_age[i]),
            antigens: self.patient_antigens[i],
        }
    }

    fn print(&self, rt: &impl Print) -> std::io::Result<()>
        requires { self.now.n ≤ 200 }
    {
        // one piece after the number, as what is lost is lost by the piece
        print!(rt; "{} pairs\n", self.n)?;
        // Version 1 has no points.
        if layout::has_points(self.version) {
            println!(rt; "points{}", Row(&self.points))?;
        }
        for i in 0..self.n {
            let id = self.ids[i];
            let donor = self.donor(i);
            let patient = self.patient(i);
            let antibodies = self.patient_antibodies[i];
            println!(rt; "pair {id}: donor {donor}, patient {patient} antibodies {antibodies:x}")?;
        }
        println!(rt; "shuffle{}", Row(&self.shuffle[..self.n]))
    }
}

fn look(rt: &impl Print, sheet: &[u8]) -> std::io::Result<()> {
    match Pool::read(sheet) {
        Ok(pool) => pool.print(rt),
        Err(refused) => println!(rt; "REFUSED {} {}", refused.why.number(), refused.place),
    }
}

fn main() {
    // The longest sheet has 7,425 bytes; one more shows that bytes are left over.
    let mut input = [0; 7426];
    let size = io::read_full(0, &mut input);
    // Output that is lost is lost silently.
    let _ = look(&Silent, &input[..size]);
}
