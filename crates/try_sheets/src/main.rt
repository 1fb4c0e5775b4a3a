// Sheets of both versions to try, and what reading and writing them says: document 01's example there and back, the limits, points, and each refusal with
// its place. What it prints is held to the file 'stdout'. Every lent entry holds 99 before a call.
#![tactic(auto)]

ghost use Rattle.std.specs.Prelude.{◌≤◌};

use fields::{Fields, Tables};
use reader::Head;
use refusal::{Refusal, Refused};
use silent::Silent;
use std::{fmt, io};

// Document 01's points.
const DOCUMENT: [u16; 6] = [1000, 400, 250, 100, 50, 30];

// Points to try in the example: "14 where the base is 0 or base, largest mismatch step and larger age step together exceed 65,535". After document 01's
// a base of 0, 1 and 65,535 alone; then the largest in each of three places and the larger in each of two, at the limit and one above it; then so much that
// 1 would be left of it in 16 bits.
const REGISTRIES: [[u16; 6]; 11] = [
    [1000, 400, 250, 100, 50, 30],
    [0, 400, 250, 100, 50, 30],
    [1, 0, 0, 0, 0, 0],
    [65535, 0, 0, 0, 0, 0],
    [5, 65000, 3, 4, 530, 2],
    [6, 65000, 3, 4, 530, 2],
    [5, 3, 65000, 4, 2, 530],
    [5, 3, 65001, 4, 2, 530],
    [5, 3, 4, 65000, 2, 530],
    [5, 3, 4, 65000, 2, 531],
    [65535, 65535, 0, 0, 3, 0],
];

// What is changed in the example as version 2: its base, and one byte, by its place. The other version, a later one, the tag and the length of the points;
// N with a base of 0, and the first pair's tag with it; a blood group, an id again, a number of the shuffle twice.
const CHANGES: [(u16, usize, u8); 9] = [
    (1000, 4, 1),
    (1000, 4, 3),
    (1000, 7, 3),
    (1000, 9, 10),
    (0, 6, 201),
    (0, 22, 3),
    (1000, 64, 4),
    (1000, 63, 11),
    (1000, 98, 0),
];

// What is written: the version, N, the base and how many points are lent; the second pair's donor blood and id, the second number of the shuffle, and the
// bytes of the buffer. First version 1, with each of its refusals; then what comes first of two faults, 3, 4, 9, 14, 6; then version 2.
const WRITTEN: [(u16, usize, u16, usize, u8, u32, u16, usize); 23] = [
    (1, 201, 0, 0, 2, 12, 1, 85),
    (1, 3, 0, 0, 2, 12, 1, 85),
    (1, 2, 0, 0, 4, 12, 1, 85),
    (1, 2, 0, 0, 2, 11, 1, 85),
    (1, 2, 0, 0, 2, 12, 0, 85),
    (1, 2, 0, 0, 2, 12, 1, 85),
    (1, 2, 0, 5, 2, 12, 1, 84),
    (1, 2, 0, 6, 2, 12, 1, 83),
    (1, 1, 0, 6, 4, 11, 0, 83),
    (0, 201, 1000, 6, 2, 12, 1, 100),
    (3, 2, 1000, 6, 2, 12, 1, 100),
    (2, 201, 0, 5, 4, 12, 1, 100),
    (2, 3, 0, 6, 4, 12, 1, 100),
    (2, 2, 0, 5, 4, 12, 1, 100),
    (2, 0, 0, 5, 4, 12, 1, 100),
    (2, 2, 0, 6, 4, 12, 1, 100),
    (2, 0, 0, 6, 4, 12, 1, 100),
    (2, 2, 1000, 6, 4, 12, 1, 100),
    (2, 2, 1000, 6, 2, 12, 0, 98),
    (2, 2, 1000, 6, 2, 12, 1, 98),
    (2, 2, 1000, 6, 2, 12, 1, 99),
    (2, 2, 1000, 6, 2, 12, 1, 100),
    (2, 0, 1000, 6, 4, 12, 1, 98),
];

// Document 01's example, and a byte after it.
const EXAMPLE: [u8; 85] = [
    1, 0, 4, 0, 1, 0, 2, 2, 0, 32, 0, 0, 0, 11, 1, 2, 0, 0, 0, 0, 0, 0, 0, 0, 0, 0, 0, 0, 0, 0, 0,
    0, 0, 0, 0, 0, 0, 0, 0, 0, 0, 0, 2, 0, 32, 0, 0, 0, 12, 2, 1, 0, 0, 0, 0, 0, 0, 0, 0, 0, 0, 0,
    0, 0, 0, 0, 0, 0, 0, 0, 0, 0, 0, 0, 0, 0, 0, 3, 0, 4, 0, 0, 0, 1, 0,
];

// Entries of a table, each after a blank.
#[derive(Clone, Copy)]
struct Row<'a>(&'a [u16]);

impl fmt::Display for Row<'_> {
    fn fmt<W: fmt::Write>(&self, f: &mut fmt::Formatter<W>) -> fmt::Result {
        for entry in self.0 {
            write!(f, " {entry}")?;
        }
        Ok(())
    }
}

// The first entry of a table and the last.
#[derive(Clone, Copy)]
struct Ends<'a, T>(&'a [T]);

impl<T: fmt::Display> fmt::Display for Ends<'_, T> {
    fn fmt<W: fmt::Write>(&self, f: &mut fmt::Formatter<W>) -> fmt::Result {
        match (self.0.first(), self.0.last()) {
            (Some(first), Some(last)) => write!(f, " | {first} {last}"),
            _ => Ok(()),
        }
    }
}

// What reading answered.
#[derive(Clone, Copy)]
struct Read(Result<Head, Refused>);

impl fmt::Display for Read {
    fn fmt<W: fmt::Write>(&self, f: &mut fmt::Formatter<W>) -> fmt::Result {
        match self.0 {
            Ok(head) => write!(f, "{} pairs of version {}", head.pairs, head.version),
            Err(refused) => write!(f, "refused {} at {}", refused.why.number(), refused.place),
        }
    }
}

// What writing answered.
#[derive(Clone, Copy)]
struct Written(Result<usize, Refusal>);

impl fmt::Display for Written {
    fn fmt<W: fmt::Write>(&self, f: &mut fmt::Formatter<W>) -> fmt::Result {
        match self.0 {
            Ok(n) => write!(f, "{n} bytes"),
            Err(why) => write!(f, "refused {} at 0", why.number()),
        }
    }
}

// The eight tables of the fields, for 200 pairs.
#[derive(Clone, Copy)]
struct Pool {
    ids: [u32; 200],
    donor_blood: [u8; 200],
    patient_blood: [u8; 200],
    donor_age: [u8; 200],
    patient_age: [u8; 200],
    donor_antigens: [u64; 200],
    patient_antigens: [u64; 200],
    patient_antibodies: [u64; 200],
}

impl Pool {
    fn fresh() -> Self {
        Self {
            ids: [99; 200],
            donor_blood: [99; 200],
            patient_blood: [99; 200],
            donor_age: [99; 200],
            patient_age: [99; 200],
            donor_antigens: [99; 200],
            patient_antigens: [99; 200],
            patient_antibodies: [99; 200],
        }
    }

    // Reads a sheet into them and into these tables for the points and the shuffle.
    fn read(
        &mut self,
        sheet: &[u8],
        points: &mut [u16],
        shuffle: &mut [u16],
    ) -> Result<Head, Refused> {
        reader::read(
            sheet,
            &mut Tables {
                points,
                ids: &mut self.ids,
                donor_blood: &mut self.donor_blood,
                patient_blood: &mut self.patient_blood,
                donor_age: &mut self.donor_age,
                patient_age: &mut self.patient_age,
                donor_antigens: &mut self.donor_antigens,
                patient_antigens: &mut self.patient_antigens,
                patient_antibodies: &mut self.patient_antibodies,
                shuffle,
            },
        )
    }

    fn fields(&self) -> Fields<'_> {
        Fields {
            ids: &self.ids,
            donor_blood: &self.donor_blood,
            patient_blood: &self.patient_blood,
            donor_age: &self.donor_age,
            patient_age: &self.patient_age,
            donor_antigens: &self.donor_antigens,
            patient_antigens: &self.patient_antigens,
            patient_antibodies: &self.patient_antibodies,
        }
    }

    // Writes their first pairs, as many as a head says.
    fn write(&self, head: Head, points: &[u16], shuffle: &[u16], out: &mut [u8]) -> Written {
        let fields = self.fields();
        Written(writer::write(head.version, head.pairs, points, fields, shuffle, out))
    }

    // One entry of each.
    fn print_entry(&self, rt: &impl Print, i: usize) -> io::Result<()>
        requires { i ≤ 199 }
    {
        print!(rt; " | {}", self.ids[i])?;
        print!(rt; " {} {}", self.donor_blood[i], self.patient_blood[i])?;
        print!(rt; " {} {}", self.donor_age[i], self.patient_age[i])?;
        print!(rt; " {} {}", self.donor_antigens[i], self.patient_antigens[i])?;
        print!(rt; " {}", self.patient_antibodies[i])
    }
}

// Reads a sheet into tables of 200 entries and these for the points and the shuffle; prints the answer, and what stands then at the first and the last
// entry of the tables, and in all of the points'.
fn try_reading(
    rt: &impl Print,
    name: impl fmt::Display + Drop,
    sheet: &[u8],
    points: &mut [u16],
    shuffle: &mut [u16],
) -> io::Result<()> {
    let mut fields = Pool::fresh();
    let answer = fields.read(sheet, points, shuffle);
    print!(rt; "{name}: {}", Read(answer))?;
    fields.print_entry(rt, 0)?;
    fields.print_entry(rt, 199)?;
    println!(rt; "{} | points{}", Ends(shuffle), Row(points))
}

// Reads a sheet with room for 200 pairs, and for six points and one past them.
fn try_sheet(rt: &impl Print, name: impl fmt::Display + Drop, sheet: &[u8]) -> io::Result<()> {
    try_reading(rt, name, sheet, &mut [99; 7], &mut [99; 200])
}

// The example with one byte changed.
fn changed(at: usize, to: u8) -> [u8; 85] {
    let mut sheet = EXAMPLE;
    if let Some(byte) = sheet.get_mut(at) {
        *byte = to;
    }
    sheet
}

// Reads the first `size` bytes of the example with one byte changed.
fn try_changed(rt: &impl Print, name: &str, at: usize, to: u8, size: usize) -> io::Result<()>
    requires { size ≤ 85 }
{
    let sheet = changed(at, to);
    try_sheet(rt, name, &sheet[..size])
}

// Reads them with a table for one number of the shuffle.
fn try_short(rt: &impl Print, name: &str, size: usize) -> io::Result<()>
    requires { size ≤ 85 }
{
    try_reading(rt, name, &EXAMPLE[..size], &mut [99; 7], &mut [99; 1])
}

// The example as version 2 with these points: what follows the head stands 15 bytes further on.
fn second(points: [u16; 6]) -> [u8; 99] {
    let mut sheet = [0; 99];
    sheet[..10].copy_from_slice(&[1, 0, 4, 0, 2, 0, 2, 4, 0, 12]);
    for k in 0..6 {
        sheet[10 + 2 * k] = (points[k] / 256) as u8;
        sheet[11 + 2 * k] = (points[k] % 256) as u8;
    }
    sheet[22..].copy_from_slice(&EXAMPLE[7..84]);
    sheet
}

// Reads the first `size` bytes of the example as version 2 with these points and one byte changed.
fn try_second(
    rt: &impl Print,
    name: impl fmt::Display + Drop,
    points: [u16; 6],
    at: usize,
    to: u8,
    size: usize,
) -> io::Result<()>
    requires { size ≤ 99 }
{
    let mut sheet = second(points);
    if let Some(byte) = sheet.get_mut(at) {
        *byte = to;
    }
    try_sheet(rt, name, &sheet[..size])
}

// Its first bytes, cut off in the field of the points and just after it.
fn try_cuts(rt: &impl Print) -> io::Result<()> {
    for size in 7..23 {
        try_second(
            rt,
            format_args!("version 2 cut at {size}"),
            DOCUMENT,
            0,
            1,
            size,
        )?;
    }
    Ok(())
}

// The example as version 2 with each of the points to try.
fn try_registries(rt: &impl Print) -> io::Result<()> {
    for points in REGISTRIES {
        print!(rt; "version 2, points{}", Row(&points))?;
        try_second(rt, "", points, 0, 1, 99)?;
    }
    Ok(())
}

// And with document 01's, and each of the changes.
fn try_changes(rt: &impl Print) -> io::Result<()> {
    for (base, at, to) in CHANGES {
        let mut points = DOCUMENT;
        points[0] = base;
        print!(rt; "version 2, base {base}, byte {at} is {to}")?;
        try_second(rt, "", points, at, to, 99)?;
    }
    Ok(())
}

// Writes the first pairs of two, as each row says; prints the answer and what stands then at the first and the last byte of the buffer.
fn try_written(rt: &impl Print) -> io::Result<()> {
    for (version, n, base, count, blood, id, number, room) in WRITTEN {
        print!(rt; "written, version {version}, pairs {n}, base {base} of points {count}")?;
        print!(rt; ", blood {blood}, id {id}, number {number}, into {room}: ")?;
        let mut points = DOCUMENT;
        points[0] = base;
        let mut buffer = [99; 100];
        let out = &mut buffer[..room.min(100)];
        let ages = [0; 2];
        let tissue = [0; 2];
        let answer = Written(writer::write(
            version,
            n,
            &points[..count.min(6)],
            Fields {
                ids: &[11, id],
                donor_blood: &[1, blood],
                patient_blood: &[2, 1],
                donor_age: &ages,
                patient_age: &ages,
                donor_antigens: &tissue,
                patient_antigens: &tissue,
                patient_antibodies: &tissue,
            },
            &[0, number],
            out,
        ));
        println!(rt; "{answer}{}", Ends(out))?;
    }
    Ok(())
}

// Reads a sheet, writes its pool again from the tables that it was read into, and compares.
fn try_round_trip(rt: &impl Print, name: &str, sheet: &[u8], out: &mut [u8]) -> io::Result<()> {
    let mut points = [99; 6];
    let mut shuffle = [99; 200];
    let mut fields = Pool::fresh();
    let answer = fields.read(sheet, &mut points, &mut shuffle);
    match answer {
        Ok(head) => {
            let answer = fields.write(head, &points, &shuffle, out);
            print!(rt; "{name}: {answer}")?;
        }
        Err(_) => print!(rt; "{name}: {}", Read(answer))?,
    }
    if sheet == out {
        print!(rt; ", the same")?;
    }
    println!(rt)
}

// The greatest pool, ids and shuffle 0 to 199, written with document 01's points.
fn write_greatest(version: u16, out: &mut [u8]) -> Written {
    let mut ids = [0; 200];
    let mut shuffle = [0; 200];
    for i in 0..200u8 {
        ids[usize::from(i)] = u32::from(i);
        shuffle[usize::from(i)] = u16::from(i);
    }
    let groups = [0; 200];
    let tissue = [0; 200];
    let fields = Fields {
        ids: &ids,
        donor_blood: &groups,
        patient_blood: &groups,
        donor_age: &groups,
        patient_age: &groups,
        donor_antigens: &tissue,
        patient_antigens: &tissue,
        patient_antibodies: &tissue,
    };
    Written(writer::write(version, 200, &DOCUMENT, fields, &shuffle, out))
}

// Written into a buffer of just so many bytes, and read; then with 201 for its 200.
fn try_greatest(rt: &impl Print, version: u16, sheet: &mut [u8]) -> io::Result<()> {
    let answer = write_greatest(version, sheet);
    println!(rt; "200 pairs written: {answer}")?;
    try_sheet(rt, "200 pairs read", sheet)?;
    if let Some(n) = sheet.get_mut(6) {
        *n = 201;
    }
    try_sheet(rt, "201 pairs", sheet)
}

fn try_limits(rt: &impl Print) -> io::Result<()> {
    try_sheet(rt, "no pairs", &[1, 0, 4, 0, 1, 0, 0, 3, 0, 0])?;
    try_greatest(rt, 1, &mut [99; 7410])?;
    try_greatest(rt, 2, &mut [99; 7425])?;
    let answer = write_greatest(2, &mut [99; 7424]);
    println!(rt; "200 pairs of version 2 into 7,424 bytes: {answer}")
}

fn try_round_trips(rt: &impl Print) -> io::Result<()> {
    let sheet = &EXAMPLE[..84];
    try_round_trip(rt, "copied", sheet, &mut [99; 84])?;
    try_round_trip(rt, "copied into 83 bytes", sheet, &mut [99; 83])
}

// The same in version 2; and into a byte more, which is then read with the rest.
fn try_second_round_trips(rt: &impl Print) -> io::Result<()> {
    let sheet = second(DOCUMENT);
    try_round_trip(rt, "version 2 copied", &sheet, &mut [99; 99])?;
    try_round_trip(rt, "version 2 copied into 98 bytes", &sheet, &mut [99; 98])?;
    let mut long = [99; 100];
    try_round_trip(rt, "version 2 copied into 100 bytes", &sheet, &mut long)?;
    try_sheet(rt, "  a byte too many", &long)?;
    try_reading(
        rt,
        "  and a table of five points",
        &long,
        &mut [99; 5],
        &mut [99; 200],
    )
}

fn try_refusals(rt: &impl Print) -> io::Result<()> {
    try_changed(rt, "nothing", 0, 1, 0)?;
    try_changed(rt, "the head's start cut off", 0, 1, 2)?;
    try_changed(rt, "the head's value cut off", 0, 1, 6)?;
    try_changed(rt, "the second pair missing", 0, 1, 42)?;
    try_changed(rt, "the shuffle's value cut off", 0, 1, 83)?;
    try_changed(rt, "another tag", 42, 3, 84)?;
    try_changed(rt, "another length", 44, 33, 84)?;
    try_changed(rt, "version 0", 4, 0, 84)?;
    try_changed(rt, "version 3", 4, 3, 84)?;
    try_changed(rt, "200 pairs said, two there", 6, 200, 84)?;
    try_changed(rt, "201 pairs said", 6, 201, 84)?;
    try_changed(rt, "a byte too many", 0, 1, 85)
}

fn try_more_refusals(rt: &impl Print) -> io::Result<()> {
    try_changed(rt, "blood 4", 49, 4, 84)?;
    try_changed(rt, "age group 2", 17, 2, 84)?;
    try_changed(rt, "an id again", 48, 11, 84)?;
    try_changed(rt, "a number twice", 83, 0, 84)?;
    try_changed(rt, "a number twice and a byte too many", 83, 0, 85)?;
    try_short(rt, "a byte too many and a table too short", 85)?;
    try_short(rt, "a table too short", 84)
}

// Reads a sheet with a table for so many points, and one for two numbers of the shuffle.
fn try_within(rt: &impl Print, name: &str, sheet: &[u8], count: usize) -> io::Result<()>
    requires { count ≤ 7 }
{
    let mut points = [99; 7];
    try_reading(rt, name, sheet, &mut points[..count], &mut [99; 2])
}

// For version 1 any table of points will do; version 2 wants six, with no pairs too.
fn try_room(rt: &impl Print, count: usize) -> io::Result<()>
    requires { count ≤ 7 }
{
    let none = [
        1, 0, 4, 0, 2, 0, 0, 4, 0, 12, 0, 1, 0, 2, 0, 3, 0, 4, 0, 5, 0, 6, 3, 0, 0,
    ];
    println!(rt; "room for points: {count}")?;
    try_within(rt, "  version 1", &EXAMPLE[..84], count)?;
    try_within(rt, "  version 2", &second(DOCUMENT), count)?;
    try_within(rt, "  version 2, no pairs", &none, count)
}

fn run(rt: &impl Print) -> io::Result<()> {
    try_changed(rt, "the example", 0, 1, 84)?;
    try_round_trips(rt)?;
    try_second_round_trips(rt)?;
    try_limits(rt)?;
    try_refusals(rt)?;
    try_more_refusals(rt)?;
    try_changed(rt, "version 2 without points", 4, 2, 84)?;
    try_cuts(rt)?;
    try_registries(rt)?;
    try_changes(rt)?;
    try_room(rt, 0)?;
    try_room(rt, 5)?;
    try_room(rt, 6)?;
    try_room(rt, 7)?;
    try_written(rt)
}

fn main() {
    // Where output is lost, it is lost silently.
    let _ = run(&Silent);
}
