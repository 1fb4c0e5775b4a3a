// Sheets to try, and what joining them says (document 02, W-201 and W-205): document 01's example with an addendum of one pair and of two, no pairs on
// either side, the same in version 2, the limits, versions and points that differ, and each refusal in its order. What it prints is held to the file
// 'stdout'. Every lent byte holds 99 before a call.
#![tactic(auto)]

ghost use Rattle.std.specs.Prelude.{◌+◌, ◌≤◌};

use silent::Silent;
use std::io;

// Two sheets: the version, N and the first id of each; then a point of the second that is another, by its number, 6 for none, and what it is. Version 1
// beside version 2 with document 01's points, and with no pairs on one side or both; each of the six points one more, and with no pairs in the first; an id in
// both, alone, with another point and with another version; a base of 0 in the second beside version 1. Then sheets that can be joined.
const SHEETS: [[usize; 8]; 20] = [
    [1, 2, 11, 2, 1, 13, 6, 0],
    [2, 1, 13, 1, 2, 11, 6, 0],
    [1, 2, 11, 2, 0, 0, 6, 0],
    [1, 0, 0, 2, 1, 13, 6, 0],
    [1, 0, 0, 2, 0, 0, 6, 0],
    [2, 1, 13, 2, 1, 14, 0, 1001],
    [2, 1, 13, 2, 1, 14, 1, 401],
    [2, 1, 13, 2, 1, 14, 2, 251],
    [2, 1, 13, 2, 1, 14, 3, 101],
    [2, 1, 13, 2, 1, 14, 4, 51],
    [2, 1, 13, 2, 1, 14, 5, 31],
    [2, 0, 0, 2, 1, 14, 5, 31],
    [2, 1, 12, 2, 1, 12, 6, 0],
    [2, 1, 12, 2, 1, 12, 5, 31],
    [1, 2, 11, 2, 1, 12, 6, 0],
    [1, 2, 11, 2, 1, 12, 0, 0],
    [2, 2, 11, 2, 1, 13, 6, 0],
    [2, 2, 11, 2, 0, 0, 6, 0],
    [2, 0, 0, 2, 2, 11, 6, 0],
    [1, 2, 11, 1, 1, 13, 6, 0],
];

// The byte at a place, and 0 past the end.
fn byte(sheet: &[u8], at: usize) -> usize
    ensures { result ≤ 255 }
{
    match sheet.get(at) {
        Some(byte) => usize::from(*byte),
        None => 0,
    }
}

// Sets the byte at a place, if there is one.
fn set(sheet: &mut [u8], at: usize, to: usize) {
    if let Some(byte) = sheet.get_mut(at) {
        *byte = (to % 256) as u8;
    }
}

// Sets a number of two bytes.
fn set_number(sheet: &mut [u8], at: usize, to: usize)
    requires { at ≤ 20 }
{
    set(sheet, at, to / 256);
    set(sheet, at + 1, to);
}

// Where the pairs begin in a sheet that says this version.
fn start(version: usize) -> usize
    ensures { result ≤ 22 }
{
    if version == 2 { 22 } else { 7 }
}

// Document 01's points, in the field of version 2.
fn set_points(sheet: &mut [u8]) {
    set(sheet, 7, 4);
    set(sheet, 9, 12);
    set_number(sheet, 10, 1000);
    set_number(sheet, 12, 400);
    set_number(sheet, 14, 250);
    set_number(sheet, 16, 100);
    set_number(sheet, 18, 50);
    set_number(sheet, 20, 30);
}

// The head, and in version 2 the points.
fn set_head(sheet: &mut [u8], version: usize, n: usize) {
    set(sheet, 0, 1);
    set(sheet, 2, 4);
    set(sheet, 4, version);
    set(sheet, 6, n);
    if version == 2 {
        set_points(sheet);
    }
}

// The field of pair i, with this id, and its number in the shuffle of n; all else is 0.
fn set_pair(sheet: &mut [u8], from: usize, n: usize, i: usize, id: usize, drawn: usize)
    requires { (from ≤ 22) × (n ≤ 201) × (i ≤ 201) }
{
    let at = from + 35 * i;
    set(sheet, at, 2);
    set(sheet, at + 2, 32);
    set(sheet, at + 6, id);
    set(sheet, from + 35 * n + 4 + 2 * i, drawn);
}

// A sheet of n pairs with ids from `id` on, in zeros. The shuffle goes up from 0, or, where `turned`, down to it.
fn fill(sheet: &mut [u8], version: usize, n: usize, id: usize, turned: bool)
    requires { (n ≤ 201) × (id + n ≤ 256) }
{
    set_head(sheet, version, n);
    let from = start(version);
    for i in 0..n {
        let drawn = if turned { n - 1 - i } else { i };
        set_pair(sheet, from, n, i, id + i, drawn);
    }
    let last = from + 35 * n;
    set(sheet, last, 3);
    set(sheet, last + 1, 2 * n / 256);
    set(sheet, last + 2, 2 * n);
}

// Document 01's example: ids 11 and 12, A to B and B to A.
fn example() -> [u8; 84] {
    let mut sheet = [0u8; 84];
    fill(&mut sheet, 1, 2, 11, false);
    set(&mut sheet, 14, 1);
    set(&mut sheet, 15, 2);
    set(&mut sheet, 49, 2);
    set(&mut sheet, 50, 1);
    sheet
}

// Where the last byte of pair i's id stands, or that of its number in the shuffle of n, in a sheet whose pairs begin at `from`.
fn place(from: usize, n: usize, i: usize, shuffle: bool) -> usize
    requires { (from ≤ 22) × (n ≤ 255) × (i ≤ 255) }
{
    if shuffle {
        from + 4 + 35 * n + 2 * i
    } else {
        from + 6 + 35 * i
    }
}

// The ids of n pairs, or the shuffle: the last byte of each, or of many only of the first and the last.
fn print_row(rt: &impl Print, sheet: &[u8], n: usize, shuffle: bool) -> io::Result<()>
    requires { n ≤ 255 }
{
    print!(rt; " |")?;
    let from = start(byte(sheet, 4));
    for i in 0..n {
        if n < 6 || i == 0 || i + 1 == n {
            print!(rt; " {}", byte(sheet, place(from, n, i, shuffle)))?;
        }
    }
    Ok(())
}

// The points of version 2.
fn print_points(rt: &impl Print, sheet: &[u8]) -> io::Result<()> {
    print!(rt; " | points")?;
    for k in 0..6 {
        let point = 256 * byte(sheet, 10 + 2 * k) + byte(sheet, 11 + 2 * k);
        print!(rt; " {point}")?;
    }
    Ok(())
}

// What is in the buffer: N and the version, the points, the ids, the shuffle, and what stands past the sheet.
fn print_sheet(rt: &impl Print, out: &[u8], length: usize) -> io::Result<()> {
    let n = byte(out, 6);
    let version = byte(out, 4);
    print!(rt; " | {n} pairs of version {version}")?;
    if version == 2 {
        print_points(rt, out)?;
    }
    print_row(rt, out, n, false)?;
    print_row(rt, out, n, true)?;
    if let Some(past) = out.get(length) {
        print!(rt; " | {past}")?;
    }
    Ok(())
}

// Joins two sheets; prints the answer, and what stands then in the buffer: the sheet, or the first byte and the last.
fn try_joining(
    rt: &impl Print,
    name: &str,
    first: &[u8],
    second: &[u8],
    out: &mut [u8],
) -> io::Result<()> {
    print!(rt; "{name}:")?;
    match joining::join(first, second, out) {
        Ok(length) => {
            print!(rt; " {length} bytes")?;
            print_sheet(rt, out, length)?;
        }
        Err(refused) => {
            print!(rt; " refused {} at {}", refused.why.number(), refused.place)?;
            if let (Some(first), Some(last)) = (out.first(), out.last()) {
                print!(rt; " | {first} {last}")?;
            }
        }
    }
    println!(rt)
}

// Joins two sheets, and says whether the buffer begins with the sheet that is due.
fn try_same(
    rt: &impl Print,
    name: &str,
    first: &[u8],
    second: &[u8],
    due: &[u8],
) -> io::Result<()> {
    let mut out = [99; 200];
    try_joining(rt, name, first, second, &mut out)?;
    if out.starts_with(due) {
        println!(rt; "  the same sheet")?;
    }
    Ok(())
}

// Document 01's example, with addenda of one pair and of two.
fn try_addenda(rt: &impl Print) -> io::Result<()> {
    let sheet = example();
    let mut one = [0; 47];
    fill(&mut one, 1, 1, 13, false);
    let mut two = [0; 84];
    fill(&mut two, 1, 2, 13, true);
    let mut out = [99; 122];
    try_joining(rt, "an addendum of one pair", &sheet, &one, &mut out)?;
    let mut more = [99; 159];
    try_joining(
        rt,
        "an addendum of two pairs, shuffle 1 0",
        &sheet,
        &two,
        &mut more,
    )
}

// With a sheet of no pairs.
fn try_empty(rt: &impl Print) -> io::Result<()> {
    let sheet = example();
    let mut none = [0; 10];
    fill(&mut none, 1, 0, 0, false);
    try_same(rt, "no pairs in the addendum", &sheet, &none, &sheet)?;
    try_same(rt, "no pairs in the first", &none, &sheet, &sheet)?;
    try_same(rt, "no pairs in either", &none, &none, &none)
}

// Buffers that are just long enough, a byte too short, and none.
fn try_buffers(rt: &impl Print) -> io::Result<()> {
    let sheet = example();
    let mut one = [0; 47];
    fill(&mut one, 1, 1, 13, false);
    let mut out = [99; 121];
    try_joining(rt, "a buffer just long enough", &sheet, &one, &mut out)?;
    let mut short = [99; 120];
    try_joining(rt, "a buffer a byte too short", &sheet, &one, &mut short)?;
    let mut nothing = [99; 0];
    try_joining(rt, "no buffer", &sheet, &one, &mut nothing)
}

// 200 pairs together, in two sheets of so many bytes, into a buffer a byte longer than need be and into none.
fn try_200(rt: &impl Print, name: &str, version: usize, size: usize) -> io::Result<()>
    requires { size ≤ 3725 }
{
    let mut first = [0; 3725];
    fill(&mut first, version, 100, 0, true);
    let mut second = [0; 3725];
    fill(&mut second, version, 100, 100, false);
    let mut out = [99; 7426];
    try_joining(rt, name, &first[..size], &second[..size], &mut out)?;
    let mut nothing = [99; 0];
    try_joining(
        rt,
        "  no buffer",
        &first[..size],
        &second[..size],
        &mut nothing,
    )
}

// 201 pairs together, the second's of this version, in so many bytes, with this id in its last pair, into a buffer that would hold them and into none.
fn try_201(rt: &impl Print, name: &str, version: usize, size: usize, id: usize) -> io::Result<()>
    requires { size ≤ 3762 }
{
    let mut first = [0; 3710];
    fill(&mut first, 1, 100, 0, true);
    let mut second = [0; 3762];
    fill(&mut second, version, 101, 100, false);
    set(&mut second, start(version) + 6 + 35 * 100, id);
    let mut out = [99; 7447];
    try_joining(rt, name, &first, &second[..size], &mut out)?;
    let mut nothing = [99; 0];
    try_joining(rt, "  no buffer", &first, &second[..size], &mut nothing)
}

// A fault of the first sheet, of the second, and of both. The buffer is too short as well.
fn try_own_faults(rt: &impl Print) -> io::Result<()> {
    let sheet = example();
    let mut wrong = example();
    set(&mut wrong, 49, 4);
    let mut long = [0; 48];
    fill(&mut long, 1, 1, 13, false);
    let mut out = [99; 9];
    try_joining(rt, "blood 4 in the first", &wrong, &sheet, &mut out)?;
    try_joining(rt, "a byte too many in the second", &sheet, &long, &mut out)?;
    try_joining(rt, "both", &wrong, &long, &mut out)?;
    try_joining(rt, "both, the other way round", &long, &wrong, &mut out)
}

// The id of the first's last pair, in a sheet with a byte too many and in one without.
fn try_shared(rt: &impl Print) -> io::Result<()> {
    let sheet = example();
    let mut one = [0; 47];
    fill(&mut one, 1, 1, 12, false);
    let mut long = [0; 48];
    fill(&mut long, 1, 1, 12, false);
    let mut out = [99; 122];
    try_joining(
        rt,
        "an id in both, and a byte too many",
        &sheet,
        &long,
        &mut out,
    )?;
    try_joining(rt, "an id in both", &sheet, &one, &mut out)?;
    try_joining(rt, "a sheet with itself", &sheet, &sheet, &mut out)
}

// The bytes of a sheet of a few pairs.
fn size(version: usize, n: usize) -> usize
    requires { n ≤ 2 }
    ensures { result ≤ 99 }
{
    start(version) + 37 * n + 3
}

// A sheet of a few pairs, in 99 bytes.
fn small(version: usize, n: usize, id: usize, turned: bool) -> [u8; 99] {
    let mut sheet = [0; 99];
    if n <= 2 && id <= 99 {
        fill(&mut sheet, version, n, id, turned);
    }
    sheet
}

// Joins the sheets of each row.
fn try_rows(rt: &impl Print) -> io::Result<()> {
    for [version, m, id, second_version, n, second_id, k, to] in SHEETS {
        print!(rt; "versions {version} {second_version}, pairs {m} {n}")?;
        print!(rt; ", ids from {id} {second_id}, point {k} is {to}")?;
        let first = small(version, m, id, true);
        let mut second = small(second_version, n, second_id, false);
        if k < 6 {
            set_number(&mut second, 10 + 2 * k, to);
        }
        if m <= 2 && n <= 2 {
            let first = &first[..size(version, m)];
            let second = &second[..size(second_version, n)];
            try_joining(rt, "", first, second, &mut [99; 137])?;
        }
    }
    Ok(())
}

fn run(rt: &impl Print) -> io::Result<()> {
    try_addenda(rt)?;
    try_empty(rt)?;
    try_buffers(rt)?;
    try_200(rt, "100 and 100 pairs", 1, 3710)?;
    try_200(rt, "100 and 100 pairs of version 2", 2, 3725)?;
    try_201(rt, "100 and 101 pairs", 1, 3747, 200)?;
    try_201(rt, "100 and 101 pairs, an id in both", 1, 3747, 99)?;
    try_201(
        rt,
        "100 and 101 pairs, an id in both, and another version",
        2,
        3762,
        99,
    )?;
    try_own_faults(rt)?;
    try_shared(rt)?;
    try_rows(rt)
}

fn main() {
    // Where output is lost, it is lost silently.
    let _ = run(&Silent);
}
