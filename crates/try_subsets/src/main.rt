// Numbers of subsets to try, and the places that they stand for (document 02, W-203): all of up to 12 places in order, and single ones of 36 and of 200,
// there and back. What it prints is held to the file 'stdout'.
#![tactic(auto)]

ghost use Rattle.std.specs.Prelude.{◌≤◌, ◌<◌};
ghost use Rattle.exchange.specs.Subsets.{up_to_three, subset_count};

use cursor::Places;
use silent::Silent;
use std::{fmt, io};

// A cursor of n places: the places that it stands at, each after a blank, or none.
#[derive(Clone, Copy)]
struct Cursor {
    n: usize,
    at: Places,
}

impl fmt::Display for Cursor {
    fn fmt<W: fmt::Write>(&self, f: &mut fmt::Formatter<W>) -> fmt::Result {
        let Places { u, v, w } = self.at;
        if u == self.n {
            write!(f, " none")
        } else if w < self.n {
            write!(f, " {u} {v} {w}")
        } else {
            write!(f, " {u} {v}")
        }
    }
}

// The places of number k.
fn places(n: usize, k: usize) -> Cursor
    requires { (n ≤ 200) × (k ≤ subset_count (up_to_three n)) }
{
    Cursor {
        n,
        at: cursor::at(n, k),
    }
}

// The number that comes back from the places of number k.
fn there_and_back(n: usize, k: usize) -> usize
    requires { (n ≤ 200) × (k < subset_count (up_to_three n)) }
{
    cursor::number_of(n, cursor::at(n, k))
}

// All subsets of n places: the places of all numbers in order, and how many numbers come back.
fn try_all(rt: &impl Print, n: usize) -> io::Result<()>
    requires { n ≤ 200 }
{
    let count = cursor::count(n);
    print!(rt; "of {n} places {count}:")?;
    for k in 0..count {
        print!(rt; "{},", places(n, k))?;
    }
    let back = (0..count).filter(|k| there_and_back(n, *k) == *k).count();
    println!(rt; " back {back}")
}

// The subset of number k of n places; past the last there is none.
fn try_one(rt: &impl Print, n: usize, k: usize) -> io::Result<()>
    requires { n ≤ 200 }
{
    let count = cursor::count(n);
    print!(rt; "of {n} places, number {k}:")?;
    if k < count {
        print!(rt; "{}, back {}", places(n, k), there_and_back(n, k))?;
    }
    if k == count {
        print!(rt; "{}", places(n, k))?;
    }
    println!(rt)
}

fn run(rt: &impl Print) -> io::Result<()> {
    for n in 0..=12 {
        try_all(rt, n)?;
    }
    for k in [1000, 2921, 7139, 7140, 7316, 7769, 7770] {
        try_one(rt, 36, k)?;
    }
    for k in [
        0, 19700, 19701, 841430, 1000000, 1313399, 1313400, 1323190, 1333299, 1333300,
    ] {
        try_one(rt, 200, k)?;
    }
    Ok(())
}

fn main() {
    // Where output is lost, it is lost silently.
    let _ = run(&Silent);
}
