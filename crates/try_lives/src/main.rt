// A live pool from call to call: a run of document 02's W-206 and W-207 with its tables after each call, each refusal and what comes first of two, tables that a caller
// changed, and two hundred pairs. What it prints is held to the file 'stdout', which is what the planner in Rust prints (trial/examples/lives.rs).
#![tactic(auto)]

ghost use Rattle.std.specs.Prelude.{◌*◌, ◌≡◌, ◌≤◌};

use live::Pair;
use points::Points;
use refusal::Refusal;
use silent::Silent;
use std::{fmt, io};

// Entries of a table, each after a blank.
#[derive(Clone, Copy)]
struct Row<'a, T>(&'a [T]);

impl<T: fmt::Display> fmt::Display for Row<'_, T> {
    fn fmt<W: fmt::Write>(&self, f: &mut fmt::Formatter<W>) -> fmt::Result {
        for entry in self.0 {
            write!(f, " {entry}")?;
        }
        Ok(())
    }
}

// What a call answered.
#[derive(Clone, Copy)]
struct Answer(Result<(), Refusal>);

impl Answer {
    fn is_done(self) -> bool {
        self.0.is_ok()
    }
}

impl fmt::Display for Answer {
    fn fmt<W: fmt::Write>(&self, f: &mut fmt::Formatter<W>) -> fmt::Result {
        match self.0 {
            Ok(()) => write!(f, "done"),
            Err(why) => write!(f, "refused {}", why.number()),
        }
    }
}

// What a pool is asked.
#[derive(Clone, Copy)]
enum Call {
    Register(Pair),
    Withdraw(u32),
}

// How many entries of the points, of the ids, of M, of W and of the numbers of suitable donors are lent to a call. The other tables are lent whole.
#[derive(Clone, Copy)]
struct Lent {
    points: usize,
    ids: usize,
    m: usize,
    w: usize,
    suitable: usize,
}

// Every table.
const WHOLE: Lent = Lent {
    points: 6,
    ids: 200,
    m: 40000,
    w: 40000,
    suitable: 200,
};

// Document 01's points.
const DOCUMENT: Points = Points {
    base: 1000,
    none: 400,
    few: 250,
    some: 100,
    equal: 50,
    young_to_senior: 30,
};

// The number of entries for so many pairs.
fn square(n: usize) -> usize
    requires { n ≤ 200 }
    ensures within { result ≤ 40000 }
    ensures value { result ≡ n * n }
{
    n * n
}

// The sum of a table's entries.
fn total<T: Copy + Into<u64>>(entries: &[T]) -> u64 {
    entries
        .iter()
        .fold(0u64, |sum, entry| sum.saturating_add((*entry).into()))
}

// A pool's count and tables.
#[derive(Clone, Copy)]
struct Pool {
    count: usize,
    points: [u16; 6],
    ids: [u32; 200],
    donor_blood: [u8; 200],
    patient_blood: [u8; 200],
    donor_age: [u8; 200],
    patient_age: [u8; 200],
    donor_antigens: [u64; 200],
    patient_antigens: [u64; 200],
    patient_antibodies: [u64; 200],
    m: [u8; 40000],
    w: [u16; 40000],
    suitable: [u16; 200],
}

impl Pool {
    // Tables of zeros, and a count that starting sets to 0.
    fn zeros() -> Self {
        Self {
            count: 5,
            points: [0; 6],
            ids: [0; 200],
            donor_blood: [0; 200],
            patient_blood: [0; 200],
            donor_age: [0; 200],
            patient_age: [0; 200],
            donor_antigens: [0; 200],
            patient_antigens: [0; 200],
            patient_antibodies: [0; 200],
            m: [0; 40000],
            w: [0; 40000],
            suitable: [0; 200],
        }
    }

    // A pool with no pairs and document 01's points.
    fn started() -> Self {
        let mut pool = Self::zeros();
        pool.start();
        pool
    }

    // A pool in which the run's first two pairs are registered.
    fn of_two() -> Self {
        let mut pool = Self::started();
        pool.register(eleven());
        pool.register(twelve());
        pool
    }

    fn start(&mut self) -> Answer {
        Answer(keeping::start(DOCUMENT, &mut self.points, &mut self.count))
    }

    // Makes a call, to which so much is lent, and no more than there is.
    fn answer(&mut self, lent: Lent, call: Call) -> Answer {
        let points = &self.points[..lent.points.min(6)];
        let ids = &mut self.ids[..];
        let m = &mut self.m[..];
        let w = &mut self.w[..];
        let suitable = &mut self.suitable[..];
        let ids = &mut ids[..lent.ids.min(200)];
        let m = &mut m[..lent.m.min(40000)];
        let w = &mut w[..lent.w.min(40000)];
        let suitable = &mut suitable[..lent.suitable.min(200)];
        Answer(match call {
            Call::Register(pair) => registering::register(
                &mut self.count,
                points,
                ids,
                &mut self.donor_blood,
                &mut self.patient_blood,
                &mut self.donor_age,
                &mut self.patient_age,
                &mut self.donor_antigens,
                &mut self.patient_antigens,
                &mut self.patient_antibodies,
                m,
                w,
                suitable,
                pair,
            ),
            Call::Withdraw(id) => withdrawing::withdraw(
                &mut self.count,
                points,
                ids,
                &mut self.donor_blood,
                &mut self.patient_blood,
                &mut self.donor_age,
                &mut self.patient_age,
                &mut self.donor_antigens,
                &mut self.patient_antigens,
                &mut self.patient_antibodies,
                m,
                w,
                suitable,
                id,
            ),
        })
    }

    // Registers a pair, with every table lent whole.
    fn register(&mut self, pair: Pair) -> Answer {
        self.answer(WHOLE, Call::Register(pair))
    }

    // Withdraws an id, with every table lent whole.
    fn withdraw(&mut self, id: u32) -> Answer {
        self.answer(WHOLE, Call::Withdraw(id))
    }

    // How many pairs it has, and no more than there may be.
    fn pairs(&self) -> usize
        ensures { result ≤ 200 }
    {
        self.count.min(200)
    }

    // The ids that are held, and their tables.
    fn print_held(&self, rt: &impl Print) -> io::Result<()> {
        let n = self.pairs();
        println!(rt; "ids{}", Row(&self.ids[..n]))?;
        println!(rt; "M{}", Row(&self.m[..square(n)]))?;
        println!(rt; "W{}", Row(&self.w[..square(n)]))?;
        println!(rt; "suitable{}", Row(&self.suitable[..n]))
    }

    // What lies past them, as far as a pool of one more would reach.
    fn print_past(&self, rt: &impl Print) -> io::Result<()> {
        let n = self.pairs();
        let more = (n + 1).min(200);
        print!(rt; "past{}", Row(&self.ids[n..more]))?;
        print!(rt; "{}", Row(&self.m[square(n)..square(more)]))?;
        print!(rt; "{}", Row(&self.w[square(n)..square(more)]))?;
        println!(rt; "{}", Row(&self.suitable[n..more]))
    }

    // The sums of M, of W and of the numbers of suitable donors.
    fn print_sums(&self, rt: &impl Print) -> io::Result<()> {
        let n = self.pairs();
        let of_m = total(&self.m[..square(n)]);
        let of_w = total(&self.w[..square(n)]);
        println!(rt; " {of_m} {of_w} {}", total(&self.suitable[..n]))
    }
}

// A pair whose ages, antigens and antibodies are 0.
fn of_blood(id: u32, donor_blood: u8, patient_blood: u8) -> Pair {
    Pair {
        id,
        donor_blood,
        patient_blood,
        donor_age: 0,
        patient_age: 0,
        donor_antigens: 0,
        patient_antigens: 0,
        patient_antibodies: 0,
    }
}

// The run's three pairs: document 01's, A to B and B to A; and O to O, with a senior donor who has three antigens.
fn eleven() -> Pair {
    of_blood(11, 1, 2)
}

fn twelve() -> Pair {
    of_blood(12, 2, 1)
}

fn thirteen() -> Pair {
    Pair {
        donor_age: 1,
        donor_antigens: 7,
        ..of_blood(13, 0, 0)
    }
}

// The third, with a donor's blood that is none of the four.
fn of_no_blood() -> Pair {
    Pair {
        donor_blood: 4,
        ..thirteen()
    }
}

// One more, O to AB.
fn fourteen() -> Pair {
    of_blood(14, 0, 3)
}

// Registers, and prints what was answered.
fn register(rt: &impl Print, pool: &mut Pool, pair: Pair) -> io::Result<()> {
    let answer = pool.register(pair);
    println!(rt; "register {}: {answer}, {} pairs", pair.id, pool.count)
}

// Withdraws, and prints what was answered.
fn withdraw(rt: &impl Print, pool: &mut Pool, id: u32) -> io::Result<()> {
    let answer = pool.withdraw(id);
    println!(rt; "withdraw {id}: {answer}, {} pairs", pool.count)
}

// The same, with the tables.
fn register_shown(rt: &impl Print, pool: &mut Pool, pair: Pair) -> io::Result<()> {
    register(rt, pool, pair)?;
    pool.print_held(rt)
}

// The same, with the tables and what lies past them.
fn withdraw_shown(rt: &impl Print, pool: &mut Pool, id: u32) -> io::Result<()> {
    withdraw(rt, pool, id)?;
    pool.print_held(rt)?;
    pool.print_past(rt)
}

// A run, with the tables after each call.
fn try_run(rt: &impl Print) -> io::Result<()> {
    let mut pool = Pool::zeros();
    let answer = pool.start();
    println!(rt; "# A run\nstart: {answer}, {} pairs", pool.count)?;
    pool.print_held(rt)?;
    register_shown(rt, &mut pool, eleven())?;
    register_shown(rt, &mut pool, twelve())?;
    register_shown(rt, &mut pool, thirteen())?;
    withdraw_shown(rt, &mut pool, 12)?;
    withdraw_shown(rt, &mut pool, 12)?;
    register_shown(rt, &mut pool, twelve())?;
    for id in [11, 13, 12, 12] {
        withdraw_shown(rt, &mut pool, id)?;
    }
    Ok(())
}

// Starting a pool, where so many entries of the points are lent.
fn try_start(rt: &impl Print, name: &str, given: Points, points_lent: usize) -> io::Result<()>
    requires { points_lent ≤ 6 }
{
    let mut points = [1000, 400, 250, 100, 50, 30];
    let mut count = 2;
    let answer = Answer(keeping::start(given, &mut points[..points_lent], &mut count));
    println!(rt; "start with {name}: {answer}")
}

// Points of which all but the base and the first step are 0.
fn steep(base: u16, none: u16) -> Points {
    Points {
        base,
        none,
        few: 0,
        some: 0,
        equal: 0,
        young_to_senior: 0,
    }
}

// What starting refuses, and what it just does not.
fn try_starts(rt: &impl Print) -> io::Result<()> {
    let no_base = Points {
        base: 0,
        ..DOCUMENT
    };
    try_start(rt, "base 0", no_base, 6)?;
    try_start(rt, "base 65535 and a step of 1", steep(65535, 1), 6)?;
    try_start(rt, "base 65535 alone", steep(65535, 0), 6)?;
    try_start(rt, "a table of five", DOCUMENT, 5)?;
    try_start(rt, "base 0 and a table of five", no_base, 5)
}

// The run's first two pairs, with another count, base, and second pair's id, its donor's blood and its patient's number; and what is lent of them.
#[derive(Clone, Copy)]
struct Two {
    count: usize,
    lent: Lent,
    base: u16,
    second_id: u32,
    second_blood: u8,
    second_number: u16,
}

// More room than a third pair needs.
const ROOM: Lent = Lent {
    points: 6,
    ids: 8,
    m: 64,
    w: 64,
    suitable: 8,
};

// The two pairs as they register, in tables with room.
const USUAL: Two = Two {
    count: 2,
    lent: ROOM,
    base: 1000,
    second_id: 12,
    second_blood: 2,
    second_number: 1,
};

impl Two {
    // The usual two, of which so much is lent.
    fn lending(lent: Lent) -> Self {
        Self { lent, ..USUAL }
    }

    fn pool(self) -> Pool {
        let mut pool = Pool::of_two();
        pool.count = self.count;
        pool.points[0] = self.base;
        pool.ids[1] = self.second_id;
        pool.donor_blood[1] = self.second_blood;
        pool.suitable[1] = self.second_number;
        pool
    }

    // Registering in such a pool.
    fn register(self, rt: &impl Print, name: &str, pair: Pair) -> io::Result<()> {
        let answer = self.pool().answer(self.lent, Call::Register(pair));
        println!(rt; "register {name}: {answer}")
    }

    // Withdrawing from such a pool.
    fn withdraw(self, rt: &impl Print, name: &str, id: u32) -> io::Result<()> {
        let answer = self.pool().answer(self.lent, Call::Withdraw(id));
        println!(rt; "withdraw {name}: {answer}")
    }
}

// They with a stored base of 0, a number too high, one too low, the first's id, or blood 4.
const NO_BASE: Two = Two { base: 0, ..USUAL };

const HIGH: Two = Two {
    second_number: 2,
    ..USUAL
};

const LOW: Two = Two {
    second_number: 0,
    ..USUAL
};

const TWICE: Two = Two {
    second_id: 11,
    ..USUAL
};

const STORED_BLOOD: Two = Two {
    second_blood: 4,
    ..USUAL
};

// M, W or the numbers of suitable donors with so many entries, and a table for five points.
fn m_of(m: usize) -> Two {
    Two::lending(Lent { m, ..ROOM })
}

fn w_of(w: usize) -> Two {
    Two::lending(Lent { w, ..ROOM })
}

fn suitable_of(suitable: usize) -> Two {
    Two::lending(Lent { suitable, ..ROOM })
}

fn five_points() -> Two {
    Two::lending(Lent { points: 5, ..ROOM })
}

fn count_of(count: usize) -> Two {
    Two { count, ..USUAL }
}

// Registering in a pool that 4, 9 or 14 refuses.
fn try_pools(rt: &impl Print) -> io::Result<()> {
    let new = thirteen();
    count_of(201).register(rt, "with a count of 201", new)?;
    count_of(9).register(rt, "with a count of 9", new)?;
    five_points().register(rt, "with a points table of five", new)?;
    m_of(3).register(rt, "with M of 3", new)?;
    w_of(3).register(rt, "with W of 3", new)?;
    suitable_of(1).register(rt, "with suitable of 1", new)?;
    NO_BASE.register(rt, "with stored base 0", new)?;
    let both = Two { base: 0, ..m_of(3) };
    both.register(rt, "with stored base 0 and M of 3", new)
}

// Registering where 10 refuses a stored number, and with what comes before it or after it.
fn try_numbers(rt: &impl Print) -> io::Result<()> {
    let new = thirteen();
    HIGH.register(rt, "with a number too high", new)?;
    LOW.register(rt, "with a number too low", new)?;
    let no_base = Two { base: 0, ..HIGH };
    no_base.register(rt, "with a number too high and stored base 0", new)?;
    let short = Two {
        second_number: 2,
        ..suitable_of(1)
    };
    short.register(rt, "with a number too high and suitable of 1", new)?;
    HIGH.register(rt, "with a number too high and blood 4", of_no_blood())
}

// Registering where 6 or 7 refuses the new pair or a stored one.
fn try_pairs(rt: &impl Print) -> io::Result<()> {
    let new = thirteen();
    let blood = of_no_blood();
    let age = Pair {
        patient_age: 2,
        ..new
    };
    USUAL.register(rt, "with blood 4", blood)?;
    USUAL.register(rt, "with age 2", age)?;
    USUAL.register(rt, "11 again", eleven())?;
    USUAL.register(rt, "11 again with blood 4", of_blood(11, 4, 2))?;
    TWICE.register(rt, "with a stored id twice", new)?;
    TWICE.register(rt, "with a stored id twice and blood 4", blood)?;
    STORED_BLOOD.register(rt, "with stored blood 4", new)?;
    let both = Two {
        second_blood: 4,
        ..TWICE
    };
    both.register(rt, "with stored blood 4 and a stored id twice", new)
}

// Registering where one more doesn't fit, and where it just does.
fn try_space(rt: &impl Print) -> io::Result<()> {
    let new = thirteen();
    let two_ids = Two::lending(Lent { ids: 2, ..ROOM });
    two_ids.register(rt, "with room for two", new)?;
    m_of(8).register(rt, "with M of 8", new)?;
    w_of(8).register(rt, "with W of 8", new)?;
    suitable_of(2).register(rt, "with suitable of 2", new)?;
    let enough = Two::lending(Lent {
        m: 9,
        w: 9,
        suitable: 3,
        ..ROOM
    });
    enough.register(rt, "with M of 9, W of 9 and suitable of 3", new)
}

// Withdrawing from a pool that 4, 9, 14 or 10 refuses, and an id that 16 does; 6 and 7 are not looked for.
fn try_withdrawals(rt: &impl Print) -> io::Result<()> {
    count_of(201).withdraw(rt, "with a count of 201", 11)?;
    count_of(9).withdraw(rt, "with a count of 9", 11)?;
    five_points().withdraw(rt, "with a points table of five", 11)?;
    w_of(3).withdraw(rt, "with W of 3", 11)?;
    suitable_of(1).withdraw(rt, "with suitable of 1", 11)?;
    NO_BASE.withdraw(rt, "with stored base 0", 11)?;
    HIGH.withdraw(rt, "with a number too high", 11)?;
    LOW.withdraw(rt, "with a number too low", 11)?;
    let no_base = Two { base: 0, ..HIGH };
    no_base.withdraw(rt, "with a number too high and stored base 0", 11)?;
    USUAL.withdraw(rt, "13", 13)?;
    NO_BASE.withdraw(rt, "13 with stored base 0", 13)?;
    HIGH.withdraw(rt, "13 with a number too high", 13)?;
    STORED_BLOOD.withdraw(rt, "11 with stored blood 4", 11)
}

// The first of two pairs with one id goes.
fn try_twice(rt: &impl Print) -> io::Result<()> {
    let mut pool = TWICE.pool();
    let answer = pool.answer(ROOM, Call::Withdraw(11));
    println!(rt; "withdraw 11 where it stands twice: {answer}")?;
    println!(rt; "ids{}", Row(&pool.ids[..pool.pairs()]))?;
    // the donor's blood tells the second from the first
    println!(rt; "blood {}", pool.donor_blood[0])
}

// The run's three pairs, with M changed from 0 1 0, 1 0 0, 1 1 0 to 0 1 5, 1 1 2, 0 1 1, and with these numbers.
fn by_hand(numbers: [u16; 3]) -> Pool {
    let mut pool = Pool::of_two();
    pool.register(thirteen());
    pool.m[2] = 5;
    pool.m[4] = 1;
    pool.m[5] = 2;
    pool.m[6] = 0;
    pool.m[8] = 1;
    pool.suitable[0] = numbers[0];
    pool.suitable[1] = numbers[1];
    pool.suitable[2] = numbers[2];
    pool
}

// Both calls, where one of the numbers isn't the ones in its column.
fn try_wrong_number(rt: &impl Print, name: &str, numbers: [u16; 3]) -> io::Result<()> {
    let registered = by_hand(numbers).register(fourteen());
    let withdrawn = by_hand(numbers).withdraw(12);
    println!(rt; "number {name}: register {registered}, withdraw {withdrawn}")
}

// Tables that no list of calls leaves: 10 asks of M just that the numbers are its own.
fn try_by_hand(rt: &impl Print) -> io::Result<()> {
    println!(rt; "# Tables changed by hand")?;
    withdraw_shown(rt, &mut by_hand([1, 3, 1]), 12)?;
    register_shown(rt, &mut by_hand([1, 3, 1]), fourteen())?;
    try_wrong_number(rt, "0 too high", [2, 3, 1])?;
    try_wrong_number(rt, "0 too low", [0, 3, 1])?;
    try_wrong_number(rt, "1 too high", [1, 4, 1])?;
    try_wrong_number(rt, "1 too low", [1, 2, 1])?;
    try_wrong_number(rt, "2 too high", [1, 3, 2])?;
    try_wrong_number(rt, "2 too low", [1, 3, 0])
}

// The pair of that number, from 0, of many.
fn one_of_many(i: u8) -> Pair
    requires { i ≤ 200 }
{
    Pair {
        id: u32::from(i) + 1,
        donor_blood: i % 4,
        patient_blood: i / 4 % 4,
        donor_age: i % 2,
        patient_age: i / 2 % 2,
        donor_antigens: (square(usize::from(i)) % 1009) as u64,
        patient_antigens: 7 * u64::from(i) % 509,
        patient_antibodies: u64::from(i % 13),
    }
}

// As many as there may be, one more, and one that withdraws and returns.
fn try_many(rt: &impl Print) -> io::Result<()> {
    let mut pool = Pool::started();
    let mut done: usize = 0;
    for i in 0..200 {
        if pool.register(one_of_many(i)).is_done() {
            done += 1;
        }
    }
    print!(rt; "# Two hundred pairs\n200 registered: {done}")?;
    pool.print_sums(rt)?;
    register(rt, &mut pool, one_of_many(200))?;
    withdraw(rt, &mut pool, 100)?;
    print!(rt; "sums")?;
    pool.print_sums(rt)?;
    register(rt, &mut pool, one_of_many(99))?;
    print!(rt; "sums")?;
    pool.print_sums(rt)
}

fn run(rt: &impl Print) -> io::Result<()> {
    try_run(rt)?;
    println!(rt; "# Each refusal")?;
    try_starts(rt)?;
    try_pools(rt)?;
    try_numbers(rt)?;
    try_pairs(rt)?;
    try_space(rt)?;
    try_withdrawals(rt)?;
    try_twice(rt)?;
    try_by_hand(rt)?;
    try_many(rt)
}

fn main() {
    // Where output is lost, it is lost silently.
    let _ = run(&Silent);
}
