// A pair is taken out of a live pool's tables, in place and in one ascending pass (document 02, W-206): of a table of a field one entry, of M and W one row and
// one column.
#![tactic(auto)]

ghost use Rattle.std.specs.Prelude.{◌≡◌, ◌+◌, ◌≤◌, ◌<◌, take, drop};
ghost use Rattle.std.specs.List.{remove, copy_within};
ghost use Rattle.laws.specs.Lent.{stored};
ghost use Rattle.live.specs.Calls.{up};
ghost use Rattle.shifting.specs.Preconditions.{Later, Entry, Square};
ghost use Rattle.shifting.specs.Without.{one_out, cross_out};

// Entry a of n goes, and those after it move down by one.
pub fn without_entry<T: Copy>(t: &mut [T], a: usize, n: usize)
    requires { Entry a n t.old }
    ensures { t.new ≡ one_out a n t.old }
{
    t.copy_within(a + 1..n, a);
}

// So many entries move from a place on to an earlier one. `copy_within`, which leaves the same, asks first which way to go: of a row's two short parts that
// is a tenth of the time that withdrawing takes.
fn move_down<T: Copy>(t: &mut [T], to: usize, from: usize, count: usize)
    requires { Later to from count t.old }
    ensures { t.new ≡ copy_within t.old from (from + count) to }
{
    for k in 0..count {
        t[to + k] = t[from + k];
    }
}

// A row of m + 1 entries moves without entry a: what stands before it, then what stands after it.
fn move_row<T: Copy>(t: &mut [T], to: usize, from: usize, a: usize, m: usize)
    requires later { Later to from (m + 1) t.old }
    requires a_le_m { a ≤ m }
    ensures { t.new ≡ stored to (remove (take (m + 1) (drop from t.old)) a) t.old }
{
    move_down(t, to, from, a);
    move_down(t, to + a, from + a + 1, m - a);
}

// Where a row stood before row a went.
pub fn place_before(a: usize, i: usize) -> usize
    requires { i < 200 }
    ensures { result ≡ up a i }
{
    if i < a { i } else { i + 1 }
}

// Row a and column a of n rows of n go. Each of the rows that stay goes to its place or to an earlier one: nothing is stored to that is still to be moved.
// Drawn into the call, with all the tables that it holds, these loops are slower.
#[inline(never)]
pub fn without_row<T: Copy>(t: &mut [T], a: usize, n: usize)
    requires { Square a n t.old }
    ensures { t.new ≡ cross_out a n t.old }
{
    let m = n - 1;
    for i in 0..m {
        move_row(t, i * m, place_before(a, i) * n, a, m);
    }
}
