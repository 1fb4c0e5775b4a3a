// The published order of subsets, walked by a cursor and numbered both ways. Of tables the constant one of `counting` alone is read: what runs depends on n
// and the cursor, or on n and a number.
#![tactic(auto)]

ghost use Rattle.std.specs.Prelude.{◌≡◌, [], ◌≤◌, ◌<◌, get_or};
ghost use Rattle.exchange.specs.Subsets.{up_to_three, order, subset_count};
ghost use Rattle.counting.specs.Counting.{TripleTable, of_size};
ghost use Rattle.cursor.specs.Cursor.{OnSubset, places_at, next_places, number_in, subset_at, TwoAt};

// A cursor: the places of a subset in order, n where there is none. A two has w = n; n, n, n is no subset.
#[derive(Clone, Copy)]
pub struct Places {
    pub u: usize,
    pub v: usize,
    pub w: usize,
}

// The subset of number 0.
pub fn first(n: usize) -> Places
    ensures { result ≡ places_at (up_to_three n) 0 }
{
    if n < 2 {
        Places { u: n, v: n, w: n }
    } else {
        Places { u: 0, v: 1, w: 2 }
    }
}

// The subset of the next number.
pub fn next(n: usize, p: Places) -> Places
    requires { OnSubset n p }
    ensures { result ≡ next_places (up_to_three n) p }
{
    let u = p.u;
    let v = p.v;
    let w = p.w;
    if w == n {
        if v + 1 < n {
            return Places { u, v: v + 1, w: n };
        }
        if u + 2 < n {
            return Places {
                u: u + 1,
                v: u + 2,
                w: n,
            };
        }
        return Places { u: n, v: n, w: n };
    }
    if w + 1 < n {
        return Places { u, v, w: w + 1 };
    }
    if v + 2 < n {
        return Places {
            u,
            v: v + 1,
            w: v + 2,
        };
    }
    if u + 3 < n {
        return Places {
            u: u + 1,
            v: u + 2,
            w: u + 3,
        };
    }
    Places { u: 0, v: 1, w: n }
}

// How many subsets there are: "n that of all subsets".
pub fn count(n: usize) -> usize
    requires { n ≤ 200 }
    ensures { result ≡ subset_count (up_to_three n) }
{
    let entries = counting::table();
    let table: &[u32] = &entries;
    counting::triples(table, n) + counting::twos(table, n)
}

// The number of the two u, v among the twos of n places: those that begin below u come before it, and those that begin at u and end before v.
fn number_of_two(table: &[u32], n: usize, u: usize, v: usize) -> usize
    requires { TripleTable table.now × (u < v) × (v < n) × (n ≤ 200) }
    ensures { TwoAt n u v result }
{
    counting::begin_below(table, 2, n, u) + (v - u - 1)
}

// The number of the subset at the cursor. The triples that begin at u are in the order of the twos of the places after it; all triples come before the
// twos.
pub fn number_of(n: usize, p: Places) -> usize
    requires { OnSubset n p }
    ensures { (result ≡ number_in n (order (up_to_three n)) p)
        × (result < subset_count (up_to_three n))
        × (get_or (order (up_to_three n)) result [] ≡ subset_at n p) }
{
    let entries = counting::table();
    let table: &[u32] = &entries;
    let u = p.u;
    let v = p.v;
    let w = p.w;
    if w == n {
        return counting::triples(table, n) + number_of_two(table, n, u, v);
    }
    let after = u + 1;
    counting::begin_below(table, 3, n, u) + number_of_two(table, n - after, v - after, w - after)
}

// The two of number k among the twos of n places.
fn two_at(table: &[u32], n: usize, k: usize) -> Places
    requires { TripleTable table.now × (n ≤ 200) × (k < of_size 2 n) }
    ensures { TwoAt n result.u result.v k × (result.w ≡ n) }
{
    let u = counting::lowest(table, 2, n, k);
    let before = counting::begin_below(table, 2, n, u);
    Places {
        u,
        v: u + 1 + (k - before),
        w: n,
    }
}

// The triple of number k.
fn triple_at(table: &[u32], n: usize, k: usize) -> Places
    requires { TripleTable table.now × (n ≤ 200) × (k < of_size 3 n) }
    ensures { result ≡ places_at (up_to_three n) k }
{
    let u = counting::lowest(table, 3, n, k);
    let before = counting::begin_below(table, 3, n, u);
    let after = u + 1;
    let others = two_at(table, n - after, k - before);
    Places {
        u,
        v: after + others.u,
        w: after + others.v,
    }
}

// The subset of number k, or none: the other way than `number_of`.
pub fn at(n: usize, k: usize) -> Places
    requires { (n ≤ 200) × (k ≤ subset_count (up_to_three n)) }
    ensures { result ≡ places_at (up_to_three n) k }
{
    let entries = counting::table();
    let table: &[u32] = &entries;
    let triples = counting::triples(table, n);
    if k < triples {
        return triple_at(table, n, k);
    }
    if k < triples + counting::twos(table, n) {
        return two_at(table, n, k - triples);
    }
    Places { u: n, v: n, w: n }
}
