// How many twos and triples there are among m places, from a constant table and without dividing (document 02, W-203), and at which place the one of a
// number begins. That table is all that is read here.
#![tactic(auto)]

ghost use Rattle.std.specs.Prelude.{◌≡◌, ◌+◌, ◌-◌, ◌*◌, ◌≤◌, ◌<◌};
ghost use Rattle.counting.specs.Counting.{TripleTable, of_size, Begins};

// "A table for m from 0 to 200 gives the number of triples among m pairs."
const TRIPLES: [u32; 201] = [
    0, 0, 0, 1, 4, 10, 20, 35, 56, 84, 120, 165, 220, 286, 364, 455, 560, 680, 816, 969, 1140,
    1330, 1540, 1771, 2024, 2300, 2600, 2925, 3276, 3654, 4060, 4495, 4960, 5456, 5984, 6545, 7140,
    7770, 8436, 9139, 9880, 10660, 11480, 12341, 13244, 14190, 15180, 16215, 17296, 18424, 19600,
    20825, 22100, 23426, 24804, 26235, 27720, 29260, 30856, 32509, 34220, 35990, 37820, 39711,
    41664, 43680, 45760, 47905, 50116, 52394, 54740, 57155, 59640, 62196, 64824, 67525, 70300,
    73150, 76076, 79079, 82160, 85320, 88560, 91881, 95284, 98770, 102340, 105995, 109736, 113564,
    117480, 121485, 125580, 129766, 134044, 138415, 142880, 147440, 152096, 156849, 161700, 166650,
    171700, 176851, 182104, 187460, 192920, 198485, 204156, 209934, 215820, 221815, 227920, 234136,
    240464, 246905, 253460, 260130, 266916, 273819, 280840, 287980, 295240, 302621, 310124, 317750,
    325500, 333375, 341376, 349504, 357760, 366145, 374660, 383306, 392084, 400995, 410040, 419220,
    428536, 437989, 447580, 457310, 467180, 477191, 487344, 497640, 508080, 518665, 529396, 540274,
    551300, 562475, 573800, 585276, 596904, 608685, 620620, 632710, 644956, 657359, 669920, 682640,
    695520, 708561, 721764, 735130, 748660, 762355, 776216, 790244, 804440, 818805, 833340, 848046,
    862924, 877975, 893200, 908600, 924176, 939929, 955860, 971970, 988260, 1004731, 1021384,
    1038220, 1055240, 1072445, 1089836, 1107414, 1125180, 1143135, 1161280, 1179616, 1198144,
    1216865, 1235780, 1254890, 1274196, 1293699, 1313400,
];

// The table: "six times each entry is m × (m − 1) × (m − 2)". A constant stands on the stack of the function that names it, so a call takes it once and
// lends it on.
pub fn table() -> [u32; 201]
    ensures { TripleTable result }
{
    TRIPLES
}

// How many triples there are among m places.
pub fn triples(table: &[u32], m: usize) -> usize
    requires { TripleTable table.now × (m ≤ 200) }
    ensures { (6 * result ≡ m * (m - 1) * (m - 2)) × (result ≡ of_size 3 m) }
{
    table[m] as usize
}

// How many twos there are among m places. A place more makes a triple with each two of the others, so the difference of two entries counts the twos of
// the others, and with each other it makes a two. So no entry past the table's last is asked for.
pub fn twos(table: &[u32], m: usize) -> usize
    requires { TripleTable table.now × (m ≤ 200) }
    ensures { (2 * result ≡ m * (m - 1)) × (result ≡ of_size 2 m) }
{
    if m == 0 {
        return 0;
    }
    let others = m - 1;
    triples(table, m) - triples(table, others) + others
}

// How many subsets of this size, two or three, there are among m places.
fn of_size(table: &[u32], size: usize, m: usize) -> usize
    requires { TripleTable table.now × (2 ≤ size) × (size ≤ 3) × (m ≤ 200) }
    ensures { result ≡ of_size size m }
{
    if size == 2 {
        return twos(table, m);
    }
    triples(table, m)
}

// How many subsets of this size of n places begin below place p: all but those of the n − p places from p on.
pub fn begin_below(table: &[u32], size: usize, n: usize, p: usize) -> usize
    requires { TripleTable table.now × (2 ≤ size) × (size ≤ 3) × (p ≤ n) × (n ≤ 200) }
    ensures { result + of_size size (n - p) ≡ of_size size n }
{
    of_size(table, size, n) - of_size(table, size, n - p)
}

// The place at which the subset of number k begins, of those of this size: the last below which no more than k begin. There is one, since k is less than
// how many begin below n.
pub fn lowest(table: &[u32], size: usize, n: usize, k: usize) -> usize
    requires { TripleTable table.now × (2 ≤ size) × (size ≤ 3) × (n ≤ 200) × (k < of_size size n) }
    ensures { Begins size n k result }
{
    for i in 0..n {
        if begin_below(table, size, n, i + 1) > k {
            return i;
        }
    }
    n
}
