// The six points that edges are weighed by (document 02, W-205): by name, out of a table, and whether they pass.
#![tactic(auto)]

ghost use Rattle.std.specs.Prelude.{◌≡◌, ℕ, ◌≤◌, length};
ghost use Rattle.refusal.specs.Number.{fault_at};
ghost use Rattle.pool.specs.Points.{registry_points, points_by};
ghost use Rattle.pool.specs.Tables.{item_in};
ghost use Rattle.pool.specs.Faults.{points_fault};
ghost use Rattle.points.specs.Named.{named};

use refusal::Refusal;

#[repr(C)]
#[derive(Clone, Copy)]
pub struct Points {
    pub base: u16,
    // Mismatches: none, 1 or 2, 3 or 4.
    pub none: u16,
    pub few: u16,
    pub some: u16,
    // Age groups: equal, and from a young donor to a senior patient.
    pub equal: u16,
    pub young_to_senior: u16,
}

// Those in a table: "base, three mismatch steps, two age steps, in document 01's order".
pub fn own(table: &[u16]) -> Points
    requires { registry_points ≤ length table.now }
    ensures { named result ≡ points_by (item_in table.now) }
{
    Points {
        base: table[0],
        none: table[1],
        few: table[2],
        some: table[3],
        equal: table[4],
        young_to_senior: table[5],
    }
}

// 14: the base is 0, or base, largest mismatch step and larger age step together exceed 65,535. They are added in 32 bits, where no sum wraps.
pub fn judge(points: Points) -> Result<(), Refusal>
    ensures { (o : ℕ) → fault_at o result ≡ points_fault o (named points) }
{
    if points.base == 0 {
        return Err(Refusal::WrongPoints);
    }
    let mismatch = points.none.max(points.few.max(points.some));
    let age = points.equal.max(points.young_to_senior);
    if points.base as u32 + mismatch as u32 + age as u32 > 65535 {
        return Err(Refusal::WrongPoints);
    }
    Ok(())
}
