// A pool sheet read into lent tables (document 01, 'The pool sheet' and 'Turned back', with 02's version 2). The whole sheet is checked before anything is
// filled, so that a refusal leaves every table as it was.
#![tactic(auto)]

ghost use Rattle.std.specs.Prelude.{◌≡◌, length};
ghost use Rattle.refusal.specs.Answer.{outcome};
ghost use Rattle.pool.specs.Sheet.{pool_of};
ghost use Rattle.pool.specs.Tables.{Tables as Lists, room, filled_tables};
ghost use Rattle.fields.specs.Lent.{tables_in, Same};
ghost use Rattle.pool.specs.Calls.{reading};
ghost use Rattle.pool.specs.Promises.{ReadsRightly};
ghost use Rattle.reader.specs.Answers.{answer_of};
ghost use Rattle.reader.specs.Preconditions.{Fillable};

use fields::Tables;
use refusal::{At, Refused};

// What a sheet's head says: its version, and N.
#[derive(Clone, Copy)]
pub struct Head {
    pub version: u16,
    pub pairs: usize,
}

// The answer, where the shortest of the lent tables has `space` entries, and that of the points so many.
fn judge(b: &[u8], space: usize, points: usize) -> Result<Head, Refused>
    ensures { (t : Lists) → room t ≡ space → length t.points ≡ points → answer_of result ≡ (reading b.now t).answer }
{
    scan::check(b)?;
    let version = framing::version_in(b);
    let pairs = framing::pairs_in(b);
    checks::tables(version, pairs, space, points).at(0)?;
    Ok(Head { version, pairs })
}

// Fills the tables from a sheet of n pairs that was accepted. Version 1 has no points, and their table is left.
fn fill(b: &[u8], version: u16, n: usize, t: &mut Tables)
    requires { Fillable b.now version n (tables_in t.old) }
    ensures same { Same t.old t.new }
    ensures filled { tables_in t.new ≡ filled_tables (pool_of b.now) (tables_in t.old) }
{
    columns::fill_numbers(
        b,
        layout::POINTS_PLACE,
        layout::point_count(version),
        t.points,
    );
    columns::fill_column(b, version, n, layout::ID_AT, t.ids);
    columns::fill_column(b, version, n, layout::DONOR_BLOOD_AT, t.donor_blood);
    columns::fill_column(b, version, n, layout::PATIENT_BLOOD_AT, t.patient_blood);
    columns::fill_column(b, version, n, layout::DONOR_AGE_AT, t.donor_age);
    columns::fill_column(b, version, n, layout::PATIENT_AGE_AT, t.patient_age);
    columns::fill_column(b, version, n, layout::DONOR_ANTIGENS_AT, t.donor_antigens);
    columns::fill_column(
        b,
        version,
        n,
        layout::PATIENT_ANTIGENS_AT,
        t.patient_antigens,
    );
    columns::fill_column(
        b,
        version,
        n,
        layout::PATIENT_ANTIBODIES_AT,
        t.patient_antibodies,
    );
    columns::fill_numbers(b, layout::pair_place(version, n), n, t.shuffle);
}

// Reads a sheet into the lent tables.
pub fn read(sheet: &[u8], tables: &mut Tables) -> Result<Head, Refused>
    ensures same { Same tables.old tables.new }
    ensures equals { outcome (answer_of result) (tables_in tables.new) ≡ reading sheet.now (tables_in tables.old) }
    ensures rightly { ReadsRightly sheet.now (tables_in tables.old) (outcome (answer_of result) (tables_in tables.new)) }
{
    let head = judge(sheet, tables.room(), tables.points.len())?;
    fill(sheet, head.version, head.pairs, tables);
    Ok(head)
}
