//! A merge by two keys, `day` and `user`, into a table that is partitioned by days.
ghost use Rattle.std.specs.Prelude.{◌≡◌, ◌==◌, true, length, IfOk, OnOk};
ghost use Rattle.std.specs.List.{list_all};
ghost use Rattle.op_types.specs.Bound.{is_matched_bound, is_merge_bound};

use merge_op::{MergeFault, Merged, merge_files};
use op_types::{Change, MergeOp, MergeSpec, SetTo};
use predicates::Expr;
use row_base::{Column, Datum, Items, Kind, NoMemory, Rows, ScannedFile, Schema, Text};
use std::alloc::Global;
use std::test::Fail;

/// A row of `day date, user string not null, amount long not null`.
type Sale = (i32, &'static str, i64);

/// 2024-02-28, in days since 1970-01-01.
const DAY: i32 = 19781;

const LEAP_DAY: i32 = 19782;

const FIRST: [Sale; 2] = [(DAY, "ann", 250), (DAY, "bob", 100)];

const SECOND: [Sale; 1] = [(LEAP_DAY, "ann", 75)];

const SOURCE: [Sale; 2] = [(LEAP_DAY, "ann", 80), (LEAP_DAY, "cy", 40)];

/// These rows.
#[tactic(auto, using(crate::proofs::Wide::one_sale))]
fn sales(alloc: Global, sales: &[Sale]) -> Result<Rows, NoMemory>
    ensures { IfOk result (λ rs. list_all (λ r. length r == 3) rs ≡ true) }
{
    let mut rows = Rows::new(alloc);
    for (day, user, amount) in sales {
        let user = Datum::Text(Text::make(alloc, user)?);
        rows.push_copy(&[Datum::Date(*day), user, Datum::Long(*amount)])?;
    }
    Ok(rows)
}

fn is_sale(row: &[Datum], sale: Sale) -> bool {
    match row {
        [Datum::Date(day), Datum::Text(user), Datum::Long(amount)] => {
            *day == sale.0 && user.as_str() == sale.1 && *amount == sale.2
        }
        _ => false,
    }
}

/// The file of a day.
fn day_file(alloc: Global, path: &str, rows: &[Sale]) -> Result<ScannedFile, NoMemory>
    ensures { IfOk result (λ f. list_all (λ r. length r == 3) f.rows ≡ true) }
{
    let rows = sales(alloc, rows)?;
    let path = Text::make(alloc, path)?;
    Ok(ScannedFile { path, rows })
}

/// The files of both days.
fn days(alloc: Global) -> Result<Vec<ScannedFile>, NoMemory>
    ensures { IfOk result (λ fs. list_all (λ f. list_all (λ r. length r == 3) f.rows) fs.items ≡ true) }
{
    let mut files = Vec::with_capacity(alloc, 2)?;
    files.push_reserved(day_file(alloc, "day=28", &FIRST)?);
    files.push_reserved(day_file(alloc, "day=29", &SECOND)?);
    Ok(files)
}

fn column(alloc: Global, name: &str, kind: Kind) -> Result<Column, NoMemory> {
    Ok(Column {
        name: Text::make(alloc, name)?,
        kind,
        nullable: name == "day",
    })
}

fn schema(alloc: Global) -> Result<Schema, NoMemory>
    ensures { IfOk result (λ s. length s.columns ≡ 3) }
{
    let mut columns = Vec::with_capacity(alloc, 3)?;
    columns.push_reserved(column(alloc, "day", Kind::Date)?);
    columns.push_reserved(column(alloc, "user", Kind::String)?);
    columns.push_reserved(column(alloc, "amount", Kind::Long)?);
    Schema::make(columns, Vec::from_slice(alloc, &[0u32])?).map_err(|_| NoMemory)
}

/// `amount = source.amount`
fn take_amount(alloc: Global) -> Result<Option<Change<u32>>, NoMemory>
    ensures { IfOk result (λ m. is_matched_bound 3 m ≡ true) }
{
    let mut sets = Vec::with_capacity(alloc, 1)?;
    sets.push_reserved(SetTo {
        column: 2,
        value: Expr::SourceCell(2),
    });
    Ok(Some(Change::Update(Items::from_vec(sets))))
}

/// `merge key (day, user) using .. when matched then update set amount = source.amount when not matched then insert`
fn merge_of(alloc: Global) -> Result<MergeOp, NoMemory>
    ensures { IfOk result (λ m. is_merge_bound 3 m ≡ true) }
{
    let mut keys = Vec::with_capacity(alloc, 2)?;
    keys.push_reserved(0);
    keys.push_reserved(1);
    let matched = take_amount(alloc)?;
    Ok(MergeSpec {
        keys: Items::from_vec(keys),
        source: sales(alloc, &SOURCE)?,
        matched,
        insert: true,
        by_source: None,
    })
}

fn merged(alloc: Global) -> Result<Merged, MergeFault> {
    let files = days(alloc)?;
    let schema = schema(alloc)?;
    let op = merge_of(alloc)?;
    merge_files(alloc, &op, &schema, files)
}

/// Whether only the file of the leap day is removed, and both of its new rows come.
fn is_right(merged: &Merged) -> bool {
    let [path] = merged.removed.as_slice() else {
        return false;
    };
    let (Some(first), Some(second)) = (merged.rows.get(0), merged.rows.get(1)) else {
        return false;
    };
    path.as_str() == "day=29"
        && merged.rows.len() == 2
        && is_sale(first, SOURCE[0])
        && is_sale(second, SOURCE[1])
}

#[test]
fn only_the_file_of_a_matched_row_is_replaced(rt: HostRuntime) -> Result<(), Fail> {
    let merged = merged(rt.alloc());
    let right = matches!(&merged, Ok(merged) if is_right(merged));
    drop(merged);
    assert!(rt; right);
    Ok(())
}
