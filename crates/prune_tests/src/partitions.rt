//! The values of partition columns as facts, and values that have no reading.
ghost use Rattle.std.specs.Prelude.{◌≡◌, IfOk, length};

use crate::files::{added, column, facts_by, facts_of, may_named, one_value, two_columns};
use log_actions::{AddFile, Entry};
use predicates::{Op, Operand, Pred};
use prune::{FileFacts, PartitionFault};
use row_base::{Column, Datum, Items, Kind, NoMemory, Rows, Schema, Text};
use sqlite_items::Boxed;
use std::alloc::Global;
use std::test::Fail;

/// A column compared with a number.
fn beside(alloc: Global, name: &str, op: Op, number: i64) -> Result<Pred<Text>, NoMemory> {
    let column = Text::make(alloc, name)?;
    Ok(Pred::Compare {
        op,
        column,
        right: Operand::Literal(Datum::Long(number)),
    })
}

/// The same, or what it is not.
fn asked(alloc: Global, op: Op, number: i64, is_negated: bool) -> Result<Pred<Text>, NoMemory> {
    let pred = beside(alloc, "w", op, number)?;
    if is_negated {
        Ok(Pred::Negation(Boxed::new(alloc, pred)?))
    } else {
        Ok(pred)
    }
}

/// Statistics of the partition column too, which are not looked at.
const STATS: &str =
    r#"{"maxValues":{"w":9},"minValues":{"w":5},"nullCount":{"w":1},"numRecords":1}"#;

/// Whether a file with this value of `w` may match `w` compared with a number, or what that is not.
fn matches(
    alloc: Global,
    value: Option<&str>,
    op: Op,
    number: i64,
    is_negated: bool,
) -> Result<Option<bool>, Fail> {
    let schema = two_columns(alloc, Kind::Long, true)?;
    let facts = facts_of(alloc, &schema, Some(STATS), value)?;
    let pred = asked(alloc, op, number, is_negated)?;
    Ok(may_named(alloc, &schema, &facts, pred))
}

/// Whether it may match `w is null`.
fn matches_null(alloc: Global, value: Option<&str>) -> Result<Option<bool>, Fail> {
    let schema = two_columns(alloc, Kind::Long, true)?;
    let facts = facts_of(alloc, &schema, Some(STATS), value)?;
    let column = Text::make(alloc, "w")?;
    Ok(may_named(alloc, &schema, &facts, Pred::IsNull { column }))
}

/// A comparison, and whether the file with the value 4 may match it, or else what that is not.
const OF_FOUR: [(Op, i64, bool); 9] = [
    (Op::Eq, 4, true),
    (Op::Eq, 5, false),
    (Op::Ne, 4, false),
    (Op::Lt, 4, false),
    (Op::Lt, 5, true),
    (Op::Le, 4, true),
    (Op::Gt, 4, false),
    (Op::Ge, 4, true),
    (Op::Ge, 5, false),
];

#[test]
fn a_partition_column_has_its_value(rt: HostRuntime) -> Result<(), Fail> {
    let alloc = rt.alloc();
    for (op, number, is) in OF_FOUR {
        assert!(rt; matches(alloc, Some("4"), op, number, false)? == Some(is));
        assert!(rt; matches(alloc, Some("4"), op, number, true)? == Some(!is));
    }
    assert!(rt; matches_null(alloc, Some("4"))? == Some(false));
    for value in [None, Some("")] {
        assert!(rt; matches_null(alloc, value)? == Some(true));
        assert!(rt; matches(alloc, value, Op::Eq, 4, false)? == Some(false));
        assert!(rt; matches(alloc, value, Op::Eq, 4, true)? == Some(false));
    }
    Ok(())
}

/// How a file's facts were made.
#[derive(Clone, Copy, Drop, PartialEq, Eq)]
enum Outcome {
    Made,
    /// The value of this column has no reading.
    Value,
    /// The value of another one has none.
    Elsewhere,
    NoMemory,
}

/// How they were made; a value without a reading should be that of the column of this name.
fn ending(alloc: Global, schema: &Schema, add: AddFile, name: &str) -> Outcome {
    let facts = FileFacts::of(alloc, schema, &add);
    drop(add);
    match facts {
        Ok(_) => Outcome::Made,
        Err(PartitionFault::Value { name: wrong }) => {
            if wrong.as_str() == name {
                Outcome::Value
            } else {
                Outcome::Elsewhere
            }
        }
        Err(PartitionFault::NoMemory) => Outcome::NoMemory,
    }
}

/// The same of a file with this value of `w`, which is of this kind.
fn outcome_of(alloc: Global, kind: Kind, value: &str) -> Result<Outcome, Fail> {
    let schema = two_columns(alloc, kind, true)?;
    let values = one_value(alloc, "w", Some(value))?;
    let add = added(alloc, values, None)?;
    Ok(ending(alloc, &schema, add, "w"))
}

const READ: [(Kind, &str, Outcome); 20] = [
    (Kind::Long, "-9223372036854775808", Outcome::Made),
    (Kind::Long, "9223372036854775808", Outcome::Value),
    (Kind::Long, "007", Outcome::Made),
    (Kind::Long, "four", Outcome::Value),
    (Kind::Long, "+1", Outcome::Value),
    (Kind::Long, "1.5", Outcome::Value),
    (Kind::Long, " 1", Outcome::Value),
    (Kind::Long, "-", Outcome::Value),
    (Kind::Long, "", Outcome::Made),
    (Kind::Integer, "2147483647", Outcome::Made),
    (Kind::Integer, "2147483648", Outcome::Value),
    (Kind::Boolean, "true", Outcome::Made),
    (Kind::Boolean, "True", Outcome::Value),
    (Kind::Boolean, "1", Outcome::Value),
    (Kind::Date, "2024-02-29", Outcome::Made),
    (Kind::Date, "2023-02-29", Outcome::Value),
    (Kind::Date, "2024-2-29", Outcome::Value),
    (Kind::Date, "19782", Outcome::Value),
    (Kind::String, "4", Outcome::Made),
    (Kind::String, " ", Outcome::Made),
];

#[test]
fn a_value_without_a_reading_is_a_fault(rt: HostRuntime) -> Result<(), Fail> {
    let alloc = rt.alloc();
    for (kind, value, wanted) in READ {
        assert!(rt; outcome_of(alloc, kind, value)? == wanted);
    }
    Ok(())
}

/// The columns `day`, which may be null or not, `user` of this kind, and `amount`.
fn three_columns(alloc: Global, nullable: bool, user: Kind) -> Result<Vec<Column>, NoMemory> {
    let mut day = column(alloc, "day", Kind::Date)?;
    day.nullable = nullable;
    let user = column(alloc, "user", user)?;
    let amount = column(alloc, "amount", Kind::Long)?;
    let mut columns = Vec::new(alloc);
    columns.push(day)?;
    columns.push(user)?;
    columns.push(amount)?;
    Ok(columns)
}

/// A schema of these columns that is partitioned by the second one and the first.
fn by_two(alloc: Global, columns: Vec<Column>) -> Result<Schema, Fail> {
    let mut partition = Vec::new(alloc);
    partition.push(1)?;
    partition.push(0)?;
    Ok(Schema::make(columns, partition)?)
}

/// A file with these values of `day` and `user`.
fn with_two(alloc: Global, day: &str, user: &str) -> Result<AddFile, NoMemory> {
    let day = Text::make(alloc, day)?;
    let user = Text::make(alloc, user)?;
    let first = Text::make(alloc, "day")?;
    let second = Text::make(alloc, "user")?;
    let mut values = Vec::new(alloc);
    values.push(Entry {
        name: first,
        value: Some(day),
    })?;
    values.push(Entry {
        name: second,
        value: Some(user),
    })?;
    added(alloc, Items::from_vec(values), None)
}

fn outcome_of_two(alloc: Global, day: &str, user: &str, name: &str) -> Result<Outcome, Fail> {
    let columns = three_columns(alloc, false, Kind::Long)?;
    let schema = by_two(alloc, columns)?;
    let add = with_two(alloc, day, user)?;
    Ok(ending(alloc, &schema, add, name))
}

#[test]
fn the_first_column_of_the_schema_is_named(rt: HostRuntime) -> Result<(), Fail> {
    let alloc = rt.alloc();
    assert!(rt; outcome_of_two(alloc, "2024-02-29", "1", "")? == Outcome::Made);
    assert!(rt; outcome_of_two(alloc, "today", "ann", "day")? == Outcome::Value);
    assert!(rt; outcome_of_two(alloc, "2024-02-29", "ann", "user")? == Outcome::Value);
    assert!(rt; outcome_of_two(alloc, "", "1", "day")? == Outcome::Value);
    assert!(rt; outcome_of_two(alloc, "2024-02-29", "", "")? == Outcome::Made);
    Ok(())
}

/// The columns `day`, `user` and `amount`, partitioned by `day`.
fn by_day(alloc: Global) -> Result<Schema, Fail> {
    let columns = three_columns(alloc, true, Kind::String)?;
    let mut partition = Vec::new(alloc);
    partition.push(0)?;
    Ok(Schema::make(columns, partition)?)
}

/// 2024-02-29.
const SECOND_DAY: i32 = 19782;

/// `day` is this one.
fn on_day(alloc: Global, day: i32) -> Result<Pred<Text>, NoMemory> {
    let column = Text::make(alloc, "day")?;
    Ok(Pred::Compare {
        op: Op::Eq,
        column,
        right: Operand::Literal(Datum::Date(day)),
    })
}

/// `day` and `user` are those of one of two rows of a day.
fn two_users(alloc: Global, day: i32, users: [&str; 2]) -> Result<Pred<Text>, NoMemory> {
    let mut rows = Rows::new(alloc);
    for user in users {
        let user = Text::make(alloc, user)?;
        rows.push_copy(&[Datum::Date(day), Datum::Text(user)])?;
    }
    let first = Text::make(alloc, "day")?;
    let second = Text::make(alloc, "user")?;
    let mut names = Vec::new(alloc);
    names.push(first)?;
    names.push(second)?;
    let columns = Items::from_vec(names);
    Ok(Pred::Keys { columns, rows })
}

/// Users from `ann` to `bob`.
const USERS: &str =
    r#"{"maxValues":{"user":"bob"},"minValues":{"user":"ann"},"nullCount":{"user":0},"numRecords":2}"#;

/// What is known of a file of this day, with users from `ann` to `bob`.
fn facts_on(alloc: Global, schema: &Schema, day: &str) -> Result<FileFacts, Fail>
    ensures { IfOk result (λ f. length f ≡ length schema.now.columns) }
{
    let values = one_value(alloc, "day", Some(day))?;
    let facts = facts_by(alloc, schema, values, Some(USERS))?;
    Ok(facts)
}

/// Whether such a file may match that `day` is the second one.
fn matches_day(alloc: Global, day: &str) -> Result<Option<bool>, Fail> {
    let schema = by_day(alloc)?;
    let facts = facts_on(alloc, &schema, day)?;
    let pred = on_day(alloc, SECOND_DAY)?;
    Ok(may_named(alloc, &schema, &facts, pred))
}

/// Whether it may match one of two users of the second day.
fn matches_users(alloc: Global, day: &str, users: [&str; 2]) -> Result<Option<bool>, Fail> {
    let schema = by_day(alloc)?;
    let facts = facts_on(alloc, &schema, day)?;
    let pred = two_users(alloc, SECOND_DAY, users)?;
    Ok(may_named(alloc, &schema, &facts, pred))
}

#[test]
fn a_file_of_another_day_is_passed_over(rt: HostRuntime) -> Result<(), Fail> {
    let alloc = rt.alloc();
    assert!(rt; matches_day(alloc, "2024-02-28")? == Some(false));
    assert!(rt; matches_day(alloc, "2024-02-29")? == Some(true));
    assert!(rt; matches_users(alloc, "2024-02-28", ["ann", "cy"])? == Some(false));
    assert!(rt; matches_users(alloc, "2024-02-29", ["ann", "cy"])? == Some(true));
    assert!(rt; matches_users(alloc, "2024-02-29", ["cy", "dan"])? == Some(false));
    Ok(())
}
