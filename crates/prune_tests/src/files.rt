//! Files of two columns, `v` and `w`, and predicates over the places of these.
ghost use Rattle.std.specs.Prelude.{◌≡◌, ◌<◌, true, IfOk, length};
ghost use Rattle.predicates.specs.Truths.{is_bound};

use log_actions::{AddFile, Entry, PartitionMap};
use predicates::{Op, Operand, Pred};
use prune::{FileFacts, may_match};
use row_base::{Column, Datum, Items, Kind, NoMemory, Schema, Text};
use sqlite_items::Boxed;
use std::alloc::Global;
use std::test::Fail;

/// A column that may be null.
pub fn column(alloc: Global, name: &str, kind: Kind) -> Result<Column, NoMemory> {
    let name = Text::make(alloc, name)?;
    Ok(Column {
        name,
        kind,
        nullable: true,
    })
}

/// The columns `v` and `w` of one kind. The table may be partitioned by `w`.
pub fn two_columns(alloc: Global, kind: Kind, is_partitioned: bool) -> Result<Schema, Fail> {
    let first = column(alloc, "v", kind)?;
    let second = column(alloc, "w", kind)?;
    let mut columns = Vec::new(alloc);
    columns.push(first)?;
    columns.push(second)?;
    let mut partition = Vec::new(alloc);
    if is_partitioned {
        partition.push(1)?;
    }
    Ok(Schema::make(columns, partition)?)
}

fn optional(alloc: Global, text: Option<&str>) -> Result<Option<Text>, NoMemory> {
    match text {
        Some(text) => Ok(Some(Text::make(alloc, text)?)),
        None => Ok(None),
    }
}

/// The value of one partition column.
pub fn one_value(alloc: Global, name: &str, value: Option<&str>) -> Result<PartitionMap, NoMemory> {
    let name = Text::make(alloc, name)?;
    let value = optional(alloc, value)?;
    let mut values = Vec::new(alloc);
    values.push(Entry { name, value })?;
    Ok(Items::from_vec(values))
}

/// A file with these partition values and statistics.
pub fn added(
    alloc: Global,
    partition_values: PartitionMap,
    stats: Option<&str>,
) -> Result<AddFile, NoMemory> {
    let stats = optional(alloc, stats)?;
    let path = Text::make(alloc, "f")?;
    let name = Text::make(alloc, "f")?;
    Ok(AddFile {
        path,
        name,
        partition_values,
        size: 1,
        modification_time: 0,
        data_change: true,
        stats,
        tags: None,
    })
}

/// What is known of a file with these partition values and statistics.
pub fn facts_by(
    alloc: Global,
    schema: &Schema,
    values: PartitionMap,
    stats: Option<&str>,
) -> Result<FileFacts, Fail>
    ensures { IfOk result (λ f. length f ≡ length schema.now.columns) }
{
    let add = added(alloc, values, stats)?;
    let facts = FileFacts::of(alloc, schema, &add);
    drop(add);
    let facts = facts?;
    Ok(facts)
}

/// The same of a file with this value of `w`.
pub fn facts_of(
    alloc: Global,
    schema: &Schema,
    stats: Option<&str>,
    value: Option<&str>,
) -> Result<FileFacts, Fail>
    ensures { IfOk result (λ f. length f ≡ length schema.now.columns) }
{
    let values = one_value(alloc, "w", value)?;
    let facts = facts_by(alloc, schema, values, stats)?;
    Ok(facts)
}

/// A column compared with a number.
pub fn compared(column: u32, op: Op, number: i64) -> Pred<u32>
    requires { column < 2 }
    ensures { is_bound 2 result ≡ true }
{
    Pred::Compare {
        op,
        column,
        right: Operand::Literal(Datum::Long(number)),
    }
}

/// `not`, where that is wanted.
pub fn negated(alloc: Global, pred: Pred<u32>, is_negated: bool) -> Result<Pred<u32>, NoMemory>
    requires { is_bound 2 pred ≡ true }
    ensures { IfOk result (λ p. is_bound 2 p ≡ true) }
{
    if is_negated {
        Ok(Pred::Negation(Boxed::new(alloc, pred)?))
    } else {
        Ok(pred)
    }
}

/// Whether the file may match a predicate, which goes with it.
pub fn may(facts: &FileFacts, pred: Pred<u32>) -> bool
    requires width { length facts.now ≡ 2 }
    requires bound { is_bound 2 pred ≡ true }
{
    let may = may_match(&pred, facts);
    drop(pred);
    may
}

/// The same of a predicate over names; `None` where it does not fit the columns.
pub fn may_named(
    alloc: Global,
    schema: &Schema,
    facts: &FileFacts,
    named: Pred<Text>,
) -> Option<bool>
    requires { length facts.now ≡ length schema.now.columns }
{
    let bound = named.bind(alloc, schema);
    drop(named);
    match bound {
        Ok(pred) => {
            let may = may_match(&pred, facts);
            drop(pred);
            Some(may)
        }
        Err(_) => None,
    }
}
