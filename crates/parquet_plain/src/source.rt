//! Where the values of a table's columns come from.
ghost use Rattle.std.specs.Prelude.{◌≡◌, ◌==◌, Err, IfOk};
ghost use Rattle.parquet_meta.specs.Faults.{Reads};
ghost use Rattle.parquet_meta.specs.declared.fault.FileFault.TheVariants as faults;
ghost use Rattle.parquet_plain.specs.Tree as spec;

use parquet_meta::{FileFault, SchemaElement};
use row_base::{Column, Kind, NoMemory, Schema, Text};
use std::alloc::Global;

/// A leaf of the file's schema that holds a column of the table.
#[derive(Debug, Drop)]
pub(crate) struct Leaf {
    pub(crate) name: Text,
    pub(crate) kind: Kind,
    /// Whether the table's column may be null.
    pub(crate) nullable: bool,
    /// Its place among the leaves.
    pub(crate) place: usize,
    /// Whether the file's column may be null.
    pub(crate) optional: bool,
}

/// Where the values of a column come from.
#[derive(Debug, Drop)]
pub(crate) enum Source {
    /// Each value is null: the column is a partition column, or the file lacks it and it may be null.
    Nulls,
    /// The file lacks the column, which may not be null.
    Lacking { name: Text },
    /// A leaf of the file.
    Leaf(Leaf),
}

/// What the column of this name reads as, where its shape isn't that of the table's column.
pub(crate) fn refuse_shape<T>(name: &Text) -> Result<T, FileFault>
    ensures { Reads result (Err (faults.Shape name.now)) }
{
    Err(FileFault::Shape {
        column: name.copy()?,
    })
}

/// Whether an element may be null.
fn is_optional(repetition: Option<i64>) -> bool
    ensures { result ≡ spec.is_optional repetition }
{
    match repetition {
        Some(number) => number == 1,
        None => false,
    }
}

/// The leaf of a column that the element at this place is.
fn leaf_at(column: &Column, place: usize, element: &SchemaElement) -> Result<Leaf, NoMemory>
    ensures { IfOk result (λ l. l ≡ spec.leaf_at column.now place element.now) }
{
    Ok(Leaf {
        name: column.name.copy()?,
        kind: column.kind,
        nullable: column.nullable,
        place,
        optional: is_optional(element.repetition_type),
    })
}

/// The leaf of a column: the first element of its name.
fn leaf_of(column: &Column, leaves: &[SchemaElement]) -> Result<Option<Leaf>, NoMemory>
    ensures { IfOk result (λ o. o ≡ spec.leaf_from column.now 0 leaves.now) }
{
    for (place, element) in leaves.iter().enumerate() {
        if element.name == column.name {
            return Ok(Some(leaf_at(column, place, element)?));
        }
    }
    Ok(None)
}

/// Where the values of a column that is no partition column come from.
fn source_by(column: &Column, leaf: Option<Leaf>) -> Result<Source, NoMemory>
    ensures { IfOk result (λ s. s ≡ spec.source_by column.now leaf) }
{
    match leaf {
        Some(leaf) => Ok(Source::Leaf(leaf)),
        None if column.nullable => Ok(Source::Nulls),
        None => Ok(Source::Lacking {
            name: column.name.copy()?,
        }),
    }
}

/// Where the values of the column at this place come from.
fn source_of(
    schema: &Schema,
    leaves: &[SchemaElement],
    place: u32,
    column: &Column,
) -> Result<Source, NoMemory>
    ensures { IfOk result (λ s. s ≡ spec.source_of schema.now.partition leaves.now place column.now) }
{
    if schema.is_partition(place) {
        Ok(Source::Nulls)
    } else {
        source_by(column, leaf_of(column, leaves)?)
    }
}

/// Where the values of each column come from.
pub(crate) fn sources_of(
    alloc: Global,
    schema: &Schema,
    leaves: &[SchemaElement],
) -> Result<Vec<Source>, NoMemory>
    ensures { IfOk result (λ v. v.items ≡ spec.sources_from schema.now.partition leaves.now 0 schema.now.columns) }
{
    let mut sources = Vec::with_capacity(alloc, schema.columns().len())?;
    for (i, column) in schema.columns().iter().enumerate() {
        sources.push(source_of(schema, leaves, i as u32, column)?)?;
    }
    Ok(sources)
}
