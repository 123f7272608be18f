//! The schema of a file that is written (parquet.thrift, `SchemaElement`).
ghost use Rattle.std.specs.Prelude.{◌≡◌, ◌++◌, ◌∷◌, length, pos, IfOk};
ghost use Rattle.parquet_plain.specs.Written as spec;

use crate::tree::physical_of;
use parquet_meta::SchemaElement;
use row_base::{Column, Kind, NoMemory, Schema, Text};
use std::alloc::Global;

/// The number of the converted type of a kind (`ConvertedType`, UTF8 and DATE).
fn converted_of(kind: Kind) -> Option<i64>
    ensures { result ≡ spec.converted_of kind }
{
    match kind {
        Kind::String => Some(0),
        Kind::Date => Some(6),
        _ => None,
    }
}

/// REQUIRED or OPTIONAL (`FieldRepetitionType`).
fn repetition_of(nullable: bool) -> i64
    ensures { result ≡ spec.repetition_of nullable }
{
    if nullable { 1 } else { 0 }
}

fn element_of(column: &Column) -> Result<SchemaElement, NoMemory>
    ensures { IfOk result (λ e. e ≡ spec.element_of column.now) }
{
    Ok(SchemaElement {
        physical_type: Some(physical_of(column.kind)),
        repetition_type: Some(repetition_of(column.nullable)),
        name: column.name.copy()?,
        num_children: None,
        converted_type: converted_of(column.kind),
    })
}

fn root_of(alloc: Global, children: i64) -> Result<SchemaElement, NoMemory>
    ensures { IfOk result (λ e. e ≡ spec.root_of children) }
{
    Ok(SchemaElement {
        physical_type: None,
        repetition_type: None,
        name: Text::make(alloc, "schema")?,
        num_children: Some(children),
        converted_type: None,
    })
}

/// The elements of the data columns.
fn leaves_of(alloc: Global, schema: &Schema) -> Result<Vec<SchemaElement>, NoMemory>
    ensures { IfOk result (λ v. v.items ≡ spec.elements_from schema.now.partition 0 schema.now.columns) }
{
    let mut leaves = Vec::new(alloc);
    for (i, column) in schema.columns().iter().enumerate() {
        if !schema.is_partition(i as u32) {
            leaves.push(element_of(column)?)?;
        }
    }
    Ok(leaves)
}

/// The elements of the root and of the data columns.
#[tactic(auto, unfolding(crate::specs::Written::elements_of))]
pub(crate) fn elements_of(alloc: Global, schema: &Schema) -> Result<Vec<SchemaElement>, NoMemory>
    ensures { IfOk result (λ v. v.items ≡ spec.elements_of schema.now) }
{
    let mut leaves = leaves_of(alloc, schema)?;
    let mut elements = Vec::with_capacity(alloc, leaves.len() + 1)?;
    elements.push(root_of(alloc, leaves.len() as i64)?)?;
    elements.append(&mut leaves)?;
    Ok(elements)
}
