//! The schema that a text stands for.
ghost use Rattle.std.specs.Prelude.{◌≡◌, ◌≢◌, ◌<◌, ◌≤◌, [], length, option_map, IfOk, IfErr, IfSome, Ok, MatchResult};
ghost use Rattle.serde_json.specs.View.{view, items_view};
ghost use Rattle.row_base.specs.declared.limits.TheConstants.{MAX_COLUMNS};
ghost use Rattle.row_base.specs.Schema.{is_named};
ghost use Rattle.schema_text.specs.declared.fault.SchemaTextFault.TheVariants as faults;
ghost use Rattle.row_base.specs.Faults.{Reads, FaultOf};
ghost use Rattle.schema_text.specs.Faults.{is_memory};
ghost use Rattle.schema_text.specs.FirstFault.{IsTextOf, IsFirstFault};
ghost use Rattle.schema_text.specs.Schema as spec;

use crate::fault::SchemaTextFault;
use crate::field::{Field, read_field, struct_fields};
use json_lines::read_object;
use row_base::limits::MAX_COLUMNS;
use row_base::{Column, NoMemory, Schema, Text};
use serde_json::Value;
use std::alloc::Global;

/// Whether a column has this name.
fn has_name(columns: &[Column], name: &Text) -> bool
    ensures { result ≡ is_named columns.now name.now }
{
    columns.iter().any(|column| column.name == *name)
}

/// The column of a field whose type is supported, unless it has an invariant.
fn column_of_kind(field: Field) -> Result<Column, SchemaTextFault>
    ensures { Reads is_memory result (spec.column_of_kind field field.kind) }
{
    let Field {
        name,
        kind,
        nullable,
        has_invariant,
    } = field;
    match kind {
        None => Err(SchemaTextFault::Kind { name }),
        Some(_) if has_invariant => Err(SchemaTextFault::Invariant { name }),
        Some(kind) => Ok(Column {
            name,
            kind,
            nullable,
        }),
    }
}

/// The column of a field behind these columns.
#[tactic(auto, unfolding(crate::specs::Schema::column_of))]
fn column_of(columns: &[Column], field: Field) -> Result<Column, SchemaTextFault>
    ensures column { Reads is_memory result (spec.column_of columns.now field) }
    ensures few { IfOk result (λ _. length columns.now < MAX_COLUMNS) }
{
    if columns.len() < MAX_COLUMNS && !has_name(columns, &field.name) {
        column_of_kind(field)
    } else {
        Err(SchemaTextFault::Shape)
    }
}

/// The column of a field's value behind these columns.
#[tactic(auto, unfolding(crate::specs::Schema::next_column))]
fn next_column(alloc: Global, columns: &[Column], value: &Value) -> Result<Column, SchemaTextFault>
    ensures column { Reads is_memory result (spec.next_column columns.now (view value.now)) }
    ensures few { IfOk result (λ _. length columns.now < MAX_COLUMNS) }
{
    let field = read_field(alloc, value)?;
    column_of(columns, field)
}

/// The columns of all fields.
fn columns_of(alloc: Global, fields: &[Value]) -> Result<Vec<Column>, SchemaTextFault>
    ensures few { IfOk result (λ v. length v.items ≤ MAX_COLUMNS) }
    ensures columns { MatchResult result (λ v. spec.columns_from [] (items_view fields.now) ≡ Ok v.items)
        (λ e. FaultOf is_memory e (spec.columns_from [] (items_view fields.now))) }
{
    let mut columns = Vec::new(alloc);
    for value in fields {
        let column = next_column(alloc, &columns, value)?;
        columns.push(column)?;
    }
    Ok(columns)
}

#[tactic(auto, unfolding(crate::specs::Schema::place_in))]
fn place_of(columns: &[Column], name: &Text) -> Option<usize>
    ensures place { result ≡ spec.place_in columns.now name.now }
    ensures within { IfSome result (λ place. place < length columns.now) }
{
    columns.iter().position(|column| column.name == *name)
}

fn places_of(
    alloc: Global,
    columns: &[Column],
    names: &[Text],
) -> Result<Option<Vec<u32>>, NoMemory>
    requires { length columns.now ≤ MAX_COLUMNS }
    ensures { IfOk result (λ o. option_map (λ v. v.items) o ≡ spec.places_in columns.now names.now) }
{
    let mut places = Vec::new(alloc);
    for name in names {
        match place_of(columns, name) {
            Some(place) => places.push(place as u32)?,
            None => return Ok(None),
        }
    }
    Ok(Some(places))
}

fn schema_at(columns: Vec<Column>, places: Vec<u32>) -> Result<Schema, SchemaTextFault>
    ensures { Reads is_memory result (spec.schema_at columns.items places.items) }
{
    match Schema::make(columns, places) {
        Ok(schema) => Ok(schema),
        Err(_) => Err(SchemaTextFault::Shape),
    }
}

#[tactic(auto, unfolding(crate::specs::Schema::schema_by))]
fn schema_by(alloc: Global, names: &[Text], columns: Vec<Column>) -> Result<Schema, SchemaTextFault>
    requires { length columns.items ≤ MAX_COLUMNS }
    ensures { Reads is_memory result (spec.schema_by names.now columns.items) }
{
    match places_of(alloc, &columns, names)? {
        Some(places) => schema_at(columns, places),
        None => Err(SchemaTextFault::Shape),
    }
}

#[tactic(auto, unfolding(crate::specs::Schema::schema_of, crate::specs::Fields::fields_of_text))]
fn schema_in(alloc: Global, text: &Text, partition: &[Text]) -> Result<Schema, SchemaTextFault>
    ensures { Reads is_memory result (spec.schema_of text.now partition.now) }
{
    let value = read_object(alloc, text.as_str().as_bytes())?;
    match struct_fields(&value) {
        Some(fields) => {
            let columns = columns_of(alloc, fields)?;
            schema_by(alloc, partition, columns)
        }
        None => Err(SchemaTextFault::Shape),
    }
}

/// The schema that a text stands for (PROTOCOL.md, "Schema Serialization Format"), partitioned by the columns of these
/// names in their order, or the first fault by place. The text is JSON of a struct type with a list of fields. Then come
/// the fields in order, and at one field first its shape: a name that no field before has, a type, a flag that says
/// whether it is nullable, and metadata, among the first `MAX_COLUMNS`; then a type that is supported; then that it
/// has no invariant. In the end the columns and the partition make a schema.
pub fn read_schema(
    alloc: Global,
    text: &Text,
    partition: &[Text],
) -> Result<Schema, SchemaTextFault>
    ensures schema { Reads is_memory result (spec.schema_of text.now partition.now) }
    ensures read { IfOk result (λ s. IsTextOf text.now partition.now s) }
    ensures first { IfErr result (λ e. e ≢ faults.NoMemory → IsFirstFault text.now partition.now e) }
{
    match schema_in(alloc, text, partition) {
        Ok(schema) => Ok(schema),
        Err(fault) => Err(fault),
    }
}
