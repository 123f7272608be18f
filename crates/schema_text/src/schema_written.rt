//! The text of a schema.
ghost use Rattle.std.specs.Prelude.{◌≡◌, ◌≤◌, false, List, ℕ, Some, Ok, IfOk};
ghost use Rattle.serde_json.specs.Data.{array, depth};
ghost use Rattle.serde_json.specs.Read.{max_depth};
ghost use Rattle.serde_json.specs.View.{view};
ghost use Rattle.serde_json.specs.Written.{has_float, compact_text};
ghost use Rattle.json_lines.specs.Lines.{value_of_line};
ghost use Rattle.schema_text.specs.Schema.{schema_of, places_in};
ghost use Rattle.schema_text.specs.SchemaWritten as spec;

use json_lines::put_member;
use row_base::{Column, Kind, NoMemory, Schema, Text};
use serde_json::{Map, Value, put};
use std::alloc::Global;

fn kind_text(kind: Kind) -> &'static str
    ensures { result.now ≡ spec.kind_text kind }
{
    match kind {
        Kind::Long => "long",
        Kind::Integer => "integer",
        Kind::Boolean => "boolean",
        Kind::String => "string",
        Kind::Date => "date",
    }
}

#[tactic(auto, unfolding(json_lines::specs::Written::with_member))]
fn field_value(alloc: Global, column: &Column) -> Result<Value, NoMemory>
    ensures { IfOk result (λ v. view v ≡ spec.field_data column.now) }
{
    let mut members = Map::new(alloc);
    put(
        &mut members,
        alloc,
        "metadata",
        Value::Object(Map::new(alloc)),
    )?;
    put_member(alloc, &mut members, "name", &column.name)?;
    put_member(alloc, &mut members, "nullable", &column.nullable)?;
    let kind = Value::try_from_str(alloc, kind_text(column.kind))?;
    put(&mut members, alloc, "type", kind)?;
    Ok(Value::Object(members))
}

fn fields_value(alloc: Global, columns: &[Column]) -> Result<Value, NoMemory>
    ensures { IfOk result (λ v. view v ≡ array (spec.fields_data columns.now)) }
{
    let mut fields = Vec::with_capacity(alloc, columns.len())?;
    for column in columns {
        fields.push(field_value(alloc, column)?)?;
    }
    Ok(Value::Array(fields))
}

#[tactic(auto, unfolding(crate::specs::SchemaWritten::schema_data))]
fn schema_value(alloc: Global, columns: &[Column]) -> Result<Value, NoMemory>
    ensures { IfOk result (λ v. view v ≡ spec.schema_data columns.now) }
{
    let mut members = Map::new(alloc);
    put(&mut members, alloc, "fields", fields_value(alloc, columns)?)?;
    put(
        &mut members,
        alloc,
        "type",
        Value::try_from_str(alloc, "struct")?,
    )?;
    Ok(Value::Object(members))
}

/// The compact text of a value.
fn text_of(alloc: Global, value: &Value) -> Result<Text, NoMemory>
    ensures text { IfOk result (λ t. has_float (view value.now) ≡ false → t ≡ compact_text (view value.now)) }
    ensures back { IfOk result (λ t. depth (view value.now) ≤ max_depth → value_of_line t ≡ Some (view value.now)) }
{
    let text = Text::from_string(value.to_string(alloc)?)?;
    let _utf8 = text.as_str();
    Ok(text)
}

/// The text of a schema, in compact JSON with members in byte order (PROTOCOL.md, "Schema Serialization Format"). With
/// the names of the partition columns it is read back.
pub fn write_schema(alloc: Global, schema: &Schema) -> Result<Text, NoMemory>
    ensures text { IfOk result (λ t. t ≡ spec.schema_text schema.now.columns) }
    ensures back { IfOk result (λ t. (names : List (List ℕ)) → places_in schema.now.columns names ≡ Some schema.now.partition
        → schema_of t names ≡ Ok schema.now) }
{
    let value = schema_value(alloc, schema.columns())?;
    let text = text_of(alloc, &value)?;
    Ok(text)
}
