//! Statistics that are written.
ghost use Rattle.std.specs.Prelude.{◌≡◌, ◌≤◌, false, IfOk, OnOk, Some, option_map, option_and_then};
ghost use Rattle.serde_json.specs.Data.{string, no_members, depth};
ghost use Rattle.serde_json.specs.Read.{max_depth};
ghost use Rattle.serde_json.specs.View.{view, members_view};
ghost use Rattle.serde_json.specs.Written.{has_float, compact_text};
ghost use Rattle.json_lines.specs.Lines.{value_of_line};
ghost use Rattle.json_lines.specs.Written.{with_member};
ghost use Rattle.file_stats.specs.Kept as kept;
ghost use Rattle.file_stats.specs.Reading.{stats_in};
ghost use Rattle.file_stats.specs.Laws.{StatsFit};
ghost use Rattle.file_stats.specs.Written as spec;

use crate::bound::Bound;
use crate::cut::kept_of;
use crate::stats::{ColumnStats, Stats};
use json_lines::{Member, put_optional};
use row_base::{Datum, NoMemory, Schema, Text, write_date};
use serde_json::{Map, Value, put};
use std::alloc::Global;

/// The first and the last day that has a text.
const FIRST_DAY: i32 = -719_162;

const LAST_DAY: i32 = 2_932_896;

/// A part of the statistics that has a value by the name of each column.
#[derive(Clone, Copy, Debug, Drop, PartialEq, Eq)]
pub(crate) enum Part {
    Bounds(Bound),
    Nulls,
}

/// A text, as far as it is kept.
fn text_value(alloc: Global, bound: Bound, text: &Text) -> Result<Option<Value>, NoMemory>
    ensures { IfOk result (λ o. option_map view o ≡ option_map string (kept.kept_text bound text.now)) }
{
    match kept_of(bound, text) {
        Some(text) => Ok(Some(Value::try_from_str(alloc, text)?)),
        None => Ok(None),
    }
}

/// The text of a day, where it has one.
fn day_value(alloc: Global, day: i32) -> Result<Option<Value>, NoMemory>
    ensures { IfOk result (λ o. option_map view o ≡ option_map spec.day_data (kept.kept_day day)) }
{
    if FIRST_DAY <= day && day <= LAST_DAY {
        let text = write_date(alloc, day)?;
        Ok(Some(text.write(alloc)?))
    } else {
        Ok(None)
    }
}

/// A bound, as far as it is kept.
fn bound_value(alloc: Global, bound: Bound, value: &Datum) -> Result<Option<Value>, NoMemory>
    ensures { IfOk result (λ o. option_map view o ≡ spec.bound_data bound value.now) }
{
    match value {
        Datum::Null | Datum::Boolean(_) => Ok(None),
        Datum::Long(number) => Ok(Some(Value::from(*number))),
        Datum::Integer(number) => Ok(Some(Value::from(i64::from(*number)))),
        Datum::Date(day) => day_value(alloc, *day),
        Datum::Text(text) => text_value(alloc, bound, text),
    }
}

/// A bound that there may be.
fn bound_if_known(
    alloc: Global,
    bound: Bound,
    value: &Option<Datum>,
) -> Result<Option<Value>, NoMemory>
    ensures { IfOk result (λ o. option_map view o ≡ option_and_then (spec.bound_data bound) value.now) }
{
    match value {
        Some(value) => bound_value(alloc, bound, value),
        None => Ok(None),
    }
}

/// What a part has of a column.
fn part_of(alloc: Global, part: Part, column: &ColumnStats) -> Result<Option<Value>, NoMemory>
    ensures { IfOk result (λ o. option_map view o ≡ spec.part_data part column.now) }
{
    match part {
        Part::Bounds(Bound::Least) => bound_if_known(alloc, Bound::Least, &column.least),
        Part::Bounds(Bound::Greatest) => bound_if_known(alloc, Bound::Greatest, &column.greatest),
        Part::Nulls => match column.nulls {
            Some(nulls) => Ok(Some(Value::from(nulls))),
            None => Ok(None),
        },
    }
}

/// What a part has of the column at this place, unless it is a partition column.
fn part_at(
    alloc: Global,
    schema: &Schema,
    part: Part,
    stats: &Stats,
    place: u32,
) -> Result<Option<Value>, NoMemory>
    ensures { IfOk result (λ o. option_map view o ≡ spec.part_at schema.now part stats.now place) }
{
    let columns = stats.columns.as_slice();
    if schema.is_partition(place) {
        Ok(None)
    } else if (place as usize) < columns.len() {
        part_of(alloc, part, &columns[place as usize])
    } else {
        part_of(alloc, part, &ColumnStats::nothing())
    }
}

/// A part of the statistics.
fn part_members(
    alloc: Global,
    schema: &Schema,
    part: Part,
    stats: &Stats,
) -> Result<Map<String, Value>, NoMemory>
    ensures { IfOk result (λ m. members_view m.entries
        ≡ spec.members_from (spec.part_at schema.now part stats.now) 0 schema.now.columns no_members) }
{
    let mut members = Map::new(alloc);
    for (i, column) in schema.columns().iter().enumerate() {
        put_if_there(
            alloc,
            &mut members,
            &column.name,
            part_at(alloc, schema, part, stats, i as u32)?,
        )?;
    }
    Ok(members)
}

/// Puts a value under a name, where there is one.
#[tactic(auto, unfolding(json_lines::specs::Written::with_member))]
fn put_if_there(
    alloc: Global,
    members: &mut Map<String, Value>,
    name: &Text,
    value: Option<Value>,
) -> Result<(), NoMemory>
    ensures { OnOk result (members_view members.new.entries
        ≡ with_member name.now (option_map view value) (members_view members.old.entries)) }
{
    match value {
        Some(value) => Ok(put(members, alloc, name.as_str(), value)?),
        None => Ok(()),
    }
}

/// A part of the statistics, as an object.
#[tactic(auto, unfolding(crate::specs::Written::part_object))]
fn part_value(alloc: Global, schema: &Schema, part: Part, stats: &Stats) -> Result<Value, NoMemory>
    ensures { IfOk result (λ v. view v ≡ spec.part_object schema.now part stats.now) }
{
    let members = part_members(alloc, schema, part, stats)?;
    Ok(Value::Object(members))
}

/// The statistics, as an object.
#[tactic(auto, unfolding(crate::specs::Written::stats_data))]
fn stats_value(alloc: Global, schema: &Schema, stats: &Stats) -> Result<Value, NoMemory>
    ensures { IfOk result (λ v. view v ≡ spec.stats_data schema.now stats.now) }
{
    let greatest = part_value(alloc, schema, Part::Bounds(Bound::Greatest), stats)?;
    let least = part_value(alloc, schema, Part::Bounds(Bound::Least), stats)?;
    let nulls = part_value(alloc, schema, Part::Nulls, stats)?;
    let mut members = Map::new(alloc);
    put(&mut members, alloc, "maxValues", greatest)?;
    put(&mut members, alloc, "minValues", least)?;
    put(&mut members, alloc, "nullCount", nulls)?;
    put_optional(alloc, &mut members, "numRecords", &stats.count)?;
    Ok(Value::Object(members))
}

/// The compact text of a value.
fn text_of(alloc: Global, value: &Value) -> Result<Text, NoMemory>
    ensures text { IfOk result (λ t. has_float (view value.now) ≡ false → t ≡ compact_text (view value.now)) }
    ensures back { IfOk result (λ t. depth (view value.now) ≤ max_depth → value_of_line t ≡ Some (view value.now)) }
{
    let text = Text::from_string(value.to_string(alloc)?)?;
    let _utf8 = text.as_str();
    Ok(text)
}

/// The text of statistics, in compact JSON with members in byte order. A least text is cut to its first 32 characters, a
/// greatest one that has more isn't written, and neither are bounds of truth values. What is kept is read back.
pub fn write_stats(alloc: Global, schema: &Schema, stats: &Stats) -> Result<Text, NoMemory>
    ensures text { IfOk result (λ t. t ≡ spec.stats_text schema.now stats.now) }
    ensures back { IfOk result (λ t. StatsFit schema.now stats.now
        → stats_in schema.now t ≡ Some (kept.kept_stats stats.now)) }
{
    // says that the columns have different names
    let _columns = schema.columns();
    let value = stats_value(alloc, schema, stats)?;
    let text = text_of(alloc, &value)?;
    Ok(text)
}
