//! What is known of a data file.
ghost use Rattle.std.specs.Prelude.{◌≡◌, IfOk, length, option_and_then};
ghost use Rattle.row_base.specs.Faults.{Reads};
ghost use Rattle.file_stats.specs.Columns.{stats_at};
ghost use Rattle.file_stats.specs.Reading.{stats_in};
ghost use Rattle.predicates.specs.Truths.{cell};
ghost use Rattle.prune.specs.Known as spec;

use crate::column::ColumnFacts;
use crate::fault::{PartitionFault, partition_fault};
use file_stats::{Stats, read_stats};
use log_actions::{AddFile, PartitionMap};
use row_base::{Datum, Items, NoMemory, Row, Schema, Text};
use schema_text::read_partition;
use std::alloc::Global;
use std::marker::Model;

/// What is known of the rows of a data file, column by column. Contracts see it as the list of what is known of each.
#[derive(Debug, Drop)]
pub struct FileFacts(Items<ColumnFacts>);

impl Model for FileFacts {
    ghost use Rattle.std.specs.Prelude.{List};
    ghost use Rattle.prune.specs.declared.column.ColumnFacts.{ColumnFacts};

    ghost Value = { List ColumnFacts };

    ghost view = { λ a. a.0 };
}

impl FileFacts {
    /// What the log says of a file that is added: a partition column has exactly its value, and of a data column the
    /// statistics say what they say. Statistics that are absent, or no JSON object, say nothing. The fault is that of the
    /// first partition column, in the order of the schema, whose value has no reading.
    #[tactic(auto, using(crate::proofs::FileRows::facts_width))]
    pub fn of(alloc: Global, schema: &Schema, add: &AddFile) -> Result<FileFacts, PartitionFault>
        ensures facts { Reads spec.is_memory result (spec.facts_in schema.now add.now.partition_values add.now.stats) }
        ensures width { IfOk result (λ f. length f ≡ length schema.now.columns) }
    {
        let values = values_of(alloc, schema, &add.partition_values)?;
        let stats = stats_said(alloc, schema, &add.stats)?;
        let columns = columns_of(alloc, schema, values.as_slice(), &stats)?;
        Ok(FileFacts(columns))
    }

    /// The facts of each column.
    pub(crate) fn columns(&self) -> &[ColumnFacts]
        ensures { result.now ≡ self.now }
    {
        self.0.as_slice()
    }
}

/// A row with the values of the partition columns.
fn values_of(alloc: Global, schema: &Schema, values: &PartitionMap) -> Result<Row, PartitionFault>
    ensures { Reads spec.is_memory result (spec.values_in schema.now values.now) }
{
    match read_partition(alloc, schema, values) {
        Ok(row) => Ok(row),
        Err(fault) => Err(partition_fault(fault)),
    }
}

/// What a text of statistics says, where there is one and it is a JSON object.
fn stats_if_said(
    alloc: Global,
    schema: &Schema,
    text: &Option<Text>,
) -> Result<Option<Stats>, NoMemory>
    ensures { IfOk result (λ o. o ≡ option_and_then (stats_in schema.now) text.now) }
{
    match text {
        Some(text) => read_stats(alloc, schema, text),
        None => Ok(None),
    }
}

/// What statistics say, or that nothing is known.
fn stats_said(alloc: Global, schema: &Schema, text: &Option<Text>) -> Result<Stats, NoMemory>
    ensures { IfOk result (λ s. s ≡ spec.stats_said schema.now text.now) }
{
    let stats = stats_if_said(alloc, schema, text)?;
    Ok(or_nothing(alloc, stats))
}

fn or_nothing(alloc: Global, stats: Option<Stats>) -> Stats
    ensures { result ≡ spec.or_nothing stats }
{
    match stats {
        Some(stats) => stats,
        None => Stats {
            count: None,
            columns: Items::from_vec(Vec::new(alloc)),
        },
    }
}

/// The facts of a data column.
fn known_at(stats: &Stats, place: u32) -> Result<ColumnFacts, NoMemory>
    ensures { IfOk result (λ f. f ≡ spec.known_of stats.now.count (stats_at stats.now place)) }
{
    let columns = stats.columns.as_slice();
    if (place as usize) < columns.len() {
        ColumnFacts::known(stats.count, &columns[place as usize])
    } else {
        Ok(ColumnFacts::unknown(stats.count))
    }
}

/// The facts of a partition column.
fn exact_at(values: &[Datum], place: u32) -> Result<ColumnFacts, NoMemory>
    ensures { IfOk result (λ f. f ≡ spec.exact_facts (cell values.now place)) }
{
    if (place as usize) < values.len() {
        ColumnFacts::exact(&values[place as usize])
    } else {
        ColumnFacts::exact(&Datum::Null)
    }
}

/// The facts of the column at this place.
fn column_facts(
    schema: &Schema,
    values: &[Datum],
    stats: &Stats,
    place: u32,
) -> Result<ColumnFacts, NoMemory>
    ensures { IfOk result (λ f. f ≡ spec.column_facts schema.now values.now stats.now place) }
{
    if schema.is_partition(place) {
        exact_at(values, place)
    } else {
        known_at(stats, place)
    }
}

/// The facts of each column.
fn columns_of(
    alloc: Global,
    schema: &Schema,
    values: &[Datum],
    stats: &Stats,
) -> Result<Items<ColumnFacts>, NoMemory>
    ensures { IfOk result (λ fs. fs ≡ spec.facts_of schema.now values.now stats.now) }
{
    let mut columns = Vec::with_capacity(alloc, schema.columns().len())?;
    for (i, _column) in schema.columns().iter().enumerate() {
        columns.push(column_facts(schema, values, stats, i as u32)?)?;
    }
    Ok(Items::from_vec(columns))
}
