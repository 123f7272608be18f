//! Files of a table with the columns `id` and `name`, of which it is known what their statistics say.
ghost use Rattle.std.specs.Prelude.{◌≡◌, ◌++◌, ◌∷◌, [], Some, map, string_bytes, IfOk, IfErr, OnOk};
ghost use Rattle.row_kernels.specs.Files as spec;

use crate::rows::{column, schema_with};
use log_actions::AddFile;
use prune::{FileFacts, PartitionFault};
use row_base::{Items, Kind, NoMemory, Schema, Text};
use std::alloc::{AllocError, Global};

/// The schema of the table.
pub(crate) fn table_schema(alloc: Global) -> Result<Schema, NoMemory>
    ensures { IfOk result (λ schema. schema ≡ spec.schema) }
{
    let other = column(alloc, "name", Kind::String, true)?;
    schema_with(alloc, other)
}

/// The statistics of ten rows, from the first `id` to the last.
fn statistics(alloc: Global, first: u64, last: u64) -> Result<String, AllocError>
    ensures { IfOk result (λ text. string_bytes text ≡ spec.statistics first last) }
{
    format!(in alloc;
        "{{\"maxValues\":{{\"id\":{last},\"name\":\"n{last}\"}},\"minValues\":{{\"id\":{first},\"name\":\"n{first}\"}},\"nullCount\":{{\"id\":0,\"name\":3}},\"numRecords\":10}}"
    )
}

/// The statistics of the file of a number.
#[tactic(auto, unfolding(crate::specs::Files::statistics_of))]
fn statistics_of(alloc: Global, number: u32) -> Result<Text, NoMemory>
    ensures { IfOk result (λ text. text ≡ spec.statistics_of number) }
{
    let first = u64::from(number) * 10;
    let text = statistics(alloc, first, first + 9)?;
    Text::from_string(text)
}

/// The statistics of so many files.
#[tactic(auto, unfolding(crate::specs::Files::texts_of), using(crate::proofs::Widths::texts_more))]
pub(crate) fn texts_of(alloc: Global, count: u32) -> Result<Vec<Text>, NoMemory>
    ensures { IfOk result (λ texts. texts.items ≡ spec.texts_of count) }
{
    let mut texts = Vec::with_capacity(alloc, count as usize)?;
    for number in 0..count {
        let text = statistics_of(alloc, number)?;
        texts.push(text)?;
    }
    Ok(texts)
}

/// A file of this path with these statistics.
fn added(path: &Text, statistics: &Text, alloc: Global) -> Result<AddFile, NoMemory>
    ensures values { IfOk result (λ add. add.partition_values ≡ []) }
    ensures stats { IfOk result (λ add. add.stats ≡ Some statistics.now) }
{
    Ok(AddFile {
        path: path.copy()?,
        name: path.copy()?,
        partition_values: Items::from_vec(Vec::new(alloc)),
        size: 1,
        modification_time: 0,
        data_change: true,
        stats: Some(statistics.copy()?),
        tags: None,
    })
}

/// What is known of a file of this path, by its statistics.
#[tactic(auto, using(crate::proofs::Known::facts_found))]
pub(crate) fn facts_by(
    alloc: Global,
    schema: &Schema,
    path: &Text,
    statistics: &Text,
) -> Result<FileFacts, PartitionFault>
    requires { schema.now ≡ spec.schema }
    ensures ok { IfOk result (λ facts. facts ≡ spec.facts_by statistics.now) }
    ensures err { IfErr result (λ e. e ≡ PartitionFault.NoMemory) }
{
    let add = added(path, statistics, alloc)?;
    FileFacts::of(alloc, schema, &add)
}

/// Puts what is known of a file behind that of others.
fn push_facts(facts: &mut Vec<FileFacts>, file: FileFacts) -> Result<(), NoMemory>
    ensures { OnOk result (facts.new.items ≡ facts.old.items ++ file ∷ []) }
{
    facts.push(file)?;
    Ok(())
}

/// What is known of each file, by its statistics.
pub(crate) fn facts_of(alloc: Global, texts: &[Text]) -> Result<Vec<FileFacts>, PartitionFault>
    ensures ok { IfOk result (λ facts. facts.items ≡ map spec.facts_by texts.now) }
    ensures err { IfErr result (λ e. e ≡ PartitionFault.NoMemory) }
{
    let schema = table_schema(alloc)?;
    let path = Text::make(alloc, "file")?;
    let mut facts = Vec::new(alloc);
    for text in texts {
        let file = facts_by(alloc, &schema, &path, text)?;
        push_facts(&mut facts, file)?;
    }
    Ok(facts)
}
