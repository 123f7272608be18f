//! What a made table is.
ghost use Rattle.std.specs.Prelude.{◌≡◌, IfOk};
ghost use Rattle.commit_plans.specs.Made as spec;

use json_lines::TextMap;
use log_actions::{Format, MetaData, Protocol};
use row_base::{Items, NoMemory, Text};
use std::alloc::Global;

#[tactic(auto, unfolding(crate::specs::Made::reader_features))]
fn reader_features(alloc: Global) -> Result<Items<Text>, NoMemory>
    ensures { IfOk result (λ f. f ≡ spec.reader_features) }
{
    let mut names = Vec::new(alloc);
    names.push(Text::make(alloc, "v2Checkpoint")?)?;
    Ok(Items::from_vec(names))
}

#[tactic(auto, unfolding(crate::specs::Made::writer_features))]
fn writer_features(alloc: Global) -> Result<Items<Text>, NoMemory>
    ensures { IfOk result (λ f. f ≡ spec.writer_features) }
{
    let mut names = Vec::new(alloc);
    names.push(Text::make(alloc, "appendOnly")?)?;
    names.push(Text::make(alloc, "invariants")?)?;
    names.push(Text::make(alloc, "v2Checkpoint")?)?;
    Ok(Items::from_vec(names))
}

/// The protocol of a made table: version 3 for readers and 7 for writers, with the features of each (PROTOCOL.md,
/// "Table Features"). The error is want of memory.
#[tactic(auto, unfolding(crate::specs::Made::made_protocol))]
pub fn made_protocol(alloc: Global) -> Result<Protocol, NoMemory>
    ensures { IfOk result (λ p. p ≡ spec.made_protocol) }
{
    let reader_features = reader_features(alloc)?;
    let writer_features = writer_features(alloc)?;
    Ok(Protocol {
        min_reader_version: 3,
        min_writer_version: 7,
        reader_features: Some(reader_features),
        writer_features: Some(writer_features),
    })
}

/// The metadata of a table that is made: by its statement's identifier and start (in milliseconds since 1970), the text
/// of its schema, the names of its partition columns and its properties in byte order. The error is want of memory.
#[tactic(auto, unfolding(crate::specs::Made::made_metadata))]
pub fn made_metadata(
    alloc: Global,
    id: Text,
    start: u64,
    schema: Text,
    partition: Items<Text>,
    properties: TextMap,
) -> Result<MetaData, NoMemory>
    ensures { IfOk result (λ m. m ≡ spec.made_metadata id start schema partition properties) }
{
    let provider = Text::make(alloc, "parquet")?;
    Ok(MetaData {
        id,
        name: None,
        description: None,
        format: Format {
            provider,
            options: Some(Items::from_vec(Vec::new(alloc))),
        },
        schema_string: schema,
        partition_columns: partition,
        created_time: Some(start),
        configuration: Some(properties),
    })
}
