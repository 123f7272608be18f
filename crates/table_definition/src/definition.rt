//! The schema and the rules of a table.
ghost use Rattle.std.specs.Prelude.{◌≡◌, IfOk, option_copied};
ghost use Rattle.row_base.specs.Faults.{Reads};
ghost use Rattle.table_rules.specs.Properties.{rules_of};
ghost use Rattle.table_rules.specs.Protocols.{unsupported};
ghost use Rattle.table_definition.specs.Definitions as spec;

use crate::DefinitionFault;
use log_actions::{Feature, MetaData, Protocol};
use row_base::{NoMemory, Schema, Text};
use schema_text::{SchemaTextFault, read_schema};
use std::alloc::Global;
use table_rules::{FeatureFault, Rules, accepts, rules_of};

/// A table as its protocol and its metadata define it.
#[derive(Drop)]
pub struct Definition {
    pub schema: Schema,
    pub rules: Rules,
}

/// The feature that a column's invariant asks for.
#[tactic(auto, unfolding(crate::specs::Definitions::invariants))]
fn invariants(alloc: Global) -> Result<Text, NoMemory>
    ensures { IfOk result (λ name. name ≡ spec.invariants) }
{
    Text::make(alloc, "invariants")
}

/// What isn't supported where a column has an invariant.
fn asks_for_invariants(alloc: Global) -> DefinitionFault
    ensures { spec.IsFault result spec.asked_by_invariants }
{
    match invariants(alloc) {
        Ok(name) => DefinitionFault::Unsupported(Feature::Named { name }),
        Err(_) => DefinitionFault::NoMemory,
    }
}

/// Why a table can't be used whose schema's text has this fault.
fn of_text(alloc: Global, fault: SchemaTextFault) -> DefinitionFault
    ensures { spec.IsFault result (spec.of_text fault) }
{
    match fault {
        SchemaTextFault::Shape | SchemaTextFault::Value { .. } => DefinitionFault::Table,
        SchemaTextFault::Kind { name } => {
            DefinitionFault::Unsupported(Feature::ColumnType { name })
        }
        SchemaTextFault::Invariant { .. } => asks_for_invariants(alloc),
        SchemaTextFault::NoMemory => DefinitionFault::NoMemory,
    }
}

/// Why a table can't be used that asks for a feature.
fn of_feature(fault: FeatureFault) -> DefinitionFault
    ensures { result ≡ spec.of_feature fault }
{
    match fault {
        FeatureFault::Unsupported(feature) => DefinitionFault::Unsupported(feature),
        FeatureFault::NoMemory => DefinitionFault::NoMemory,
    }
}

/// The protocol asks for nothing that isn't supported.
fn check_protocol(protocol: &Protocol) -> Result<(), DefinitionFault>
    ensures { Reads spec.is_memory result (spec.unless_asked (unsupported protocol.now)) }
{
    match accepts(protocol) {
        Ok(()) => Ok(()),
        Err(fault) => Err(of_feature(fault)),
    }
}

/// The schema that metadata says.
fn schema_said(alloc: Global, meta: &MetaData) -> Result<Schema, DefinitionFault>
    ensures { Reads spec.is_memory result (spec.schema_said meta.now) }
{
    match read_schema(
        alloc,
        &meta.schema_string,
        meta.partition_columns.as_slice(),
    ) {
        Ok(schema) => Ok(schema),
        Err(fault) => Err(of_text(alloc, fault)),
    }
}

/// The rules that its properties set.
fn rules_said(meta: &MetaData) -> Result<Rules, DefinitionFault>
    ensures { Reads spec.is_memory result (spec.or_asked (rules_of meta.now)) }
{
    match rules_of(meta) {
        Ok(rules) => Ok(rules),
        Err(fault) => Err(of_feature(fault)),
    }
}

/// What a table is by its protocol and its metadata, which have to be there, or the first reason why it can't be used:
/// what the protocol asks for, then the text of the schema, then the properties.
pub fn definition_of(
    alloc: Global,
    protocol: Option<&Protocol>,
    meta: Option<&MetaData>,
) -> Result<Definition, DefinitionFault>
    ensures { Reads spec.is_memory result (spec.definition_of (option_copied protocol.entry) (option_copied meta.entry)) }
{
    let (Some(protocol), Some(meta)) = (protocol, meta) else {
        return Err(DefinitionFault::Table);
    };
    check_protocol(protocol)?;
    let schema = schema_said(alloc, meta)?;
    let rules = rules_said(meta)?;
    Ok(Definition { schema, rules })
}
