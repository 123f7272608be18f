//! Tables that are made.
ghost use Rattle.std.specs.Prelude.{◌≡◌, ◌<◌, [], true, nat_lt, None, length, IfOk, OnOk};
ghost use Rattle.std.specs.List.{list_all};
ghost use Rattle.row_base.specs.Faults.{Reads};
ghost use Rattle.row_base.specs.Schema.{first_after, is_wrong_place, is_named, schema_fault};
ghost use Rattle.predicates.specs.Binding.{is_memory};
ghost use Rattle.statement_checks.specs.Tables.{names_in, columns_in, partition_place_in, partition_in, table_in};

use crate::check_properties;
use crate::column::new_place;
use op_types::Property;
use predicates::BindFault;
use row_base::limits::MAX_COLUMNS;
use row_base::{Column, Items, Schema, Text, copy_columns};
use std::alloc::Global;

/// Whether a column has this name.
fn has_name(columns: &[Column], name: &Text) -> bool
    ensures { result ≡ is_named columns.now name.now }
{
    columns.iter().any(|column| column.name == *name)
}

/// That no name of a column stands twice.
fn check_names(columns: &[Column]) -> Result<(), BindFault>
    ensures { Reads is_memory result (names_in columns.now) }
{
    for (i, column) in columns.iter().enumerate() {
        if has_name(&columns[..i], &column.name) {
            return Err(BindFault::Twice {
                name: column.name.copy()?,
            });
        }
    }
    Ok(())
}

/// That there are 1 to 64 columns, each with a name of its own.
fn check_columns(columns: &[Column]) -> Result<(), BindFault>
    ensures read { Reads is_memory result (columns_in columns.now) }
    ensures right { OnOk result (schema_fault columns.now [] ≡ None) }
    ensures few { OnOk result (length columns.now < 65) }
{
    if columns.is_empty() || MAX_COLUMNS < columns.len() {
        return Err(BindFault::Count);
    }
    check_names(columns)
}

/// The place of a partition column after those before.
fn partition_place(columns: &[Column], before: &[u32], name: &Text) -> Result<u32, BindFault>
    requires { length columns.now < 65 }
    ensures read { Reads is_memory result (partition_place_in columns.now before.now name.now) }
    ensures within { IfOk result (λ p. p < length columns.now) }
{
    let place = new_place(columns, before, name)?;
    if before.len() + 1 == columns.len() {
        return Err(BindFault::Count);
    }
    Ok(place)
}

/// The places of partition columns, of which none is wrong.
#[tactic(auto, unfolding(crate::specs::Tables::partition_in))]
fn each_place(alloc: Global, columns: &[Column], names: &[Text]) -> Result<Items<u32>, BindFault>
    requires { length columns.now < 65 }
    ensures read { Reads is_memory result (partition_in columns.now [] names.now) }
    ensures within { IfOk result (λ ps. list_all (λ p. nat_lt p (length columns.now)) ps ≡ true) }
    ensures right { IfOk result (λ ps. first_after (is_wrong_place (length columns.now)) [] ps ≡ None) }
{
    let mut places = Vec::with_capacity(alloc, names.len())?;
    for name in names {
        places.push(partition_place(columns, places.as_slice(), name)?)?;
    }
    Ok(Items::from_vec(places))
}

/// The schema of columns and places that make one.
#[tactic(auto, using(crate::proofs::Partitions::no_fault))]
fn made(columns: Items<Column>, partition: Items<u32>) -> Result<Schema, BindFault>
    requires columns { schema_fault columns [] ≡ None }
    requires places { first_after (is_wrong_place (length columns)) [] partition ≡ None }
    ensures { result ≡ Ok (record { columns = columns; partition = partition }) }
{
    match Schema::make(columns.into_vec(), partition.into_vec()) {
        Ok(schema) => Ok(schema),
        Err(_) => Err(BindFault::Count),
    }
}

/// The schema of a table that is to be made, or the first fault from the left. There are 1 to 64 columns (`Count`,
/// before the first of them), each with a name of its own (`Twice`). Then come the names of the partition columns: each
/// is a column's (`Column`), stands once (`Twice`), and leaves a column for data (`Count`). Then come the properties,
/// as `check_properties` has them.
pub fn bound_table(
    alloc: Global,
    columns: &[Column],
    partition: &[Text],
    properties: &[Property],
) -> Result<Schema, BindFault>
    ensures { Reads is_memory result (table_in columns.now partition.now properties.now) }
{
    check_columns(columns)?;
    let places = each_place(alloc, columns, partition)?;
    check_properties(properties)?;
    made(copy_columns(alloc, columns)?, places)
}
