//! Columns, schemas, and whether a row fits a schema.
ghost use Rattle.std.specs.Prelude.{◌≡◌, ◌↔◌, ◌<◌, ◌≤◌, ◌==◌, ◌^◌, [], length, IfOk, IfErr, IsOk, MatchResult, Some, None, if◌then◌else◌};
ghost use Rattle.std.specs.Option.{option_map};
ghost use Rattle.std.specs.List.{position};
ghost use Rattle.std.specs.Cmp.Lexicographic.{pointwise};
ghost use Rattle.row_base.specs.Schema.{first_after, is_named, repeats_name, is_wrong_place, schema_fault, IsSchema, IsSchemaFault, IsRowFault, column_place, is_partition_column, narrowed_number, is_of_kind, is_empty_text, datum_fault, first_datum_fault, row_fault, FitsSchema, settled_datum, settled};

use crate::limits::MAX_COLUMNS;
use crate::{Datum, Items, Kind, NoMemory, Row, Text};
use std::alloc::Global;
use std::marker::Model;
use thiserror::Error;

/// A column: its name, the kind of its data, and whether a datum may be null (a field of a struct type:
/// PROTOCOL.md, "Struct Field").
#[derive(Debug, Drop)]
pub struct Column {
    pub name: Text,
    pub kind: Kind,
    pub nullable: bool,
}

impl Column {
    /// An equal column. The bytes of its name are shared.
    pub fn copy(&self) -> Result<Column, NoMemory>
        ensures { IfOk result (λ c. c ≡ self.now) }
    {
        Ok(Column {
            name: self.name.copy()?,
            kind: self.kind,
            nullable: self.nullable,
        })
    }
}

/// Why columns and places make no schema.
#[derive(Clone, Copy, Debug, Drop, PartialEq, Eq, Error)]
pub enum SchemaFault {
    /// There are not 1 to 64 columns.
    #[error("not 1 to 64 columns")]
    Columns,
    /// The name of this column stood before.
    #[error("the name of column {column} stands twice")]
    Twice { column: u32 },
    /// No column has this place, or it stood before, or with it no column is left for data.
    #[error("column {place} can be no partition column")]
    Partition { place: u32 },
}

/// Why a row does not fit a schema.
#[derive(Clone, Copy, Debug, Drop, PartialEq, Eq, Error)]
pub enum RowFault {
    /// It has not as many data as there are columns.
    #[error("another number of data")]
    Count,
    /// The datum of this column is of another kind.
    #[error("column {column} is of another kind")]
    Kind { column: u32 },
    /// The datum of this column is null, which the column does not allow.
    #[error("column {column} may not be null")]
    Null { column: u32 },
    /// The datum of this partition column is the empty text, which the log would read as null.
    #[error("column {column} may not be empty")]
    EmptyPartition { column: u32 },
}

/// A row that does not fit, as it came, and why.
#[derive(Debug, Drop)]
pub struct Unsettled {
    pub row: Row,
    pub fault: RowFault,
}

/// The columns of a table, and the places of those by which it is partitioned. It has 1 to 64 columns of
/// different names, and one at least that is no partition column.
#[derive(Debug, Drop)]
pub struct Schema {
    columns: Vec<Column>,
    partition: Vec<u32>,
}

impl Model for Schema {
    ghost use Rattle.row_base.specs.Schema.{TableSchema, IsSchema};

    ghost Value = { TableSchema };

    ghost view = { λ a. record { columns = a.columns.items; partition = a.partition.items } };

    ghost invariant = { λ a. IsSchema (record { columns = a.columns.items; partition = a.partition.items }) };
}

impl Schema {
    /// The schema of these columns, partitioned by the columns at these places, or the first fault. It
    /// takes no memory.
    pub fn make(columns: Vec<Column>, partition: Vec<u32>) -> Result<Schema, SchemaFault>
        ensures value { IfOk result (λ s. s ≡ record { columns = columns.items; partition = partition.items }) }
        ensures valid { IsOk result ↔ IsSchema (record { columns = columns.items; partition = partition.items }) }
        ensures wrong { IfErr result (IsSchemaFault columns.items partition.items) }
        ensures fault { MatchResult result (λ _. schema_fault columns.items partition.items ≡ None) (λ e. schema_fault columns.items partition.items ≡ Some e) }
    {
        match first_fault(columns.as_slice(), partition.as_slice()) {
            Some(fault) => Err(fault),
            None => Ok(Schema { columns, partition }),
        }
    }

    /// The columns.
    pub fn columns(&self) -> &[Column]
        ensures value { result.now ≡ self.now.columns }
        ensures valid { IsSchema self.now }
    {
        self.columns.as_slice()
    }

    /// The place of the column of this name.
    pub fn place_of(&self, name: &Text) -> Option<u32>
        ensures { result ≡ column_place self.now name.now }
    {
        match place_named(self.columns(), name) {
            Some(place) => Some(place as u32),
            None => None,
        }
    }

    /// The places of the partition columns, in the order in which the table is partitioned.
    pub fn partition(&self) -> &[u32]
        ensures value { result.now ≡ self.now.partition }
        ensures valid { IsSchema self.now }
    {
        self.partition.as_slice()
    }

    /// Whether the column at this place is a partition column.
    pub fn is_partition(&self, place: u32) -> bool
        ensures { result ≡ is_partition_column self.now place }
    {
        self.partition.contains(&place)
    }

    /// The columns and the places of the partition columns, handed over.
    pub fn into_parts(self) -> (Vec<Column>, Vec<u32>)
        ensures columns { result.0.items ≡ self.columns }
        ensures partition { result.1.items ≡ self.partition }
    {
        (self.columns, self.partition)
    }

    /// An equal schema. The bytes of its names are shared.
    pub fn copy(&self, alloc: Global) -> Result<Schema, NoMemory>
        ensures { IfOk result (λ s. s ≡ self.now) }
    {
        let columns = column_copies(alloc, self.columns.as_slice())?;
        let partition = Vec::from_slice(alloc, self.partition.as_slice())?;
        Ok(Schema { columns, partition })
    }

    /// Whether a row fits: it has a datum for each column, which is of the column's kind, or null where the
    /// column allows it, and in a partition column is not the empty text. Else the first column that is
    /// wrong. It takes no memory.
    pub fn fits(&self, row: &[Datum]) -> Result<(), RowFault>
        ensures fits { IsOk result ↔ FitsSchema self.now row.now }
        ensures wrong { IfErr result (IsRowFault self.now row.now) }
        ensures fault { MatchResult result (λ _. row_fault self.now row.now ≡ None) (λ f. row_fault self.now row.now ≡ Some f) }
    {
        match self.fault_of(row) {
            Some(fault) => Err(fault),
            None => Ok(()),
        }
    }

    /// The row as its columns take it: each long in a column of integers that fits is an integer. Where
    /// the row that comes of it does not fit, the row that came is handed back with the fault. It takes no
    /// memory.
    pub fn settle(&self, row: Row) -> Result<Row, Unsettled>
        ensures ok { IfOk result (λ r. r ≡ settled self.now.columns row) }
        ensures fits { IsOk result ↔ FitsSchema self.now (settled self.now.columns row) }
        ensures wrong { IfErr result (λ u. IsRowFault self.now (settled self.now.columns row) u.fault) }
        ensures back { IfErr result (λ u. u.row ≡ row) }
        ensures fault { MatchResult result (λ _. row_fault self.now (settled self.now.columns row) ≡ None) (λ u. row_fault self.now (settled self.now.columns row) ≡ Some u.fault) }
    {
        if let Some(fault) = self.settled_fault(row.as_slice()) {
            return Err(Unsettled { row, fault });
        }
        let mut values = row.into_vec();
        settle_values(self.columns(), &mut values);
        Ok(Row::make(values))
    }

    /// The first fault of a row.
    fn fault_of(&self, row: &[Datum]) -> Option<RowFault>
        ensures { result ≡ row_fault self.now row.now }
    {
        let columns = self.columns();
        if row.len() != columns.len() {
            return Some(RowFault::Count);
        }
        first_wrong_datum(self.partition(), columns, row)
    }

    /// The first fault of a row once it is settled.
    fn settled_fault(&self, row: &[Datum]) -> Option<RowFault>
        ensures { result ≡ row_fault self.now (settled self.now.columns row.now) }
    {
        let columns = self.columns();
        if row.len() != columns.len() {
            return Some(RowFault::Count);
        }
        first_wrong_settled(self.partition(), columns, row)
    }
}

/// A list of equal columns. The bytes of their names are shared.
pub fn copy_columns(alloc: Global, columns: &[Column]) -> Result<Items<Column>, NoMemory>
    ensures { IfOk result (λ c. c ≡ columns.now) }
{
    Ok(Items::from_vec(column_copies(alloc, columns)?))
}

/// Equal columns.
fn column_copies(alloc: Global, columns: &[Column]) -> Result<Vec<Column>, NoMemory>
    ensures { IfOk result (λ v. v.items ≡ columns.now) }
{
    let mut copies = Vec::with_capacity(alloc, columns.len())?;
    for column in columns {
        copies.push(column.copy()?)?;
    }
    Ok(copies)
}

/// Whether a datum is of a kind.
fn is_kind(kind: Kind, datum: &Datum) -> bool
    ensures { result ≡ is_of_kind kind datum.now }
{
    match (kind, datum) {
        (Kind::Long, Datum::Long(_)) => true,
        (Kind::Integer, Datum::Integer(_)) => true,
        (Kind::Boolean, Datum::Boolean(_)) => true,
        (Kind::String, Datum::Text(_)) => true,
        (Kind::Date, Datum::Date(_)) => true,
        _ => false,
    }
}

/// Whether a datum is the empty text.
fn is_empty(datum: &Datum) -> bool
    ensures { result ≡ is_empty_text datum.now }
{
    match datum {
        Datum::Text(text) => text.as_str().is_empty(),
        _ => false,
    }
}

/// What is wrong with the datum of the column at this place.
fn wrong_datum(partition: &[u32], place: u32, column: &Column, datum: &Datum) -> Option<RowFault>
    ensures { result ≡ datum_fault partition.now place column.now datum.now }
{
    if let Datum::Null = datum {
        return wrong_null(place, column.nullable);
    }
    if !is_kind(column.kind, datum) {
        return Some(RowFault::Kind { column: place });
    }
    if is_empty(datum) && partition.contains(&place) {
        return Some(RowFault::EmptyPartition { column: place });
    }
    None
}

/// What is wrong with a null at this place.
fn wrong_null(place: u32, nullable: bool) -> Option<RowFault>
    ensures { result ≡ (if nullable then None else Some (RowFault.Null place)) }
{
    if nullable {
        None
    } else {
        Some(RowFault::Null { column: place })
    }
}

/// What is wrong with the first column that is.
fn first_wrong_datum(partition: &[u32], columns: &[Column], values: &[Datum]) -> Option<RowFault>
    requires same { length values.now ≡ length columns.now }
    requires few { length columns.now ≤ 64 }
    ensures { result ≡ first_datum_fault partition.now 0 columns.now values.now }
{
    for (i, column) in columns.iter().enumerate() {
        let fault = wrong_datum(partition, i as u32, column, &values[i]);
        if fault.is_some() {
            return fault;
        }
    }
    None
}

/// The integer that a datum is in a column of integers, where it is a long that fits.
fn narrowed(kind: Kind, datum: &Datum) -> Option<i32>
    ensures { result ≡ narrowed_number kind datum.now }
{
    match (kind, datum) {
        (Kind::Integer, Datum::Long(n)) => i32::try_from(*n).ok(),
        _ => None,
    }
}

/// The first reason why columns and places make no schema.
fn first_fault(columns: &[Column], partition: &[u32]) -> Option<SchemaFault>
    ensures { result ≡ schema_fault columns.now partition.now }
{
    if columns.is_empty() || MAX_COLUMNS < columns.len() {
        return Some(SchemaFault::Columns);
    }
    match first_repeated(columns) {
        Some(column) => Some(SchemaFault::Twice { column }),
        None => match first_wrong_place(columns.len(), partition) {
            Some(place) => Some(SchemaFault::Partition { place }),
            None => None,
        },
    }
}

/// Whether a column has this name.
fn has_name(columns: &[Column], name: &Text) -> bool
    ensures { result ≡ is_named columns.now name.now }
{
    columns.iter().any(|column| column.name == *name)
}

/// The place of the column of this name.
fn place_named(columns: &[Column], name: &Text) -> Option<usize>
    ensures { result ≡ position (λ c. pointwise ◌==◌ c.name name.now) columns.now }
{
    columns.iter().position(|column| column.name == *name)
}

/// The first place of a name that stood before.
fn first_repeated(columns: &[Column]) -> Option<u32>
    requires { length columns.now ≤ 64 }
    ensures { result ≡ option_map (λ x. x.0) (first_after repeats_name [] columns.now) }
{
    for (i, column) in columns.iter().enumerate() {
        if has_name(&columns[..i], &column.name) {
            return Some(i as u32);
        }
    }
    None
}

/// The first place of a list that can be no partition column's.
fn first_wrong_place(count: usize, partition: &[u32]) -> Option<u32>
    ensures { result ≡ option_map (λ x. x.1) (first_after (is_wrong_place count) [] partition.now) }
{
    for (i, place) in partition.iter().enumerate() {
        if is_wrong(count, &partition[..i], *place) {
            return Some(*place);
        }
    }
    None
}

/// Whether a place can be no partition column's after those before it.
fn is_wrong(count: usize, before: &[u32], place: u32) -> bool
    requires { length before.now < 2 ^ 63 }
    ensures { result ≡ is_wrong_place count before.now place }
{
    count <= place as usize || before.contains(&place) || before.len() + 1 == count
}

/// What is wrong with the datum of the column at this place once it is settled.
fn wrong_settled(partition: &[u32], place: u32, column: &Column, datum: &Datum) -> Option<RowFault>
    ensures { result ≡ datum_fault partition.now place column.now (settled_datum column.now.kind datum.now) }
{
    match narrowed(column.kind, datum) {
        Some(_) => None,
        None => wrong_datum(partition, place, column, datum),
    }
}

/// What is wrong with the first column that is once the row is settled.
fn first_wrong_settled(partition: &[u32], columns: &[Column], values: &[Datum]) -> Option<RowFault>
    requires same { length values.now ≡ length columns.now }
    requires few { length columns.now ≤ 64 }
    ensures { result ≡ first_datum_fault partition.now 0 columns.now (settled columns.now values.now) }
{
    for (i, column) in columns.iter().enumerate() {
        let fault = wrong_settled(partition, i as u32, column, &values[i]);
        if fault.is_some() {
            return fault;
        }
    }
    None
}

/// Makes each datum what its column takes it as.
fn settle_values(columns: &[Column], values: &mut [Datum])
    requires { length values.old ≡ length columns.now }
    ensures { values.new ≡ settled columns.now values.old }
{
    for (i, column) in columns.iter().enumerate() {
        settle_datum(column.kind, &mut values[i]);
    }
}

/// Makes a datum what a column of this kind takes it as.
fn settle_datum(kind: Kind, datum: &mut Datum)
    ensures { datum.new ≡ settled_datum kind datum.old }
{
    if let Some(n) = narrowed(kind, datum) {
        *datum = Datum::Integer(n);
    }
}
