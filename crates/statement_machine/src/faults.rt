//! Refusals by the faults of phases and of checks.
ghost use Rattle.std.specs.Prelude.{◌≡◌, ◌⊎◌, IfOk};
ghost use Rattle.statement_types.specs.declared.refusal.Refusal.TheVariants as refusals;
ghost use Rattle.statement_steps.specs.Outcome as spec;

use call_phases::{CallFault, PutFault};
use commit_attempts::{AttemptFault, WinnerFault};
use edge_api::Name;
use log_actions::{Feature, LogFault};
use parquet_meta::FileFault;
use predicates::BindFault;
use row_base::{Column, NoMemory, RowFault, Text};
use scan::{ScanBad, ScanFault};
use snapshot_load::LoadFault;
use statement_checks::RowsFault;
use statement_types::{Clash, ObjectFault, Refusal, RowWrong};
use std::alloc::Global;
use table_definition::DefinitionFault;
use table_rules::commit_name;

/// Of a reading of the clock, a listing or a wait.
pub fn refusal_of_call(fault: CallFault) -> Refusal
    ensures { result ≡ spec.refusal_of_call fault }
{
    match fault {
        CallFault::Fault { call } => Refusal::Fault { call },
        CallFault::NoMemory => Refusal::NoMemory,
    }
}

fn line_fault(fault: LogFault) -> ObjectFault
    ensures { result ≡ spec.line_fault fault }
{
    let LogFault { line, kind } = fault;
    ObjectFault::Line { line, kind }
}

/// Of a load.
pub fn refusal_of_load(fault: LoadFault) -> Refusal
    ensures { result ≡ spec.refusal_of_load fault }
{
    match fault {
        LoadFault::NoTable => Refusal::NoTable,
        LoadFault::LogGone { name } => Refusal::LogGone { name },
        LoadFault::BadObject { name, fault } => {
            let fault = line_fault(fault);
            Refusal::BadObject { name, fault }
        }
        LoadFault::Unsupported { feature } => Refusal::Unsupported { feature },
        LoadFault::Fault { call } => Refusal::Fault { call },
        LoadFault::NoMemory => Refusal::NoMemory,
    }
}

/// The commits up to this version make no table that can be read.
fn no_table_at(alloc: Global, version: u64) -> Refusal
    ensures { (result ≡ spec.refusal_of_definition version DefinitionFault.Table) ⊎ (result ≡ refusals.NoMemory) }
{
    match commit_name(alloc, version) {
        Ok(name) => Refusal::BadObject {
            name,
            fault: ObjectFault::Table,
        },
        Err(_) => Refusal::NoMemory,
    }
}

/// Of what a table of this version is.
pub fn refusal_of_definition(alloc: Global, version: u64, fault: DefinitionFault) -> Refusal
    ensures { (result ≡ spec.refusal_of_definition version fault) ⊎ (result ≡ refusals.NoMemory) }
{
    match fault {
        DefinitionFault::Table => no_table_at(alloc, version),
        DefinitionFault::Unsupported(feature) => Refusal::Unsupported { feature },
        DefinitionFault::NoMemory => Refusal::NoMemory,
    }
}

/// Of a name, a kind, a count or a property of a statement.
pub fn refusal_of_statement(fault: BindFault) -> Refusal
    ensures { result ≡ spec.refusal_of_statement fault }
{
    match fault {
        BindFault::NoMemory => Refusal::NoMemory,
        fault => Refusal::BadStatement { fault },
    }
}

/// The name of the column at a place.
fn name_at(alloc: Global, columns: &[Column], place: u32) -> Result<Text, NoMemory>
    ensures { IfOk result (λ name. name ≡ spec.name_at columns.now place) }
{
    match columns.get(place as usize) {
        Some(column) => column.name.copy(),
        None => Text::make(alloc, ""),
    }
}

/// What is wrong with a row for these columns.
fn wrong_of(alloc: Global, columns: &[Column], fault: RowFault) -> Result<RowWrong, NoMemory>
    ensures { IfOk result (λ w. w ≡ spec.wrong_of columns.now fault) }
{
    match fault {
        RowFault::Count => Ok(RowWrong::Count),
        RowFault::Kind { column } => {
            let name = name_at(alloc, columns, column)?;
            Ok(RowWrong::Kind { name })
        }
        RowFault::Null { column } => {
            let name = name_at(alloc, columns, column)?;
            Ok(RowWrong::Null { name })
        }
        RowFault::EmptyPartition { column } => {
            let name = name_at(alloc, columns, column)?;
            Ok(RowWrong::EmptyPartition { name })
        }
    }
}

/// Of literal rows for these columns.
pub fn refusal_of_rows(alloc: Global, columns: &[Column], fault: RowsFault) -> Refusal
    ensures { (result ≡ spec.refusal_of_rows columns.now fault) ⊎ (result ≡ refusals.NoMemory) }
{
    match fault {
        RowsFault::Row { row, fault } => match wrong_of(alloc, columns, fault) {
            Ok(fault) => Refusal::Row { row, fault },
            Err(_) => Refusal::NoMemory,
        },
        RowsFault::NoMemory => Refusal::NoMemory,
    }
}

fn bad_file(name: Name, fault: ObjectFault) -> Refusal
    ensures { result ≡ refusals.BadObject name fault }
{
    Refusal::BadObject { name, fault }
}

fn unsupported(feature: Feature) -> Refusal
    ensures { result ≡ refusals.Unsupported feature }
{
    Refusal::Unsupported { feature }
}

/// Of the bytes of a data file.
fn refusal_of_file(name: Name, fault: FileFault) -> Refusal
    ensures { result ≡ spec.refusal_of_file name fault }
{
    match fault {
        FileFault::Short => bad_file(name, ObjectFault::Short),
        FileFault::Magic => bad_file(name, ObjectFault::Magic),
        FileFault::Footer => bad_file(name, ObjectFault::Footer),
        FileFault::Thrift { at } => bad_file(name, ObjectFault::Thrift { at }),
        FileFault::Shape { column } => bad_file(name, ObjectFault::Shape { name: column }),
        FileFault::Page { at } => bad_file(name, ObjectFault::Page { at }),
        FileFault::Codec { codec } => unsupported(Feature::Codec { codec }),
        FileFault::Encoding { encoding } => unsupported(Feature::Encoding { encoding }),
        FileFault::PageKind { kind } => unsupported(Feature::PageKind { kind }),
        FileFault::Physical { column } => unsupported(Feature::ColumnType { name: column }),
        FileFault::Nested => unsupported(Feature::NestedColumns),
        FileFault::NoMemory => Refusal::NoMemory,
    }
}

/// Of a live file.
fn refusal_of_bad(name: Name, fault: ScanBad) -> Refusal
    ensures { result ≡ spec.refusal_of_bad name fault }
{
    match fault {
        ScanBad::File(fault) => refusal_of_file(name, fault),
        ScanBad::Value { name: column } => bad_file(name, ObjectFault::Value { name: column }),
    }
}

/// Of a scan.
pub fn refusal_of_scan(fault: ScanFault) -> Refusal
    ensures { result ≡ spec.refusal_of_scan fault }
{
    match fault {
        ScanFault::FileGone { name } => Refusal::FileGone { name },
        ScanFault::BadObject { name, fault } => refusal_of_bad(name, fault),
        ScanFault::Unsupported { feature } => Refusal::Unsupported { feature },
        ScanFault::Fault { call } => Refusal::Fault { call },
        ScanFault::NoMemory => Refusal::NoMemory,
    }
}

/// Of the puts of data files.
pub fn refusal_of_put(fault: PutFault) -> Refusal
    ensures { result ≡ spec.refusal_of_put fault }
{
    match fault {
        PutFault::Fault { call } => Refusal::Fault { call },
        PutFault::NameTaken { name } => Refusal::NameTaken { name },
        PutFault::NoMemory => Refusal::NoMemory,
    }
}

fn winner_fault(fault: WinnerFault) -> ObjectFault
    ensures { result ≡ spec.winner_fault fault }
{
    match fault {
        WinnerFault::Log(fault) => line_fault(fault),
        WinnerFault::Value { name } => ObjectFault::Value { name },
    }
}

/// Of the attempts of a commit.
pub fn refusal_of_attempt(fault: AttemptFault<Clash>) -> Refusal
    ensures { result ≡ spec.refusal_of_attempt fault }
{
    match fault {
        AttemptFault::Conflict { winner, clash } => Refusal::Conflict { winner, clash },
        AttemptFault::TooManyAttempts { lost } => Refusal::TooManyAttempts { lost },
        AttemptFault::Outlasted { start, now } => Refusal::Outlasted { start, now },
        AttemptFault::BadObject { name, fault } => bad_file(name, winner_fault(fault)),
        AttemptFault::Unsupported { feature } => Refusal::Unsupported { feature },
        AttemptFault::Fault { call } => Refusal::Fault { call },
        AttemptFault::OutcomeUnknown { version } => Refusal::OutcomeUnknown { version },
        AttemptFault::NoMemory => Refusal::NoMemory,
        AttemptFault::LogGone { name } => Refusal::LogGone { name },
        AttemptFault::TooLarge { bytes } => Refusal::TooLarge { bytes },
    }
}
