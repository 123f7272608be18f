//! Copies of actions, and of what their lines are refused for. Texts share their bytes.
ghost use Rattle.std.specs.Prelude.{◌≡◌, IfOk};

use crate::action::{
    Action, AddFile, CheckpointMetadata, CommitInfo, Format, MetaData, Protocol, RemoveFile,
    Sidecar, Txn,
};
use crate::fault::{Feature, LogFaultKind};
use json_lines::TryCopy;
use row_base::NoMemory;
use std::alloc::Global;

impl TryCopy for Protocol {
    fn try_copy(&self, alloc: Global) -> Result<Protocol, NoMemory> {
        Ok(Protocol {
            min_reader_version: self.min_reader_version,
            min_writer_version: self.min_writer_version,
            reader_features: self.reader_features.try_copy(alloc)?,
            writer_features: self.writer_features.try_copy(alloc)?,
        })
    }
}

impl TryCopy for Format {
    fn try_copy(&self, alloc: Global) -> Result<Format, NoMemory> {
        Ok(Format {
            provider: self.provider.copy()?,
            options: self.options.try_copy(alloc)?,
        })
    }
}

impl TryCopy for MetaData {
    fn try_copy(&self, alloc: Global) -> Result<MetaData, NoMemory> {
        Ok(MetaData {
            id: self.id.copy()?,
            name: self.name.try_copy(alloc)?,
            description: self.description.try_copy(alloc)?,
            format: self.format.try_copy(alloc)?,
            schema_string: self.schema_string.copy()?,
            partition_columns: self.partition_columns.try_copy(alloc)?,
            created_time: self.created_time,
            configuration: self.configuration.try_copy(alloc)?,
        })
    }
}

impl TryCopy for AddFile {
    fn try_copy(&self, alloc: Global) -> Result<AddFile, NoMemory> {
        Ok(AddFile {
            path: self.path.copy()?,
            name: self.name.copy()?,
            partition_values: self.partition_values.try_copy(alloc)?,
            size: self.size,
            modification_time: self.modification_time,
            data_change: self.data_change,
            stats: self.stats.try_copy(alloc)?,
            tags: self.tags.try_copy(alloc)?,
        })
    }
}

impl TryCopy for RemoveFile {
    fn try_copy(&self, alloc: Global) -> Result<RemoveFile, NoMemory> {
        Ok(RemoveFile {
            path: self.path.copy()?,
            name: self.name.copy()?,
            deletion_timestamp: self.deletion_timestamp,
            data_change: self.data_change,
            extended_file_metadata: self.extended_file_metadata,
            partition_values: self.partition_values.try_copy(alloc)?,
            size: self.size,
            tags: self.tags.try_copy(alloc)?,
        })
    }
}

impl TryCopy for Txn {
    fn try_copy(&self, _alloc: Global) -> Result<Txn, NoMemory> {
        Ok(Txn {
            app_id: self.app_id.copy()?,
            version: self.version,
            last_updated: self.last_updated,
        })
    }
}

impl TryCopy for CommitInfo {
    fn try_copy(&self, alloc: Global) -> Result<CommitInfo, NoMemory> {
        Ok(CommitInfo {
            timestamp: self.timestamp,
            operation: self.operation.try_copy(alloc)?,
            read_version: self.read_version,
            isolation_level: self.isolation_level.try_copy(alloc)?,
            is_blind_append: self.is_blind_append,
            txn_id: self.txn_id.try_copy(alloc)?,
        })
    }
}

impl TryCopy for CheckpointMetadata {
    fn try_copy(&self, alloc: Global) -> Result<CheckpointMetadata, NoMemory> {
        Ok(CheckpointMetadata {
            version: self.version,
            tags: self.tags.try_copy(alloc)?,
        })
    }
}

impl TryCopy for Sidecar {
    fn try_copy(&self, _alloc: Global) -> Result<Sidecar, NoMemory> {
        Ok(Sidecar {
            path: self.path.copy()?,
            size_in_bytes: self.size_in_bytes,
            modification_time: self.modification_time,
        })
    }
}

impl TryCopy for Action {
    fn try_copy(&self, alloc: Global) -> Result<Action, NoMemory> {
        match self {
            Action::Protocol(protocol) => Ok(Action::Protocol(protocol.try_copy(alloc)?)),
            Action::Meta(meta) => Ok(Action::Meta(meta.try_copy(alloc)?)),
            Action::Add(add) => Ok(Action::Add(add.try_copy(alloc)?)),
            Action::Remove(remove) => Ok(Action::Remove(remove.try_copy(alloc)?)),
            Action::Txn(txn) => Ok(Action::Txn(txn.try_copy(alloc)?)),
            Action::Info(info) => Ok(Action::Info(info.try_copy(alloc)?)),
            Action::Checkpoint(metadata) => Ok(Action::Checkpoint(metadata.try_copy(alloc)?)),
            Action::Sidecar(sidecar) => Ok(Action::Sidecar(sidecar.try_copy(alloc)?)),
            Action::Ignored => Ok(Action::Ignored),
        }
    }
}

impl Feature {
    /// An equal feature. The error is want of memory.
    pub fn copy(&self) -> Result<Feature, NoMemory>
        ensures { IfOk result (λ f. f ≡ self.now) }
    {
        match self {
            Feature::Protocol { reader, writer } => Ok(Feature::Protocol {
                reader: *reader,
                writer: *writer,
            }),
            Feature::Named { name } => Ok(Feature::Named { name: name.copy()? }),
            Feature::Property { key } => Ok(Feature::Property { key: key.copy()? }),
            Feature::AbsolutePath => Ok(Feature::AbsolutePath),
            Feature::DeletionVector => Ok(Feature::DeletionVector),
            Feature::Codec { codec } => Ok(Feature::Codec { codec: *codec }),
            Feature::Encoding { encoding } => Ok(Feature::Encoding {
                encoding: *encoding,
            }),
            Feature::PageKind { kind } => Ok(Feature::PageKind { kind: *kind }),
            Feature::ColumnType { name } => Ok(Feature::ColumnType { name: name.copy()? }),
            Feature::CheckpointForm => Ok(Feature::CheckpointForm),
            Feature::Sidecar => Ok(Feature::Sidecar),
            Feature::NestedColumns => Ok(Feature::NestedColumns),
            Feature::Timestamp => Ok(Feature::Timestamp),
            Feature::Versions => Ok(Feature::Versions),
        }
    }
}

impl LogFaultKind {
    /// An equal fault. The error is want of memory.
    pub fn copy(&self) -> Result<LogFaultKind, NoMemory>
        ensures { IfOk result (λ k. k ≡ self.now) }
    {
        match self {
            LogFaultKind::Json => Ok(LogFaultKind::Json),
            LogFaultKind::Shape => Ok(LogFaultKind::Shape),
            LogFaultKind::Twice => Ok(LogFaultKind::Twice),
            LogFaultKind::Unsupported(feature) => Ok(LogFaultKind::Unsupported(feature.copy()?)),
            LogFaultKind::NoMemory => Ok(LogFaultKind::NoMemory),
        }
    }
}
