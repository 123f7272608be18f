//! Tables as their protocol and metadata define them.

use log_actions::{Action, read_commit};
use log_state::State;
use row_base::NoMemory;
use std::alloc::Global;
use table_definition::{Definition, DefinitionFault, definition_of};

const TABLE: &str = r#"{"protocol":{"minReaderVersion":1,"minWriterVersion":2}}
{"metaData":{"id":"i","format":{"provider":"parquet"},"schemaString":"{\"type\":\"struct\",\"fields\":[{\"name\":\"id\",\"type\":\"long\",\"nullable\":false,\"metadata\":{}}]}","partitionColumns":[]}}
"#;

/// Its schema says nothing, and its protocol asks for a feature.
const ASKING: &str =
    r#"{"protocol":{"minReaderVersion":3,"minWriterVersion":7,"readerFeatures":["deletionVectors"],"writerFeatures":[]}}
{"metaData":{"id":"i","format":{"provider":"parquet"},"schemaString":"{}","partitionColumns":[]}}
"#;

const NO_SCHEMA: &str = r#"{"protocol":{"minReaderVersion":1,"minWriterVersion":1}}
{"metaData":{"id":"i","format":{"provider":"parquet"},"schemaString":"{}","partitionColumns":[]}}
"#;

const NO_PROTOCOL: &str =
    r#"{"metaData":{"id":"i","format":{"provider":"parquet"},"schemaString":"{}","partitionColumns":[]}}
"#;

/// What a definition comes to.
#[derive(Clone, Copy, PartialEq, Eq, Drop)]
enum Outcome {
    Defined,
    Table,
    Asked,
    NoMemory,
}

fn ending(defined: Result<Definition, DefinitionFault>) -> Outcome {
    match defined {
        Ok(_) => Outcome::Defined,
        Err(DefinitionFault::Table) => Outcome::Table,
        Err(DefinitionFault::Unsupported(_)) => Outcome::Asked,
        Err(DefinitionFault::NoMemory) => Outcome::NoMemory,
    }
}

fn actions(alloc: Global, text: &str) -> Result<Vec<Action>, NoMemory> {
    read_commit(alloc, text.as_bytes()).ok().ok_or(NoMemory)
}

/// What the table that a commit makes comes to.
fn ending_of(alloc: Global, text: &str) -> Outcome {
    let mut state = State::new(alloc);
    let made = match actions(alloc, text) {
        Ok(actions) => state.apply(0, actions),
        Err(fault) => Err(fault),
    };
    match made {
        Ok(()) => ending(definition_of(alloc, state.protocol(), state.meta())),
        Err(_) => Outcome::NoMemory,
    }
}

#[test]
fn tables_are_defined(rt: HostRuntime) {
    assert!(rt; ending_of(rt.alloc(), TABLE) == Outcome::Defined);
    assert!(rt; ending_of(rt.alloc(), ASKING) == Outcome::Asked);
    assert!(rt; ending_of(rt.alloc(), NO_SCHEMA) == Outcome::Table);
    assert!(rt; ending_of(rt.alloc(), NO_PROTOCOL) == Outcome::Table);
}
