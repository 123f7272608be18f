//! Texts from outside: names, protocols and properties of tables.

use edge_api::{Name, Tag};
use log_actions::{Entry, Feature, Format, MetaData, Protocol};
use row_base::{Items, NoMemory, Text};
use std::alloc::Global;
use std::test::Fail;
use table_rules::{
    FeatureFault, Level, LogName, Rules, accepts, checkpoint_name, commit_name, data_file_name,
    log_prefix, read_interval, read_log_name, rules_of, statement_id,
};

/// Whether a name was made, and is this one.
fn is_named(made: Result<Name, NoMemory>, want: &str) -> bool {
    match made {
        Ok(name) => name.as_str() == want,
        Err(_) => false,
    }
}

/// The tag of the session 1 and its statement 12.
const TAG: Tag = Tag {
    actor: 1,
    statement: 12,
};

/// The name of a checkpoint of version 12.
fn checkpoint(alloc: Global) -> Result<Name, NoMemory> {
    let id = Text::make(alloc, "018bcfe5-6800-8000-8000-00010000000c")?;
    checkpoint_name(alloc, 12, &id)
}

#[test]
fn objects_of_the_log_have_their_names(rt: HostRuntime) {
    let alloc = rt.alloc();
    assert!(rt;
        is_named(
            commit_name(alloc, 12),
            "_delta_log/00000000000000000012.json"
        )
    );
    assert!(rt;
        is_named(
            checkpoint(alloc),
            "_delta_log/00000000000000000012.checkpoint.018bcfe5-6800-8000-8000-00010000000c.json"
        )
    );
    assert!(rt; is_named(log_prefix(alloc), "_delta_log/"));
}

#[test]
fn statements_have_identifiers(rt: HostRuntime) -> Result<(), Fail> {
    let id = statement_id(rt.alloc(), TAG, 1_700_000_000_000)?;
    assert!(rt; id.as_str() == "018bcfe5-6800-8000-8000-00010000000c");
    Ok(())
}

/// Numbers of data files of a statement, with their names.
const DATA_FILES: [(u32, &str); 2] = [
    (
        0,
        "part-00000-018bcfe5-6800-8000-8000-00010000000c-c000.parquet",
    ),
    (
        1_234_567,
        "part-1234567-018bcfe5-6800-8000-8000-00010000000c-c000.parquet",
    ),
];

#[test]
fn data_files_have_their_names(rt: HostRuntime) {
    for (part, want) in DATA_FILES {
        let made = data_file_name(rt.alloc(), TAG, 1_700_000_000_000, part);
        assert!(rt; is_named(made, want));
    }
}

/// Whether a name says this.
fn says(alloc: Global, text: &str, want: LogName) -> Result<bool, NoMemory> {
    let name = Name::make(alloc, text)?;
    Ok(read_log_name(&name) == want)
}

const COMMITS: [(&str, LogName); 6] = [
    ("_delta_log/00000000000000000012.json", LogName::Commit(12)),
    (
        "_delta_log/18446744073709551615.json",
        LogName::Commit(u64::MAX),
    ),
    ("_delta_log/18446744073709551616.json", LogName::OtherLog),
    ("_delta_log/0000000000000000012.json", LogName::OtherLog),
    ("_delta_log/_last_checkpoint", LogName::Hint),
    ("part-00000.parquet", LogName::Outside),
];

const CHECKPOINTS: [(&str, LogName); 4] = [
    (
        "_delta_log/00000000000000000010.checkpoint.018bcfe5-6800-8000-8000-00010000000c.json",
        LogName::CheckpointJson(10),
    ),
    (
        "_delta_log/00000000000000000010.checkpoint.parquet",
        LogName::CheckpointOther(10),
    ),
    (
        "_delta_log/00000000000000000010.checkpoint.0000000002.0000000003.parquet",
        LogName::CheckpointOther(10),
    ),
    (
        "_delta_log/00000000000000000010.checkpoint.0000000004.0000000003.parquet",
        LogName::OtherLog,
    ),
];

#[test]
fn names_of_the_log_are_read(rt: HostRuntime) -> Result<(), Fail> {
    for (text, want) in COMMITS {
        assert!(rt; says(rt.alloc(), text, want)?, "of {text}");
    }
    Ok(())
}

#[test]
fn names_of_checkpoints_are_read(rt: HostRuntime) -> Result<(), Fail> {
    for (text, want) in CHECKPOINTS {
        assert!(rt; says(rt.alloc(), text, want)?, "of {text}");
    }
    Ok(())
}

/// Whether a text is read as this interval.
fn is_interval(alloc: Global, text: &str, want: Option<u64>) -> Result<bool, NoMemory> {
    let text = Text::make(alloc, text)?;
    Ok(read_interval(&text) == want)
}

const INTERVALS: [(&str, Option<u64>); 13] = [
    ("interval 1 week", Some(604_800_000)),
    ("interval 2 hours", Some(7_200_000)),
    ("interval 0 days", Some(0)),
    (
        "interval 1099511627776 milliseconds",
        Some(1_099_511_627_776),
    ),
    ("interval 1099511627777 millisecond", None),
    ("interval 18446744073709551617 second", None),
    ("1 week", None),
    ("interval 01 week", None),
    ("interval +1 week", None),
    ("interval  1 week", None),
    ("interval 1 weekss", None),
    ("interval 1 week ", None),
    ("interval 1", None),
];

#[test]
fn intervals_are_read(rt: HostRuntime) -> Result<(), Fail> {
    for (text, want) in INTERVALS {
        assert!(rt; is_interval(rt.alloc(), text, want)?, "of {text}");
    }
    Ok(())
}

/// Puts what was made at the end of a list.
fn push<T: Drop>(list: &mut Vec<T>, made: Result<T, NoMemory>) -> Result<(), NoMemory> {
    list.push(made?)?;
    Ok(())
}

fn features(alloc: Global, names: &[&str]) -> Result<Items<Text>, NoMemory> {
    let mut texts = Vec::new(alloc);
    for name in names {
        push(&mut texts, Text::make(alloc, name))?;
    }
    Ok(Items::from_vec(texts))
}

/// Whether a protocol without features is accepted.
fn is_accepted(reader: u64, writer: u64) -> bool {
    let protocol = Protocol {
        min_reader_version: reader,
        min_writer_version: writer,
        reader_features: None,
        writer_features: None,
    };
    accepts(&protocol).is_ok()
}

const PROTOCOLS: [(u64, u64, bool); 6] = [
    (1, 1, true),
    (1, 2, true),
    (3, 7, true),
    (2, 5, false),
    (2, 1, false),
    (3, 2, false),
];

#[test]
fn protocols_are_accepted(rt: HostRuntime) {
    for (reader, writer, want) in PROTOCOLS {
        assert!(rt; is_accepted(reader, writer) == want);
    }
}

/// The feature that is named; the empty text where there is none.
fn feature_in(found: &Result<(), FeatureFault>) -> &str {
    match found {
        Err(FeatureFault::Unsupported(Feature::Named { name })) => name.as_str(),
        _ => "",
    }
}

/// Whether this feature is named for such features of readers and writers, which stand behind `appendOnly`.
fn names_feature(alloc: Global, reader: &str, writer: &str, want: &str) -> Result<bool, NoMemory> {
    let readers = features(alloc, &["appendOnly", reader])?;
    let writers = features(alloc, &["appendOnly", writer])?;
    let protocol = Protocol {
        min_reader_version: 3,
        min_writer_version: 7,
        reader_features: Some(readers),
        writer_features: Some(writers),
    };
    let found = accepts(&protocol);
    Ok(feature_in(&found) == want)
}

/// Features of readers and of writers, and the one that is named.
const FEATURES: [(&str, &str, &str); 3] = [
    ("v2Checkpoint", "invariants", ""),
    ("columnMapping", "identityColumns", "columnMapping"),
    ("v2Checkpoint", "identityColumns", "identityColumns"),
];

#[test]
fn the_first_other_feature_is_named(rt: HostRuntime) -> Result<(), Fail> {
    for (reader, writer, want) in FEATURES {
        assert!(rt; names_feature(rt.alloc(), reader, writer, want)?);
    }
    Ok(())
}

fn entry(alloc: Global, key: &str, value: &str) -> Result<Entry<Text>, NoMemory> {
    Ok(Entry {
        name: Text::make(alloc, key)?,
        value: Text::make(alloc, value)?,
    })
}

fn entries(alloc: Global, properties: &[(&str, &str)]) -> Result<Items<Entry<Text>>, NoMemory> {
    let mut entries = Vec::new(alloc);
    for (key, value) in properties {
        push(&mut entries, entry(alloc, key, value))?;
    }
    Ok(Items::from_vec(entries))
}

fn format_of(alloc: Global) -> Result<Format, NoMemory> {
    Ok(Format {
        provider: Text::make(alloc, "parquet")?,
        options: None,
    })
}

fn metadata(alloc: Global, properties: &[(&str, &str)]) -> Result<MetaData, NoMemory> {
    let id = Text::make(alloc, "t")?;
    let schema_string = Text::make(alloc, "")?;
    let format = format_of(alloc)?;
    let configuration = entries(alloc, properties)?;
    Ok(MetaData {
        id,
        name: None,
        description: None,
        format,
        schema_string,
        partition_columns: Items::from_vec(Vec::new(alloc)),
        created_time: None,
        configuration: Some(configuration),
    })
}

/// Whether the rules are these.
fn are_rules(found: &Result<Rules, FeatureFault>, want: Rules) -> bool {
    match found {
        Ok(rules) => *rules == want,
        Err(_) => false,
    }
}

/// Whether properties set these rules.
fn sets(alloc: Global, properties: &[(&str, &str)], want: Rules) -> Result<bool, NoMemory> {
    let meta = metadata(alloc, properties)?;
    let found = rules_of(&meta);
    Ok(are_rules(&found, want))
}

const DEFAULTS: Rules = Rules {
    level: Level::WriteSerializable,
    retention: 604_800_000,
    interval: 10,
    append_only: false,
};

const OTHERS: Rules = Rules {
    level: Level::Serializable,
    retention: 7_200_000,
    interval: 1_000_000,
    append_only: false,
};

/// Properties that set the other rules.
const PROPERTIES: [(&str, &str); 7] = [
    ("delta.appendOnly", "false"),
    ("delta.checkpointInterval", "1000000"),
    ("delta.checkpointPolicy", "classic"),
    ("delta.deletedFileRetentionDuration", "interval 2 hours"),
    ("delta.isolationLevel", "Serializable"),
    ("delta.logRetentionDuration", "interval 1 day"),
    ("owner", "true"),
];

#[test]
fn properties_set_the_rules(rt: HostRuntime) -> Result<(), Fail> {
    assert!(rt; sets(rt.alloc(), &[], DEFAULTS)?);
    assert!(rt; sets(rt.alloc(), &PROPERTIES, OTHERS)?);
    Ok(())
}

/// The key of the property that is refused; the empty text where none is.
fn key_in(found: &Result<Rules, FeatureFault>) -> &str {
    match found {
        Err(FeatureFault::Unsupported(Feature::Property { key })) => key.as_str(),
        _ => "",
    }
}

/// Whether the property of this key is refused.
fn refuses(alloc: Global, properties: &[(&str, &str)], want: &str) -> Result<bool, NoMemory> {
    let meta = metadata(alloc, properties)?;
    let found = rules_of(&meta);
    Ok(key_in(&found) == want)
}

/// Properties that are refused.
const BAD: [(&str, &str); 6] = [
    ("delta.appendOnly", "true"),
    ("delta.checkpointInterval", "0"),
    ("delta.checkpointInterval", "1000001"),
    ("delta.deletedFileRetentionDuration", "1 week"),
    ("delta.isolationLevel", "serializable"),
    ("delta.logRetentionDuration", ""),
];

/// Two of them, of which the second one has the least key.
const BOTH: [(&str, &str); 2] = [
    ("delta.isolationLevel", "SnapshotIsolation"),
    ("delta.checkpointInterval", "010"),
];

#[test]
fn bad_properties_are_named(rt: HostRuntime) -> Result<(), Fail> {
    for (key, value) in BAD {
        assert!(rt; refuses(rt.alloc(), &[(key, value)], key)?, "of {key}");
    }
    assert!(rt; refuses(rt.alloc(), &BOTH, "delta.checkpointInterval")?);
    Ok(())
}
