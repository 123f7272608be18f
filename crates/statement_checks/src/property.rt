//! Properties that statements set.
ghost use Rattle.std.specs.Prelude.{◌≡◌, ◌==◌, is_some, codes};
ghost use Rattle.std.specs.List.{starts_with};
ghost use Rattle.std.specs.Str.{bytes_eq};
ghost use Rattle.row_base.specs.Faults.{Reads};
ghost use Rattle.predicates.specs.Binding.{is_memory};
ghost use Rattle.table_rules.specs.Intervals.{interval_in};
ghost use Rattle.table_rules.specs.Properties.{checkpoint_interval_in, level_in};
ghost use Rattle.statement_checks.specs.Properties.{property_in, properties_in, setting_in};

use op_types::Property;
use predicates::BindFault;
use row_base::Text;
use row_base::numbers::read_decimal;
use table_rules::read_interval;

/// The greatest number of commits between two checkpoints.
const MAX_CHECKPOINT_INTERVAL: u64 = 1_000_000;

fn is_level(value: &str) -> bool
    ensures { result ≡ is_some (level_in value.now) }
{
    value == "Serializable" || value == "WriteSerializable"
}

fn is_checkpoint_interval(value: &str) -> bool
    ensures { result ≡ is_some (checkpoint_interval_in value.now) }
{
    match read_decimal(value.as_bytes()) {
        Some(number) => 0 < number && number <= MAX_CHECKPOINT_INTERVAL,
        None => false,
    }
}

fn is_interval(value: &Text) -> bool
    ensures { result ≡ is_some (interval_in value.now) }
{
    read_interval(value).is_some()
}

/// Whether a key is kept for properties of tables.
fn is_reserved(key: &str) -> bool
    ensures { result ≡ starts_with ◌==◌ key.now (codes "delta.") }
{
    key.as_bytes().starts_with(b"delta.")
}

/// Whether a property may have this value.
#[tactic(auto, unfolding(crate::specs::Properties::takes))]
fn takes(key: &Text, value: &Text) -> bool
    ensures { result ≡ Rattle.statement_checks.specs.Properties.takes key.now value.now }
{
    match key.as_str() {
        "delta.appendOnly" => value.as_str() == "false",
        "delta.checkpointInterval" => is_checkpoint_interval(value.as_str()),
        "delta.checkpointPolicy" => value.as_str() == "v2",
        "delta.deletedFileRetentionDuration" => is_interval(value),
        "delta.isolationLevel" => is_level(value.as_str()),
        "delta.logRetentionDuration" => is_interval(value),
        key => !is_reserved(key),
    }
}

/// Whether this is the property of a table to which rows are only added.
fn is_append_only(key: &Text, value: &Text) -> bool
    ensures { result ≡ Rattle.statement_checks.specs.Properties.is_append_only key.now value.now }
{
    key.as_str() == "delta.appendOnly" && value.as_str() == "true"
}

/// Whether a property stays as it was when the table was made.
fn is_fixed(key: &Text) -> bool
    ensures { result ≡ Rattle.statement_checks.specs.Properties.is_fixed key.now }
{
    let key = key.as_str();
    key == "delta.checkpointPolicy"
        || key == "delta.deletedFileRetentionDuration"
        || key == "delta.logRetentionDuration"
}

/// That a property may have its value in a table that is made.
fn check_property(property: &Property) -> Result<(), BindFault>
    ensures { Reads is_memory result (property_in property.now) }
{
    if is_append_only(&property.key, &property.value) || takes(&property.key, &property.value) {
        Ok(())
    } else {
        Err(BindFault::Property {
            key: property.key.copy()?,
        })
    }
}

/// That the properties of a table that is made may have their values, or `Property` of the first that may not: a key
/// that begins with `delta.` is one of those that `rules_of` reads, or `delta.checkpointPolicy`, and has one of its
/// values; any other key may have any value. `delta.appendOnly` may be `true`, which is a feature that isn't supported.
#[tactic(auto, unfolding(crate::specs::Properties::properties_in))]
pub fn check_properties(properties: &[Property]) -> Result<(), BindFault>
    ensures { Reads is_memory result (properties_in properties.now) }
{
    for property in properties {
        check_property(property)?;
    }
    Ok(())
}

/// That a property may be set to this value in a table that is there: else `Fixed` where it stays as it was when the
/// table was made, whatever the value, and `Property` where it hasn't this value or isn't known.
pub fn check_setting(key: &Text, value: &Text) -> Result<(), BindFault>
    ensures { Reads is_memory result (setting_in key.now value.now) }
{
    if is_fixed(key) {
        Err(BindFault::Fixed { key: key.copy()? })
    } else if takes(key, value) {
        Ok(())
    } else {
        Err(BindFault::Property { key: key.copy()? })
    }
}
