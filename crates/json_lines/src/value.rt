//! JSON values by their kind, read and written.
ghost use Rattle.std.specs.Prelude.{◌≡◌, ◌^◌, ◌-◌, IfOk};
ghost use Rattle.serde_json.specs.Data.{boolean, string};
ghost use Rattle.serde_json.specs.Find.{as_str, as_bool};
ghost use Rattle.serde_json.specs.View.{view, items_view};
ghost use Rattle.row_base.specs.Readings.{Gives};
ghost use Rattle.json_lines.specs.Gives.{is_memory};
ghost use Rattle.json_lines.specs.Kinds as spec;
ghost use Rattle.json_lines.specs.Written.{integer_data, texts_data, text_or_null_data};

use crate::fault::ShapeFault;
use crate::member::Member;
use row_base::{Items, NoMemory, Text};
use serde_json::Value;
use std::alloc::Global;

/// A text.
impl Member for Text {
    ghost kind = { as_str };

    ghost written = { string };

    fn read(alloc: Global, value: &Value) -> Result<Text, ShapeFault> {
        match value.as_str() {
            Some(text) => Ok(Text::make(alloc, text)?),
            None => Err(ShapeFault::Shape),
        }
    }

    fn write(&self, alloc: Global) -> Result<Value, NoMemory> {
        Ok(Value::try_from_str(alloc, self.as_str())?)
    }
}

/// A truth value.
impl Member for bool {
    ghost kind = { as_bool };

    ghost written = { boolean };

    fn read(_alloc: Global, value: &Value) -> Result<bool, ShapeFault> {
        match value.as_bool() {
            Some(flag) => Ok(flag),
            None => Err(ShapeFault::Shape),
        }
    }

    fn write(&self, _alloc: Global) -> Result<Value, NoMemory> {
        Ok(Value::Bool(*self))
    }
}

/// An integer from 0 to the limit.
#[tactic(auto, unfolding(crate::specs::Kinds::as_integer))]
pub(crate) fn integer_of(value: &Value, limit: u64) -> Result<u64, ShapeFault>
    ensures { Gives is_memory (λ x. x) result (spec.as_integer limit (view value.now)) }
{
    match value.as_u64() {
        Some(number) => {
            if number <= limit {
                Ok(number)
            } else {
                Err(ShapeFault::Shape)
            }
        }
        None => Err(ShapeFault::Shape),
    }
}

/// An integer of 64 bits without a sign.
impl Member for u64 {
    ghost kind = { spec.as_integer (2 ^ 64 - 1) };

    ghost written = { integer_data };

    fn read(_alloc: Global, value: &Value) -> Result<u64, ShapeFault> {
        integer_of(value, u64::MAX)
    }

    fn write(&self, _alloc: Global) -> Result<Value, NoMemory> {
        Ok(Value::from(*self))
    }
}

fn texts_in(alloc: Global, items: &[Value]) -> Result<Items<Text>, ShapeFault>
    ensures { Gives is_memory (λ x. x) result (spec.texts_in (items_view items.now)) }
{
    let mut texts = Vec::new(alloc);
    for value in items {
        let text: Text = Member::read(alloc, value)?;
        texts.push(text)?;
    }
    Ok(Items::from_vec(texts))
}

fn texts_value(alloc: Global, texts: &[Text]) -> Result<Value, NoMemory>
    ensures { IfOk result (λ v. view v ≡ texts_data texts.now) }
{
    let mut values = Vec::new(alloc);
    for text in texts {
        values.push(text.write(alloc)?)?;
    }
    Ok(Value::Array(values))
}

/// A list of texts.
impl Member for Items<Text> {
    ghost kind = { spec.as_texts };

    ghost written = { texts_data };

    #[tactic(auto, unfolding(crate::specs::Kinds::as_texts))]
    fn read(alloc: Global, value: &Value) -> Result<Items<Text>, ShapeFault> {
        match value.as_array() {
            Some(items) => texts_in(alloc, items.as_slice()),
            None => Err(ShapeFault::Shape),
        }
    }

    fn write(&self, alloc: Global) -> Result<Value, NoMemory> {
        texts_value(alloc, self.as_slice())
    }
}

/// A text, or nothing for null.
impl Member for Option<Text> {
    ghost kind = { spec.text_or_null };

    ghost written = { text_or_null_data };

    fn read(alloc: Global, value: &Value) -> Result<Option<Text>, ShapeFault> {
        match value {
            Value::Null => Ok(None),
            Value::String(text) => Ok(Some(Text::make(alloc, text.as_str())?)),
            _ => Err(ShapeFault::Shape),
        }
    }

    fn write(&self, alloc: Global) -> Result<Value, NoMemory> {
        match self {
            Some(text) => text.write(alloc),
            None => Ok(Value::Null),
        }
    }
}
