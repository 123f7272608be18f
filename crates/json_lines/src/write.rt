//! Objects that are written, and their lines.
ghost use Rattle.std.specs.Prelude.{◌≡◌, ◌≤◌, ◌++◌, ◌∷◌, List, ℕ, false, Some, IfOk, OnOk, OnErr};
ghost use Rattle.serde_json.specs.Data.{Data, depth};
ghost use Rattle.serde_json.specs.Read.{max_depth};
ghost use Rattle.serde_json.specs.View.{view, members_view};
ghost use Rattle.serde_json.specs.Written.{has_float, compact_text};
ghost use Rattle.json_lines.specs.Lines.{lines, value_of_line};
ghost use Rattle.json_lines.specs.Written.{single_object, line_text, FitsData};

use row_base::NoMemory;
use serde_json::{Map, Value, put};
use std::alloc::Global;

/// An object whose only member is an object with these members.
pub fn single_value(
    alloc: Global,
    name: &str,
    members: Map<String, Value>,
) -> Result<Value, NoMemory>
    ensures { IfOk result (λ v. view v ≡ single_object name.now (members_view members.entries)) }
{
    let mut outer = Map::new(alloc);
    put(&mut outer, alloc, name, Value::Object(members))?;
    Ok(Value::Object(outer))
}

/// Appends a value's line: its compact text, with members in byte order, and a line end. A value with a float has no
/// text that is promised.
pub fn push_line(alloc: Global, out: &mut Vec<u8>, value: &Value) -> Result<(), NoMemory>
    ensures text { OnOk result (has_float (view value.now) ≡ false
        → out.new.items ≡ out.old.items ++ line_text (view value.now)) }
    ensures back { OnOk result (has_float (view value.now) ≡ false → depth (view value.now) ≤ max_depth
        → value_of_line (compact_text (view value.now)) ≡ Some (view value.now)) }
    ensures err { OnErr result (out.new.items ≡ out.old.items) }
{
    let mut line = value.to_vec(alloc)?;
    line.push(b'\n')?;
    out.extend_from_slice(&line)?;
    Ok(())
}

/// Compact JSON text holds no line end: before whatever follows its end, it is a line of its own.
pub fn compact_text_is_a_line()
    ensures { (d : Data) (rest : List ℕ) → FitsData d
        → lines (compact_text d ++ 10 ∷ rest) ≡ compact_text d ∷ lines rest }
{}
