//! The file of rows.
ghost use Rattle.std.specs.Prelude.{◌≡◌, ◌++◌, ◌≤◌, length, IfOk, OnOk};
ghost use Rattle.std.specs.List.{All};
ghost use Rattle.row_base.specs.declared.limits.TheConstants.{MAX_FILE_ROWS};
ghost use Rattle.row_base.specs.Schema.{FitsSchema};
ghost use Rattle.parquet_plain.specs.Written as spec;
ghost use Rattle.parquet_meta.specs.Written.{footer_text};

use crate::element_writer::elements_of;
use crate::group_writer::append_groups;
use parquet_meta::{FileMeta, RowGroup, write_footer};
use row_base::{Items, NoMemory, Rows, Schema};
use std::alloc::Global;

/// The first and the last bytes of a file.
const MAGIC: &[u8] = b"PAR1";

/// The low 32 bits of a number, the lowest byte first.
fn length_bytes(number: usize) -> [u8; 4]
    ensures { result ≡ spec.length_bytes number }
{
    ((number % 4_294_967_296) as u32).to_le_bytes()
}

/// The footer, its length and the magic.
fn append_footer(alloc: Global, meta: &FileMeta, out: &mut Vec<u8>) -> Result<(), NoMemory>
    ensures { OnOk result (out.new.items ≡ out.old.items ++ spec.ended (footer_text meta.now)) }
{
    let footer = write_footer(alloc, meta)?;
    out.extend_from_slice(&footer)?;
    out.extend_from_slice(&length_bytes(footer.len()))?;
    out.extend_from_slice(MAGIC)?;
    Ok(())
}

/// What the footer says of a file of these rows.
#[tactic(auto, unfolding(crate::specs::Written::meta_of))]
fn meta_of(
    alloc: Global,
    schema: &Schema,
    rows: &Rows,
    groups: Vec<RowGroup>,
) -> Result<FileMeta, NoMemory>
    requires few { length rows.now ≤ MAX_FILE_ROWS }
    requires groups { groups.items ≡ spec.group_entries schema.now 4 (spec.groups_of rows.now) }
    ensures { IfOk result (λ m. m ≡ spec.meta_of schema.now rows.now) }
{
    Ok(FileMeta {
        version: Some(1),
        schema: Items::from_vec(elements_of(alloc, schema)?),
        num_rows: rows.len() as i64,
        row_groups: Items::from_vec(groups),
    })
}

/// The Parquet file of these rows, without the partition columns: groups of at most 16,384 rows, pages of at most 4,096
/// values, each full but the last, and dictionaries where they pay (Parquet format, README.md, "File format"). A page's
/// body of 2^31 bytes or more, which texts of at most `MAX_TEXT_BYTES` never make, is refused as one for which no
/// memory is left.
#[tactic(auto, unfolding(crate::specs::Written::file_text))]
pub fn write_file(alloc: Global, schema: &Schema, rows: &Rows) -> Result<Vec<u8>, NoMemory>
    requires few { length rows.now ≤ MAX_FILE_ROWS }
    requires fits { All (FitsSchema schema.now) rows.now }
    ensures { IfOk result (λ v. v.items ≡ spec.file_text schema.now rows.now) }
{
    let mut out = Vec::new(alloc);
    out.extend_from_slice(MAGIC)?;
    let groups = append_groups(alloc, schema, rows.iter(), &mut out)?;
    let meta = meta_of(alloc, schema, rows, groups)?;
    append_footer(alloc, &meta, &mut out)?;
    Ok(out)
}
