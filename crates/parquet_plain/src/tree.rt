//! The elements of a file's schema (parquet.thrift, `SchemaElement`).
ghost use Rattle.std.specs.Prelude.{◌≡◌, ◌≤◌, ◌<◌, ◌^◌, length, Ok, MatchResult};
ghost use Rattle.std.specs.List.{list_any};
ghost use Rattle.parquet_meta.specs.Faults.{Reads, FaultOf};
ghost use Rattle.parquet_plain.specs.Tree as spec;

use crate::source::{Source, refuse_shape, sources_of};
use parquet_meta::{FileFault, SchemaElement};
use row_base::{Kind, Schema, Text};
use std::alloc::Global;

/// The number of the physical type that holds a kind's values (README.md, "Types").
pub(crate) fn physical_of(kind: Kind) -> i64
    ensures { result ≡ spec.physical_of kind }
{
    match kind {
        Kind::Boolean => 0,
        Kind::Integer | Kind::Date => 1,
        Kind::Long => 2,
        Kind::String => 6,
    }
}

/// Whether a number isn't below 0 and has 31 bits at most.
fn is_in_range(number: i64) -> bool
    ensures { result ≡ spec.is_in_range number }
{
    0 <= number && number <= 0x7fff_ffff
}

fn is_absent_or_in_range(number: Option<i64>) -> bool
    ensures { result ≡ spec.is_absent_or_in_range number }
{
    match number {
        Some(number) => is_in_range(number),
        None => true,
    }
}

/// Whether the numbers that are used are in range.
fn has_numbers_in_range(element: &SchemaElement) -> bool
    ensures { result ≡ spec.has_numbers_in_range element.now }
{
    (is_absent_or_in_range(element.physical_type) && is_absent_or_in_range(element.repetition_type))
        && (is_absent_or_in_range(element.num_children)
            && is_absent_or_in_range(element.converted_type))
}

fn is_there_and_positive(number: Option<i64>) -> bool
    ensures { result ≡ spec.is_there_and_positive number }
{
    match number {
        Some(number) => 0 < number,
        None => false,
    }
}

/// Whether an element holds others.
fn is_group(element: &SchemaElement) -> bool
    ensures { result ≡ spec.is_group element.now }
{
    element.physical_type.is_none() || is_there_and_positive(element.num_children)
}

/// Whether an element is REQUIRED or OPTIONAL.
fn is_flat(repetition: Option<i64>) -> bool
    ensures { result ≡ spec.is_flat repetition }
{
    match repetition {
        Some(number) => number == 0 || number == 1,
        None => true,
    }
}

/// How many children an element has.
fn children_of(number: Option<i64>) -> u64
    ensures { result ≡ spec.children_of number }
{
    match number {
        Some(number) if 0 <= number => number.unsigned_abs(),
        _ => 0,
    }
}

fn has_type(physical: Option<i64>, wanted: i64) -> bool
    ensures { result ≡ spec.has_type physical wanted }
{
    match physical {
        Some(number) => number == wanted,
        None => false,
    }
}

/// Whether the element at this place is a column's leaf, and has another physical type than the column's kind.
fn is_other_type(place: usize, element: &SchemaElement, source: &Source) -> bool
    ensures { result ≡ spec.is_other_type place element.now source.now }
{
    match source {
        Source::Leaf(leaf) => {
            leaf.place == place && !has_type(element.physical_type, physical_of(leaf.kind))
        }
        _ => false,
    }
}

/// Whether the element at this place is the leaf of one of the columns, and has another physical type than its kind.
fn has_other_type(sources: &[Source], place: usize, element: &SchemaElement) -> bool
    ensures { result ≡ list_any (spec.is_other_type place element.now) sources.now }
{
    sources
        .iter()
        .any(|source| is_other_type(place, element, source))
}

/// Whether the element at this place is one of the root's children, and is no REPEATED one.
fn is_leaf(children: u64, place: usize, element: &SchemaElement) -> bool
    ensures { result ≡ spec.is_leaf children place element.now }
{
    has_numbers_in_range(element) && is_flat(element.repetition_type) && (place as u64) < children
}

/// The element at this place is a leaf that can be read.
#[tactic(auto, unfolding(crate::specs::Tree::leaf_checked))]
fn check_leaf(
    sources: &[Source],
    children: u64,
    place: usize,
    element: &SchemaElement,
) -> Result<(), FileFault>
    ensures { Reads result (spec.leaf_checked sources.now children place element.now) }
{
    if is_group(element) {
        return Err(FileFault::Nested);
    }
    if has_other_type(sources, place, element) {
        return Err(FileFault::Physical {
            column: element.name.copy()?,
        });
    }
    if is_leaf(children, place, element) {
        Ok(())
    } else {
        refuse_shape(&element.name)
    }
}

/// Each element below the root is a leaf that can be read.
fn check_leaves(
    sources: &[Source],
    children: u64,
    leaves: &[SchemaElement],
) -> Result<(), FileFault>
    ensures { Reads result (spec.leaves_checked sources.now children 0 leaves.now) }
{
    for (place, element) in leaves.iter().enumerate() {
        check_leaf(sources, children, place, element)?;
    }
    Ok(())
}

/// The sources, where the leaves below the root can be read and are as many as its children.
fn sources_below(
    alloc: Global,
    schema: &Schema,
    root: &SchemaElement,
    leaves: &[SchemaElement],
) -> Result<Vec<Source>, FileFault>
    ensures { MatchResult result
        (λ v. spec.if_all (spec.children_of root.now.num_children) root.now leaves.now (spec.sources_from schema.now.partition leaves.now 0 schema.now.columns) ≡ Ok v.items)
        (λ e. FaultOf e (spec.if_all (spec.children_of root.now.num_children) root.now leaves.now (spec.sources_from schema.now.partition leaves.now 0 schema.now.columns))) }
{
    let sources = sources_of(alloc, schema, leaves)?;
    let children = children_of(root.num_children);
    check_leaves(&sources, children, leaves)?;
    if (leaves.len() as u64) < children {
        return Err(FileFault::Shape {
            column: root.name.copy()?,
        });
    }
    Ok(sources)
}

/// Where the values of the columns come from, by the elements of the file's schema.
#[tactic(auto, unfolding(crate::specs::Tree::sources_in))]
pub(crate) fn read_tree(
    alloc: Global,
    schema: &Schema,
    elements: &[SchemaElement],
) -> Result<Vec<Source>, FileFault>
    ensures { MatchResult result (λ v. spec.sources_in schema.now elements.now ≡ Ok v.items) (λ e. FaultOf e (spec.sources_in schema.now elements.now)) }
{
    match elements.split_first() {
        Some((root, leaves)) => {
            if has_numbers_in_range(root) {
                sources_below(alloc, schema, root, leaves)
            } else {
                Err(FileFault::Shape {
                    column: root.name.copy()?,
                })
            }
        }
        None => Err(FileFault::Shape {
            column: Text::make(alloc, "")?,
        }),
    }
}
