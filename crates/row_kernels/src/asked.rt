//! Files that are asked whether they may match a predicate.
ghost use Rattle.std.specs.Prelude.{◌≡◌, ◌*◌, ◌%◌, ◌^◌, true, length, map, IfOk, IfErr};
ghost use Rattle.std.specs.List.{list_all};
ghost use Rattle.predicates.specs.Truths.{is_bound};
ghost use Rattle.row_kernels.specs.Scopes.{count_where, file_scope, keys};
ghost use Rattle.row_kernels.specs.Files as spec;

use crate::files::{facts_by, facts_of, table_schema, texts_of};
use crate::scopes::{file_scope, keys_scope};
use crate::truths::one_if;
use op_types::Scope;
use prune::{FileFacts, PartitionFault, may_match};
use row_base::{Schema, Text};
use std::alloc::Global;

/// How many of these files may match, in 64 bits.
fn count_matches(scope: &Scope, facts: &[FileFacts]) -> u64
    requires { list_all (λ f. is_bound (length f) scope.now) facts.now ≡ true }
    ensures { result ≡ count_where (spec.may scope.now) facts.now % 2 ^ 64 }
{
    let mut count: u64 = 0;
    for file in facts {
        count = count.wrapping_add(one_if(may_match(scope, file)));
    }
    count
}

/// Whether the file of these statistics may match.
#[tactic(auto, using(crate::proofs::Widths::file_bound))]
fn may(
    alloc: Global,
    schema: &Schema,
    path: &Text,
    scope: &Scope,
    statistics: &Text,
) -> Result<bool, PartitionFault>
    requires schema { schema.now ≡ spec.schema }
    requires bound { is_bound 2 scope.now ≡ true }
    ensures ok { IfOk result (λ may. may ≡ spec.may scope.now (spec.facts_by statistics.now)) }
    ensures err { IfErr result (λ e. e ≡ PartitionFault.NoMemory) }
{
    let facts = facts_by(alloc, schema, path, statistics)?;
    Ok(may_match(scope, &facts))
}

/// How many of the files of these statistics may match, in 64 bits.
fn count_known(
    alloc: Global,
    schema: &Schema,
    path: &Text,
    scope: &Scope,
    texts: &[Text],
) -> Result<u64, PartitionFault>
    requires schema { schema.now ≡ spec.schema }
    requires bound { is_bound 2 scope.now ≡ true }
    ensures ok { IfOk result (λ n. n ≡ count_where (spec.may scope.now) (map spec.facts_by texts.now) % 2 ^ 64) }
    ensures err { IfErr result (λ e. e ≡ PartitionFault.NoMemory) }
{
    let mut count: u64 = 0;
    for text in texts {
        count = count.wrapping_add(one_if(may(alloc, schema, path, scope, text)?));
    }
    Ok(count)
}

/// How many of so many files may match `id > 250000 and name <> 'n3'`, summed over so many rounds in 64 bits.
#[tactic(auto, using(crate::proofs::Counts::round_counted))]
pub fn run_asked(alloc: Global, files: u32, rounds: u32) -> Result<u64, PartitionFault>
    ensures ok { IfOk result (λ n. n ≡ rounds * spec.match_count file_scope files % 2 ^ 64) }
    ensures err { IfErr result (λ e. e ≡ PartitionFault.NoMemory) }
{
    let scope = file_scope(alloc)?;
    let texts = texts_of(alloc, files)?;
    let facts = facts_of(alloc, &texts)?;
    let mut count: u64 = 0;
    for _ in 0..rounds {
        count = count.wrapping_add(count_matches(&scope, &facts));
    }
    Ok(count)
}

/// The same, where what is known of each file is made of its statistics in each round.
#[tactic(auto, using(crate::proofs::Counts::round_counted))]
pub fn run_known(alloc: Global, files: u32, rounds: u32) -> Result<u64, PartitionFault>
    ensures err { IfErr result (λ e. e ≡ PartitionFault.NoMemory) }
    ensures ok { IfOk result (λ n. n ≡ rounds * spec.match_count file_scope files % 2 ^ 64) }
{
    let schema = table_schema(alloc)?;
    let scope = file_scope(alloc)?;
    let path = Text::make(alloc, "file")?;
    let texts = texts_of(alloc, files)?;
    let mut count: u64 = 0;
    for _ in 0..rounds {
        count = count.wrapping_add(count_known(alloc, &schema, &path, &scope, &texts)?);
    }
    Ok(count)
}

/// How many of so many files may match one of so many keys, in 64 bits.
pub fn run_keys(alloc: Global, files: u32, count: u32) -> Result<u64, PartitionFault>
    ensures ok { IfOk result (λ n. n ≡ spec.match_count (keys count) files % 2 ^ 64) }
    ensures err { IfErr result (λ e. e ≡ PartitionFault.NoMemory) }
{
    let scope = keys_scope(alloc, count)?;
    let texts = texts_of(alloc, files)?;
    let facts = facts_of(alloc, &texts)?;
    Ok(count_matches(&scope, &facts))
}
