//! New rows are put as data files.
ghost use Rattle.std.specs.Prelude.{◌≡◌, ◌≤◌, ◌^◌, length, List, IfOk};
ghost use Rattle.std.specs.List.{All};
ghost use Rattle.row_base.specs.Schema.{FitsSchema};
ghost use Rattle.schema_text.specs.PartitionWritten.{HasText};
ghost use Rattle.log_actions.specs.declared.action.AddFile.{AddFile as AnAdd};
ghost use Rattle.call_phases.specs.Phases.{Entries};
ghost use Rattle.call_phases.specs.Ending.{Ending};
ghost use Rattle.call_phases.specs.declared.puts.PutFault.{PutFault as AFault};
ghost use Rattle.write_files.specs.Pieces.{pieces_of};
ghost use Rattle.write_files.specs.Files.{IsReadable, adds_from};
ghost use Rattle.write_files.specs.Phase as spec;

use crate::file::{NewFiles, Origin};
use crate::pieces::pieces_of;
use call_phases::{Phase, PutFault, Puts};
use edge_api::{Call, Fed, Tag};
use log_actions::AddFile;
use row_base::{Items, NoMemory, Rows, Schema};
use std::alloc::Global;

/// Why new rows were not written: the store answered a put by a fault, or there is an object of a file's name, or memory
/// was wanting for a call.
pub type WriteFault = PutFault;

/// A phase that puts new rows as data files and gives the actions that add them.
#[derive(Drop)]
pub struct WriteOut {
    pub puts: Puts,
    /// The adds of all files, in order of their parts.
    pub adds: Items<AddFile>,
}

impl WriteOut {
    /// New rows are put as data files of the statement with this tag and this start (in milliseconds since 1970), whose
    /// parts are numbered from `first` on; `change` says that the rows are new to the table. Which rows go into which
    /// file is told by `pieces_of`. All files are made here, so that want of memory is found before the first put, and
    /// the rows of each file are let go once it is made. No row makes no file. The error is want of memory, as it is for
    /// a file of more than `MAX_OBJECT_BYTES` and for a part's number past 32 bits.
    pub fn new(
        alloc: Global,
        schema: &Schema,
        rows: Rows,
        tag: Tag,
        start: u64,
        first: u32,
        change: bool,
    ) -> Result<WriteOut, NoMemory>
        requires fits { All (FitsSchema schema.now) rows }
        requires texts { All (λ r. All HasText r) rows }
        ensures ready { IfOk result spec.IsReady }
        ensures begins { IfOk result (λ w. (es : Entries) (o : Ending AFault (List AnAdd)) → spec.RestOf w es o → spec.WritesOut schema.now rows tag start first change es o) }
        ensures most { IfOk result (λ w. spec.left_of w ≤ length (pieces_of schema.now rows)) }
        ensures readable { IfOk result (λ w. All IsReadable w.adds) }
        ensures adds { IfOk result (λ w. w.adds ≡ adds_from schema.now tag start change first (pieces_of schema.now rows)) }
        ensures few { IfOk result (λ w. length (pieces_of schema.now rows) ≤ 2 ^ 32) }
    {
        let pieces = pieces_of(alloc, schema, rows)?;
        let origin = Origin { tag, start, change };
        let NewFiles { files, adds } = NewFiles::make(alloc, schema, origin, first, pieces)?;
        Ok(WriteOut {
            puts: Puts::new(files),
            adds: Items::from_vec(adds),
        })
    }
}

impl Phase for WriteOut {
    type Done = Items<AddFile>;

    type Fault = WriteFault;

    ghost use Rattle.write_files.specs.Phase.{IsReady, call_of, left_of, RestOf};

    ghost ready = { IsReady };

    ghost call = { call_of };

    ghost left = { left_of };

    ghost rest = { RestOf };

    fn next(&mut self) -> Option<Call> {
        self.puts.next()
    }

    fn feed(&mut self, input: Fed) {
        self.puts.feed(input);
    }

    fn finish(self) -> Result<Items<AddFile>, WriteFault> {
        let WriteOut { puts, adds } = self;
        match puts.finish() {
            Ok(()) => Ok(adds),
            Err(fault) => Err(fault),
        }
    }
}
