//! Gets of objects one after another.
ghost use Rattle.std.specs.Prelude.{◌≡◌, ◌<◌, ◌≤◌, ℕ, Some, IfOk};
ghost use Rattle.call_phases.specs.Phases.{Entries};
ghost use Rattle.call_phases.specs.Ending.{Ending};
ghost use Rattle.call_phases.specs.declared.gets.GetFault.{GetFault as AFault};
ghost use Rattle.call_phases.specs.Gets.{GetsAll};
ghost use Rattle.call_phases.specs.GetsAt.{call_at, left_at, RestAt, AtBody};

use crate::{CallStage, Reader, Ready, Unread, Wanted};
use edge_api::{Answer, Body, Call, CallKind, Called, Name};
use row_base::NoMemory;

/// Why the objects were not all read.
#[derive(Drop)]
pub enum GetFault<F> {
    /// The store answered this call by a fault.
    Fault { call: Called },
    /// There is no object of that name.
    Missing { name: Name },
    /// The object's bytes have this fault.
    Bad { name: Name, fault: F },
    NoMemory,
}

/// Where the gets stand.
#[derive(Drop)]
pub enum GetsStage<R: Reader> {
    Getting(Wanted<R>),
    Read(R),
    Failed(GetFault<R::Fault>),
}

/// A phase of gets, of all the objects that a reader wants.
pub type Gets<R> = Ready<GetsStage<R>>;

impl<R: Reader> Wanted<R> {
    /// The object of this name is got. The error is want of memory.
    fn make(reader: R, name: Name) -> Result<Ready<GetsStage<R>>, NoMemory>
        requires is { R.wants reader ≡ Some name }
        requires some { 0 < R.left reader }
        ensures ready { IfOk result (λ a. a.call ≡ call_at a.stage) }
        ensures begins { IfOk result (λ a. (es : Entries) (o : Ending (AFault R.Fault) R) → RestAt R.wants R.after a.stage es o → GetsAll R.wants R.after reader es o) }
        ensures most { IfOk result (λ a. left_at R.left a.stage ≤ R.left reader) }
    {
        let call = Some(Call::Get(name.copy()?));
        let stage = GetsStage::Getting(Wanted { reader, name });
        Ok(Ready { stage, call })
    }
}

impl<R: Reader> GetsStage<R> {
    /// The body of the object is read.
    fn got(wanted: Wanted<R>, body: Body) -> Ready<GetsStage<R>>
        ensures ready { result.call ≡ call_at result.stage }
        ensures leads { (es : Entries) (o : Ending (AFault R.Fault) R) → RestAt R.wants R.after result.stage es o → AtBody R.wants R.after wanted.name wanted.reader body es o }
        ensures falls { left_at R.left result.stage < R.left wanted.reader }
    {
        let Wanted { mut reader, name } = wanted;
        let fault = match reader.read(body) {
            Ok(()) => return Gets::new(reader),
            Err(Unread::Bad(fault)) => GetFault::Bad { name, fault },
            Err(Unread::NoMemory) => GetFault::NoMemory,
        };
        Ready::no_call(GetsStage::Failed(fault))
    }
}

impl<R: Reader> Gets<R> {
    /// The objects that the reader wants are got, unless memory is wanting.
    pub fn new(reader: R) -> Gets<R>
        ensures ready { result.call ≡ call_at result.stage }
        ensures begins { (es : Entries) (o : Ending (AFault R.Fault) R) → RestAt R.wants R.after result.stage es o → GetsAll R.wants R.after reader es o }
        ensures most { left_at R.left result.stage ≤ R.left reader }
    {
        match reader.name() {
            Ok(Some(name)) => match Wanted::make(reader, name) {
                Ok(ahead) => ahead,
                Err(_) => Ready::no_call(GetsStage::Failed(GetFault::NoMemory)),
            },
            Ok(None) => Ready::no_call(GetsStage::Read(reader)),
            Err(_) => Ready::no_call(GetsStage::Failed(GetFault::NoMemory)),
        }
    }
}

impl<R: Reader> CallStage for GetsStage<R> {
    type Done = R;

    type Fault = GetFault<R::Fault>;

    ghost use Rattle.std.proofs.Common.{rules};
    ghost use Rattle.call_phases.specs.GetsAt.{call_at, left_at, RestAt};

    ghost call_at = { call_at };

    ghost left_at = { left_at R.left };

    ghost rest_at = { RestAt R.wants R.after };

    ghost some = { Prim.search rules };

    ghost open = { Prim.search rules };

    fn out_of_memory() -> GetsStage<R> {
        GetsStage::Failed(GetFault::NoMemory)
    }

    fn after(self, answer: Answer) -> Ready<GetsStage<R>> {
        let GetsStage::Getting(wanted) = self else {
            unreachable!()
        };
        let fault = match answer {
            Answer::Body(body) => return GetsStage::got(wanted, body),
            Answer::Missing => GetFault::Missing { name: wanted.name },
            _ => GetFault::Fault {
                call: Called {
                    kind: CallKind::Get,
                    name: wanted.name,
                },
            },
        };
        Ready::no_call(GetsStage::Failed(fault))
    }

    fn ended(self) -> Result<R, GetFault<R::Fault>> {
        match self {
            GetsStage::Read(reader) => Ok(reader),
            GetsStage::Failed(fault) => Err(fault),
            GetsStage::Getting(_) => unreachable!(),
        }
    }
}
