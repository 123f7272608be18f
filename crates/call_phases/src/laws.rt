//! What holds of the phases.
ghost use Rattle.call_phases.specs.Laws.{NowIsMonotone, ListIsMonotone, GetIsMonotone, PutIsMonotone, ReplaceIsMonotone, DeleteIsMonotone, WaitIsMonotone};

/// A phase is monotone in what may follow its call, for continuations that are told by tests of the entries: where
/// each test implies another one, the phase with the first tests implies the phase with the others.
pub fn phases_are_monotone()
    ensures now { NowIsMonotone }
    ensures list { ListIsMonotone }
    ensures get { GetIsMonotone }
    ensures put { PutIsMonotone }
    ensures replace { ReplaceIsMonotone }
    ensures delete { DeleteIsMonotone }
    ensures wait { WaitIsMonotone }
{}
