//! The names of actions.
ghost use Rattle.std.specs.Prelude.{◌≡◌};
ghost use Rattle.log_actions.specs.Actions.{name_of};

/// Which action the only member of a line is.
#[derive(Clone, Copy, Debug, Drop, PartialEq, Eq)]
pub(crate) enum ActionName {
    Protocol,
    Meta,
    Add,
    Remove,
    Txn,
    Info,
    Checkpoint,
    Sidecar,
    /// An action that changes nothing that is kept.
    Other,
}

/// The action of this name.
#[tactic(auto, unfolding(crate::specs::Actions::name_of))]
pub(crate) fn action_name(text: &str) -> ActionName
    ensures { result ≡ name_of text.now }
{
    match text {
        "add" => ActionName::Add,
        "remove" => ActionName::Remove,
        "metaData" => ActionName::Meta,
        "protocol" => ActionName::Protocol,
        "txn" => ActionName::Txn,
        "commitInfo" => ActionName::Info,
        "checkpointMetadata" => ActionName::Checkpoint,
        "sidecar" => ActionName::Sidecar,
        _ => ActionName::Other,
    }
}
