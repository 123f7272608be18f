//! Laws over what is planned.
ghost use Rattle.commit_plans.specs.Laws.{TablePlansAreWhole, InsertPlansAreWhole, PartsAreWhole, PropertiesAreMade, StampsRise};

/// What is planned is whole: the text that is written of its actions is read as these.
pub fn plans_are_whole()
    ensures table { TablePlansAreWhole }
    ensures insert { InsertPlansAreWhole }
    ensures parts { PartsAreWhole }
{}

/// The properties of a made table are a map in byte order, in which each key has the value that the statement gives it.
pub fn properties_are_made()
    ensures { PropertiesAreMade }
{}

/// The stamp of a plan's commit is above that of each version before it, and not below the reading of the clock.
pub fn stamps_rise()
    ensures { StampsRise }
{}
