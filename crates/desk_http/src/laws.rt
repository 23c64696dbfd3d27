//! Idempotence of a message that made an event, how long the text of an ask is, for whom a command is carried out, and who is
//! shown reports.
ghost use Rattle.desk_http.specs.Laws.{ActOnce, AsksAreShort, CommandsAreForWhomIsMeant, ReportsAreForTheHouse};

/// A request that made an event is idempotent under its key: when the same request is retried, it gets the same page
/// and makes no second event, whatever came between.
pub fn again()
    ensures law { ActOnce }
{}

/// The text of an ask that a message of a stream makes has at most 270,336 bytes: as many as a head and a body may have.
pub fn asks_are_short()
    ensures law { AsksAreShort }
{}

/// A command is carried out for the agent for whom its message is meant, if it is meant for any: never for another, and
/// never for the house.
pub fn commands_are_for_whom_is_meant()
    ensures law { CommandsAreForWhomIsMeant }
{}

/// A report, and what a monitor reads, is shown to the house alone: at its own door, to a request that names nobody.
pub fn reports_are_for_the_house()
    ensures law { ReportsAreForTheHouse }
{}
