//! The texts of the help of the reports of journeys.

/// What `unfinished` reads and prints.
pub const UNFINISHED: &str = "\
Print the journeys that have not ended

Opens the database FILE without recovering it, and changes no row of it.
Prints a line for each journey that has neither ended nor is undone, with its
number, agent and state, and 'unfinished N'. With options, only journeys of
the agent and in the state are shown and counted. Standard input is not read.

With --at PATH in place of FILE, asks the desk that serves with --house PATH
for the report, and prints what it answers.";

/// The forms of `unfinished`, its exit statuses, and an example.
pub const UNFINISHED_NOTES: &str = "\
Options that choose journeys:
  --agent AGENT  1 to 16 of a-z and 0-9; journeys begun by lines are of desk
  --state STATE  run or back

Formats:
  text  A line for each journey, and 'unfinished N'
  json  An object on a line for each journey: agent, journey, pos, state,
        and target if the journey goes back
  csv   A heading and a record for each journey; lines end with CR LF

Exit status:
  0  The report is printed
  1  A refusal, on standard output, or a fault, on standard error
  2  Wrong usage, or help, on standard error

Example:
  $ echo 'begin F/AL/A1/2030-06-01/1/1!0' | desk run trips.db
  journey 1 begun
  $ desk unfinished trips.db
             1 desk             run 0
  unfinished 1
  $ desk unfinished trips.db --format json
  {\"agent\":\"desk\",\"journey\":1,\"pos\":0,\"state\":\"run\"}";

/// What `journeys` reads and prints.
pub const JOURNEYS: &str = "\
Print all journeys, ended ones too

Opens the database FILE without recovering it, and changes no row of it.
Prints a line for each journey, by rising number, with its number, agent and
state, and 'journeys N'. With options, only journeys of the agent and in the
state are shown and counted. Standard input is not read.

With --at PATH in place of FILE, asks the desk that serves with --house PATH
for the report, and prints what it answers.";

/// The forms of `journeys`, its exit statuses, and an example.
pub const JOURNEYS_NOTES: &str = "\
Options that choose journeys:
  --agent AGENT  1 to 16 of a-z and 0-9; journeys begun by lines are of desk
  --state STATE  run, back, ended or undone

Formats:
  text  A line for each journey, and 'journeys N'
  json  An object on a line for each journey: agent, journey, pos, state,
        and target if the journey goes back
  csv   A heading and a record for each journey; lines end with CR LF

Exit status:
  0  The report is printed
  1  A refusal, on standard output, or a fault, on standard error
  2  Wrong usage, or help, on standard error

Example:
  $ echo 'begin F/AL/A1/2030-06-01/1/1!0' | desk run trips.db
  journey 1 begun
  $ desk recover trips.db
  recovered 1
  $ desk journeys trips.db
             1 desk             undone 0
  journeys 1
  $ desk journeys trips.db --state ended
  journeys 0";

/// What `history` reads and prints.
pub const HISTORY: &str = "\
Print what happened to a journey, oldest first

Opens the database FILE without recovering it, and changes no row of it.
Prints four lines: the journey's number and agent, its plan, its items, and
its state. Standard input is not read.

With --at PATH in place of FILE, asks the desk that serves with --house PATH
for the report, and prints what it answers.";

/// The forms of `history`, its exit statuses, and an example.
pub const HISTORY_NOTES: &str = "\
Formats:
  text  Four lines, as above
  json  An object on a line: first agent, journey and plan; then item and
        journey for each item; last journey, pos, state, and target if the
        journey goes back
  csv   A heading and a record for each item; lines end with CR LF

Items:
  T1.2  Step 1 was taken by its option 2
  C1.2  Step 1, taken by its option 2, was compensated
  B0s   A turn back to position 0: by recovery (s), because a step was
        refused (r), or as asked (a)
  S1    A save-point was taken at position 1

States:
  run P        Runs, at position P
  back P to Q  Goes back from position P to Q
  ended N      Has done all of its N steps
  undone 0     Has gone back to its start

Exit status:
  0  The report is printed
  1  A refusal, on standard output, or a fault, on standard error
  2  Wrong usage, or help, on standard error

Example:
  $ echo 'begin F/AL/A1/2030-06-01/1/1!0' | desk run trips.db
  journey 1 begun
  $ desk history trips.db 1
  journey 1 agent desk
  plan F/AL/A1/2030-06-01/1/1!0
  items
  state run 0
  $ desk history trips.db 1 --format json
  {\"agent\":\"desk\",\"journey\":1,\"plan\":\"F/AL/A1/2030-06-01/1/1!0\"}
  {\"journey\":1,\"pos\":0,\"state\":\"run\"}";

/// What `why` reads and prints.
pub const WHY: &str = "\
Print why a journey stands where it does

Opens the database FILE without recovering it, and changes no row of it.
Prints the journey's number and agent, its state, its next item with its want,
a line for each night of the want with its free places, and the item that a
step would make now. No step is taken. Standard input is not read.

With --at PATH in place of FILE, asks the desk that serves with --house PATH
for the report, and prints what it answers.";

/// The forms of `why`, its exit statuses, and an example.
pub const WHY_NOTES: &str = "\
Lines:
  next ITEM WANT         What the journey is about to do if WANT fits:
                         KIND/SUPPLIER/PRODUCT/NIGHT/NIGHTS/COUNT. None if
                         the journey has ended or is undone
  night NIGHT free N     N places are free on this night of WANT
  night NIGHT unallotted No place was ever allotted on this night
  step ITEM              What a step would do now: the same item, a turn
                         back, as B0r, if WANT does not fit, or none

Formats:
  text  Lines, as above
  json  An object on a line: first agent, journey, pos, state, and target if
        the journey goes back; then journey, next and want; free, journey and
        night for each night; last journey and step
  csv   A heading and a record for each night, or one record without a night;
        lines end with CR LF

Exit status:
  0  The report is printed
  1  A refusal, on standard output, or a fault, on standard error
  2  Wrong usage, or help, on standard error

Example:
  $ echo 'set june F/AL/A1/2030-06-01 9' >lines
  $ echo 'begin F/AL/A1/2030-06-01/1/1!0' >>lines
  $ desk run trips.db <lines
  loaded june 1
  journey 1 begun
  $ desk why trips.db 1
  journey 1 agent desk
  state run 0
  next T1.1 F/AL/A1/2030-06-01/1/1
  night 2030-06-01 free 9
  step T1.1";
