//! The texts of the help of the subcommands that change a file.

/// What `run` reads and prints.
pub const RUN: &str = "\
Execute commands from standard input, one per line

Opens the database FILE, created if absent. Every journey under way is
finished or undone first, as after a crash. Then each line of standard input
is answered by one line on standard output, until the input ends. A refused
line changes nothing, and the next line is answered. At a terminal, a long
input whose answers go to a file shows how many lines were read.";

/// The forms of `run`, its exit statuses, and an example.
pub const RUN_NOTES: &str = "\
Lines:
  set NAME CELL PLACES  Allot so many places of a cell, 0 to 100000, as the
                        batch NAME
  begin PLAN            Begin a journey of this plan
  step ID               Do the journey's next step or compensation
  abort ID P            Turn the journey back to position P, 0 to 99
  save ID               Take a save-point where the journey is

Words of a line, with one blank between them:
  NAME    1 to 24 of a-z, 0-9 and '-'
  CELL    KIND/SUPPLIER/PRODUCT/NIGHT, as in F/AL/A1/2030-06-01
  KIND    F (flight), R (room), T (transfer) or C (cover)
  PLAN    1 to 24 steps joined by ';', then '!' and one digit, the tries
  step    1 to 8 options joined by '|', then '*' for a save-point after it
  option  CELL/NIGHTS/COUNT
  ID      The number of a journey

Answers:
  loaded NAME 1          To set
  journey ID begun       To begin
  journey ID ITEM STATE  To step, abort and save
  refused N Name         To a line that is refused; particulars may follow

Exit status:
  0  The input was answered to its end, whether or not lines were refused
  1  A refusal that ends the program, on standard output, or a fault, on
     standard error
  2  Wrong usage, or help, on standard error

Example:
  $ echo 'set june F/AL/A1/2030-06-01 9' >lines
  $ echo 'begin F/AL/A1/2030-06-01/1/1!0' >>lines
  $ echo 'step 1' >>lines
  $ desk run trips.db <lines
  loaded june 1
  journey 1 begun
  journey 1 T1.1 ended 1";

/// What `serve` reads and prints.
pub const SERVE: &str = "\
Serve HTTP requests from many clients at once

Opens the database FILE, created if absent. Every journey under way is
finished or undone first, as after a crash. Then it listens on 127.0.0.1,
prints 'ready PORT', and serves up to 256 connections at once: N in all, or,
without --connections, until it is stopped. Standard input is not read.

With --house, it also listens on the Unix socket PATH, which only its own
user can open. A request without Desk-Agent there is the house's: it needs no
key, sees every journey, and may stop the desk.

With --page, a browser gets a page at http://127.0.0.1:PORT/, in which an
agent works. A request to the port must then name 127.0.0.1, localhost or
[::1] with the port as its host.

With --log, standard error has a line for each request, one for each
connection that ended, and one for what the opening recovered. Without it
nothing but a fault is written there. With --log=time each line begins with
its time.

With --wide, HTTP is read as libraries and proxies speak it: HTTP/1.0, a
body in chunks, a POST without a body, HEAD, OPTIONS and 'Expect:
100-continue' too. Each page asks caches not to keep it.";

/// The forms of `serve`, its exit statuses, and an example.
pub const SERVE_NOTES: &str = "\
Requests:
  POST /batches/NAME         Load an allotment file as the batch NAME
  POST /journeys             Begin a journey of a plan in JSON
  POST /journeys/ID/step     Do the journey's next step or compensation
  POST /journeys/ID/abort/P  Turn the journey back to position P
  POST /journeys/ID/save     Take a save-point where the journey is
  GET /journeys/ID           The journey with its items
  GET /journeys/ID/plan      Its plan, in the form in which it was sent
  GET /journeys/ID/why       Why it goes on or does not: its next want, the
                             free places of each night, and what a step does
  GET /journeys/by-key/KEY   The agent's journey that was begun under KEY
  GET /unfinished            The agent's journeys that have not ended
  GET /mine                  The agent's journeys, ended ones too
  GET /mine/AFTER            Those with a number above AFTER
  GET /stock                 The places of each cell
  GET /stock/FROM/TO         Those of the nights from FROM to TO
  GET /stock/FROM/TO/KIND    Those of a kind: flight, room, transfer or cover
  GET /stock/FROM/TO/KIND/SUPPLIER          Those of a supplier
  GET /stock/FROM/TO/KIND/SUPPLIER/PRODUCT  Those of a product
  GET /agent                 Who asks, as the desk is told
  GET /health                The numbers of events, journeys and unfinished
                             journeys
  GET /                      With --page, the page for browsers
  GET /reports/COMMAND       At the socket of --house: what the desk's COMMAND
                             stock, summary, holders, unfinished, journeys,
                             history or why prints; words as ?WORD&WORD
  GET /metrics               At the socket of --house: counts, for Prometheus
  POST /stop                 At the socket of --house: the desk stops

Fields:
  Desk-Agent  Who asks, 1 to 16 of a-z and 0-9. Each request to the port
              needs it, but for GET /health and GET /
  Desk-For    For whom the request is meant: it is refused, if who asks is
              another agent
  Desk-Key    1 to 32 letters, digits and '-'. Each POST of an agent needs it,
              and acts once under it

Exit status:
  0  The desk was stopped by POST /stop, or all N connections were served
  1  A refusal that ends the program, on standard output, or a fault, on
     standard error
  2  Wrong usage, or help, on standard error

Example:
  $ desk serve trips.db --port 8080 --house house --wide &
  ready 8080
  $ curl -H 'Desk-Agent: ann' http://127.0.0.1:8080/unfinished
  {\"unfinished\":[]}
  $ curl --unix-socket house -X POST http://desk/stop
  {\"state\":\"stopping\"}";

/// What `recover` reads and prints.
pub const RECOVER: &str = "\
Finish or undo every journey under way, as after a crash

Opens the database FILE, created if absent. Every journey under way turns
back to its last save-point, or to its start, and goes on from there to its
end. Prints 'recovered K', with the number of commits. Standard input is not
read.";

/// The forms of `recover`, its exit statuses, and an example.
pub const RECOVER_NOTES: &str = "\
Exit status:
  0  Every journey has ended or is undone
  1  A refusal, on standard output, or a fault, on standard error
  2  Wrong usage, or help, on standard error

Example:
  $ echo 'begin F/AL/A1/2030-06-01/1/1!0' | desk run trips.db
  journey 1 begun
  $ desk recover trips.db
  recovered 1";

/// What `load` reads and prints.
pub const LOAD: &str = "\
Load allotments from a CSV file, as one batch

Opens the database FILE, created if absent. Every journey under way is
finished or undone first, as after a crash. Then the allotment file CSV is
loaded as the batch NAME, whole or not at all, and the reply is printed.
Loading the same rows under the same name again changes nothing. CSV '-' is
standard input, which is not read otherwise.";

/// The forms of `load`, its exit statuses, and an example.
pub const LOAD_NOTES: &str = "\
Allotment file, at most 262144 bytes and 2000 rows:
  The first line is kind,supplier,product,night,places
  Each other line is a row: the kind is flight, room, transfer or cover,
  and there are 0 to 100000 places

Exit status:
  0  The batch is loaded, now or before
  1  A refusal, on standard output, or a fault, on standard error
  2  Wrong usage, or help, on standard error

Example:
  $ echo 'kind,supplier,product,night,places' >june.csv
  $ echo 'flight,AL,A1,2030-06-01,9' >>june.csv
  $ desk load trips.db june.csv --batch june
  loaded june 1
  $ sed 's/,9$/,12/' june.csv | desk load trips.db - --batch june-2
  loaded june-2 1";

/// What `migrate` reads and prints.
pub const MIGRATE: &str = "\
Migrate a database from schema 1 to schema 2, in one commit

Opens the database FILE without recovering it. Prints
'migrated 1 to 2 events N', with the number of events in it. A file of
schema 2 is refused and left as it is. Standard input is not read.";

/// The forms of `migrate`, its exit statuses, and an example.
pub const MIGRATE_NOTES: &str = "\
Exit status:
  0  The database has schema 2 now
  1  A refusal, on standard output, or a fault, on standard error
  2  Wrong usage, or help, on standard error

Example:
  $ desk migrate old.db
  migrated 1 to 2 events 7
  $ desk migrate old.db
  refused 23 AlreadyNew";

/// What `index` reads and prints.
pub const INDEX: &str = "\
Add the index by which an agent's journeys are found

Opens the database FILE without recovering it, and adds the index in one
commit. Prints 'indexed journeys N', with the number of journeys, or
'already indexed journeys N' where there is one. Nothing else changes.
Standard input is not read.";

/// The forms of `index`, its exit statuses, and an example.
pub const INDEX_NOTES: &str = "\
Exit status:
  0  The database has the index now
  1  A refusal, on standard output, or a fault, on standard error
  2  Wrong usage, or help, on standard error

Example:
  $ desk migrate old.db
  migrated 1 to 2 events 7
  $ desk index old.db
  indexed journeys 3
  $ desk index old.db
  already indexed journeys 3";
