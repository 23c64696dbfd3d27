//! The texts of the help of the reports of cells.

/// What `stock` reads and prints.
pub const STOCK: &str = "\
Print the allotted, held and free places of each cell

Opens the database FILE without recovering it, and changes no row of it.
Prints a heading, a line for each cell, by kind, supplier, product and night,
and 'cells N'. With options, only cells that have each of the values named are
shown and counted. Standard input is not read.

With --calendar, prints in place of these a heading, a line for each month of
a product with a mark for each night that says how full it is, and 'months N'.
The calendar is a text: with --format json or csv it is wrong usage.

With --at PATH in place of FILE, asks the desk that serves with --house PATH
for the report, and prints what it answers.";

/// The forms of `stock`, its exit statuses, and an example.
pub const STOCK_NOTES: &str = "\
Options that choose cells:
  --kind KIND          flight, room, transfer or cover
  --supplier SUPPLIER  1 to 8 of A-Z and 0-9
  --product PRODUCT    1 to 8 of A-Z and 0-9
  --from FROM          The first night, as 2030-06-01
  --to TO              The last night

Formats:
  text  A heading, a line for each cell, and 'cells N'
  json  An object on a line for each cell: allot, free, held, kind, night,
        product and supplier
  csv   A heading and a record for each cell; lines end with CR LF

Marks of the calendar:
  .       No place is held
  1 to 9  So many tenths of the places are held, rounded down, but at least 1
  #       All places are held
  -       No place is allotted
  blank   The stock has no such night

Exit status:
  0  The report is printed
  1  A refusal, on standard output, or a fault, on standard error
  2  Wrong usage, or help, on standard error

Example:
  $ echo 'set june F/AL/A1/2030-06-01 9' | desk run trips.db
  loaded june 1
  $ desk stock trips.db
  kind     supplier product  night       allot   held   free
  flight   AL       A1       2030-06-01      9      0      9
  cells 1
  $ desk stock trips.db --format csv | tr -d '\\r'
  kind,supplier,product,night,allot,held,free
  flight,AL,A1,2030-06-01,9,0,9
  $ desk stock trips.db --supplier AL --from 2030-06-02
  kind     supplier product  night       allot   held   free
  cells 0";

/// What `summary` reads and prints.
pub const SUMMARY: &str = "\
Print the nights and places of each product by month

Opens the database FILE without recovering it, and changes no row of it.
Prints a heading, a line for each month of a product, in the order of the
stock, and 'months N'. A line has how many nights of the month have an
allotment, and the sums of their allotted, held and free places. With options,
only cells that have each of the values named are counted. Standard input is
not read.

With --at PATH in place of FILE, asks the desk that serves with --house PATH
for the report, and prints what it answers.";

/// The forms of `summary`, its exit statuses, and an example.
pub const SUMMARY_NOTES: &str = "\
Options that choose cells:
  --kind KIND          flight, room, transfer or cover
  --supplier SUPPLIER  1 to 8 of A-Z and 0-9
  --product PRODUCT    1 to 8 of A-Z and 0-9
  --from FROM          The first night, as 2030-06-01
  --to TO              The last night

Formats:
  text  A heading, a line for each month, and 'months N'
  json  An object on a line for each month: allot, free, held, kind, month,
        nights, product and supplier
  csv   A heading and a record for each month; lines end with CR LF

Exit status:
  0  The report is printed
  1  A refusal, on standard output, or a fault, on standard error
  2  Wrong usage, or help, on standard error

Example:
  $ echo 'set a R/INN/X/2030-06-29 9' >lines
  $ echo 'set b R/INN/X/2030-06-30 5' >>lines
  $ echo 'set c R/INN/X/2030-07-01 5' >>lines
  $ desk run trips.db <lines
  loaded a 1
  loaded b 1
  loaded c 1
  $ desk summary trips.db
  kind     supplier product  month   nights    allot     held     free
  room     INN      X        2030-06      2       14        0       14
  room     INN      X        2030-07      1        5        0        5
  months 2
  $ desk summary trips.db --to 2030-06-29 --format csv | tr -d '\\r'
  kind,supplier,product,month,nights,allot,held,free
  room,INN,X,2030-06,1,9,0,9";

/// What `holders` reads and prints.
pub const HOLDERS: &str = "\
Print which journeys hold places of a cell, or of cells

Opens the database FILE without recovering it, and changes no row of it.
With CELL, prints a heading, a line for each step of a journey that holds
places of it, by journey and step, and 'holders N'.

Without CELL, prints a heading, a line for each cell and each step of a
journey that holds places of it, and 'holders N': by night, and of a night by
kind, supplier, product, journey and step, with the agent and the state of the
journey. With options, only cells that have each of the values named count.

A step holds the places that it took until it is compensated, also after its
journey has ended. Standard input is not read.

With --at PATH in place of FILE, asks the desk that serves with --house PATH
for the report, and prints what it answers.";

/// The forms of `holders`, its exit statuses, and an example.
pub const HOLDERS_NOTES: &str = "\
Words:
  CELL  KIND/SUPPLIER/PRODUCT/NIGHT, as in R/INN/DBL/2030-06-01
  KIND  F (flight), R (room), T (transfer) or C (cover)

Options that choose cells, without CELL:
  --kind KIND          flight, room, transfer or cover
  --supplier SUPPLIER  1 to 8 of A-Z and 0-9
  --product PRODUCT    1 to 8 of A-Z and 0-9
  --from FROM          The first night, as 2030-06-01
  --to TO              The last night

Formats:
  text  A heading, a line for each holder, and 'holders N'
  json  An object on a line for each holder: journey, option, places and step;
        without CELL agent, journey, kind, night, places, product, state and
        supplier
  csv   A heading and a record for each holder; lines end with CR LF

Exit status:
  0  The report is printed
  1  A refusal, on standard output, or a fault, on standard error
  2  Wrong usage, or help, on standard error

Example:
  $ echo 'set june F/AL/A1/2030-06-01 9' >lines
  $ echo 'begin F/AL/A1/2030-06-01/1/2!0' >>lines
  $ echo 'step 1' >>lines
  $ desk run trips.db <lines
  loaded june 1
  journey 1 begun
  journey 1 T1.1 ended 1
  $ desk holders trips.db F/AL/A1/2030-06-01
       journey   step option places
             1      1      1      2
  holders 1
  $ desk holders trips.db F/AL/A1/2030-06-01 --format json
  {\"journey\":1,\"option\":1,\"places\":2,\"step\":1}
  $ desk holders trips.db --to 2030-06-01 --format csv | tr -d '\\r'
  night,kind,supplier,product,journey,agent,state,places
  2030-06-01,flight,AL,A1,1,desk,ended,2";
