//! The text of the help of the whole program.

/// The text after the help of the whole program.
pub const PROGRAM: &str = "\
'desk COMMAND --help' says what a command reads and prints, with an example.

Refusals:
  A refusal is one line, 'refused N Name' and its particulars.
  It changes nothing.

Faults:
  A fault is one line on standard error, 'fault N Name'. It ends the program.
  17, 22 Memory  Out of memory
  18 Store       The database failed
  21 Store       FILE is not a database of the desk, is in use, or cannot be
                 read or created
  24 Read        The input could not be read
  25 Write       The output could not be written
  26 File        A file is absent or cannot be read
  27 Net         The port or the path could not be listened on; or no desk
                 answered at the path of --at
  With '--explain' before the command, or where standard error is a terminal,
  a second line says why, if that is known, and what to do.

Exit status:
  0  Done
  1  A refusal, on standard output, or a fault, on standard error
  2  Wrong usage, or help, on standard error

Example:
  $ echo 'set june F/AL/A1/2030-06-01 9' | desk run trips.db
  loaded june 1
  $ desk stock trips.db
  kind     supplier product  night       allot   held   free
  flight   AL       A1       2030-06-01      9      0      9
  cells 1";
