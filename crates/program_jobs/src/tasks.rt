//! What a job of the program does over a connection.

use saga_core::Report;

/// Where the bytes of an allotment file come from.
#[derive(Debug, Drop)]
pub enum Source {
    /// The input of the job.
    Input,
    /// The file of this name.
    File(String),
}

/// What is to be done over a connection.
#[derive(Drop)]
pub enum Task {
    /// Recover the desk, and answer the lines of the input.
    Run,
    /// Recover the desk, and serve who comes to this port.
    Serve { port: u16 },
    /// Recover the desk.
    Recover,
    /// Recover the desk, and load an allotment file as a batch of this name.
    Load { source: Source, batch: String },
    /// Write this report of the desk, which is not recovered.
    Report(Report),
    /// Migrate the tables from schema 1 to schema 2.
    Migrate,
    /// Add the index on the agents of journeys to the tables.
    Index,
}
