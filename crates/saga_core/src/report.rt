//! The reports that a desk is asked for: which there are, with their filters and formats.

use crate::cell_filters::CellFilter;
use crate::journey_filters::JourneyFilter;
use allotment::Cell;

/// How a report is laid out.
#[derive(Clone, Copy, Debug, PartialEq, Eq)]
pub enum Format {
    /// Padded columns, for reading.
    Text,
    /// JSON lines: an object a line, its members in the order of their names.
    Json,
    /// CSV with a heading (RFC 4180). A line ends with CR LF.
    Csv,
}

/// The name of a report of journeys.
#[derive(Clone, Copy, Debug, PartialEq, Eq)]
pub enum JourneyReport {
    /// `unfinished`.
    Unfinished,
    /// `journeys`.
    Journeys,
}

/// A report by month.
#[derive(Clone, Copy, Debug, PartialEq, Eq)]
pub enum MonthReport {
    /// How many nights each month has and the sums of their places, in this format.
    Summary(Format),
    /// Each month's days in a row, with a mark that says how full each night is, as a text.
    Calendar,
}

/// A report of a desk: what it shows, of which rows, in which format. The calendar is a text.
#[derive(Clone, Copy)]
pub enum Report {
    /// The places of each cell that has an allotment and that the filter lets through.
    Stock {
        filter: CellFilter,
        format: Format,
    },
    /// The journeys that the filter lets through, in order of number, under a name.
    Journeys {
        name: JourneyReport,
        filter: JourneyFilter,
        format: Format,
    },
    /// The journeys that hold places of a cell.
    Holders {
        cell: Cell,
        format: Format,
    },
    /// The journeys that hold places of the cells that the filter lets through, night by night.
    Holdings {
        filter: CellFilter,
        format: Format,
    },
    /// The months of the cells that the filter lets through.
    Months {
        months: MonthReport,
        filter: CellFilter,
    },
    /// The history of the journey of this number.
    History {
        id: u64,
        format: Format,
    },
    /// Why the journey of this number goes on or does not: where it is, its next want, what is free of each night of it,
    /// and what a step of the house would make.
    Why {
        id: u64,
        format: Format,
    },
}
