//! Why the program ended as it did, in words for a user. A cause changes no number, line or status of a fault.
ghost use Rattle.std.specs.Prelude.{◌≡◌};
ghost use Rattle.program_ends.specs.Causes.{cause_line, cause_of_end, cause_of_load, csv_line};

use crate::ends::End;
use commands::{CsvCause, Refusal};
use std::fmt::{Display, Formatter, Result as Formatted, Write};

/// Why the program ended as it did, as far as that is known. As text it is a sentence on the matter, and what to do.
#[derive(Clone, Copy, Debug, PartialEq, Eq)]
pub enum Cause {
    /// A file that has to be there is absent.
    Absent,
    /// The folder of the file is absent.
    NoFolder,
    /// The file is absent, and cannot be made in its folder.
    NotMade,
    /// Another program, or another call of this one, has the file open.
    InUse,
    /// The file, or its log, has a second hard link.
    SecondLink,
    /// The file, or its folder, may not be read or written.
    NotPermitted,
    /// It is a folder, or another thing that is no file.
    NoFile,
    /// The file is no database.
    NoDatabase,
    /// The database has other tables than the desk's.
    OtherTables,
    /// The database is damaged, or has a form that cannot be read.
    Damaged,
    /// The disk is full.
    FullDisk,
    /// The disk failed.
    FailedDisk,
    /// The tables are of the version before the newest.
    OldVersion,
    /// The tables are of an unknown version.
    OtherVersion,
    /// An allotment file has this fault.
    WrongFile(CsvCause),
    /// The name of a batch has another form.
    BadName,
    /// Somebody listens at the port.
    PortInUse,
    /// Somebody listens at the port, or at the path of the house's socket.
    AddressInUse,
    /// Another file, or a folder, stands at the path of the house's socket.
    NoSocket,
    /// Nobody listens at the path at which a desk is asked.
    NoDesk,
    /// What listens there sent no whole report.
    NoAnswer,
}

impl Cause {
    /// The cause that an end alone shows: an unknown version, or what is wrong with an allotment file.
    pub fn of_end(end: &End) -> Option<Cause>
        ensures cause { result ≡ cause_of_end end.now }
    {
        match end {
            End::Refused(Refusal::UnknownSchema { version: 1 }) => Some(Cause::OldVersion),
            End::Refused(Refusal::UnknownSchema { .. }) => Some(Cause::OtherVersion),
            End::Refused(Refusal::BadCsv { cause, .. }) => Some(Cause::WrongFile(*cause)),
            _ => None,
        }
    }

    /// The cause that the end of a load shows. A load that is refused for a form has a bad name: what is wrong with its file has
    /// another refusal.
    pub(crate) fn of_load(end: &End) -> Option<Cause>
        ensures cause { result ≡ cause_of_load end.now }
    {
        match end {
            End::Refused(Refusal::BadBody) => Some(Cause::BadName),
            end => Cause::of_end(end),
        }
    }

    /// The line of the cause, with a line feed. Allocates nothing.
    pub fn line(self) -> &'static str
        ensures line { result.now ≡ cause_line self }
    {
        match self {
            Cause::Absent => "The file is absent. Look at its name.\n",
            Cause::NoFolder => "The folder of the file is absent. Make it, or look at its name.\n",
            Cause::NotMade => {
                "The file is absent and cannot be made. Its folder may be read-only, or the disk full.\n"
            }
            Cause::InUse =>
                "The file is in use. End the program that has it open, or wait for it.\n",
            Cause::SecondLink => {
                "The file or its log has a second hard link, as 'ln' and 'cp -l' make. Remove one.\n"
            }
            Cause::NotPermitted => {
                "The file or its folder may not be read and written. Ask its owner for that.\n"
            }
            Cause::NoFile => "This is a folder, or another thing that is no file. Name a file.\n",
            Cause::NoDatabase => {
                "The file is no database, and is left as it was. Look at its name.\n"
            }
            Cause::OtherTables => {
                "The database is another program's, and is left as it was. Look at its name.\n"
            }
            Cause::Damaged => {
                "The database is damaged, or of a form that cannot be read. Take a backup of it.\n"
            }
            Cause::FullDisk => "The disk is full. Make room on it, and run again.\n",
            Cause::FailedDisk =>
                "The disk failed in a read or a write. Look after it, and run again.\n",
            Cause::OldVersion => {
                "The database is of an older version. Make a copy of it, and run 'desk migrate'.\n"
            }
            Cause::OtherVersion => {
                "The database is of an unknown version. Take the program that made it.\n"
            }
            Cause::WrongFile(cause) => csv_line(cause),
            Cause::BadName => "The name of a batch is 1 to 24 of a-z, 0-9 and '-'.\n",
            Cause::PortInUse =>
                "The port is in use. End the program that listens there, or take another port.\n",
            Cause::AddressInUse => {
                "The port or the path of --house is in use. End the program that listens there.\n"
            }
            Cause::NoSocket => {
                "A folder or another file is at the path of --house, or there with .new. Take another.\n"
            }
            Cause::NoDesk => {
                "No desk serves at the path of --at. Start one with --house, or name its file.\n"
            }
            Cause::NoAnswer => {
                "No whole report came from the path of --at. Ask again; an older desk has none.\n"
            }
        }
    }
}

/// The line of what an allotment file has to be like, where it has this fault.
fn csv_line(cause: CsvCause) -> &'static str
    ensures line { result.now ≡ csv_line cause }
{
    match cause {
        CsvCause::Size =>
            "An allotment file has at most 262144 bytes. Divide it into several batches.\n",
        CsvCause::Header => "The first line has to be kind,supplier,product,night,places.\n",
        CsvCause::Many =>
            "An allotment file has at most 2000 rows. Divide it into several batches.\n",
        CsvCause::Shape => "A row has five fields of text, as flight,AL,A1,2030-06-01,10.\n",
        CsvCause::Kind => "A kind is flight, room, transfer or cover.\n",
        CsvCause::Code => "A supplier or product is 1 to 8 capital letters A to Z and digits.\n",
        CsvCause::Night => "A night is a date from 2000-01-01 to 2099-12-31, as 2030-06-01.\n",
        CsvCause::Places =>
            "Places are a number from 0 to 100000, without sign or leading zeros.\n",
        CsvCause::Twice =>
            "The cell of this row stands in an earlier row. Leave one of them out.\n",
        CsvCause::Empty => "The file has no row after its first line.\n",
    }
}

impl Display for Cause {
    fn fmt<W: Write>(&self, f: &mut Formatter<W>) -> Formatted {
        f.write_str(self.line().trim_end())
    }
}
