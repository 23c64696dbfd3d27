// Values from outside: the files and their answers of the formats and of the worked rows.
use allotment::{Cell, Night, Row};
use allotment_csv::{Column, CsvFault, read_batch, wrong_field};
use commands::CsvCause;
use std::alloc::Global;
use std::fmt::Write;
use std::process::Abort;

/// Stops the test where another result is reported of a file under a name.
fn is_told(
    rt: &impl Abort,
    alloc: Global,
    name: &str,
    file: &[u8],
    expected: Option<CsvFault>,
    case: &str,
) {
    let length = file.len();
    let told = read_batch(alloc, name, file).err();
    assert!(rt; told == expected, "{case:?}, {length} bytes: {told:?}");
}

/// This is wrong in this row.
fn bad(row: usize, cause: CsvCause) -> Option<CsvFault> {
    Some(CsvFault::BadCsv { row, cause })
}

/// This is wrong with a file, if anything is.
fn whole(cause: Option<CsvCause>) -> Option<CsvFault> {
    match cause {
        Some(cause) => bad(0, cause),
        None => None,
    }
}

/// A heading alone.
const HEADING: &str = "kind,supplier,product,night,places\n";

/// Two rows that may be loaded.
const TWO: &str = "kind,supplier,product,night,places
flight,AL,A1,2030-06-01,10
room,INN,DBL,2030-06-01,4
";

// the text after the heading, the row and the cause that are reported
#[rattlefmt::skip]
const REFUSED: [(&str, usize, CsvCause); 28] = [
    ("",                                                        0, CsvCause::Empty),
    ("\n\r\n",                                                  0, CsvCause::Empty),
    ("flight,AL,A1,2030-06-01\n",                               1, CsvCause::Shape),
    ("flight,AL,A1,2030-06-01,1,\n",                            1, CsvCause::Shape),
    ("bus,AL,A1,2030-06-01,1\n",                                1, CsvCause::Kind),
    ("F,AL,A1,2030-06-01,1\n",                                  1, CsvCause::Kind),
    ("Flight,AL,A1,2030-06-01,1\n",                             1, CsvCause::Kind),
    (" flight,AL,A1,2030-06-01,1\n",                            1, CsvCause::Kind),
    ("bus,al,a1,2030,x\n",                                      1, CsvCause::Kind),
    ("flight,,A1,2030-06-01,1\n",                               1, CsvCause::Code),
    ("flight,ABCDEFGHI,A1,2030-06-01,1\n",                      1, CsvCause::Code),
    ("flight,AL,a1,2030-06-01,1\n",                             1, CsvCause::Code),
    ("flight,AL,a1,2030,x\n",                                   1, CsvCause::Code),
    ("flight,AL,A1,1999-12-31,1\n",                             1, CsvCause::Night),
    ("flight,AL,A1,2100-01-01,1\n",                             1, CsvCause::Night),
    ("flight,AL,A1,2030-6-1,1\n",                               1, CsvCause::Night),
    ("flight,AL,A1,2030-02-29,x\n",                             1, CsvCause::Night),
    ("flight,AL,A1,2030-06-01,100001\n",                        1, CsvCause::Places),
    ("flight,AL,A1,2030-06-01,01\n",                            1, CsvCause::Places),
    ("flight,AL,A1,2030-06-01,-1\n",                            1, CsvCause::Places),
    ("flight,AL,A1,2030-06-01,\n",                              1, CsvCause::Places),
    ("flight,AL,A1,2030-06-01,1\nflight,AL,A1,2030-06-01,1\n",  2, CsvCause::Twice),
    ("flight,AL,A1,2030-06-01,1\n\nflight,AL,A1,2030-06-01,2\n", 2, CsvCause::Twice),
    ("flight,AL,A1,2030-06-01,1\nflight,AL,A1,2030-06-01,x\n",  2, CsvCause::Places),
    ("flight,AL,A1,2030-06-01,1\nroom,AL,A1,2030-06-01,1\nx\n", 3, CsvCause::Shape),
    ("flight,AL,A1,2030-06-01,1\nflight,AL,A1,2030-06-01,1\nx\n", 2, CsvCause::Twice),
    ("x\nflight,AL,A1,2030-06-01,1\nflight,AL,A1,2030-06-01,1\n", 1, CsvCause::Shape),
    ("\"flight,AL,A1,2030-06-01,1\n",                           1, CsvCause::Shape),
];

/// The heading and the text after it.
fn headed(rt: &impl Abort, alloc: Global, behind: &str) -> String {
    let file = format!(in alloc; "{HEADING}{behind}");
    file.expect(rt, "memory")
}

#[test]
fn the_first_fault_is_told_with_its_row(rt: HostRuntime) {
    for &(behind, row, cause) in &REFUSED {
        let file = headed(&rt, rt.alloc(), behind);
        let told = bad(row, cause);
        is_told(&rt, rt.alloc(), "b1", file.as_bytes(), told, behind);
    }
}

// the text after the heading of files that have the rows of `TWO`
#[rattlefmt::skip]
const READ: [&str; 6] = [
    "flight,AL,A1,2030-06-01,10\nroom,INN,DBL,2030-06-01,4\n",
    "flight,AL,A1,2030-06-01,10\nroom,INN,DBL,2030-06-01,4",
    "flight,AL,A1,2030-06-01,10\r\nroom,INN,DBL,2030-06-01,4\r\n",
    "\n\nflight,AL,A1,2030-06-01,10\n\n\nroom,INN,DBL,2030-06-01,4\n\n",
    "\"flight\",\"AL\",A1,\"2030-06-01\",10\nroom,INN,DBL,2030-06-01,\"4\"\n",
    "\"flight\",\"AL\",A1,2030-06-01,\"10\"\r\n\"room\",INN,DBL,2030-06-01,4\r\n",
];

/// The cell of this text.
fn cell(rt: &impl Abort, text: &str) -> Cell {
    Cell::parse(text).expect(rt, "a cell")
}

/// Stops the test where these rows are not those of the batch after a heading.
fn is_read(rt: &impl Abort, alloc: Global, behind: &str, rows: &[Row]) {
    let file = headed(rt, alloc, behind);
    let batch = read_batch(alloc, "b1", file.as_bytes()).expect(rt, "a batch");
    assert!(rt; batch.name().as_str() == "b1", "{behind:?}");
    assert!(rt; batch.rows() == rows, "{behind:?}");
}

#[test]
fn quotes_ends_and_empty_lines_are_good(rt: HostRuntime) {
    let flight = Row::new(cell(&rt, "F/AL/A1/2030-06-01"), 10);
    let room = Row::new(cell(&rt, "R/INN/DBL/2030-06-01"), 4);
    for &behind in &READ {
        is_read(&rt, rt.alloc(), behind, &[flight, room]);
    }
}

// files by their bytes, and the fault of each: none, where they have the rows of `TWO`
#[rattlefmt::skip]
const FILES: [(&[u8], Option<CsvCause>); 9] = [
    (b"",                                                                          Some(CsvCause::Header)),
    (b"\n\n",                                                                      Some(CsvCause::Header)),
    (b"kind,supplier,product,night\n",                                             Some(CsvCause::Header)),
    (b"kind,supplier,product,night,places,\n",                                     Some(CsvCause::Header)),
    (b"kind,supplier,product,nights,places\n",                                     Some(CsvCause::Header)),
    (b"Kind,supplier,product,night,places\n",                                      Some(CsvCause::Header)),
    (b"flight,AL,A1,2030-06-01,10\n",                                              Some(CsvCause::Header)),
    (b"kind,supplier,product,night,places\xff\n",                                  Some(CsvCause::Header)),
    (b"\xef\xbb\xbf\n\"kind\",supplier,product,night,\"places\"\r\n",              Some(CsvCause::Empty)),
];

#[test]
fn a_file_has_its_heading(rt: HostRuntime) {
    for &(file, cause) in &FILES {
        is_told(&rt, rt.alloc(), "b1", file, whole(cause), "heading");
    }
}

#[test]
fn bytes_that_are_no_text_have_no_shape(rt: HostRuntime) {
    let file =
        b"kind,supplier,product,night,places\nflight,AL,A1,2030-06-01,1\nflight,\xff,A1,2030-06-01,1\n";
    let told = bad(2, CsvCause::Shape);
    is_told(&rt, rt.alloc(), "b1", file, told, "no text");
}

// names, whether they are good
#[rattlefmt::skip]
const NAMES: [(&str, bool); 6] = [
    ("b1",                        true),
    ("abcdefghijklmnopqrstuvwx",  true),
    ("abcdefghijklmnopqrstuvwxy", false),
    ("",                          false),
    ("B1",                        false),
    ("b 1",                       false),
];

/// This fault where the name is good, and else that it is not.
fn named(good: bool, told: Option<CsvFault>) -> Option<CsvFault> {
    if good { told } else { Some(CsvFault::BadBody) }
}

#[test]
fn a_bad_name_comes_before_the_file(rt: HostRuntime) {
    let empty = bad(0, CsvCause::Header);
    for &(name, good) in &NAMES {
        let told = named(good, None);
        is_told(&rt, rt.alloc(), name, TWO.as_bytes(), told, name);
        is_told(&rt, rt.alloc(), name, b"", named(good, empty), name);
    }
}

#[test]
fn each_front_of_a_file_is_a_batch_or_refused(rt: HostRuntime) {
    let bytes = TWO.as_bytes();
    for end in 0..=bytes.len() {
        let fault = read_batch(rt.alloc(), "b1", &bytes[..end]).err();
        assert!(rt;
            !matches!(fault, Some(CsvFault::BadBody | CsvFault::Memory)),
            "{end}: {fault:?}"
        );
    }
}

/// A file of so many rows, one a night, and the text after them.
fn nights(rt: &impl Abort, alloc: Global, count: u32, behind: &str) -> String {
    let mut file = String::from_str(alloc, HEADING).expect(rt, "memory");
    for day in 0..count {
        let night = Night::from_day(day.saturating_add(10957)).expect(rt, "a night");
        write!(file, "room,INN,DBL,{night},4\n").expect(rt, "memory");
    }
    file.push_str(behind).expect(rt, "memory");
    file
}

// how many good rows there are, the text after them, and the fault
#[rattlefmt::skip]
const LONG: [(u32, &str, Option<(usize, CsvCause)>); 6] = [
    (2000, "",                                                None),
    (2001, "",                                                Some((2001, CsvCause::Many))),
    (2000, "x\n",                                             Some((2001, CsvCause::Many))),
    (2001, "x\n",                                             Some((2001, CsvCause::Many))),
    (1999, "x\nroom,INN,DBL,2030-06-01,4\n",                  Some((2000, CsvCause::Shape))),
    (1999, "room,INN,DBL,2000-01-01,4\nx\n",                  Some((2000, CsvCause::Twice))),
];

#[test]
fn a_file_has_at_most_2000_rows(rt: HostRuntime) {
    for &(count, behind, told) in &LONG {
        let file = nights(&rt, rt.alloc(), count, behind);
        let told = match told {
            Some((row, cause)) => bad(row, cause),
            None => None,
        };
        is_told(&rt, rt.alloc(), "b1", file.as_bytes(), told, behind);
    }
}

// how many bytes a file has, with empty lines at its end, and the fault
#[rattlefmt::skip]
const SIZES: [(usize, Option<CsvCause>); 2] = [
    (262_144, None),
    (262_145, Some(CsvCause::Size)),
];

/// A file of so many bytes, with the rows of `TWO` and empty lines.
fn sized(rt: &impl Abort, alloc: Global, size: usize) -> Vec<u8> {
    let mut file = vec![in alloc; b'\n'; size].expect(rt, "memory");
    for (byte, good) in file.iter_mut().zip(TWO.as_bytes()) {
        *byte = *good;
    }
    file
}

#[test]
fn a_file_has_at_most_262144_bytes(rt: HostRuntime) {
    for &(size, cause) in &SIZES {
        let file = sized(&rt, rt.alloc(), size);
        is_told(&rt, rt.alloc(), "b1", &file, whole(cause), "size");
    }
}

// the text after the heading, the row, the column and the text of its first wrong field
#[rattlefmt::skip]
const WRONG: [(&str, usize, Column, &str); 10] = [
    ("bus,AL,A1,2030-06-01,1\n",                                 1, Column::Kind,     "bus"),
    ("bus,al,a1,2030,x\n",                                       1, Column::Kind,     "bus"),
    ("flight,,A1,2030-06-01,1\n",                                1, Column::Supplier, ""),
    ("flight,al,a1,2030,x\n",                                    1, Column::Supplier, "al"),
    ("flight,AL,a1,2030,x\n",                                    1, Column::Product,  "a1"),
    ("flight,AL,A1,2030-02-29,x\n",                              1, Column::Night,    "2030-02-29"),
    ("flight,AL,A1,\"2030\n06\",1\n",                            1, Column::Night,    "2030\n06"),
    ("flight,AL,A1,2030-06-01,100001\n",                         1, Column::Places,   "100001"),
    ("flight,AL,A1,2030-06-01,1\n\nroom,INN,DBL,2030-06-01, 4\n", 2, Column::Places,   " 4"),
    ("bus,AL,A1,2030-06-01,1\ncar,AL,A1,2030-06-01,1\n",         2, Column::Kind,     "car"),
];

#[test]
fn the_first_wrong_field_of_a_row_is_found(rt: HostRuntime) {
    for &(behind, row, column, text) in &WRONG {
        let file = headed(&rt, rt.alloc(), behind);
        let found = wrong_field(rt.alloc(), file.as_bytes(), row).expect(&rt, "memory");
        let found = found.expect(&rt, "a wrong field");
        assert!(rt; found.column == column, "{behind:?}");
        assert!(rt; found.text.as_str() == text, "{behind:?}");
    }
}

// the text after the heading and a row that has no wrong field: it is good, has not five fields, or is not there
const NOT_WRONG: [(&str, usize); 4] = [
    ("flight,AL,A1,2030-06-01,1\n", 1),
    ("flight,AL,A1,2030-06-01\n", 1),
    ("flight,AL,A1,2030-06-01,1\n", 2),
    ("", 1),
];

#[test]
fn a_good_row_has_no_wrong_field(rt: HostRuntime) {
    for &(behind, row) in &NOT_WRONG {
        let file = headed(&rt, rt.alloc(), behind);
        let found = wrong_field(rt.alloc(), file.as_bytes(), row).expect(&rt, "memory");
        assert!(rt; found.is_none(), "{behind:?}, row {row}");
    }
}
