//! Wants: their limits, the order of their faults, and their cells.
use crate::tests::texts::{holds, is_written, reads};
use allotment::{Bad, Kind, Night, Want, WantCells};
use std::alloc::{AllocError, Global};

// the parts of a want, and its text
#[rattlefmt::skip]
const WANTS: [(Kind, &str, &str, &str, u64, u64, &str); 8] = [
    (Kind::Flight,   "AL",       "A1",       "2030-06-01", 1,  1,  "F/AL/A1/2030-06-01/1/1"),
    (Kind::Room,     "INN",      "DBL",      "2030-06-01", 1,  50, "R/INN/DBL/2030-06-01/1/50"),
    (Kind::Room,     "INN",      "DBL",      "2030-06-01", 30, 50, "R/INN/DBL/2030-06-01/30/50"),
    (Kind::Cover,    "C",        "X",        "2000-01-01", 1,  2,  "C/C/X/2000-01-01/1/2"),
    (Kind::Cover,    "ABCDEFGH", "01234567", "2000-01-01", 60, 2,  "C/ABCDEFGH/01234567/2000-01-01/60/2"),
    (Kind::Room,     "INN",      "DBL",      "2099-12-02", 30, 1,  "R/INN/DBL/2099-12-02/30/1"),
    (Kind::Flight,   "AL",       "A1",       "2099-12-31", 1,  49, "F/AL/A1/2099-12-31/1/49"),
    (Kind::Transfer, "BUS",      "X",        "2099-12-31", 1,  9,  "T/BUS/X/2099-12-31/1/9"),
];

#[test]
fn a_want_is_written_as_its_parts(rt: HostRuntime) {
    for &(kind, supplier, product, first, nights, count, text) in &WANTS {
        let want = Want::new(kind, supplier, product, first, nights, count).expect(&rt, text);
        is_written(&rt, text, want.text(rt.alloc()), text);
        holds(&rt, text, want.kind() == kind);
        reads(&rt, text, want.supplier().as_str(), supplier);
        reads(&rt, text, want.product().as_str(), product);
        holds(&rt, text, Night::parse(first) == Ok(want.first()));
        holds(&rt, text, u64::from(want.nights()) == nights);
        holds(&rt, text, u64::from(want.count()) == count);
    }
}

// parts that make no want, and the first fault
#[rattlefmt::skip]
const NO_WANTS: [(&str, Kind, &str, &str, &str, u64, u64, Bad); 26] = [
    ("no supplier",           Kind::Flight,   "",          "A1",        "2030-06-01", 1,  1,  Bad::Code),
    ("no product",            Kind::Flight,   "AL",        "a1",        "2030-06-01", 1,  1,  Bad::Code),
    ("a long supplier",       Kind::Flight,   "ABCDEFGHI", "A1",        "2030-06-01", 1,  1,  Bad::Code),
    ("a long product",        Kind::Flight,   "AL",        "012345678", "2030-06-01", 1,  1,  Bad::Code),
    ("code before night",     Kind::Flight,   "AL",        "",          "2030-02-29", 1,  1,  Bad::Code),
    ("code before all",       Kind::Flight,   "al",        "",          "2030-02-29", 0,  0,  Bad::Code),
    ("no night",              Kind::Flight,   "AL",        "A1",        "2030-02-29", 1,  1,  Bad::Night),
    ("the day after the last", Kind::Flight,  "AL",        "A1",        "2100-01-01", 1,  1,  Bad::Night),
    ("night before nights",   Kind::Flight,   "AL",        "A1",        "2030-6-1",   2,  1,  Bad::Night),
    ("night before count",    Kind::Flight,   "AL",        "A1",        "",           1,  0,  Bad::Night),
    ("no nights of a flight", Kind::Flight,   "AL",        "A1",        "2030-06-01", 0,  1,  Bad::Nights),
    ("two of a flight",       Kind::Flight,   "AL",        "A1",        "2030-06-01", 2,  1,  Bad::Nights),
    ("no nights of a transfer", Kind::Transfer, "BUS",     "X",         "2030-06-01", 0,  1,  Bad::Nights),
    ("two of a transfer",     Kind::Transfer, "BUS",       "X",         "2030-06-01", 2,  1,  Bad::Nights),
    ("no nights of a room",   Kind::Room,     "INN",       "DBL",       "2030-06-01", 0,  1,  Bad::Nights),
    ("31 of a room",          Kind::Room,     "INN",       "DBL",       "2030-06-01", 31, 1,  Bad::Nights),
    ("no nights of a cover",  Kind::Cover,    "C",         "X",         "2030-06-01", 0,  1,  Bad::Nights),
    ("61 of a cover",         Kind::Cover,    "C",         "X",         "2030-06-01", 61, 1,  Bad::Nights),
    ("past the last night",   Kind::Room,     "INN",       "DBL",       "2099-12-31", 2,  1,  Bad::Nights),
    ("30 past the last night", Kind::Room,    "INN",       "DBL",       "2099-12-03", 30, 1,  Bad::Nights),
    ("nights before count",   Kind::Room,     "INN",       "DBL",       "2099-12-31", 2,  0,  Bad::Nights),
    ("very many nights",      Kind::Cover,    "C",         "X",         "2030-06-01", u64::MAX, 1, Bad::Nights),
    ("no count",              Kind::Room,     "INN",       "DBL",       "2030-06-01", 1,  0,  Bad::Count),
    ("a count of 51",         Kind::Flight,   "AL",        "A1",        "2030-06-01", 1,  51, Bad::Count),
    ("a count past a byte",   Kind::Room,     "INN",       "DBL",       "2030-06-01", 1,  257, Bad::Count),
    ("a very large count",    Kind::Room,     "INN",       "DBL",       "2030-06-01", 1,  u64::MAX, Bad::Count),
];

#[test]
fn the_first_fault_of_a_want_is_told(rt: HostRuntime) {
    for &(case, kind, supplier, product, first, nights, count, fault) in &NO_WANTS {
        let told = Want::new(kind, supplier, product, first, nights, count).err();
        holds(&rt, case, told == Some(fault));
    }
}

// the first night and how many; the nights of the cells, one after another
#[rattlefmt::skip]
const RUNS: [(&str, u64, &str); 6] = [
    ("2030-06-01", 1, "2030-06-01 "),
    ("2030-06-01", 2, "2030-06-01 2030-06-02 "),
    ("2030-02-27", 4, "2030-02-27 2030-02-28 2030-03-01 2030-03-02 "),
    ("2032-02-28", 3, "2032-02-28 2032-02-29 2032-03-01 "),
    ("2030-12-31", 2, "2030-12-31 2031-01-01 "),
    ("2099-12-30", 2, "2099-12-30 2099-12-31 "),
];

// the nights of the cells of a want, each followed by a blank
fn nights_of(alloc: Global, want: &Want) -> Result<String, AllocError> {
    let mut told = String::new(alloc);
    for cell in want.cells() {
        told.push_str(cell.night().text(alloc)?.as_str())?;
        told.push_str(" ")?;
    }
    Ok(told)
}

#[test]
fn the_cells_of_a_want_rise_by_a_night(rt: HostRuntime) {
    for &(first, nights, expected) in &RUNS {
        let want = Want::new(Kind::Room, "INN", "DBL", first, nights, 1).expect(&rt, first);
        for cell in want.cells() {
            holds(&rt, first, cell.kind() == Kind::Room);
            holds(&rt, first, cell.supplier() == want.supplier());
            holds(&rt, first, cell.product() == want.product());
        }
        is_written(&rt, first, nights_of(rt.alloc(), &want), expected);
    }
}

// the kind, the most nights of it, how many cells they are
#[rattlefmt::skip]
const MOST: [(Kind, u64, usize); 4] = [
    (Kind::Flight,   1,  1),
    (Kind::Room,     30, 30),
    (Kind::Transfer, 1,  1),
    (Kind::Cover,    60, 60),
];

#[test]
fn a_want_has_a_cell_for_each_of_the_most_nights(rt: HostRuntime) {
    for &(kind, nights, cells) in &MOST {
        let want = Want::new(kind, "INN", "DBL", "2030-06-01", nights, 1).expect(&rt, "a want");
        let mut counted = 0usize;
        for _cell in WantCells::new(&want) {
            counted = counted.wrapping_add(1);
        }
        holds(&rt, kind.word(), counted == cells);
    }
}
