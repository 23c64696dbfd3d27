//! The options of the steps of each plan.

ghost use Rattle.std.specs.Prelude.{◌≡◌, ◌<◌, ◌^◌, map, IfOk, IfErr};
ghost use Rattle.desk_sql.specs.Changes.{IsSmallOption, adds_step, untaken, marks_step};
ghost use Rattle.desk_sql.specs.FoundRows.{FindsSteps, FindsOptions, shows_step, ten_of};
ghost use Rattle.std.specs.List.{AllByRecursion};
ghost use Rattle.desk_sql.specs.Causes.{IsMemory};
ghost use Rattle.desk_sql.specs.Writable.{MayAddStep, MayMarkStep};
ghost use Rattle.desk_sql.specs.Readable.{AreWantTexts, HaveOptionTexts, HaveWantTexts, ShowsOne, step_shown, Any};
ghost use Rattle.desk_sql.specs.Rows.{StepRow};
ghost use Rattle.desk_sql.specs.Statements.{Queries, QueriesEach, WritesNumbered};

use crate::queries::all_rows;
use sqlite::types::ValueRef;
use sqlite::{Alter, Connection, Error, Row, Transaction};
use std::alloc::Global;

/// One option of a step, as it is at the begin of its journey.
#[derive(Clone, Copy)]
pub struct StepOption<'x> {
    /// The journey's number.
    pub journey: u64,
    /// The number of the step, from 1.
    pub place: u64,
    /// The number of the option, from 1.
    pub opt: u64,
    /// 1 if a save-point follows the step, else 0.
    pub save: u64,
    pub kind: u64,
    pub supplier: &'x str,
    pub product: &'x str,
    /// The first night, and the number of nights.
    pub night: u64,
    pub nights: u64,
    /// The number of places.
    pub places: u64,
}

/// Inserts an option, which no transaction has taken.
pub fn insert_step<S: Alter>(
    tx: &mut Transaction<'_, S>,
    option: StepOption<'_>,
) -> Result<usize, Error>
    requires { IsSmallOption option }

    ensures writes { WritesNumbered S.Store tx.old.conn tx.new.conn result
        Any (MayAddStep (untaken option.entry)) Any 1 (adds_step (untaken option.entry)) }
{
    tx.execute(
        "INSERT INTO step VALUES (?1, ?2, ?3, ?4, 0, ?5, ?6, ?7, ?8, ?9, ?10)",
        &[
            ValueRef::Int(option.journey as i64),
            ValueRef::Int(option.place as i64),
            ValueRef::Int(option.opt as i64),
            ValueRef::Int(option.save as i64),
            ValueRef::Int(option.kind as i64),
            ValueRef::Text(option.supplier.as_bytes()),
            ValueRef::Text(option.product.as_bytes()),
            ValueRef::Int(option.night as i64),
            ValueRef::Int(option.nights as i64),
            ValueRef::Int(option.places as i64),
        ],
    )
}

/// One option of a step of a journey.
#[derive(Debug, Drop)]
pub struct StepFound {
    /// The number of the step, from 1.
    pub place: u64,
    /// The number of the option, from 1.
    pub opt: u64,
    /// 1 if a save-point follows the step, else 0.
    pub save: u64,
    /// 1 if a standing transaction took this option, else 0.
    pub taken: u64,
    pub kind: u64,
    pub supplier: String,
    pub product: String,
    /// The first night, and the number of nights.
    pub night: u64,
    pub nights: u64,
    /// The number of places.
    pub places: u64,
}

fn read_step(row: &Row) -> Result<StepFound, Error>
    ensures shown { IfOk result (λ s. shows_step s ≡ ten_of row.now) }

    ensures reason { (x : StepRow) → row.now ≡ step_shown x → AreWantTexts x
        → IfErr result IsMemory }
{
    let place = row.get(0)?;
    let opt = row.get(1)?;
    let save = row.get(2)?;
    let taken = row.get(3)?;
    let kind = row.get(4)?;
    let supplier = row.get(5)?;
    let product = row.get(6)?;
    let night = row.get(7)?;
    let nights = row.get(8)?;
    let places = row.get(9)?;
    Ok(StepFound {
        place,
        opt,
        save,
        taken,
        kind,
        supplier,
        product,
        night,
        nights,
        places,
    })
}

fn read_steps(alloc: Global, rows: &[Row]) -> Result<Vec<StepFound>, Error>
    ensures shown { IfOk result (λ steps. map shows_step steps.items ≡ map ten_of rows.now) }

    ensures reason { AllByRecursion (ShowsOne step_shown AreWantTexts) rows.now
        → IfErr result IsMemory }
{
    let mut steps = Vec::new(alloc);
    for row in rows {
        let step = read_step(row)?;
        steps.push(step)?;
    }
    Ok(steps)
}

/// Returns the options of a journey's plan, in order of step and option.
pub fn find_steps<S: Alter>(
    alloc: Global,
    conn: &mut Connection<S>,
    journey: u64,
) -> Result<Vec<StepFound>, Error>
    requires { journey < 2 ^ 63 }

    ensures queries { QueriesEach S.Store conn.old conn.new result
        (λ t found. FindsSteps journey t found.items) (HaveWantTexts journey) }
{
    let rows = all_rows(
        conn,
        "SELECT place, opt, save, taken, kind, supplier, product, night, nights, places FROM step WHERE journey = ?1 ORDER BY place, opt",
        &[ValueRef::Int(journey as i64)],
    )?;
    read_steps(alloc, rows.as_slice())
}

/// Returns the options of one step of a journey's plan, in order of their numbers.
pub fn find_options<S: Alter>(
    alloc: Global,
    conn: &mut Connection<S>,
    journey: u64,
    place: u64,
) -> Result<Vec<StepFound>, Error>
    requires journey { journey < 2 ^ 63 }
    requires place { place < 2 ^ 63 }

    ensures queries { Queries S.Store conn.old conn.new result
        (λ t found. FindsOptions journey place t found.items) (HaveOptionTexts journey place) }
{
    let rows = all_rows(
        conn,
        "SELECT place, opt, save, taken, kind, supplier, product, night, nights, places FROM step WHERE journey = ?1 AND place = ?2 ORDER BY place, opt",
        &[ValueRef::Int(journey as i64), ValueRef::Int(place as i64)],
    )?;
    read_steps(alloc, rows.as_slice())
}

/// Updates whether a standing transaction took an option: 1 if one did, else 0.
pub fn mark_step<S: Alter>(
    tx: &mut Transaction<'_, S>,
    journey: u64,
    place: u64,
    opt: u64,
    taken: u64,
) -> Result<usize, Error>
    requires journey { journey < 2 ^ 63 }
    requires place { place < 2 ^ 63 }
    requires opt { opt < 2 ^ 63 }
    requires taken { taken < 2 ^ 63 }

    ensures writes { WritesNumbered S.Store tx.old.conn tx.new.conn result
        Any (MayMarkStep journey place opt taken) Any 0 (marks_step journey place opt taken) }
{
    tx.execute(
        "UPDATE step SET taken = ?4 WHERE journey = ?1 AND place = ?2 AND opt = ?3",
        &[
            ValueRef::Int(journey as i64),
            ValueRef::Int(place as i64),
            ValueRef::Int(opt as i64),
            ValueRef::Int(taken as i64),
        ],
    )
}
