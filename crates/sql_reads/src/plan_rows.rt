//! The rows of a plan and of its save-points, and the choice of an option of a step by the rows of that step alone.

ghost use Rattle.std.specs.Prelude.{◌≡◌, ◌↔◌, ◌≤◌, ◌+◌, ◌∷◌, ℕ, [], true, length, map, IfErr, IfOk, IfSome, IsSome, IsTrue, ◌<◌, ◌^◌, find, min, Some};
ghost use Rattle.allotment.specs.Limits.{is_want};
ghost use Rattle.allotment.specs.Want.{Wanted};
ghost use Rattle.plan.specs.PlanModel.{Planned, step_count, step_said, option_count, is_plan};
ghost use Rattle.sql_model.specs.Beginning.{rows_of_option};
ghost use Rattle.sql_model.specs.ExpectedRows.{step_rows_of};
ghost use Rattle.sql_reads.specs.GoodRows.{IsMemory};
ghost use Rattle.sql_reads.specs.PlanRows.{first_rows, AreRowsOf, BeginWithStep, IsOfPlace, TellsWant, TellsOption, TellStep, TellPlan};
ghost use Rattle.desk_sql.specs.declared.versions.Version.TheVariants.{Two};
ghost use Rattle.plan.specs.Limits.{most_options};
ghost use Rattle.sql_reads.specs.OptionChoice.{IsLastChoice, IsNextChoice, IsOfRow, IsRowChosen, IsTakenChosen, is_taken_row, AreOfStep, HasStep, HasTaken, IsOfOption, TakesLast};
ghost use Rattle.sql_reads.specs.Reads.{ReadIn};
ghost use Rattle.std.specs.Option.{option_copied};

use allotment::{Kind, Night, Want};
use commands::Fault;
use desk_sql::{StepFound, find_options};
use plan::{MOST_OPTIONS, MOST_TRIES, Plan, PlanFault, PlanStep};
use sql_model::fault_of;
use sqlite::{Alter, Connection};
use std::alloc::Global;

/// Whether a row is that of an option with this want.
fn is_of_want(row: &StepFound, want: &Want) -> bool
    ensures { result ≡ true ↔ TellsWant row.now want.now }
{
    row.kind == u64::from(want.kind().number())
        && row.supplier.as_str() == want.supplier().as_str()
        && row.product.as_str() == want.product().as_str()
        && row.night == u64::from(want.first().day())
        && row.nights == u64::from(want.nights())
        && row.places == u64::from(want.count())
}

/// Whether a row is that of this option of a plan, taken or not.
fn is_option(row: &StepFound, plan: &Plan, step: usize, option: usize) -> bool
    requires step_from_one { 1 ≤ step }
    requires step_in_plan { step ≤ step_count plan.now }
    requires option_from_one { 1 ≤ option }
    requires option_in_step { option ≤ option_count plan.now step }

    ensures told { result ≡ true → TellsOption row.now plan.now step option }
    ensures exact { (id : ℕ) → rows_of_option id plan.now step option ≡ first_rows id (row.now ∷ [])
        → result ≡ true }
{
    let want = plan.want(step, option);
    row.place == step as u64
        && row.opt == option as u64
        && row.save == u64::from(plan.marked(step))
        && is_of_want(row, &want)
}

/// Returns the number of rows up to the end of this step, if the rows from `from` on start with those of the step.
fn after_step(rows: &[StepFound], from: usize, plan: &Plan, step: usize) -> Option<usize>
    requires from_one { 1 ≤ step }
    requires in_plan { step ≤ step_count plan.now }
    requires within { from ≤ length rows.now }

    ensures told { IfSome result (TellStep rows.now from plan.now step) }
    ensures next { IfSome result (λ to. to ≡ from + option_count plan.now step) }
    ensures there { (id : ℕ) → BeginWithStep id rows.now from plan.now step → IsSome result }
{
    let options = plan.options(step);
    for option in 0..options {
        let row = rows.get(from + option)?;
        if !is_option(row, plan, step, option + 1) {
            return None;
        }
    }
    Some(from + options)
}

/// Whether the rows are just those of this plan, taken or not.
fn are_of_plan(rows: &[StepFound], plan: &Plan) -> bool
    ensures told { result ≡ true → TellPlan rows.now plan.now }
    ensures exact { (id : ℕ) → step_rows_of id plan.now ≡ first_rows id rows.now → result ≡ true }
{
    let mut count = 0;
    for step in 0..plan.steps() {
        match after_step(rows, count, plan, step + 1) {
            Some(after) => count = after,
            None => return false,
        }
    }
    count == rows.len()
}

/// Returns the want in the row of an option. A want out of range is a fault of the store.
pub(crate) fn want_told(alloc: Global, row: &StepFound) -> Result<Want, Fault>
    ensures told { IfOk result (TellsWant row.now) }
    ensures there { (want : Wanted) → IsTrue (is_want want) → TellsWant row.now want
        → IfErr result IsMemory }
{
    if row.kind > 3 || row.night > u64::from(u32::MAX) {
        return Err(Fault::Store);
    }
    let Some(kind) = Kind::from_number(row.kind as u8) else {
        return Err(Fault::Store);
    };
    let Some(night) = Night::from_day(row.night as u32) else {
        return Err(Fault::Store);
    };
    let Ok(first) = night.text(alloc) else {
        return Err(Fault::Memory);
    };
    match Want::new(
        kind,
        row.supplier.as_str(),
        row.product.as_str(),
        first.as_str(),
        row.nights,
        row.places,
    ) {
        Ok(want) if is_of_want(row, &want) => Ok(want),
        _ => Err(Fault::Store),
    }
}

/// Whether there is a row at this index, and it is of the step with this number.
fn is_of_place(rows: &[StepFound], at: usize, place: u64) -> bool
    ensures told { result ≡ true → IsOfPlace rows.now at place }
    ensures exact { IsOfPlace rows.now at place → result ≡ true }
{
    match rows.get(at) {
        Some(row) => row.place == place,
        None => false,
    }
}

/// Builds the steps of the rows, each with its options.
fn steps_told(alloc: Global, rows: &[StepFound]) -> Result<Vec<PlanStep>, Fault>
    ensures steps { (id : ℕ) (plan : Planned) → AreRowsOf id plan rows.now
        → IfOk result (λ steps. map step_said steps.items ≡ plan.steps) }
    ensures there { (id : ℕ) (plan : Planned) → AreRowsOf id plan rows.now → IfErr result IsMemory }
{
    let mut steps = Vec::new(alloc);
    let mut options = Vec::new(alloc);
    for (at, row) in rows.iter().enumerate() {
        let want = want_told(alloc, row)?;
        if options.push(want).is_err() {
            return Err(Fault::Memory);
        }
        if is_of_place(rows, at + 1, row.place) {
            continue;
        }
        let step = PlanStep {
            options,
            save: row.save == 1,
        };
        options = Vec::new(alloc);
        if steps.push(step).is_err() {
            return Err(Fault::Memory);
        }
    }
    Ok(steps)
}

/// Builds the plan of these rows and tries. Rows that are not those of a plan are a fault of the store.
pub(crate) fn plan_told(alloc: Global, rows: &[StepFound], tries: u64) -> Result<Plan, Fault>
    ensures rows { IfOk result (λ plan. TellPlan rows.now plan) }
    ensures tries { IfOk result (λ plan. plan.tries ≡ tries) }
    ensures good { IfOk result (λ plan. IsTrue (is_plan plan)) }
    ensures there { (id : ℕ) (plan : Planned) → AreRowsOf id plan rows.now → tries ≡ plan.tries
        → IfErr result IsMemory }
{
    if tries > u64::from(MOST_TRIES) {
        return Err(Fault::Store);
    }
    let steps = steps_told(alloc, rows)?;
    match Plan::from_steps(steps, tries as u8) {
        Ok(plan) => {
            let _steps = plan.steps();
            if are_of_plan(rows, &plan) {
                Ok(plan)
            } else {
                Err(Fault::Store)
            }
        }
        Err(PlanFault::Memory) => Err(Fault::Memory),
        Err(PlanFault::Bad(_)) => Err(Fault::Store),
    }
}

/// An option of a step, numbered from 1, with its want.
#[derive(Clone, Copy)]
pub struct Choice {
    pub option: usize,
    pub want: Want,
}

/// The option of a row, with its want.
fn choice_of(alloc: Global, row: &StepFound, option: usize) -> Result<Choice, Fault>
    ensures row { IfOk result (IsOfRow row.now option) }
    ensures few { IfOk result (λ choice. choice.option ≤ most_options) }
    ensures there { IsOfOption row.now → option ≤ most_options → IfErr result IsMemory }
{
    if option > MOST_OPTIONS {
        return Err(Fault::Store);
    }
    let want = want_told(alloc, row)?;
    Ok(Choice { option, want })
}

/// The next option, by the rows of a step: the option after the refused ones, or the last option.
fn choose_next(alloc: Global, rows: &[StepFound], used: usize) -> Result<Choice, Fault>
    ensures chosen { IfOk result (IsRowChosen rows.now (min (used + 1) (length rows.now))) }
    ensures few { IfOk result (λ choice. choice.option ≤ most_options) }
    ensures there { AreOfStep rows.now → IfErr result IsMemory }
{
    let option = used.saturating_add(1).min(rows.len());
    if option == 0 {
        return Err(Fault::Store);
    }
    match rows.get(option - 1) {
        Some(row) => choice_of(alloc, row, option),
        None => Err(Fault::Store),
    }
}

/// The first row of an option that is taken.
fn find_taken(rows: &[StepFound]) -> Option<&StepFound>
    ensures first { option_copied result ≡ find is_taken_row rows.now }
{
    rows.iter().find(|row| row.taken == 1)
}

/// The taken option, by the rows of a step.
fn choose_taken(alloc: Global, rows: &[StepFound]) -> Result<Choice, Fault>
    ensures chosen { IfOk result (IsTakenChosen rows.now) }
    ensures few { IfOk result (λ choice. choice.option ≤ most_options) }
    ensures there { HasTaken rows.now → IfErr result IsMemory }
{
    match find_taken(rows) {
        Some(row) => choice_of(alloc, row, row.opt as usize),
        None => Err(Fault::Store),
    }
}

/// Reads the option that a journey takes next at a step, with its want, after `used` of its steps were refused.
pub fn next_choice<S: Alter>(
    alloc: Global,
    conn: &mut Connection<S>,
    id: u64,
    step: usize,
    used: usize,
) -> Result<Choice, Fault>
    requires id { id < 2 ^ 63 }
    requires step { step < 2 ^ 63 }

    ensures few { IfOk result (λ choice. choice.option ≤ most_options) }
    ensures read { ReadIn S.Store conn.old conn.new Two result (HasStep id step)
        (IsNextChoice id step used) }
{
    match find_options(alloc, conn, id, step as u64) {
        Ok(rows) => choose_next(alloc, rows.as_slice(), used),
        Err(error) => Err(fault_of(&error)),
    }
}

/// Reads the option that the last standing step of a journey took, with its want.
pub fn last_choice<S: Alter>(
    alloc: Global,
    conn: &mut Connection<S>,
    id: u64,
    step: usize,
) -> Result<Choice, Fault>
    requires id { id < 2 ^ 63 }
    requires step { step < 2 ^ 63 }

    ensures few { IfOk result (λ choice. choice.option ≤ most_options) }
    ensures read { ReadIn S.Store conn.old conn.new Two result (TakesLast id step)
        (IsLastChoice id step) }
{
    match find_options(alloc, conn, id, step as u64) {
        Ok(rows) => choose_taken(alloc, rows.as_slice()),
        Err(error) => Err(fault_of(&error)),
    }
}
