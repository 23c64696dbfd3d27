// Values from outside: plans in JSON as the format has them, and the fault that each wrong one gets.
use crate::tests::lines::{is_told, reads, repeated};
use plan::{Plan, PlanCause, PlanFault};
use serde_json::{Error, Value};
use std::alloc::{AllocError, Global};
use std::process::Abort;
use std::test::Fail;

/// The name before each member of an option.
const NAMES: [&str; 6] = [
    r#"{"count":"#,
    r#","first":"#,
    r#","kind":"#,
    r#","nights":"#,
    r#","product":"#,
    r#","supplier":"#,
];

/// An option of these members, each as it stands in JSON, with a comma and a blank between each two.
fn option(alloc: Global, members: &str) -> Result<String, AllocError> {
    let mut text = String::new(alloc);
    let mut rest = members;
    for name in &NAMES {
        let (member, behind) = rest.split_once(", ").unwrap_or((rest, ""));
        text.push_str(name)?;
        text.push_str(member)?;
        rest = behind;
    }
    text.push('}')?;
    Ok(text)
}

/// A plan of one step, of these options.
fn one_step(alloc: Global, options: &str) -> Result<String, AllocError> {
    format!(in alloc; "{{\"steps\":[{{\"options\":[{options}],\"save\":false}}],\"tries\":0}}")
}

/// A plan of one step, of an option of these members.
fn one_option(alloc: Global, members: &str) -> Result<String, AllocError> {
    let option = option(alloc, members)?;
    one_step(alloc, &option)
}

/// The line of the plan that this text spells.
fn line_of(alloc: Global, text: &str) -> Result<String, Fail> {
    let value = Value::from_str(alloc, text)?;
    let plan = Plan::from_json(alloc, &value)?;
    Ok(plan.line(alloc)?)
}

/// The fault that this text gets, if any.
fn told(alloc: Global, text: &str) -> Result<Option<PlanFault>, Error> {
    let value = Value::from_str(alloc, text)?;
    Ok(Plan::from_json(alloc, &value).err())
}

// a value, and the line of its plan
#[rattlefmt::skip]
const VALUES: [(&str, &str, &str); 3] = [
    ("one step",
     "{\"steps\":[{\"options\":[{\"count\":1,\"first\":\"2030-06-01\",\"kind\":\"flight\",\
      \"nights\":1,\"product\":\"A1\",\"supplier\":\"AL\"}],\"save\":false}],\"tries\":0}",
     "F/AL/A1/2030-06-01/1/1!0"),
    ("members in any order, of which the last of a name counts, blanks, an escape",
     " { \"tries\" : 10 , \"steps\" : [ { \"save\" : false , \"options\" : [ { \"supplier\" : \"AL\" , \
      \"product\" : \"A1\" , \"nights\" : 1 , \"kind\" : \"fl\\u0069ght\" , \"first\" : \"2030-06-01\" , \
      \"count\" : 0 , \"count\" : 50 } ] } ] , \"tries\" : 9 } ",
     "F/AL/A1/2030-06-01/1/50!9"),
    ("a mark and two options",
     "{\"steps\":[{\"options\":[{\"count\":1,\"first\":\"2030-06-01\",\"kind\":\"flight\",\
      \"nights\":1,\"product\":\"A1\",\"supplier\":\"AL\"}],\"save\":true},\
      {\"options\":[{\"count\":1,\"first\":\"2030-06-01\",\"kind\":\"room\",\
      \"nights\":1,\"product\":\"A\",\"supplier\":\"INN\"},{\"count\":2,\"first\":\"2030-06-01\",\
      \"kind\":\"room\",\"nights\":1,\"product\":\"B\",\"supplier\":\"INN\"}],\"save\":false}],\"tries\":2}",
     "F/AL/A1/2030-06-01/1/1*;R/INN/A/2030-06-01/1/1|R/INN/B/2030-06-01/1/2!2"),
];

#[test]
fn a_value_is_read_as_the_plan_of_a_line(rt: HostRuntime) -> Result<(), Fail> {
    for &(case, text, line) in &VALUES {
        let read = line_of(rt.alloc(), text)?;
        reads(&rt, case, &read, line);
    }
    Ok(())
}

// the members of an option in their order, and the line of a plan that has no other option
#[rattlefmt::skip]
const OPTIONS: [(&str, &str, &str); 9] = [
    ("the most places",            r#"50, "2030-06-01", "flight", 1, "A1", "AL""#,     "F/AL/A1/2030-06-01/1/50!0"),
    ("a transfer",                 r#"9, "2030-06-01", "transfer", 1, "X", "BUS""#,    "T/BUS/X/2030-06-01/1/9!0"),
    ("the most of a room",         r#"1, "2030-06-01", "room", 30, "DBL", "INN""#,     "R/INN/DBL/2030-06-01/30/1!0"),
    ("the most of cover",          r#"1, "2030-06-01", "cover", 60, "P", "CO""#,       "C/CO/P/2030-06-01/60/1!0"),
    ("a code of eight",            r#"1, "2030-06-01", "flight", 1, "1234WXYZ", "A""#, "F/A/1234WXYZ/2030-06-01/1/1!0"),
    ("the first night",            r#"1, "2000-01-01", "room", 1, "DBL", "INN""#,      "R/INN/DBL/2000-01-01/1/1!0"),
    ("the last night",             r#"1, "2099-12-31", "room", 1, "DBL", "INN""#,      "R/INN/DBL/2099-12-31/1/1!0"),
    ("up to the last night",       r#"1, "2099-12-30", "room", 2, "DBL", "INN""#,      "R/INN/DBL/2099-12-30/2/1!0"),
    ("a day in a leap year",       r#"1, "2028-02-29", "cover", 1, "P", "CO""#,        "C/CO/P/2028-02-29/1/1!0"),
];

#[test]
fn an_option_is_read_as_that_of_a_line(rt: HostRuntime) -> Result<(), Fail> {
    for &(case, members, line) in &OPTIONS {
        let text = one_option(rt.alloc(), members)?;
        let read = line_of(rt.alloc(), &text)?;
        reads(&rt, case, &read, line);
    }
    Ok(())
}

// a wrong option, and its fault
#[rattlefmt::skip]
const WRONG: [(&str, &str, PlanCause); 38] = [
    ("a kind's letter",            r#"1, "2030-06-01", "F", 1, "A1", "AL""#,                       PlanCause::Kind),
    ("a kind in capitals",         r#"1, "2030-06-01", "Flight", 1, "A1", "AL""#,                  PlanCause::Kind),
    ("an empty kind",              r#"1, "2030-06-01", "", 1, "A1", "AL""#,                        PlanCause::Kind),
    ("a kind's number",            r#"1, "2030-06-01", 0, 1, "A1", "AL""#,                         PlanCause::Kind),
    ("a null for a kind",          r#"1, "2030-06-01", null, 1, "A1", "AL""#,                      PlanCause::Kind),
    ("a small supplier",           r#"1, "2030-06-01", "flight", 1, "A1", "al""#,                  PlanCause::Code),
    ("an empty supplier",          r#"1, "2030-06-01", "flight", 1, "A1", """#,                    PlanCause::Code),
    ("nine bytes of a supplier",   r#"1, "2030-06-01", "flight", 1, "A1", "ABCDEFGHI""#,           PlanCause::Code),
    ("a number for a supplier",    r#"1, "2030-06-01", "flight", 1, "A1", 7"#,                     PlanCause::Code),
    ("a small product",            r#"1, "2030-06-01", "flight", 1, "a1", "AL""#,                  PlanCause::Code),
    ("a list for a product",       r#"1, "2030-06-01", "flight", 1, ["A1"], "AL""#,                PlanCause::Code),
    ("no such day",                r#"1, "2030-02-29", "cover", 1, "A1", "AL""#,                   PlanCause::Night),
    ("a day before 2000",          r#"1, "1999-12-31", "cover", 1, "A1", "AL""#,                   PlanCause::Night),
    ("a day past 2099",            r#"1, "2100-01-01", "cover", 1, "A1", "AL""#,                   PlanCause::Night),
    ("another spelling of a day",  r#"1, "20300601", "cover", 1, "A1", "AL""#,                     PlanCause::Night),
    ("a number for a day",         r#"1, 20300601, "cover", 1, "A1", "AL""#,                       PlanCause::Night),
    ("two nights of a flight",     r#"1, "2030-06-01", "flight", 2, "A1", "AL""#,                  PlanCause::Nights),
    ("two nights of a transfer",   r#"1, "2030-06-01", "transfer", 2, "A1", "AL""#,                PlanCause::Nights),
    ("31 nights of a room",        r#"1, "2030-06-01", "room", 31, "A1", "AL""#,                   PlanCause::Nights),
    ("61 nights of cover",         r#"1, "2030-06-01", "cover", 61, "A1", "AL""#,                  PlanCause::Nights),
    ("past the last night",        r#"1, "2099-12-31", "room", 2, "A1", "AL""#,                    PlanCause::Nights),
    ("no nights",                  r#"1, "2030-06-01", "room", 0, "A1", "AL""#,                    PlanCause::Nights),
    ("nights below 0",             r#"1, "2030-06-01", "room", -1, "A1", "AL""#,                   PlanCause::Nights),
    ("257 nights are not one",     r#"1, "2030-06-01", "room", 257, "A1", "AL""#,                  PlanCause::Nights),
    ("2^64 and one are not one",   r#"1, "2030-06-01", "room", 18446744073709551617, "A1", "AL""#, PlanCause::Nights),
    ("nights with a point",        r#"1, "2030-06-01", "flight", 1.0, "A1", "AL""#,                PlanCause::Nights),
    ("nights with an exponent",    r#"1, "2030-06-01", "flight", 1e0, "A1", "AL""#,                PlanCause::Nights),
    ("a text for nights",          r#"1, "2030-06-01", "flight", "1", "A1", "AL""#,                PlanCause::Nights),
    ("a truth for nights",         r#"1, "2030-06-01", "flight", true, "A1", "AL""#,               PlanCause::Nights),
    ("51 places",                  r#"51, "2030-06-01", "flight", 1, "A1", "AL""#,                 PlanCause::Count),
    ("no place",                   r#"0, "2030-06-01", "flight", 1, "A1", "AL""#,                  PlanCause::Count),
    ("minus no place",             r#"-0, "2030-06-01", "flight", 1, "A1", "AL""#,                 PlanCause::Count),
    ("a count below 0",            r#"-1, "2030-06-01", "flight", 1, "A1", "AL""#,                 PlanCause::Count),
    ("257 places are not one",     r#"257, "2030-06-01", "flight", 1, "A1", "AL""#,                PlanCause::Count),
    ("a count with a point",       r#"1.0, "2030-06-01", "flight", 1, "A1", "AL""#,                PlanCause::Count),
    ("half a place more",          r#"1.5, "2030-06-01", "flight", 1, "A1", "AL""#,                PlanCause::Count),
    ("a text for a count",         r#""1", "2030-06-01", "flight", 1, "A1", "AL""#,                PlanCause::Count),
    ("a null for a count",         r#"null, "2030-06-01", "flight", 1, "A1", "AL""#,               PlanCause::Count),
];

// an option with two faults, of which the first is reported
#[rattlefmt::skip]
const FIRST: [(&str, &str, PlanCause); 5] = [
    ("a kind, a supplier",         r#"1, "2030-06-01", "F", 1, "A1", "al""#,       PlanCause::Kind),
    ("a supplier, a night",        r#"1, "2030-06-31", "flight", 1, "A1", "al""#,  PlanCause::Code),
    ("a product, a night",         r#"1, "2030-06-31", "flight", 1, "a1", "AL""#,  PlanCause::Code),
    ("a night, nights",            r#"1, "2030-06-31", "flight", 2, "A1", "AL""#,  PlanCause::Night),
    ("nights, a count",            r#"51, "2030-06-01", "flight", 2, "A1", "AL""#, PlanCause::Nights),
];

/// Each option gets the cause beside it.
fn each_is_told(
    rt: &impl Abort,
    alloc: Global,
    options: &[(&str, &str, PlanCause)],
) -> Result<(), Fail> {
    for &(case, members, cause) in options {
        let text = one_option(alloc, members)?;
        is_told(rt, case, told(alloc, &text)?, Some((1, cause)));
    }
    Ok(())
}

#[test]
fn a_wrong_option_is_told_its_fault(rt: HostRuntime) -> Result<(), Fail> {
    each_is_told(&rt, rt.alloc(), &WRONG)
}

#[test]
fn the_first_fault_of_an_option_is_told(rt: HostRuntime) -> Result<(), Fail> {
    each_is_told(&rt, rt.alloc(), &FIRST)
}

// a wrong plan, the step and the fault that are reported
#[rattlefmt::skip]
const PLANS: [(&str, &str, usize, PlanCause); 40] = [
    ("a null",                      "null", 0, PlanCause::Shape),
    ("a line",                      "\"F/AL/A1/2030-06-01/1/1!0\"", 0, PlanCause::Shape),
    ("a list",                      "[]", 0, PlanCause::Shape),
    ("no member",                   "{}", 0, PlanCause::Shape),
    ("no tries",                    "{\"steps\":[]}", 0, PlanCause::Shape),
    ("no steps",                    "{\"tries\":0}", 0, PlanCause::Shape),
    ("a third member",              "{\"agent\":\"ann\",\"steps\":[],\"tries\":0}", 0, PlanCause::Shape),
    ("another name",                "{\"Steps\":[],\"tries\":0}", 0, PlanCause::Shape),
    ("steps that are no list",      "{\"steps\":{},\"tries\":0}", 0, PlanCause::Shape),
    ("no list of steps, tries",     "{\"steps\":{},\"tries\":10}", 0, PlanCause::Shape),
    ("ten tries of no step",        "{\"steps\":[],\"tries\":10}", 0, PlanCause::Tries),
    ("256 tries are not none",      "{\"steps\":[null],\"tries\":256}", 0, PlanCause::Tries),
    ("tries below 0",               "{\"steps\":[],\"tries\":-1}", 0, PlanCause::Tries),
    ("minus no tries",              "{\"steps\":[],\"tries\":-0}", 0, PlanCause::Tries),
    ("tries with a point",          "{\"steps\":[],\"tries\":0.0}", 0, PlanCause::Tries),
    ("a text for tries",            "{\"steps\":[],\"tries\":\"0\"}", 0, PlanCause::Tries),
    ("a null for tries",            "{\"steps\":[],\"tries\":null}", 0, PlanCause::Tries),
    ("no step",                     "{\"steps\":[],\"tries\":0}", 0, PlanCause::Steps),
    ("a step that is null",         "{\"steps\":[null],\"tries\":0}", 1, PlanCause::Shape),
    ("a step that is a list",       "{\"steps\":[[]],\"tries\":0}", 1, PlanCause::Shape),
    ("a step without members",      "{\"steps\":[{}],\"tries\":0}", 1, PlanCause::Shape),
    ("a step without save",         "{\"steps\":[{\"options\":[]}],\"tries\":0}", 1, PlanCause::Shape),
    ("a step without options",      "{\"steps\":[{\"save\":true}],\"tries\":0}", 1, PlanCause::Shape),
    ("a third member of a step",
     "{\"steps\":[{\"n\":1,\"options\":[],\"save\":true}],\"tries\":0}", 1, PlanCause::Shape),
    ("options that are no list",    "{\"steps\":[{\"options\":{},\"save\":true}],\"tries\":0}", 1, PlanCause::Shape),
    ("a number for save",           "{\"steps\":[{\"options\":[],\"save\":1}],\"tries\":0}", 1, PlanCause::Shape),
    ("a text for save",
     "{\"steps\":[{\"options\":[],\"save\":\"true\"}],\"tries\":0}", 1, PlanCause::Shape),
    ("a null for save",             "{\"steps\":[{\"options\":[],\"save\":null}],\"tries\":0}", 1, PlanCause::Shape),
    ("a mark before no option",     "{\"steps\":[{\"options\":[],\"save\":true}],\"tries\":0}", 1, PlanCause::Save),
    ("a mark before a shape",       "{\"steps\":[{\"options\":[{}],\"save\":true}],\"tries\":0}", 1, PlanCause::Save),
    ("no option",                   "{\"steps\":[{\"options\":[],\"save\":false}],\"tries\":0}", 1, PlanCause::Options),
    ("no option before a step",
     "{\"steps\":[{\"options\":[],\"save\":true},1],\"tries\":0}", 1, PlanCause::Options),
    ("an option that is null",
     "{\"steps\":[{\"options\":[null],\"save\":false}],\"tries\":0}", 1, PlanCause::Shape),
    ("an option that is a list",    "{\"steps\":[{\"options\":[[]],\"save\":false}],\"tries\":0}", 1, PlanCause::Shape),
    ("an option that is a text",
     "{\"steps\":[{\"options\":[\"\"],\"save\":true},1],\"tries\":0}", 1, PlanCause::Shape),
    ("an option without members",
     "{\"steps\":[{\"options\":[{}],\"save\":true},1],\"tries\":0}", 1, PlanCause::Shape),
    ("five members of an option",
     "{\"steps\":[{\"options\":[{\"count\":1,\"first\":1,\"kind\":1,\"nights\":1,\"product\":1}],\
      \"save\":false}],\"tries\":0}", 1, PlanCause::Shape),
    ("seven members of an option",
     "{\"steps\":[{\"options\":[{\"count\":1,\"first\":1,\"kind\":1,\"nights\":1,\"price\":1,\"product\":1,\
      \"supplier\":1}],\"save\":false}],\"tries\":0}", 1, PlanCause::Shape),
    ("another name in an option",
     "{\"steps\":[{\"options\":[{\"count\":1,\"first\":1,\"kind\":1,\"nights\":1,\"product\":1,\"seller\":1}],\
      \"save\":false}],\"tries\":0}", 1, PlanCause::Shape),
    ("six members of other types",
     "{\"steps\":[{\"options\":[{\"count\":\"\",\"first\":1,\"kind\":1,\"nights\":\"\",\"product\":1,\"supplier\":1}],\
      \"save\":false}],\"tries\":0}", 1, PlanCause::Kind),
];

#[test]
fn a_wrong_value_is_told_its_first_fault(rt: HostRuntime) -> Result<(), Fail> {
    for &(case, text, step, cause) in &PLANS {
        is_told(&rt, case, told(rt.alloc(), text)?, Some((step, cause)));
    }
    Ok(())
}

// how many marked steps, the step after them, and the fault
#[rattlefmt::skip]
const STEPS: [(&str, u8, bool, Option<(usize, PlanCause)>); 5] = [
    ("thirteen steps",              12, false, None),
    ("24 steps",                    23, false, None),
    ("24 steps, the last marked",   23, true, Some((24, PlanCause::Save))),
    ("25 steps",                    24, false, Some((0, PlanCause::Steps))),
    ("25 steps, the last marked",   24, true, Some((0, PlanCause::Steps))),
];

// how many options, the places of each, and the fault
#[rattlefmt::skip]
const MANY: [(&str, u8, &str, Option<(usize, PlanCause)>); 4] = [
    ("five options",              5, "1", None),
    ("eight options",             8, "1", None),
    ("nine options",              9, "1", Some((1, PlanCause::Options))),
    ("nine options of no place",  9, "0", Some((1, PlanCause::Options))),
];

/// A step of one flight, which is marked.
const MARKED: &str = "{\"options\":[{\"count\":1,\"first\":\"2030-06-01\",\"kind\":\"flight\",\
    \"nights\":1,\"product\":\"A1\",\"supplier\":\"AL\"}],\"save\":true}";

/// A plan of so many marked steps, and of a last one.
fn marked_steps(alloc: Global, marked: u8, save: bool) -> Result<String, AllocError> {
    let front = repeated(alloc, MARKED, marked, ",", ",")?;
    let flight = option(alloc, "1, \"2030-06-01\", \"flight\", 1, \"A1\", \"AL\"")?;
    format!(in alloc;
        "{{\"steps\":[{front}{{\"options\":[{flight}],\"save\":{save}}}],\"tries\":9}}"
    )
}

#[test]
fn a_value_has_so_many_steps(rt: HostRuntime) -> Result<(), Fail> {
    for &(case, marked, save, expected) in &STEPS {
        let text = marked_steps(rt.alloc(), marked, save)?;
        is_told(&rt, case, told(rt.alloc(), &text)?, expected);
    }
    Ok(())
}

/// A plan of one step, of so many flights with this number of places.
fn many_options(alloc: Global, count: u8, places: &str) -> Result<String, AllocError> {
    let members = format!(in alloc; "{places}, \"2030-06-01\", \"flight\", 1, \"A1\", \"AL\"")?;
    let flight = option(alloc, &members)?;
    let options = repeated(alloc, &flight, count, ",", "")?;
    one_step(alloc, &options)
}

#[test]
fn a_step_has_so_many_options(rt: HostRuntime) -> Result<(), Fail> {
    for &(case, count, places, expected) in &MANY {
        let text = many_options(rt.alloc(), count, places)?;
        is_told(&rt, case, told(rt.alloc(), &text)?, expected);
    }
    Ok(())
}
