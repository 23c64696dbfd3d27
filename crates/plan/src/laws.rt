//! Laws of plans and their texts. A call does nothing at run time.
ghost use Rattle.std.specs.Prelude.{◌≡◌, ℕ, List, Ok};
ghost use Rattle.plan.specs.Examples.{flight_and_room, flight_and_room_text};
ghost use Rattle.plan.specs.PlanData.{IsReadBack, plan_data};
ghost use Rattle.plan.specs.PlanJson.{JsonReadsAs};
ghost use Rattle.plan.specs.PlanLine.{HasOneSpelling, ReadsAs};

/// A plan has one line: a text is read as a plan exactly if it is the line of that plan.
pub fn one_spelling()
    ensures one_spelling { HasOneSpelling }
{}

/// The JSON value of a plan is read back as that plan.
pub fn json_is_read_back()
    ensures json_is_read_back { IsReadBack }
{}

/// The laws of plans, applied to a plan of two steps: its line is read as the plan, and no other text is; its JSON
/// value is read back.
///
/// The proof applies the laws to that plan. A law with one more premise, which the plan does not meet, is refused here.
pub fn texts_of_a_plan()
    ensures line { ReadsAs flight_and_room_text (Ok flight_and_room) }
    ensures alone { (text : List ℕ) → ReadsAs text (Ok flight_and_room)
        → text ≡ flight_and_room_text }
    ensures json { JsonReadsAs (plan_data flight_and_room) (Ok flight_and_room) }
{
    one_spelling();
    json_is_read_back();
}
