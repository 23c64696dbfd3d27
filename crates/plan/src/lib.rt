//! Plans of journeys, and their texts; where a journey turns, and which option its next step takes.
//!
//! A *plan* is 1 to 24 steps and a number of *tries*. A *step* has 1 to 8 *options*, each a want, in order of
//! preference; a save-point is taken after a *marked* step. The last step is never marked.
//!
//! Every plan keeps these limits. A plan has one *line*: a text is read as a plan exactly if it is the line of that
//! plan. Any other text is refused with the first thing that is wrong with it, in one order. A JSON value is read
//! likewise.
//!
//! `option_at`, `last_save`, `is_save_point` and `target` say what the rules of journeys say, from the plan, the save-points
//! that were taken (`Marks`), the position and how often a step was refused. None of them allocates, and none can fail under
//! its preconditions.
//!
//! Words: a *position* is how many steps stand; a *save-point* stands at a marked position that was reached, or where
//! one was taken while the journey ran; a *turn* sends a journey back to its *target*.
#![tactic(auto)]

mod causes;
mod choices;
mod faults;
mod json;
mod laws;
mod limits;
mod lines;
mod marks;
mod members;
mod options;
mod parts;
mod plans;
mod printing;
mod save_points;
mod steps;
mod turns;

pub use causes::PlanCause;
pub use choices::option_at;
pub use faults::{BadPlan, PlanFault};
pub use laws::{json_is_read_back, one_spelling, texts_of_a_plan};
pub use limits::{MOST_OPTIONS, MOST_STEPS, MOST_TRIES};
pub use marks::{LAST_MARK, Marks};
pub use plans::Plan;
pub use save_points::{is_save_point, last_save};
pub use steps::PlanStep;
pub use turns::{NoSavePoint, Turn, target};
