//! Plans, and the board and the room that commit them. A `Plan` keeps what its action does to the
//! states that were copied, a `Board` a legal history and the states to which it leads, a `Room`
//! reports that agree with the history.
#![tactic(auto)]

// The board and its history.
mod board;
mod recorded;
mod verdict;

// Plans.
mod assessed;
mod plan;
mod planned;
mod planning;

// Actions that are performed at once.
mod answer;
mod attempt;
mod wish;

// The room, and the reports of its workers.
mod outcome;
mod report;
mod room;
mod run_err;

pub use answer::Answer;
pub use assessed::Assessed;
pub use board::Board;
pub use outcome::Outcome;
pub use plan::{Plan, assess, plan_by};
pub use planned::Planned;
pub use planning::plan_now;
pub use recorded::Recorded;
pub use report::{Report, Why, have_ended};
pub use room::Room;
pub use run_err::RunErr;
pub use verdict::Verdict;
pub use wish::Wish;
