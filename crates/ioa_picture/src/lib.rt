//! Pictures of logs and of programs, as texts that other programs draw. What a picture shows is
//! computed from components by definitions, letter by letter.
#![tactic(auto)]

mod charts;
mod graphs;
mod laws;

pub use charts::Chart;
pub use graphs::graph;
pub use laws::{edges_are_actions, labels_need_no_escape, whole_charts_draw_each_entry};
