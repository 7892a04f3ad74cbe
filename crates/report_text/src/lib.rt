//! The text of a report, with the lines and numbers that the program's other texts have too.
#![tactic(auto)]

mod lines;
mod names;
mod report;

pub use lines::{
    print_numbers, print_runs, print_verdict, push_number, push_token, push_value, push_values,
};
pub use names::{channel_name, kind_word, module_name, stall_word, verdict_words};
pub use report::print_report;
