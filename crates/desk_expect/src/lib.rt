//! Expectations: what a site promises of its policy, written down in a text, and whether a policy keeps it.
//!
//! ```text
//! let expectations = read_expectations(alloc, "everybody may not write /usr/...\n", &netgroups, &hosts)?;
//! test_report(alloc, &index, "promises", expectations.as_slice())?.text
//! // "promises:1: broken: everybody may not write /usr/...\n== /usr\n0.0.0.0-.. granted line 2 rw ..\n1 expectation, 1 broken\n"
//! ```
#![tactic(auto)]

pub mod action;
pub mod audience;
pub mod expectation;
mod faults;
pub mod faulty_lines;
pub mod form;
pub mod host_bits;
pub mod judging;
pub mod laws;
pub mod meaning;
pub mod names;
pub mod outside_directories;
pub mod reading;
pub mod report;
mod report_text;
pub mod rules;
pub mod scope;
pub mod span;
pub mod spans;

pub use action::Action;
pub use audience::Audience;
pub use expectation::Expectation;
pub use faulty_lines::find_faults;
pub use host_bits::host_bits_text;
pub use judging::Judged;
pub use laws::{
    first_of_faults_is_reported, no_broken_is_all_hold, none_broken_is_all_hold, outside_is_denied,
    told_networks_are_meant, unreported_lines_hold,
};
pub use outside_directories::{Outside, find_outside, outside_text};
pub use reading::read_expectations;
pub use report::{Broken, TestReport, find_broken, test_report};
pub use report_text::push_sections;
pub use rules::{PlacedFault, Rule};
pub use scope::Scope;
pub use span::Span;
pub use spans::SpanSet;
