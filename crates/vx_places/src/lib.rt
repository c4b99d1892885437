//! The machine over an image: what code, tables and objects by places mean, and when an image is that of a program.
#![tactic(auto)]

mod laws;

pub use laws::{images_mean_the_programs, images_report_as_code, widened_images_run_alike};
