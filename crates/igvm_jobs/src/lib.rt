//! The jobs of the program, one by one, over any files, outputs and launch machine: docs/PROGRAM.md.
#![tactic(auto)]

mod building;
mod file_reading;
mod host_file;
mod image_file;
mod launch_texts;
mod launching;
mod laws;
mod list_file;
mod loading;
mod making;
mod measuring;
mod printing;
mod refusal;
mod running;
mod status;
#[cfg(test)]
mod tests;
mod texts;
mod writing;

pub use file_reading::read_file;
pub use host_file::{described, read_description};
pub use image_file::{judge, read_image};
pub use launch_texts::push_loaded;
pub use launching::put_misfit;
pub use laws::{
    build_answers, load_agrees_with_measure, load_answers, load_is_told, make_answers,
    measure_answers, print_answers, told_files_decide,
};
pub use list_file::read_parts;
pub use measuring::wanted_platform;
pub use refusal::{Ended, LimitOf, Refusal, finish, line_refusal, put_end, put_text};
pub use running::run_job;
pub use status::Status;
pub use texts::{built_text, field_text, no_digest_text, no_platform_text, not_json_text};
pub use writing::{write_image, write_whole};
