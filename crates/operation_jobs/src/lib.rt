//! The jobs that make images of images: strip, join and seal, over any files and outputs: docs/PROGRAM.md.
#![tactic(auto)]

mod joining;
mod laws;
mod sealing;
mod stored_data;
mod stripping;
mod texts;

pub use joining::join_files;
pub use laws::{
    join_answers, joined_image_launches_alike, seal_answers, sealed_image_launches_alike,
    strip_answers, stripped_image_launches_alike,
};
pub use sealing::seal_file;
pub use stripping::strip_file;
