//! Which header counts for which platform: compatibility masks and the platforms of an image.
#![tactic(auto)]

mod laws;
mod masks;
mod platform;
mod platforms;

pub use laws::platforms_of_more;
pub use masks::applies;
pub use platform::Platform;
pub use platforms::Platforms;
