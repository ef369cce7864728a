//! What a load takes from.

use host_set::HostSet;
use igvm_headers::Options;
use igvm_image::ImageView;
use platform_masks::Platform;

/// An image, one of its platforms, the options of the launch, and the values of a host.
#[derive(Drop)]
pub(crate) struct LoadSource<'a> {
    pub view: &'a ImageView<'a>,
    pub platform: Platform,
    pub options: Options,
    pub host: &'a HostSet,
}
