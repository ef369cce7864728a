//! Bytes written into the buffer.
ghost use Rattle.std.specs.Prelude.{◌≡◌, ◌≤◌, ◌+◌, ◌*◌, length};
ghost use Rattle.param_areas.specs.AreaBytes.{written};
ghost use Rattle.param_areas.specs.AreaHistory.{content_bytes};

use igvm_image::DataView;

/// A value in place of the bytes from a place on.
#[tactic(auto, unfolding(crate::specs::AreaBytes::written))]
pub(crate) fn write_value(bytes: &mut [u8], place: usize, value: &[u8])
    requires { place + length value.now ≤ length bytes.old }
    ensures { bytes.new ≡ written place value.now bytes.old }
{
    bytes[place..place + value.len()].copy_from_slice(value);
}

/// The pages of the content, from a place on.
pub(crate) fn write_pages(bytes: &mut [u8], place: usize, content: &DataView)
    requires { place + 4096 * content.now.pages ≤ length bytes.old }
    ensures { bytes.new ≡ written place (content_bytes content.now) bytes.old }
{
    let size = 4096 * content.pages() as usize;
    fill_pages(&mut bytes[place..place + size], content);
}

/// The pages of the content, one behind the other.
pub(crate) fn fill_pages(out: &mut [u8], content: &DataView)
    requires { length out.old ≡ 4096 * content.now.pages }
    ensures { out.new ≡ content_bytes content.now }
{
    'pages: for k in 0..content.pages() {
        let place = 4096 * k as usize;
        content.page(k).fill(&mut out[place..place + 4096]);
    }
}
