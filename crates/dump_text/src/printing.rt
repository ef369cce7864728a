//! The listing of an image: docs/PROGRAM.md, "The listing".
ghost use Rattle.std.specs.Prelude.{◌≡◌, ℕ, ◌≤◌, length, take, OnOk, OnErr};
ghost use Rattle.igvm_headers.specs.FaultCounts.{HasCause};
ghost use Rattle.igvm_outside.specs.Outputs.{gained};
ghost use Rattle.dump_text.specs.Listing.{print_text};

use crate::lines::{platforms_in, push_first_line, push_line};
use igvm_headers::Failed;
use igvm_image::ImageView;
use igvm_outside::Sink;
use line_buffer::LineBuffer;
use platform_masks::platforms_of_more;

/// Puts the listing of an image, many lines a put. It takes no memory.
pub fn print_image<O: Sink>(view: &ImageView<'_>, out: &mut O) -> Result<(), Failed>
    ensures printed { OnOk result
        (O.bytes out.new ≡ gained (O.bytes out.old) (print_text view.now)) }
    ensures front { OnErr result ((n : ℕ) × (n ≤ length (print_text view.now))
        × (O.bytes out.new ≡ gained (O.bytes out.old) (take n (print_text view.now)))) }
    ensures cause { HasCause (O.faults out.old) (O.faults out.new) result }
    ensures counted { O.faults out.old ≤ O.faults out.new }
{
    platforms_of_more();
    let mut text = LineBuffer::new();
    push_first_line(&mut text, view);
    let mut number = 0;
    'headers: for placed in view.headers() {
        text.make_room(out)?;
        push_line(&mut text, number, &placed);
        number += platforms_in(&placed.header);
    }
    text.put(out)
}
