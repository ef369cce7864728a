//! The data of an image, as far as its file holds them: jobs that copy them bound how many there are.
ghost use Rattle.std.specs.Prelude.{◌≡◌, IfErr, IfOk, OnOk, nat_le};
ghost use Rattle.component_list.specs.ImageList.{list_of};
ghost use Rattle.component_list.specs.Lists.{ImageParts, IsList};
ghost use Rattle.igvm_jobs.specs.Outcome.{Outcome};
ghost use Rattle.igvm_jobs.specs.Refusals.{Refuses};
ghost use Rattle.igvm_jobs.specs.declared.refusal.Refusal.TheVariants as refusal;
ghost use Rattle.operation_jobs.specs.StoredData.{data_limit, data_outcome, stored_bytes, stored_size};

use component_list::{ComponentList, components_of};
use igvm_headers::{Header, Memory};
use igvm_image::ImageView;
use igvm_jobs::{LimitOf, Refusal};
use std::alloc::Global;

/// The most bytes of data that are copied.
const DATA_LIMIT: u64 = 1_073_741_824;

/// The list of an image, or why it isn't copied.
pub(crate) fn list_within(alloc: Global, view: &ImageView<'_>) -> Result<ComponentList, Refusal>
    ensures list { IfOk result (λ list. list ≡ list_of view.now) }
    ensures valid { OnOk result (IsList (list_of view.now)) }
    ensures outcome { (next : ImageParts → Outcome)
        → IfOk result (λ list. data_outcome next view.now ≡ next list) }
    ensures refused { (next : ImageParts → Outcome)
        → IfErr result (Refuses (data_outcome next view.now)) }
{
    if !is_within(view) {
        return Err(Refusal::Limit(LimitOf::Data));
    }
    copied_list(alloc, view)
}

/// The list of an image.
pub(crate) fn copied_list(alloc: Global, view: &ImageView<'_>) -> Result<ComponentList, Refusal>
    ensures list { IfOk result (λ list. list ≡ list_of view.now) }
    ensures valid { OnOk result (IsList (list_of view.now)) }
    ensures refused { IfErr result (λ given. given ≡ refusal.Memory) }
{
    match components_of(alloc, view) {
        Ok(list) => Ok(list),
        Err(Memory) => Err(Refusal::Memory),
    }
}

/// An image's headers have no more bytes of data in its file than are copied, each counted by itself.
pub(crate) fn is_within(view: &ImageView<'_>) -> bool
    ensures { result ≡ nat_le (stored_bytes view.now) data_limit }
{
    let mut left = DATA_LIMIT;
    'headers: for placed in view.headers() {
        let size = stored_size(&placed.header);
        if size > left {
            return false;
        }
        left -= size;
    }
    true
}

/// The bytes that a header has in the file.
fn stored_size(header: &Header) -> u64
    ensures { result ≡ stored_size header.now }
{
    if header.data_offset() == 0 {
        return 0;
    }
    header.data_size().unwrap_or(0)
}
