//! Which entry a component came from.
ghost use Rattle.std.specs.Prelude.{◌≡◌, ◌≤◌, ◌<◌, length, nat_lt, position, IfSome};
ghost use Rattle.component_list.specs.Expansion.{of_directive, origin};

use crate::refusal::ListPart;
use crate::source::ListSource;

/// The entry that a component came from.
#[derive(Clone, Copy)]
pub(crate) struct Entry {
    pub(crate) part: ListPart,
    pub(crate) item: u32,
}

/// The entry that the component at a place came from.
#[tactic(auto, unfolding(crate::specs::Expansion::origin))]
pub(crate) fn origin(source: &ListSource, ends: &[u32], place: u32) -> Entry
    requires { length ends.now ≤ 16777216 }
    ensures { (result.part, result.item) ≡ origin source.now ends.now place }
{
    let platforms = source.platforms().len() as u32;
    if place < platforms {
        let part = ListPart::Platforms;
        return Entry { part, item: place };
    }
    let headers = platforms + source.policies().len() as u32;
    if place < headers {
        let part = ListPart::Policies;
        let item = place - platforms;
        return Entry { part, item };
    }
    of_directive(first_past(ends, place))
}

/// The entry of a directive; the lack of a platform is that of the first.
fn of_directive(found: Option<usize>) -> Entry
    requires { IfSome found (λ item. item < 16777216) }
    ensures { (result.part, result.item) ≡ of_directive found }
{
    match found {
        None => Entry {
            part: ListPart::Platforms,
            item: 0,
        },
        Some(item) => Entry {
            part: ListPart::Directives,
            item: item as u32,
        },
    }
}

/// The first of the ends that is past a place.
fn first_past(ends: &[u32], place: u32) -> Option<usize>
    ensures first { result ≡ position (λ end. nat_lt place end) ends.now }
    ensures within { IfSome result (λ item. item < length ends.now) }
{
    ends.iter().position(|end| place < *end)
}
