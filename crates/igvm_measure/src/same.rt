//! Pages that are measured alike.
ghost use Rattle.std.specs.Prelude.{◌≡◌, Decides};
ghost use Rattle.igvm_measure.specs.Runs.{page_view};

use crate::run::MeasuredPage;
use igvm_headers::PageView;
use snp_chain::SnpPage;

/// Two pages are measured alike.
pub(crate) fn is_same(one: &MeasuredPage<'_>, other: &MeasuredPage<'_>) -> bool
    ensures { Decides result (page_view one.now ≡ page_view other.now) }
{
    same_kind(one.kind, other.kind) && one.gpa == other.gpa && same_bytes(&one.bytes, &other.bytes)
}

fn same_kind(one: Option<SnpPage>, other: Option<SnpPage>) -> bool
    ensures { Decides result (one ≡ other) }
{
    match (one, other) {
        (None, None) => true,
        (Some(one), Some(other)) => one == other,
        _ => false,
    }
}

fn same_bytes(one: &Option<PageView<'_>>, other: &Option<PageView<'_>>) -> bool
    ensures { Decides result (one.now ≡ other.now) }
{
    match (one, other) {
        (None, None) => true,
        (Some(one), Some(other)) => same_page(one, other),
        _ => false,
    }
}

/// Two pages have the same bytes. What is lent of as many bytes is compared where it lies.
fn same_page(one: &PageView<'_>, other: &PageView<'_>) -> bool
    ensures { Decides result (one.now ≡ other.now) }
{
    let lent = one.lent();
    let other_lent = other.lent();
    if lent.len() == other_lent.len() {
        return lent == other_lent;
    }
    same_by_bytes(one, other)
}

fn same_by_bytes(one: &PageView<'_>, other: &PageView<'_>) -> bool
    ensures { Decides result (one.now ≡ other.now) }
{
    // Each has 4,096 bytes.
    let _lent = one.lent();
    let _other_lent = other.lent();
    'bytes: for i in 0..4096 {
        if one.byte(i) != other.byte(i) {
            return false;
        }
    }
    true
}
