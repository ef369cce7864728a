//! How a page that a launch tags enters the chain.
ghost use Rattle.std.specs.Prelude.{◌≡◌};
ghost use Rattle.snp_chain.specs.Tagged.{page_type_of};

use crate::SnpPage;
use igvm_headers::Tag;

/// The page type that a tag stands for.
pub fn page_type_of(tag: Tag) -> SnpPage
    ensures { result ≡ page_type_of tag }
{
    match tag {
        Tag::Normal => SnpPage::Normal,
        Tag::Zero => SnpPage::Zero,
        Tag::Unmeasured => SnpPage::Unmeasured,
        Tag::Secrets => SnpPage::Secrets,
        Tag::Cpuid => SnpPage::Cpuid,
    }
}
