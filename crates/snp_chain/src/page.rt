//! Page types (SEV-SNP Firmware ABI, SNP_LAUNCH_UPDATE, PAGE_TYPE).
ghost use Rattle.std.specs.Prelude.{◌≡◌};
ghost use Rattle.snp_chain.specs.Chain.{page_type};

/// What a page is to the firmware.
#[derive(Clone, Copy, Debug, PartialEq, Eq)]
pub enum SnpPage {
    Normal,
    /// The state of a virtual processor.
    Vmsa,
    Zero,
    Unmeasured,
    Secrets,
    Cpuid,
}

/// The page type's number.
pub(crate) fn number_of(page: SnpPage) -> u8
    ensures { result ≡ page_type page }
{
    match page {
        SnpPage::Normal => 1,
        SnpPage::Vmsa => 2,
        SnpPage::Zero => 3,
        SnpPage::Unmeasured => 4,
        SnpPage::Secrets => 5,
        SnpPage::Cpuid => 6,
    }
}
