//! The running digest of a launch on a platform of either kind (SEV-SNP Firmware ABI, SNP_LAUNCH_UPDATE; Intel TDX
//! Module Base Architecture Specification, TDH.MEM.PAGE.ADD and TDH.MR.EXTEND).
ghost use Rattle.std.specs.Prelude.{◌≡◌, ◌%◌, ◌++◌, List, [], length};
ghost use Rattle.snp_chain.specs.Tagged.{contents_by};
ghost use Rattle.launch_platform.specs.Machine.{LaunchRecord, HasDigest, launch_digest};
ghost use Rattle.launch_platform.specs.Commands.{records_of_add, records_of_extend, records_of_context};
ghost use Rattle.launch_platform.specs.Chains.{kind_of, ChainHolds};
ghost use Rattle.launch_platform.specs.Views.{entry_in};

use crate::EntryView;
use igvm_headers::{Digest, PageView, PlatformKind, Tag};
use snp_chain::{SnpChain, SnpPage, contents_of, page_type_of};
use tdx_chain::TdxChain;

/// The chain of a launch.
#[derive(Drop)]
pub(crate) enum Chain {
    Snp(SnpChain),
    Tdx(TdxChain),
}

impl Chain {
    /// The chain of no records.
    pub(crate) fn new(kind: PlatformKind) -> Chain
        requires { HasDigest kind }
        ensures kind { kind_of result ≡ kind }
        ensures empty { ChainHolds result [] }
    {
        match kind {
            PlatformKind::SevSnp => Chain::Snp(SnpChain::new()),
            _ => Chain::Tdx(TdxChain::new()),
        }
    }

    /// The kind of platform that it is of.
    pub(crate) fn kind(&self) -> PlatformKind
        ensures { result ≡ kind_of self.now }
    {
        match self {
            Chain::Snp(_) => PlatformKind::SevSnp,
            Chain::Tdx(_) => PlatformKind::Tdx,
        }
    }

    /// Measures an entry that is added by a tag.
    #[tactic(auto, using(crate::proofs::JoinedRecords::infos_append, crate::proofs::JoinedRecords::streams_append))]
    pub(crate) fn add(&mut self, tag: Tag, entry: EntryView<'_>)
        requires { length entry.page.now ≡ 4096 }
        ensures kind { kind_of self.new ≡ kind_of self.old }
        ensures held { (records : List LaunchRecord) → ChainHolds self.old records
            → ChainHolds self.new
            (records ++ records_of_add (kind_of self.old) tag (entry_in entry.entry)) }
    {
        match self {
            Chain::Snp(chain) => {
                chain.update(page_type_of(tag), entry.gpa, &contents_by(tag, entry.page));
            }
            Chain::Tdx(chain) => chain.page_add(entry.gpa),
        }
    }

    /// Measures the bytes of an entry, where they lie.
    #[tactic(auto, using(crate::proofs::JoinedRecords::padded_whole, crate::proofs::JoinedRecords::streams_append, crate::proofs::JoinedRecords::streams_of))]
    pub(crate) fn extend(&mut self, entry: EntryView<'_>)
        requires kind { kind_of self.old ≡ PlatformKind.Tdx }
        requires whole { length entry.page.now ≡ 4096 }
        requires aligned { entry.gpa % 4096 ≡ 0 }
        ensures kind { kind_of self.new ≡ kind_of self.old }
        ensures held { (records : List LaunchRecord) → ChainHolds self.old records
            → ChainHolds self.new (records ++ records_of_extend (entry_in entry.entry)) }
    {
        let Chain::Tdx(chain) = self else {
            unreachable!()
        };
        chain.extend(entry.gpa, PageView::of_bytes(entry.page));
    }

    /// Measures the save area of a virtual processor.
    #[tactic(auto, using(crate::proofs::JoinedRecords::infos_append, crate::proofs::JoinedRecords::padded_whole))]
    pub(crate) fn add_context(&mut self, gpa: u64, page: &PageView<'_>)
        requires kind { kind_of self.old ≡ PlatformKind.SevSnp }
        ensures kind { kind_of self.new ≡ kind_of self.old }
        ensures held { (records : List LaunchRecord) → ChainHolds self.old records
            → ChainHolds self.new (records ++ records_of_context (kind_of self.old) gpa page.now) }
    {
        let Chain::Snp(chain) = self else {
            unreachable!()
        };
        let contents = contents_of(PageView::of_bytes(page.lent()));
        chain.update(SnpPage::Vmsa, gpa, &contents);
    }

    /// The digest of all records.
    pub(crate) fn finish(self) -> Digest
        ensures { (records : List LaunchRecord) → ChainHolds self records
            → result ≡ launch_digest (kind_of self) records }
    {
        match self {
            Chain::Snp(chain) => chain.digest(),
            Chain::Tdx(chain) => chain.finish(),
        }
    }
}

/// What stands for a page's bytes in its record. They are hashed where they lie, and only where
/// they are measured.
#[tactic(auto, using(crate::proofs::JoinedRecords::padded_whole))]
fn contents_by(tag: Tag, page: &[u8]) -> Digest
    requires { length page.now ≡ 4096 }
    ensures { result ≡ contents_by tag page.now }
{
    match tag {
        Tag::Normal => contents_of(PageView::of_bytes(page)),
        _ => Digest::of_bytes([0; 48]),
    }
}
