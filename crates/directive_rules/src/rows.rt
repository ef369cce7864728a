//! Why a header doesn't fit after those before it: the rows of each type, in their order.
ghost use Rattle.std.specs.Prelude.{◌≡◌, ◌<◌, ◌+◌, ◌/◌, ◌^◌, length, nat_lt, unwrap_or};
ghost use Rattle.std.specs.Bool.{then_some};
ghost use Rattle.host_set.specs.Hosts.{value_of};
ghost use Rattle.igvm_image.specs.Areas.{areas_of, area_size};
ghost use Rattle.igvm_image.specs.Headers.{headers_of};
ghost use Rattle.directive_rules.specs.MisfitRows.{setting, type_not_here, has_contexts, is_snp, is_outside, pages_why, why_of};
ghost use Rattle.directive_rules.specs.EarlierHeaders.{before_in, shares_in};

use crate::earlier_headers::{EarlierHeaders, MOST_AREA_BYTES, MOST_PAGES};
use crate::misfit::Why;
use host_set::{HostSet, MemoryPlan};
use igvm_headers::{Header, PAGE_SIZE, PageKind, ParamKind, PlatformKind};
use igvm_image::ImageView;

impl EarlierHeaders {
    /// Why a header of an image, which counts for the platform, doesn't fit after these.
    #[tactic(auto, unfolding(crate::specs::MisfitRows::why_of))]
    pub(crate) fn why_of(
        &self,
        view: &ImageView<'_>,
        kind: PlatformKind,
        plan: &MemoryPlan,
        host: &HostSet,
        header: &Header,
    ) -> Option<Why>
        ensures { let areas = areas_of (headers_of view.now) in
            result ≡ why_of (setting kind plan.now host.now areas)
            (before_in areas self.now header.now) header.now }
    {
        match *header {
            Header::Policy { .. } => self.policy.then_some(Why::PolicyRepeated),
            Header::Area { bytes, .. } => {
                (bytes > MOST_AREA_BYTES - self.area_bytes).then_some(Why::AreasTooLarge)
            }
            Header::Param {
                kind: param,
                area,
                byte_offset,
            } => {
                let is_gone = self.gone.contains(&area);
                let is_long = is_too_long(view, host, param, area, byte_offset);
                is_gone
                    .then_some(Why::AreaGone)
                    .or(is_long.then_some(Why::ValueTooLong))
            }
            Header::Page {
                gpa,
                kind: page,
                ..
            } => type_not_here(kind, page)
                .then_some(Why::TypeNotHere)
                .or(self.pages_why(plan, gpa, view.placed_pages(header))),
            Header::Insert { gpa, area, .. } => self
                .gone
                .contains(&area)
                .then_some(Why::AreaGone)
                .or(self.pages_why(plan, gpa, view.placed_pages(header))),
            Header::Context { vp, .. } => (!has_contexts(kind))
                .then_some(Why::ContextNotHere)
                .or(self.vps.contains(&vp).then_some(Why::ContextRepeated)),
            Header::Required { gpa, bytes, .. } => outside_why(plan, gpa, bytes),
            Header::ErrorRange { gpa, bytes, .. } => outside_why(plan, gpa, bytes),
            Header::IdBlock { .. } => (!is_snp(kind))
                .then_some(Why::IdBlockNotHere)
                .or(self.id.is_some().then_some(Why::IdBlockRepeated)),
            _ => None,
        }
    }

    /// Why `count` pages from an address on don't fit.
    fn pages_why(&self, plan: &MemoryPlan, gpa: u64, count: u64) -> Option<Why>
        requires { count < 4503599627370496 }
        ensures { result ≡ pages_why plan.now (shares_in self.now.ranges (gpa / 4096) count)
            self.now.pages gpa count }
    {
        if !plan.covers(gpa, PAGE_SIZE * count) {
            Some(Why::Outside)
        } else if self.shares(gpa / PAGE_SIZE, count) {
            Some(Why::Repeated)
        } else if count > MOST_PAGES - self.pages {
            Some(Why::TooManyPages)
        } else {
            None
        }
    }

    /// One of `count` pages from the number `first` on is taken.
    fn shares(&self, first: u64, count: u64) -> bool
        requires { first + count < 2 ^ 64 }
        ensures { result ≡ shares_in self.now.ranges first count }
    {
        count > 0 && self.ranges.meets(first, first + count)
    }
}

/// Why the bytes from an address on, `bytes` of them, don't fit.
fn outside_why(plan: &MemoryPlan, gpa: u64, bytes: u32) -> Option<Why>
    ensures { result ≡ then_some (is_outside plan.now gpa bytes) Why.Outside }
{
    (!plan.covers(gpa, u64::from(bytes))).then_some(Why::Outside)
}

/// SEV-SNP alone has pages that the host fills; all other kinds have normal pages alone.
fn type_not_here(kind: PlatformKind, page: PageKind) -> bool
    ensures { result ≡ type_not_here kind page }
{
    match (kind, page) {
        (PlatformKind::SevSnp, _) | (_, PageKind::Normal) => false,
        _ => true,
    }
}

/// The state of a virtual processor is part of the launch on SEV-SNP and SEV-ES.
fn has_contexts(kind: PlatformKind) -> bool
    ensures { result ≡ has_contexts kind }
{
    match kind {
        PlatformKind::SevSnp | PlatformKind::SevEs => true,
        _ => false,
    }
}

/// The platform is SEV-SNP, which alone has ID blocks.
fn is_snp(kind: PlatformKind) -> bool
    ensures { result ≡ is_snp kind }
{
    match kind {
        PlatformKind::SevSnp => true,
        _ => false,
    }
}

/// The host's value of a parameter, put at this offset, passes the area's end.
fn is_too_long(
    view: &ImageView<'_>,
    host: &HostSet,
    param: ParamKind,
    area: u32,
    byte_offset: u32,
) -> bool
    ensures { result ≡ nat_lt (unwrap_or (area_size (areas_of (headers_of view.now)) area) 0)
        (byte_offset + length (value_of host.now param)) }
{
    let size = view.area_bytes(area).unwrap_or(0);
    let value = host.value(param);
    u64::from(byte_offset) + value.len() as u64 > size
}
