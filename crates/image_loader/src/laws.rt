//! What holds of every load, beyond what one call answers: each law is a function that does nothing.
ghost use Rattle.std.specs.Prelude.{◌≡◌, ◌≤◌, List, [], None, Some, length, map, sum_by, count_by};
ghost use Rattle.std.specs.List.{filter_map};
ghost use Rattle.host_set.specs.declared.range.PlanRange.{PlanRange};
ghost use Rattle.igvm_headers.specs.declared.platform_kind.PlatformKind.TheVariants.{Tdx};
ghost use Rattle.igvm_image.specs.Areas.{placed_pages};
ghost use Rattle.directive_rules.specs.DirectiveFacts.{is_context};
ghost use Rattle.directive_rules.specs.FirstMisfit.{first_misfit, headers_in};
ghost use Rattle.directive_rules.specs.LoadCounts.{wanted_of};
ghost use Rattle.igvm_measure.specs.Digests.{digest_of};
ghost use Rattle.launch_platform.specs.Machine.{State, HasDigest, launch_digest, started};
ghost use Rattle.image_loader.specs.Loads.{Load, areas_in, directives};
ghost use Rattle.image_loader.specs.PlacedPages.{entry_of, placed, contexts};
ghost use Rattle.image_loader.specs.LoadCommands.{commands, grown, records_by, state_after};
ghost use Rattle.image_loader.specs.Loading.{HoldsImage};

/// The digest of what the commands measure, each page from its own place in the machine, is the one that is
/// computed from the file alone, where the image fits the host under some memory plan.
pub fn commands_agree()
    ensures { (load : Load) (plan : List PlanRange) → HasDigest load.platform.kind
        → first_misfit load.file load.platform plan load.host ≡ None
        → Some (launch_digest load.platform.kind
        (records_by (commands load) (started load.platform.kind)))
        ≡ digest_of load.file load.platform load.options }
{
    launch_platform::records_join();
}

/// The commands place exactly the image's pages and contexts, in their order.
pub fn commands_place()
    ensures { (load : Load) → state_after (commands load) (started load.platform.kind)
        ≡ grown (started load.platform.kind) (map entry_of (placed load)) (contexts load) }
{}

/// An image has as many pages and contexts, at most, as its headers were counted to place, and on TDX an
/// image that fits has no ID block that counts.
pub(crate) fn counts_suffice()
    ensures pages { (load : Load) → length (placed load)
        ≤ sum_by (placed_pages (areas_in load)) (headers_in (directives load)) }
    ensures contexts { (load : Load) → length (contexts load)
        ≡ count_by is_context (headers_in (directives load)) }
    ensures ids { (load : Load) (plan : List PlanRange) → load.platform.kind ≡ Tdx
        → first_misfit load.file load.platform plan load.host ≡ None
        → filter_map wanted_of (directives load) ≡ [] }
{}

/// Two machines that hold one image for one platform and by the same options have one digest, whatever the
/// memory plans and the hosts' values were.
pub fn one_digest()
    ensures { (first second : Load) (s t : State) → first.file ≡ second.file
        → first.platform ≡ second.platform → first.options ≡ second.options
        → HoldsImage first s → HoldsImage second t → s.digest ≡ t.digest }
{}
