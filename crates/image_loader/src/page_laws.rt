//! What holds of a machine behind headers that fit: each law is a function that does nothing.
ghost use Rattle.std.specs.Prelude.{◌≡◌, ◌∷◌, ◌++◌, [], ℕ, List, map};
ghost use Rattle.host_set.specs.declared.range.PlanRange.{PlanRange};
ghost use Rattle.igvm_image.specs.Headers.{PlacedHeader};
ghost use Rattle.directive_rules.specs.FirstMisfit.{headers_for};
ghost use Rattle.launch_platform.specs.Machine.{State};
ghost use Rattle.image_loader.specs.Loads.{Load};
ghost use Rattle.image_loader.specs.PlacedPages.{entry_of, header_pages, header_contexts};
ghost use Rattle.image_loader.specs.LoadCommands.{grown};
ghost use Rattle.image_loader.specs.Fitting.{AreFresh, ContextsFit, HasOwnData, IsNext, MachineIsBehind, PagesEnter};

/// The pages and the context of the next header are new to a machine behind those before it, and are such
/// as it takes.
pub(crate) fn next_fits()
    ensures own { (load : Load) (plan : List PlanRange) (done left : List PlacedHeader)
        (p : PlacedHeader) → IsNext load plan done p left → HasOwnData p }
    ensures pages { (load : Load) (plan : List PlanRange) (done left : List PlacedHeader)
        (p : PlacedHeader) → IsNext load plan done p left → PagesEnter load p.header }
    ensures fresh { (load : Load) (plan : List PlanRange) (done left : List PlacedHeader)
        (p : PlacedHeader) (s : State) (area_page : ℕ → ℕ → List ℕ)
        → IsNext load plan done p left
        → MachineIsBehind load (headers_for load.platform.mask done) s
        → AreFresh s.entries (header_pages load area_page p) }
    ensures context { (load : Load) (plan : List PlanRange) (done left : List PlacedHeader)
        (p : PlacedHeader) (s : State) → IsNext load plan done p left
        → MachineIsBehind load (headers_for load.platform.mask done) s
        → ContextsFit load s.contexts p.header }
{
    igvm_image::laws::accepted_headers();
    igvm_image::laws::pages_fit();
    directive_rules::laws::fitting_pages_are_new();
}

/// A machine with the pages and the context of a header is behind it.
pub(crate) fn machine_moves_on()
    ensures { (load : Load) (before : List PlacedHeader) (p : PlacedHeader) (s : State)
        (area_page : ℕ → ℕ → List ℕ)
        → MachineIsBehind load before s → PagesEnter load p.header
        → MachineIsBehind load (before ++ p ∷ [])
        (grown s (map entry_of (header_pages load area_page p)) (header_contexts p)) }
{}
