//! What holds of the parameter areas behind headers that fit: each law is a function that does nothing.
ghost use Rattle.std.specs.Prelude.{◌≡◌, ◌∷◌, ◌++◌, [], List, sum_by};
ghost use Rattle.host_set.specs.declared.range.PlanRange.{PlanRange};
ghost use Rattle.igvm_image.specs.Headers.{PlacedHeader};
ghost use Rattle.igvm_image.specs.RulesInWords.{declared_bytes};
ghost use Rattle.directive_rules.specs.FirstMisfit.{headers_in, headers_for};
ghost use Rattle.param_areas.specs.AreaBytes.{Space};
ghost use Rattle.image_loader.specs.Loads.{Load, directives};
ghost use Rattle.image_loader.specs.FilledAreas.{filled_page};
ghost use Rattle.image_loader.specs.PlacedPages.{header_pages};
ghost use Rattle.image_loader.specs.Fitting.{AreasAreBehind, AreasFit, InsertsFit, IsNext, page_in, space_after};

/// The areas behind some headers take what the next one tells them, and have the pages that it puts into
/// the guest.
pub(crate) fn areas_fit()
    ensures areas { (load : Load) (plan : List PlanRange) (done left : List PlacedHeader)
        (p : PlacedHeader) (space : Space) → IsNext load plan done p left
        → space.total ≡ sum_by declared_bytes (headers_in (directives load))
        → AreasAreBehind load (headers_for load.platform.mask done) space
        → AreasFit load.host space p.header p.content }
    ensures inserted { (load : Load) (plan : List PlanRange) (done left : List PlacedHeader)
        (p : PlacedHeader) (space : Space) → IsNext load plan done p left
        → AreasAreBehind load (headers_for load.platform.mask done) space
        → InsertsFit load space p.header }
{
    igvm_image::laws::accepted_headers();
    param_areas::last_value_stands();
    param_areas::told_is_shown();
}

/// Areas that were told what a header tells are behind it.
pub(crate) fn areas_move_on()
    ensures { (load : Load) (before : List PlacedHeader) (p : PlacedHeader) (space : Space)
        → AreasAreBehind load before space → AreasFit load.host space p.header p.content
        → AreasAreBehind load (before ++ p ∷ []) (space_after load.host p space) }
{
    param_areas::last_value_stands();
    param_areas::told_is_shown();
}

/// The pages of a header have the bytes that the rule for each byte says.
pub(crate) fn pages_are_filled()
    ensures { (load : Load) (before : List PlacedHeader) (p : PlacedHeader) (space : Space)
        → AreasAreBehind load before space → InsertsFit load space p.header
        → header_pages load (page_in space) p
        ≡ header_pages load (filled_page load.host before) p }
{
    param_areas::last_value_stands();
    param_areas::told_is_shown();
}
