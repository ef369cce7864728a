//! What holds of the next header and behind it: each law is a function that does nothing.
ghost use Rattle.std.specs.Prelude.{◌≡◌, ◌∷◌, ◌++◌, [], List, map, sum_by};
ghost use Rattle.host_set.specs.declared.range.PlanRange.{PlanRange};
ghost use Rattle.igvm_image.specs.Headers.{PlacedHeader};
ghost use Rattle.igvm_image.specs.RulesInWords.{declared_bytes};
ghost use Rattle.directive_rules.specs.FirstMisfit.{headers_in, headers_for};
ghost use Rattle.launch_platform.specs.Machine.{State};
ghost use Rattle.param_areas.specs.AreaBytes.{Space};
ghost use Rattle.image_loader.specs.Loads.{Load, directives};
ghost use Rattle.image_loader.specs.FilledAreas.{filled_page};
ghost use Rattle.image_loader.specs.PlacedPages.{entry_of, header_pages, header_contexts};
ghost use Rattle.image_loader.specs.LoadCommands.{grown};
ghost use Rattle.image_loader.specs.Fitting.{AreasAreBehind, Fits, IsNext, MachineIsBehind, page_in, space_after};

use crate::area_laws::{areas_fit, areas_move_on, pages_are_filled};
use crate::page_laws::{machine_moves_on, next_fits};

/// A header that has no misfit behind those before it fits the machine and the areas that are behind them,
/// and its pages have the bytes that the rule for each byte says.
pub(crate) fn next_is_ready()
    ensures fits { (load : Load) (plan : List PlanRange) (done left : List PlacedHeader)
        (p : PlacedHeader) (space : Space) (s : State) → IsNext load plan done p left
        → space.total ≡ sum_by declared_bytes (headers_in (directives load))
        → AreasAreBehind load (headers_for load.platform.mask done) space
        → MachineIsBehind load (headers_for load.platform.mask done) s
        → Fits load space s.entries s.contexts p }
    ensures filled { (load : Load) (before : List PlacedHeader) (p : PlacedHeader)
        (space : Space) (s : State) → AreasAreBehind load before space
        → Fits load space s.entries s.contexts p
        → header_pages load (page_in space) p
        ≡ header_pages load (filled_page load.host before) p }
{
    areas_fit();
    pages_are_filled();
    next_fits();
}

/// The areas and the machine are behind a header that fits, once it is carried out.
pub(crate) fn next_is_done()
    ensures areas { (load : Load) (before : List PlacedHeader) (p : PlacedHeader)
        (space : Space) (s : State) → AreasAreBehind load before space
        → Fits load space s.entries s.contexts p
        → AreasAreBehind load (before ++ p ∷ []) (space_after load.host p space) }
    ensures machine { (load : Load) (before : List PlacedHeader) (p : PlacedHeader)
        (space : Space) (s : State) → MachineIsBehind load before s
        → Fits load space s.entries s.contexts p
        → MachineIsBehind load (before ++ p ∷ [])
        (grown s (map entry_of (header_pages load (page_in space) p)) (header_contexts p)) }
{
    areas_move_on();
    machine_moves_on();
}
