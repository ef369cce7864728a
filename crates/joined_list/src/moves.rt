//! New numbers for old ones.
ghost use Rattle.std.specs.Prelude.{◌≡◌, ◌∷◌, ◌++◌, [], ℕ, List, IfOk, OnOk};
ghost use Rattle.std.specs.List.{range_with_len};
ghost use Rattle.igvm_image.specs.HeaderRules.{one_bit_masks};
ghost use Rattle.joined_list.specs.NewNumbers.{area_by, free, mask_by, moves};

use igvm_headers::Memory;
use std::alloc::Global;

/// A number, and the one that takes its place.
#[derive(Clone, Copy)]
pub(crate) struct Move {
    pub(crate) old: u32,
    pub(crate) new: u32,
}

/// The new bits of those platforms whose old bits a mask has.
pub(crate) fn mask_by(moves: &[Move], mask: u32) -> u32
    ensures { result ≡ mask_by moves.now mask }
{
    let mut bits = 0;
    'moves: for Move { old, new } in moves {
        if mask & *old != 0 {
            bits |= *new;
        }
    }
    bits
}

/// The new index of an area.
pub(crate) fn area_by(moves: &[Move], area: u32) -> u32
    ensures { result ≡ area_by moves.now area }
{
    moves
        .iter()
        .find(|each| each.old == area)
        .map_or(area, |found| found.new)
}

/// Each mask with itself.
pub(crate) fn same_masks(alloc: Global, masks: &[u32]) -> Result<Vec<Move>, Memory>
    ensures { IfOk result (λ list. list.items ≡ moves masks.now masks.now) }
{
    let same = |mask: &u32| Move {
        old: *mask,
        new: *mask,
    };
    Ok(masks.iter().map(same).collect(alloc)?)
}

/// Each mask in order with the least bit that is neither taken nor given before.
pub(crate) fn free_masks(alloc: Global, masks: &[u32], taken: &[u32]) -> Result<Vec<Move>, Memory>
    ensures { IfOk result (λ list. list.items ≡ moves masks.now (free taken.now one_bit_masks)) }
{
    let mut list = Vec::new(alloc);
    'bits: for bit in 0..u32::BITS {
        give(&mut list, masks, taken, 1 << bit)?;
    }
    Ok(list)
}

/// Each area in order with the least index below 256 that is neither taken nor given before.
pub(crate) fn free_areas(alloc: Global, areas: &[u32], taken: &[u32]) -> Result<Vec<Move>, Memory>
    ensures { IfOk result (λ list. list.items ≡ moves areas.now (free taken.now (range_with_len 0 256))) }
{
    let mut list = Vec::new(alloc);
    'indices: for index in 0..256 {
        give(&mut list, areas, taken, index)?;
    }
    Ok(list)
}

/// Gives a number to the first of the old ones that has none yet, unless the number is taken.
fn give(list: &mut Vec<Move>, olds: &[u32], taken: &[u32], number: u32) -> Result<(), Memory>
    ensures { OnOk result ((before : List ℕ) → list.old.items ≡ moves olds.now (free taken.now before)
        → list.new.items ≡ moves olds.now (free taken.now (before ++ number ∷ []))) }
{
    if taken.contains(&number) {
        return Ok(());
    }
    let Some(old) = olds.get(list.len()) else {
        return Ok(());
    };
    list.push(Move {
        old: *old,
        new: number,
    })?;
    Ok(())
}
