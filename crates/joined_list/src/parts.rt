//! The three parts of a list.
ghost use Rattle.std.specs.Prelude.{◌≡◌, ◌≤◌, ◌++◌, length, take, drop, IfOk};
ghost use Rattle.joined_list.specs.Parts.{behind_first, first_part, is_initial, is_platform, past_last, second_part, third_part, up_to_last};

use component_list::Component;
use igvm_headers::{Header, Memory};

/// The components of a list: those up to its last platform, those behind it up to the last header of
/// initialization, and the rest.
#[derive(Drop)]
pub(crate) struct Parts {
    pub(crate) first: Vec<Component>,
    pub(crate) second: Vec<Component>,
    pub(crate) third: Vec<Component>,
}

/// A list cut into its parts.
pub(crate) fn cut(list: Vec<Component>) -> Result<Parts, Memory>
    ensures first { IfOk result (λ parts. parts.first.items ≡ first_part list.items) }
    ensures second { IfOk result (λ parts. parts.second.items ≡ second_part list.items) }
    ensures third { IfOk result (λ parts. parts.third.items ≡ third_part list.items) }
{
    let mut first = list;
    let mut second = first.split_off(platforms_end(first.as_slice()))?;
    let third = second.split_off(initial_end(second.as_slice()))?;
    Ok(Parts {
        first,
        second,
        third,
    })
}

/// The parts of two lists by turns: the first parts of both, their second parts, their third parts.
pub(crate) fn by_turns(mut ones: Parts, mut others: Parts) -> Result<Vec<Component>, Memory>
    ensures { IfOk result (λ all. all.items ≡ ones.first.items ++ others.first.items
        ++ ones.second.items ++ others.second.items ++ ones.third.items ++ others.third.items) }
{
    let mut all = ones.first;
    all.append(&mut others.first)?;
    all.append(&mut ones.second)?;
    all.append(&mut others.second)?;
    all.append(&mut ones.third)?;
    all.append(&mut others.third)?;
    Ok(all)
}

/// The place behind the last platform.
fn platforms_end(parts: &[Component]) -> usize
    ensures front { take result parts.now ≡ first_part parts.now }
    ensures back { drop result parts.now ≡ behind_first parts.now }
    ensures within { result ≤ length parts.now }
{
    parts
        .iter()
        .rposition(|c| is_platform(&c.header))
        .map_or(0, |last| last + 1)
}

/// The place behind the last header of initialization.
fn initial_end(parts: &[Component]) -> usize
    ensures front { take result parts.now ≡ up_to_last is_initial parts.now }
    ensures back { drop result parts.now ≡ past_last is_initial parts.now }
    ensures within { result ≤ length parts.now }
{
    parts
        .iter()
        .rposition(|c| is_initial(&c.header))
        .map_or(0, |last| last + 1)
}

/// The header declares a platform.
fn is_platform(header: &Header) -> bool
    ensures { result ≡ is_platform header.now }
{
    matches!(header, Header::Platform { .. })
}

/// The header's type is one from 0x101 to 0x103.
fn is_initial(header: &Header) -> bool
    ensures { result ≡ is_initial header.now }
{
    match header {
        Header::Policy { .. } => true,
        Header::Carried { kind, .. } => *kind == 0x102 || *kind == 0x103,
        _ => false,
    }
}
