//! What stands before the pages.
ghost use Rattle.std.specs.Prelude.{◌≡◌, ◌≤◌, ◌*◌, ◌++◌, [], ◌∷◌, OnOk};
ghost use Rattle.made_list.specs.MadeList.{made_head, made_platform};

use crate::part::push_part;
use component_list::{Component, Content};
use igvm_headers::{Header, Memory, ParamKind, PlatformKind};
use std::alloc::Global;

/// The platforms, the policy, an area and the memory of `n` pages, behind the parts.
#[tactic(auto, unfolding(crate::specs::MadeList::made_head))]
pub(crate) fn push_head(alloc: Global, parts: &mut Vec<Component>, n: u32) -> Result<(), Memory>
    requires { n ≤ 100000 }
    ensures { OnOk result (parts.new.items ≡ parts.old.items ++ made_head n) }
{
    push_platform(alloc, parts, 1, PlatformKind::SevSnp)?;
    push_platform(alloc, parts, 2, PlatformKind::Tdx)?;
    push_platform(alloc, parts, 4, PlatformKind::Native)?;
    let policy = Header::Policy {
        policy: 0x3_0000,
        mask: 1,
    };
    push_part(alloc, parts, policy, Content::Nothing)?;
    let area = Header::Area {
        bytes: 4096,
        area: 0,
        offset: 0,
    };
    push_part(alloc, parts, area, Content::Zero)?;
    let command_line = Header::Param {
        kind: ParamKind::CommandLine,
        area: 0,
        byte_offset: 0,
    };
    push_part(alloc, parts, command_line, Content::Nothing)?;
    let memory = Header::Required {
        gpa: 0x10_0000,
        mask: 7,
        bytes: 4096 * n,
        flags: 0,
    };
    push_part(alloc, parts, memory, Content::Nothing)
}

fn push_platform(
    alloc: Global,
    parts: &mut Vec<Component>,
    mask: u32,
    kind: PlatformKind,
) -> Result<(), Memory>
    ensures { OnOk result (parts.new.items ≡ parts.old.items ++ made_platform mask kind ∷ []) }
{
    let header = Header::Platform {
        mask,
        highest_vtl: 0,
        kind,
        version: 1,
        shared_gpa: 0,
    };
    push_part(alloc, parts, header, Content::Nothing)
}
