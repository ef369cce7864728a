//! One variable header out of its type and content (`igvm_defs`, IGVM_VHT_* and IGVM_VHS_*).
ghost use Rattle.std.specs.Prelude.{◌≡◌, ◌<◌, ◌^◌, length};
ghost use Rattle.igvm_headers.specs.HeaderForm.{header_form};

use crate::records::{
    area, carried, context, error_range, id_block, insert, page, param, platform, policy, required,
};
use crate::{Header, HeaderFault, ParamKind};

/// The header of a type and its content, or the first fault in the order of `HeaderFault`.
#[tactic(auto, unfolding(crate::specs::HeaderForm::header_form))]
pub fn decode_header(kind: u32, content: &[u8]) -> Result<Header, HeaderFault>
    requires { length content.now < 2 ^ 32 }
    ensures { result ≡ header_form kind content.now }
{
    match kind {
        platform::TYPE => platform::read(content),
        policy::TYPE => policy::read(content),
        area::TYPE => area::read(content),
        page::TYPE => page::read(content),
        insert::TYPE => insert::read(content),
        context::TYPE => context::read(content),
        required::TYPE => required::read(content),
        id_block::TYPE => id_block::read(content),
        error_range::TYPE => error_range::read(content),
        _ => match ParamKind::from_header_type(kind) {
            Some(name) => param::read(name, content),
            None => carried::read(kind, content),
        },
    }
}

#[cfg(test)]
mod tests;
