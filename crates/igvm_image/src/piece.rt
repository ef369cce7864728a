//! One header of a section: type, length, content and padding (`igvm_defs`, IGVM_VHS_VARIABLE_HEADER).
ghost use Rattle.std.specs.Prelude.{◌≡◌, ◌+◌, ◌≤◌, length, IfSome};
ghost use Rattle.std.specs.Option.{option_map};
ghost use Rattle.igvm_image.specs.Pieces.{piece_at};
ghost use Rattle.igvm_image.specs.PieceView.{piece_view};

use byteorder::{ByteOrder, LittleEndian};

/// A header's type and content, and the section behind its padding.
#[derive(Clone, Copy)]
pub struct Piece<'a> {
    pub kind: u32,
    pub content: &'a [u8],
    pub rest: &'a [u8],
}

/// The first header of a section, where one stands whole.
#[tactic(auto, unfolding(crate::specs::Pieces::piece_at))]
pub fn split_piece(section: &[u8]) -> Option<Piece<'_>>
    ensures found { option_map piece_view result ≡ piece_at section.now }
    ensures shorter { IfSome result (λ p. length p.rest.now + 8 ≤ length section.now) }
    ensures content { IfSome result (λ p. length p.content.now ≤ length section.now) }
{
    if section.len() < 8 {
        return None;
    }
    let size = LittleEndian::read_u32(&section[4..]) as usize;
    if section.len() - 8 < size {
        return None;
    }
    let kind = LittleEndian::read_u32(section);
    let content = &section[8..8 + size];
    let next = (8 + size + 7) / 8 * 8;
    let rest = &section[next.min(section.len())..];
    Some(Piece {
        kind,
        content,
        rest,
    })
}
