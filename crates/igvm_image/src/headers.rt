//! The headers of a file, one after the other.
ghost use Rattle.std.specs.Prelude.{◌≡◌, ◌≤◌, ◌<◌, ◌+◌, ◌^◌, length};
ghost use Rattle.igvm_image.specs.Pieces.{pieces};
ghost use Rattle.igvm_image.specs.Headers.{placed_from};

use crate::data_view::DataView;
use crate::piece::split_piece;
use igvm_headers::{Header, decode_header};
use std::marker::Model;

/// A header with its number, the file offset of its first byte, its content in the file, and its data.
#[derive(Drop)]
pub struct Placed<'a> {
    pub index: u32,
    pub at: u32,
    pub header: Header,
    pub raw: &'a [u8],
    pub content: DataView<'a>,
}

/// The headers that are left, in file order. Contracts see their list.
#[derive(Drop)]
pub struct Headers<'a> {
    body: &'a [u8],
    rest: &'a [u8],
    index: u32,
    at: u32,
}

impl<'a> Model for Headers<'a> {
    ghost use Rattle.std.specs.Prelude.{List, ◌≤◌, ◌<◌, ◌+◌, ◌^◌, length};
    ghost use Rattle.igvm_image.specs.Pieces.{pieces};
    ghost use Rattle.igvm_image.specs.Headers.{PlacedHeader, placed_from};

    ghost Value = { List PlacedHeader };

    ghost view = { λ s. placed_from s.body.now s.index s.at (pieces s.rest.now) };

    ghost invariant = { λ s. (s.index ≤ s.at) × (s.at + length s.rest.now < 2 ^ 32) };
}

impl<'a> Headers<'a> {
    /// The headers of a section at a file offset, in a file's body.
    #[tactic(auto, using(crate::proofs::HeadersLemmas::placed_few))]
    pub(crate) fn new(body: &'a [u8], section: &'a [u8], start: u32) -> Headers<'a>
        requires { start + length section.now < 2 ^ 32 }
        ensures placed { result ≡ placed_from body.now 0 start (pieces section.now) }
        ensures few { length result < 2 ^ 32 }
    {
        Headers {
            body,
            rest: section,
            index: 0,
            at: start,
        }
    }
}

impl<'a> Iterator for Headers<'a> {
    ghost use Rattle.std.specs.Iterator.{YieldsFirstBy, item_count};
    ghost use Rattle.igvm_image.specs.PlacedView.{placed_view};

    type Item = Placed<'a>;

    ghost next_gives = { YieldsFirstBy placed_view (λ s. s) };

    ghost remaining = { item_count (λ s. s) };

    fn next(&mut self) -> Option<Placed<'a>> {
        let Some(piece) = split_piece(self.rest) else {
            return None;
        };
        let Ok(header) = decode_header(piece.kind, piece.content) else {
            // None such stands in an accepted file.
            self.rest = &[];
            return None;
        };
        let placed = Placed {
            index: self.index,
            at: self.at,
            content: DataView::of(self.body, &header),
            header,
            raw: piece.content,
        };
        self.index += 1;
        self.at += (self.rest.len() - piece.rest.len()) as u32;
        self.rest = piece.rest;
        Some(placed)
    }
}
