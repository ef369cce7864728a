//! The contents of a list, each kept once, with the place where it will stand in the file.
ghost use Rattle.std.specs.Prelude.{◌≡◌, ◌+◌, List, ℕ, [], ◌++◌, length, sum_by, IfOk, OnOk, None};
ghost use Rattle.image_builder.specs.DistinctContents.{place_of};
ghost use Rattle.igvm_outside.specs.JoinedBytes.{lent};
ghost use Rattle.image_builder.specs.ContentIndex.{kept_with, place_in, saturated};

use igvm_headers::Memory;
use std::alloc::Global;
use std::collections::BTreeMap;
use std::marker::Model;

/// Contents that stand one behind the other from a place on, no two of them equal. Places are
/// found by the contents' bytes, in their order. Numbers past 64 bits stop at the greatest.
#[derive(Drop)]
pub(crate) struct Contents<'a> {
    start: u64,
    kept: Vec<&'a [u8]>,
    places: BTreeMap<&'a [u8], u64>,
    end: u64,
}

impl<'a> Model for Contents<'a> {
    ghost use Rattle.std.specs.Prelude.{◌≡◌, ◌+◌, length, sum_by};
    ghost use Rattle.igvm_outside.specs.JoinedBytes.{lent};
    ghost use Rattle.image_builder.specs.ContentIndex.{Row, IsIndex, saturated};

    ghost Value = { Row };

    ghost view = { λ c. record { start = c.start; kept = lent c.kept.items } };

    ghost invariant = { λ c. IsIndex c.places c.start (lent c.kept.items)
        × (c.end ≡ saturated (c.start + sum_by length (lent c.kept.items))) };
}

impl<'a> Contents<'a> {
    /// No contents yet.
    pub(crate) fn new(alloc: Global, start: u64) -> Contents<'a>
        ensures start { result.start ≡ start }
        ensures kept { result.kept ≡ [] }
    {
        Contents {
            start,
            kept: Vec::new(alloc),
            places: BTreeMap::new(alloc),
            end: start,
        }
    }

    /// Where these bytes stand: those that are kept already, or else behind all others from now on.
    pub(crate) fn place(&mut self, bytes: &'a [u8]) -> Result<u64, Memory>
        ensures kept { OnOk result (self.new.kept ≡ kept_with self.old.kept bytes.now) }
        ensures start { self.new.start ≡ self.old.start }
        // What comes behind changes nothing of it.
        ensures place { IfOk result (λ place. (more : List (List ℕ))
            → place ≡ saturated (self.old.start + place_of bytes.now (self.new.kept ++ more))) }
    {
        match self.find(bytes) {
            Some(place) => Ok(place),
            None => self.add(bytes),
        }
    }

    /// Where these bytes stand, if they are kept.
    fn find(&self, bytes: &[u8]) -> Option<u64>
        ensures { result ≡ place_in self.now.start self.now.kept bytes.now }
    {
        self.places.get(bytes).copied()
    }

    /// Keeps bytes that are not kept yet.
    fn add(&mut self, bytes: &'a [u8]) -> Result<u64, Memory>
        requires { place_in self.old.start self.old.kept bytes.now ≡ None }
        ensures kept { OnOk result (self.new.kept ≡ kept_with self.old.kept bytes.now) }
        ensures start { self.new.start ≡ self.old.start }
        ensures place { IfOk result (λ place. (more : List (List ℕ))
            → place ≡ saturated (self.old.start + place_of bytes.now (self.new.kept ++ more))) }
    {
        let Ok(()) = self.kept.reserve(1) else {
            return Err(Memory);
        };
        let place = self.end;
        let Ok(_) = self.places.insert(bytes, place) else {
            return Err(Memory);
        };
        // Room was reserved.
        let _ = self.kept.push(bytes);
        self.end = self.end.saturating_add(bytes.len() as u64);
        Ok(place)
    }

    /// The place of the first, also where there is none.
    pub(crate) fn start(&self) -> u64
        ensures { result ≡ self.now.start }
    {
        self.start
    }

    /// The place behind the last.
    pub(crate) fn end(&self) -> u64
        ensures { result ≡ saturated (self.now.start + sum_by length self.now.kept) }
    {
        self.end
    }

    /// The contents in order, without their places.
    pub(crate) fn into_kept(self) -> Vec<&'a [u8]>
        ensures { lent result.items ≡ self.entry.kept }
    {
        self.kept
    }
}
