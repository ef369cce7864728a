//! Lists for tests.

use component_list::{Blob, Component, ComponentList, Content};
use igvm_headers::{Header, PageKind, ParamKind, PlatformKind};
use std::alloc::Global;
use std::marker::Model;
use std::test::Fail;

/// Components in order, each at file offset 0.
#[derive(Drop)]
pub(super) struct Parts {
    alloc: Global,
    parts: Vec<Component>,
}

impl Model for Parts {
    ghost use Rattle.std.specs.Prelude.{List, ◌≡◌};
    ghost use Rattle.std.specs.List.{AllByRecursion};
    ghost use Rattle.igvm_headers.specs.HeaderFacts.{data_offset};
    ghost use Rattle.component_list.specs.declared.component.Component as entry;

    ghost Value = { List entry.Component };

    ghost view = { λ p. p.parts.items };

    ghost invariant = { λ p. AllByRecursion (λ c. data_offset c.header ≡ 0) p.parts.items };
}

impl Parts {
    pub(super) fn new(alloc: Global) -> Parts {
        Parts {
            alloc,
            parts: Vec::new(alloc),
        }
    }

    pub(super) fn push(&mut self, header: Header, content: Content) -> Result<(), Fail> {
        let tail = Blob::of_vec(Vec::new(self.alloc));
        self.push_with(header, tail, content)
    }

    pub(super) fn push_with(
        &mut self,
        header: Header,
        tail: Blob,
        content: Content,
    ) -> Result<(), Fail> {
        self.parts.push(Component {
            header: header.with_offset(0),
            tail,
            content,
        })?;
        Ok(())
    }

    pub(super) fn platform(
        &mut self,
        mask: u32,
        kind: PlatformKind,
        highest_vtl: u8,
    ) -> Result<(), Fail> {
        let header = Header::Platform {
            mask,
            highest_vtl,
            kind,
            version: 1,
            shared_gpa: 0,
        };
        self.push(header, Content::Nothing)
    }

    pub(super) fn page(
        &mut self,
        gpa: u64,
        mask: u32,
        kind: PageKind,
        data: Content,
    ) -> Result<(), Fail> {
        let header = Header::Page {
            gpa,
            mask,
            offset: 0,
            large: false,
            unmeasured: false,
            kind,
        };
        self.push(header, data)
    }

    pub(super) fn large_page(&mut self, gpa: u64, data: Content) -> Result<(), Fail> {
        let header = Header::Page {
            gpa,
            mask: 1,
            offset: 0,
            large: true,
            unmeasured: false,
            kind: PageKind::Normal,
        };
        self.push(header, data)
    }

    pub(super) fn area(&mut self, area: u32, data: Content) -> Result<(), Fail> {
        let header = Header::Area {
            bytes: 4096,
            area,
            offset: 0,
        };
        self.push(header, data)
    }

    pub(super) fn context(&mut self, data: Content) -> Result<(), Fail> {
        let header = Header::Context {
            gpa: 0xFFFF_FFFF_F000,
            mask: 1,
            offset: 0,
            vp: 0,
        };
        self.push(header, data)
    }

    pub(super) fn param(
        &mut self,
        kind: ParamKind,
        area: u32,
        byte_offset: u32,
    ) -> Result<(), Fail> {
        let header = Header::Param {
            kind,
            area,
            byte_offset,
        };
        self.push(header, Content::Nothing)
    }

    pub(super) fn insert(&mut self, gpa: u64, area: u32) -> Result<(), Fail> {
        let header = Header::Insert { gpa, mask: 7, area };
        self.push(header, Content::Nothing)
    }

    pub(super) fn list(self) -> Result<ComponentList, Fail> {
        if self.parts.len() >= 4_294_967_296 {
            return Err(Fail::new("too many components"));
        }
        Ok(ComponentList::from_parts(self.parts)?)
    }
}

/// This byte so often.
pub(super) fn filled(alloc: Global, byte: u8, count: usize) -> Result<Vec<u8>, Fail> {
    Ok(vec![in alloc; byte; count]?)
}

pub(super) fn bytes_of(bytes: Vec<u8>) -> Content {
    Content::Bytes(Blob::of_vec(bytes))
}

/// A list with one SEV-SNP platform.
pub(super) fn snp(alloc: Global) -> Result<Parts, Fail> {
    let mut parts = Parts::new(alloc);
    parts.platform(1, PlatformKind::SevSnp, 0)?;
    Ok(parts)
}
