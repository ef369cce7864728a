//! The pages file, written a record at a time.
ghost use Rattle.std.specs.Prelude.{◌≡◌, length, OnOk, OnErr};
ghost use Rattle.std.specs.List.{flat_map};
ghost use Rattle.igvm_outside.specs.Files.{writing};
ghost use Rattle.igvm_outside.specs.ShelfCalls.{Writes};
ghost use Rattle.launch_platform.specs.Views.{entry_in, context_in};
ghost use Rattle.pages_file.specs.Added.{IsAdded, IsBrokenOff};
ghost use Rattle.pages_file.specs.PagesFile.{entry_record, context_record, pages_file};

use crate::kind::{CONTEXT, tag_number};
use crate::record::Record;
use igvm_headers::Failed;
use igvm_outside::{Shelf, write_piece, writes_compose};
use launch_platform::{ContextView, EntryView, Launch};

/// Writes the pages and contexts that a machine holds, a record at a time, in place of a file of
/// this name. It takes no memory of its own.
pub fn write_pages<S: Shelf, L: Launch>(
    shelf: &mut S,
    name: &str,
    machine: &L,
) -> Result<(), Failed>
    ensures { Writes S.Shelf name.now
        (pages_file (L.state machine.now).entries (L.state machine.now).contexts) result
        shelf.old shelf.new }
{
    writes_compose::<S>();
    let mut buffer = Record::new();
    shelf.create(name)?;
    write_entries(shelf, name, machine, &mut buffer)?;
    write_contexts(shelf, name, machine, &mut buffer)?;
    shelf.close(name)
}

/// The record of each page, in their order.
fn write_entries<S: Shelf, L: Launch>(
    shelf: &mut S,
    name: &str,
    machine: &L,
    buffer: &mut Record,
) -> Result<(), Failed>
    requires { S.state shelf.old ≡ writing (S.told shelf.old) name.now }
    ensures added { OnOk result (IsAdded S.Shelf name.now
        (flat_map entry_record (L.state machine.now).entries) shelf.old shelf.new) }
    ensures broken { OnErr result (IsBrokenOff S.Shelf name.now
        (flat_map entry_record (L.state machine.now).entries) shelf.old shelf.new) }
{
    writes_compose::<S>();
    'entries: for k in 0..machine.entries() {
        let Some(entry) = machine.entry(k) else {
            unreachable!()
        };
        write_entry(shelf, name, &entry, buffer)?;
    }
    Ok(())
}

/// The record of each context, in their order.
fn write_contexts<S: Shelf, L: Launch>(
    shelf: &mut S,
    name: &str,
    machine: &L,
    buffer: &mut Record,
) -> Result<(), Failed>
    requires { S.state shelf.old ≡ writing (S.told shelf.old) name.now }
    ensures added { OnOk result (IsAdded S.Shelf name.now
        (flat_map context_record (L.state machine.now).contexts) shelf.old shelf.new) }
    ensures broken { OnErr result (IsBrokenOff S.Shelf name.now
        (flat_map context_record (L.state machine.now).contexts) shelf.old shelf.new) }
{
    writes_compose::<S>();
    'contexts: for k in 0..machine.contexts() {
        let Some(context) = machine.context_at(k) else {
            unreachable!()
        };
        write_context(shelf, name, &context, buffer)?;
    }
    Ok(())
}

/// The record of a page.
fn write_entry<S: Shelf>(
    shelf: &mut S,
    name: &str,
    entry: &EntryView<'_>,
    buffer: &mut Record,
) -> Result<(), Failed>
    requires writing { S.state shelf.old ≡ writing (S.told shelf.old) name.now }
    requires whole { length entry.now.page.now ≡ 4096 }
    ensures added { OnOk result (IsAdded S.Shelf name.now
        (entry_record (entry_in entry.now)) shelf.old shelf.new) }
    ensures broken { OnErr result (IsBrokenOff S.Shelf name.now
        (entry_record (entry_in entry.now)) shelf.old shelf.new) }
{
    buffer.set(entry.gpa, tag_number(entry.tag), 0, entry.page);
    write_record(shelf, name, buffer)
}

/// The record of a context.
fn write_context<S: Shelf>(
    shelf: &mut S,
    name: &str,
    context: &ContextView<'_>,
    buffer: &mut Record,
) -> Result<(), Failed>
    requires writing { S.state shelf.old ≡ writing (S.told shelf.old) name.now }
    requires whole { length context.now.page.now ≡ 4096 }
    ensures added { OnOk result (IsAdded S.Shelf name.now
        (context_record (context_in context.now)) shelf.old shelf.new) }
    ensures broken { OnErr result (IsBrokenOff S.Shelf name.now
        (context_record (context_in context.now)) shelf.old shelf.new) }
{
    buffer.set(context.gpa, CONTEXT, context.vp, context.page);
    write_record(shelf, name, buffer)
}

/// The bytes of a record, behind those of the file that is written.
fn write_record<S: Shelf>(shelf: &mut S, name: &str, buffer: &Record) -> Result<(), Failed>
    requires { S.state shelf.old ≡ writing (S.told shelf.old) name.now }
    ensures added { OnOk result (IsAdded S.Shelf name.now
        buffer.now shelf.old shelf.new) }
    ensures broken { OnErr result (IsBrokenOff S.Shelf name.now
        buffer.now shelf.old shelf.new) }
{
    write_piece(shelf, name, buffer.bytes())
}
