//! Made images, loaded by hosts: what stands in the machine then, with its digest, as Python's hashlib has it from
//! the records of the pages; images that don't fit; and each command failing in turn.
mod areas;
mod digests;
mod faults;
mod host;
mod hosts;
mod id_blocks;
mod images;
mod misfits;
mod native_zero;
mod pages;
mod sev;
