//! The launch digest of an SEV-SNP guest, page by page.
#![tactic(auto)]

mod chain;
mod contents;
mod page;
mod tagged;
#[cfg(test)]
mod tests;

pub use chain::SnpChain;
pub use contents::contents_of;
pub use page::SnpPage;
pub use tagged::page_type_of;
