//! The graph that changes by batches of edits, in pages. A row's arcs stand on pages of at most 64
//! that the row before a change and the row after it share, so that a change makes only the pages
//! anew that it touches. No clause sees pages.
#![tactic(auto)]

mod page;
mod paged_row;
mod pages;

use adjacency::RowGraph;
pub use page::PAGE_ARCS;
pub use paged_row::PagedRow;
pub use pages::MOST_PAGES;

/// The graph whose rows stand on pages. It has the calls, the traits and the contracts of `Graph`.
pub type PagedGraph = RowGraph<PagedRow>;
