//! Pages and journals of names: what a session says of names, as values and as text (the forms: `docs/NAMES.md`).
//!
//! A [`Page`] has a line for each name that its session put or removed and that did not go since. A [`Line`] has its content in the words of the text,
//! and a name may have spaces, so what a line says is told from its name by the form of contents alone ([`Form`], byte by byte).
//!
//! *Theorem:* the text of a page is read as that page (`laws::pages_read_back`).
//!
//! `gq_client` and `gq_split` stand on it. Not here: contents as values (that slots go up, that chunks are no more than bytes); copies of a line and
//! signposts to other grids, so a page of several grids is none here; whether a text is UTF-8.
#![tactic(auto)]

mod form;
pub mod laws;
mod page;
mod reading;
mod writing;

pub use form::{Form, cut_said, cut_word};
pub use page::{Line, Page};
pub use reading::read_page;
pub use writing::put_page;
