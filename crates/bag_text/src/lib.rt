//! Texts, lines and paths of bags, and the algorithms and fault codes by their names.
//!
//! ```
//! for (number, line) in lines(text_of(&bytes)?) {
//!     let (digest, spelling) = split_at_blanks(line);
//!     let path = unescape_path(alloc, Rules::V10, spelling)?;
//! }
//! let alg = Alg::from_name("sha256")?;
//! ```
//!
//! Of RFC 8493 it keeps how lines of tag files end (2.3), what a path is (2.1.2, 5.1), how
//! manifests spell it (2.1.3), and the algorithms that can be computed (2.4); by the rules of
//! either version where they differ (`Rules`). `Text` and `Items` own their memory; contracts see
//! them as bytes and as items.
//!
//! Each call of `Text` and `Items` is exact, by the bytes and items that contracts see; where
//! memory runs out a list stays as it was. Codes and algorithms have their numbers and names, and
//! are found by them; a set has its members and no others. Lines are the only cut of a text. A
//! spelling spells one path at the most by the rules of 1.0, and just one by those of 0.97.
#![tactic(auto)]

mod alg;
mod alg_set;
mod blank;
mod code;
mod items;
mod label;
pub mod laws;
mod line_cut;
mod path;
mod path_order;
mod read_text;
mod rules;
pub mod said;
mod shared_text;
mod sort_key;
mod text;

pub use alg::Alg;
pub use alg_set::AlgSet;
pub use blank::{
    begins_with_blank, ends_with_blank, is_blank, is_blank_line, split_at_blanks, trim,
};
pub use code::Code;
pub use items::Items;
pub use label::same_label;
pub use line_cut::Lines;
pub use path::{
    PathFault, Unsafe, check_path, escape_path, is_payload, is_written_as_itself, unescape_path,
};
pub use path_order::{HasPath, sort_by_path};
pub use read_text::{BYTE_ORDER_MARK, NotUtf8, lines, text_of};
pub use rules::Rules;
pub use sort_key::common_front;
pub use text::Text;
