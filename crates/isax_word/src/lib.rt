//! Words of the iSAX papers: the symbols of a series, of eight bits a segment, and words that keep the
//! first bits of each symbol alone (iSAX 2.0, Camerra and others, ICDM 2010).
#![tactic(auto)]

mod full;
mod laws;
mod layout;
mod member;
mod sixteen;
mod symbol;
mod word;

pub use full::{Full, root_of};
pub use laws::{
    child_is_within, one_child_contains, one_root_contains, roots_and_words_correspond,
    symbol_bracket, symbols_of_a_prefix,
};
pub use layout::Layout;
pub use member::Member;
pub use symbol::symbol_of_sum;
pub use word::{Part, Word, child, contains};
