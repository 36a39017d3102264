//! Regular expressions of trust signatures (RFC 9580, section 8): which bytes are one, and which texts it matches. Only what is kept of an expression for further texts takes memory.
#![tactic(auto)]

mod answers; // what a scope answered of long texts
mod asked; // scopes that are asked of many user IDs
mod expr; // expressions
mod flags; // truth values, of which the last is taken back first
mod followers; // where matches may go on
mod known; // what is known of the states that texts come to
mod laws; // laws of expressions
mod masks; // which symbols take each byte
mod matcher; // expressions for many texts
mod matching; // whether an expression matches somewhere in a text
mod node; // the parts of an expression
mod nodes; // expressions as tables
mod reach; // what a part of an expression reaches at a place of the text
mod reader; // reading an expression byte by byte
mod search; // searching the rest of a text
mod scope; // whether a scope admits a text
mod set; // sets of places of a table
mod stack; // what parts reach, of which the last is taken back first
mod steps; // places that only lead to the symbol behind them
mod table; // what comes next by each way to mark eight places

pub use asked::Asked;
pub use expr::{Expr, read};
pub use laws::{
    domain_forms_agree, expressions_are_read, marks_find_matches, one_tree, scopes_are_tested,
};
pub use matcher::Matcher;
pub use matching::matches;
pub use scope::admits;
