// The tree of a whole source and the tokens that it is read from. The definitions in specs/ say which tokens a tree
// spells.
#![tactic(auto)]

pub mod declaration;
pub mod duration;
pub mod expression;
pub mod family;
pub mod fault;
pub mod format;
pub mod laws;
pub mod limit;
pub mod literal;
pub mod name;
pub mod opcode;
pub mod operator;
pub mod parts;
pub mod rule;
pub mod statement;
pub mod symbol;
pub mod table_laws;
pub mod token;
pub mod tree;
pub mod typing;
pub mod word;
pub mod word_code;
