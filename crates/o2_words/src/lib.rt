//! The words of a command line: the forms that they may have, and what they ask for.
#![tactic(auto)]

mod command;
mod form;
mod fsck_line;
mod kind;
mod laws;
mod letters;
mod name;
mod place;
mod query_word;
#[cfg(test)]
mod tests;
mod words;

pub use command::{Command, WordFault};
pub use form::{
    DEBUG_FORM, FORCE_NO_FORM, FORCE_YES_FORM, FORMS, LABEL_FORM, NO_FORCE_FORM, NO_FORM, Part,
    YES_FORCE_FORM, YES_FORM,
};
pub use kind::Kind;
pub use laws::{forms_are_lines, options_come_in_any_order};
pub use letters::Answer;
pub use name::Name;
pub use place::farthest;
pub use words::read_words;
