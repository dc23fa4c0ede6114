// What expressions, declarations and statements over types are, as texts.

mod ask;
mod called;
pub mod expression;
mod heading;
mod item;
pub mod laws;
pub mod misread;
mod name;
pub mod outcome;
mod prelude;
pub mod reply;
mod request_token;
pub mod scope;
mod source;
pub mod statement;
mod statement_step;
mod step;
pub mod why;
