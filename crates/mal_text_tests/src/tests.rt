//! Values, texts and devices whose contents are known.

mod account;
mod base;
mod dimacs;
mod history;
mod history_pieces;
mod history_writing;
mod io;
mod lrat;
mod report;
mod revision;
mod script;
mod seq;
mod text;
mod told;
mod values;
