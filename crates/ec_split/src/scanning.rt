//! Scanning of texts: bytes, comments and quotes, units, words, and the front of an embedded piece.
//! Both the splitter and the lexer (`ec_clex`) stand on it.
pub mod bytes;
pub mod ends;
pub mod fronts;
pub mod units;
pub mod words;
