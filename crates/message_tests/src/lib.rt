//! Tests of `streams` and `http_messages`: what is read and written in pieces, which messages are read from streams, however
//! they arrive, and how bodies are framed in lenient mode; and of `http_pages`: what is read of an answer.
#![tactic(auto)]

#[cfg(test)]
mod tests;
