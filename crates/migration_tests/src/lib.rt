//! Tests of migration: files of schema 1, made here by statements of that schema, are shown, refused, migrated and
//! used, also where the store fails at any call.
#![tactic(auto)]

#[cfg(test)]
mod tests;
