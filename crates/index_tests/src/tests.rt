//! The tests of saved indexes: their texts, reading them, loading them and searching by them; and what is plain beside these.

mod loading;
mod plain_fault;
mod plain_reader;
mod readers;
mod searched;
mod texts;
