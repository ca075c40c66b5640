//! Searches within a radius: worked rows, random small collections against a plain filter, and collections that
//! watch which of their rows are asked for.
mod plain;
mod rows;
mod watched;
