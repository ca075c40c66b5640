//! Discords: worked rows, random small collections against a plain slow definition, and rows that are watched.
mod plain;
mod rows;
mod watched;
