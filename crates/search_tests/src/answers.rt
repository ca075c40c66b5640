//! Answers over random small collections with many equal distances, and over data of every kind, against a plain sort.
mod drawn;
mod kinds;
