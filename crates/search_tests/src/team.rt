//! The answer alone by all workers: whatever their number and whichever stretches they draw, it is that of a plain sort; two of them are at
//! work at once; rows of leaves that are too far are not read; and first limits are not below the last distance.
mod gates;
mod limits;
mod plain;
mod watched;
