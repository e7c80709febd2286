//! Each module has a subject.
mod containers;
mod openings;
mod stations;
