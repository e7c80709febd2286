//! Each module has a subject.
mod amendments;
mod expects;
mod images;
mod journals;
mod levels;
mod readers;
mod sessions;
mod texts;
