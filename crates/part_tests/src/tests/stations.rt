//! Each adapter once, over what fails at will, and over real files.
mod adapters;
mod expects;
mod files;
