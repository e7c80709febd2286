//! Most tests are runs over a source and a station in memory. Each file has tables of cases, and few tests that go through them.
mod amendments;
mod fronts;
mod generator;
mod letters;
mod lines;
mod products;
mod words;
