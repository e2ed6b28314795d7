//! Tests of the program's library, call by call, as tables: words, report lines, whole files,
//! shelves and sinks in memory, over readers and writers and of the system, and the texts of
//! errors; and of what a call from C is made of: a shelf of borrowed files, words in one text, files
//! in one pool, a line in a buffer of each length, and a handle of a verdict table. `xgolden_run` has
//! whole runs.
#![tactic(auto)]

#[cfg(test)]
mod disk;
#[cfg(test)]
mod files;
#[cfg(test)]
mod frame;
#[cfg(test)]
mod known;
#[cfg(test)]
mod lines;
#[cfg(test)]
mod streams;
#[cfg(test)]
mod table;
#[cfg(test)]
mod texts;
#[cfg(test)]
mod words;
