//! Tests of scripts and of what the program does with its devices: allocations that fail, values of
//! single calls, and the worked rows of `replay` and `run`. Anything else that a run shows is a
//! case (`cases/`).
mod faults;
mod memory;
mod program;
mod report_memory;
mod row;
mod rows;
mod schedule_rows;
mod script;
mod script_memory;
mod script_rows;
mod several;
mod source;
mod words;
