//! What the arguments ask for: a command, which is a population to generate, or a task over files.
//! A task says who owns the chain and where lines come from, over inputs with dwellings or without.
//!
//! One table has the commands (`forms.rt`), and what it doesn't have is no command. The parser,
//! `clap`'s positions, the usage text and the words for an argument that is wrong all go by it. A
//! list of words that is refused names nothing, and nothing is taken from it.
//!
//! Begin at `arguments.rt`, `Arguments`, which are read once and handed on; then `specs/Commands`,
//! `command_of`. A new command is a row of `FORMS` and of `forms` in `specs/Forms`.
#![tactic(auto)]

mod arguments;
mod command;
mod file_name;
mod forms;
mod numbers;
mod population;
mod positions;
mod service;

pub use arguments::Arguments;
pub use command::{Command, Inputs, Lines, Owner, Task, UnitFiles, read_command};
pub use file_name::FileName;
pub use forms::{Dwellings, Form, LinesFrom, OwnedBy, all_forms, form_named};
pub use population::Population;
pub use positions::{of_gen, of_inputs};
pub use service::{
    Layout, MOST_DOOR_PORT, MOST_DOOR_WORKERS, MOST_PORT, MOST_SESSIONS, MOST_WORKERS, Service,
};
