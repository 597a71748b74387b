//! Scripts: the engine, the types, the modules, the host data, the bodies of the host and the commands of a session as JSON
//! text.
#![tactic(auto)]

mod answer_words;
mod calls;
mod commands;
mod engine;
mod globals;
mod host_answers;
mod host_bodies;
mod instances;
mod limits;
mod memories;
mod modules;
mod names;
mod notes;
mod operands;
mod script;
mod tables;

pub use engine::ScriptEngine;
pub use host_answers::{HostAnswers, LimiterAnswers};
pub use host_bodies::Action;
pub use notes::NotePart;
pub use script::{Script, ScriptTextFault, read_script};
