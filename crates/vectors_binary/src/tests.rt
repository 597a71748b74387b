mod code;
mod declarations;
mod modules;
mod numbers;
mod program;
