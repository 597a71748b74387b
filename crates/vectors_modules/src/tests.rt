mod code;
mod declarations;
mod limits;
mod operator_rows;
mod operators;
mod rules;
