//! The tests of sessions, and of instances as sessions with the lines that they give: modules with imports, segments and
//! start functions.
//!
//! A session is all members but its commands as one text, and its commands as another, a command to a line with the line
//! that it gives beside it. A test is then two texts, or three with a hook's events, and a table of them is one function,
//! whose proof has nothing in it; and it reads as the tables of SESSIONS do.
#![tactic(auto)]

#[cfg(test)]
mod sessions;
#[cfg(test)]
mod tests;
