//! A run of code, and beside it the same run in another store: what each turn keeps, the whole run keeps, as lemmas over
//! the definitions of how code runs.
#![tactic(auto)]
