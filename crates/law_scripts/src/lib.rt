//! What a script's host can hand out: no function that it was not shown, as lemmas over the definitions of scripts.
#![tactic(auto)]
