// Everything that is claimed, in one statement with one proof. No code is here: specs/Promises.antt is the page to read.
#![tactic(auto)]
