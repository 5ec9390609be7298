// What adding a record comes to is in specs/, and no code is here.
#![tactic(auto)]
