// What converting an old image comes to is in specs/, and no code is here.
#![tactic(auto)]
