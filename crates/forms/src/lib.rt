// The definitions of the forms, which the contracts of every reader, writer, search and listener cite, and demand 2 over
// them. There is no code here.
#![tactic(auto)]
