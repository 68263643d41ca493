// Document 01's thirteen proved cases, in one record: specs/Cases.antt, which proofs/Cases.antt inhabits. There is no code here.
#![tactic(auto)]
