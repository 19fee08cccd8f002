// The lettered pictures of document 01: one table of what is said of each, and the theorem that the definitions say the same.
#![tactic(auto)]
