// The answers 1 to 10 of the analysis to the bytes of a table, and what is left in the lent result (specs/). There is no code here.
#![tactic(auto)]
