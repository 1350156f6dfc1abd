// The customer's order over the whole software; it has no code.
// specs/ has the three demands, one file each, with the exact load refusal of demand 2 (Exact), the code behind them (Kept), a program in which it runs (There) and the whole case (Whole); proofs/ has their proofs by citation.
#![tactic(auto)]
