// 01's starred numbers, as one list under one statement (specs/), proved (proofs/). There is no code here.
#![tactic(auto)]
