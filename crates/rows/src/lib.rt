// The figures of a network and its result rows: definitions over the network value (specs/).
#![tactic(auto)]
