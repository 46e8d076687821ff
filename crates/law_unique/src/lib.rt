// What it is for a contract to determine an answer. Only definitions and a law stand here, and no function.
#![tactic(auto)]
