// What the lookups give on a room that decoding filled: plain definitions on tables, and never NOT-TABLE.
// Only definitions and laws stand here, and no function.
#![tactic(auto)]
