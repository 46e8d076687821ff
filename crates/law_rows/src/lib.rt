// The rows of a transition list, and demand 3 over them: what is looked up at each point, complements, and that equal answers mean equal rows.
// Only definitions and laws stand here, and no function.
#![tactic(auto)]
