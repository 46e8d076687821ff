// What a table is, apart from any reader: its parts, its words, what its fields allow, its rules, and when words are refused; and, proved over the readers of
// `words`, that decoding's layout accepts exactly the words of tables. Only definitions and laws stand here, and no function.
#![tactic(auto)]
