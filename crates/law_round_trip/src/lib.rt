// The round trip of a table: that encoding gives back the words that were decoded, with flags made 0 or 1, and that decoding those fills
// the same room. Only definitions and laws stand here, and no function.
#![tactic(auto)]
