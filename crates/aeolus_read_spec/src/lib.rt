// Definitions only: the sheet and the answer of the Aeolus paper, line by line, and what a text that was read keeps to.
#![tactic(auto)]
