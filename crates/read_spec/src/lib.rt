// Definitions only: the sheet and the answer as 01 lays them down, line by line, and what a text that was read keeps to.
#![tactic(auto)]
