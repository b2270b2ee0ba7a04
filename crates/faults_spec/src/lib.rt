// In specs/ the fault of each text of a paper, and that it is the judge's and the timing's for every answer. No code.
#![tactic(auto)]
