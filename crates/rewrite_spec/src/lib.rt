// In specs/ the judge where depth 0 stands for any number, and a sheet rewritten so that the new rule judges it as the old rule did; proved: it does.
#![tactic(auto)]
