// Definitions only: the report and the three lines after a reading fault, as functions to bytes.
#![tactic(auto)]
