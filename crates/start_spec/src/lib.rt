// Definitions only: the text of a start, the configuration that it gives, and what of it is proved.
#![tactic(auto)]
