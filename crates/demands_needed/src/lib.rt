// Statements only: why a rule, or what a projection holds, is as it is. One thing is changed and all others kept, and on texts a demand fails.
// Proved in proofs/, and that with nothing changed the changed machine is the rules.
#![tactic(auto)]
