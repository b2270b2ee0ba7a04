// Statements only: the board's demands 2 and 3, of the rules (Safe, Queues, Exchange, Agree) and of the two texts themselves (OnTexts).
// Proved in proofs/ for every sheet and every answer that are read; Alone says why demand 3 speaks of steps that are allowed, the crate
// `demands_needed` why four of the rules' notions are as they are.
#![tactic(auto)]
