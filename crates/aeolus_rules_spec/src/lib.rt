// The actions of the Aeolus paper: definitions 2 to 5 and 7 of document 003, with the numbers 60 to 70. No code: aeolus_steps carries them out.
#![tactic(auto)]
